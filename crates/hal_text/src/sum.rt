//! The last line of the report: the sum.
ghost use Rattle.std.specs.Prelude.{◌≡◌, ◌++◌, ◌∷◌, [], OnOk, IfOk, codes, count_by, filter, length, string_bytes};
ghost use Rattle.std.specs.List.{flat_map, list_any};
ghost use Rattle.hal_model.specs.Names.{rule_name, side_of};
ghost use Rattle.hal_text.specs.Sum.{breaches_sum, by_side, counted, is_accepted, is_same_rule, is_same_side, names_text, other_side, rules_behind, side_sum, sides_sum, sum_text, whose_first, with_rule};

use crate::side_text;
use cam_types::NoMemory;
use hal_model::{Breach, HalEvent, Rule, Side};
use std::alloc::Global;

/// Whether two rules are one.
pub fn is_same_rule(a: Rule, b: Rule) -> bool
    ensures { result ≡ is_same_rule a b }
{
    a.name() == b.name()
}

/// Whether two sides are one.
fn is_same_side(a: Side, b: Side) -> bool
    ensures { result ≡ is_same_side a b }
{
    match (a, b) {
        (Side::Framework, Side::Framework) => true,
        (Side::Device, Side::Device) => true,
        _ => false,
    }
}

/// The other one of the two sides.
fn other_side(side: Side) -> Side
    ensures { result ≡ other_side side }
{
    match side {
        Side::Framework => Side::Device,
        Side::Device => Side::Framework,
    }
}

/// Whether the device accepts a request.
fn is_accepted(event: &HalEvent) -> bool
    ensures { result ≡ is_accepted event.now }
{
    matches!(event, HalEvent::RequestOk { .. })
}

/// How many requests the device accepted.
fn accepted_count(events: &[HalEvent]) -> usize
    ensures { result ≡ count_by is_accepted events.now }
{
    events.iter().filter(|event| is_accepted(event)).count()
}

/// Writes a count, with the word for one or for many.
#[tactic(auto, unfolding(crate::specs::Sum::counted))]
fn write_counted(out: &mut String, count: usize, one: &str, many: &str) -> Result<(), NoMemory>
    ensures { OnOk result (string_bytes out.new ≡ string_bytes out.old ++ counted count one.now many.now) }
{
    if count == 1 {
        write!(out, "{count} {one}")
    } else {
        write!(out, "{count} {many}")
    }
}

/// Whether the rule of the breach binds the side.
fn is_bound(side: Side, breach: &Breach) -> bool
    ensures { result ≡ is_same_side side (side_of breach.now.rule) }
{
    is_same_side(side, breach.rule.side())
}

/// The breaches whose rule binds the side.
fn by_side(alloc: Global, side: Side, breaches: &[Breach]) -> Result<Vec<Breach>, NoMemory>
    ensures { IfOk result (λ found. found.items ≡ by_side side breaches.now) }
{
    breaches
        .iter()
        .copied()
        .filter(|breach| is_bound(side, breach))
        .collect(alloc)
}

/// Whether the rule is among these.
fn has_rule(rule: Rule, rules: &[Rule]) -> bool
    ensures { result ≡ list_any (is_same_rule rule) rules.now }
{
    rules.iter().any(|other| is_same_rule(rule, *other))
}

/// Puts a rule behind others, where it isn't among them.
fn add_rule(rules: &mut Vec<Rule>, rule: Rule) -> Result<(), NoMemory>
    ensures { OnOk result (rules.new.items ≡ with_rule rules.old.items rule) }
{
    if has_rule(rule, rules.as_slice()) {
        return Ok(());
    }
    rules.push(rule)?;
    Ok(())
}

/// The rules of breaches, each once.
fn rules_of(alloc: Global, breaches: &[Breach]) -> Result<Vec<Rule>, NoMemory>
    ensures { IfOk result (λ rules. rules.items ≡ rules_behind [] breaches.now) }
{
    let mut rules = Vec::new(alloc);
    for breach in breaches {
        add_rule(&mut rules, breach.rule)?;
    }
    Ok(rules)
}

/// Writes the names of rules, each behind a comma.
fn write_more_names(out: &mut String, rules: &[Rule]) -> Result<(), NoMemory>
    ensures { OnOk result
        (string_bytes out.new ≡ string_bytes out.old ++ flat_map (λ r. codes ", " ++ rule_name r) rules.now) }
{
    for rule in rules {
        let name = rule.name();
        write!(out, ", {name}")?;
    }
    Ok(())
}

/// Writes the names of rules.
#[tactic(auto, unfolding(crate::specs::Sum::names_text))]
fn write_names(out: &mut String, rules: &[Rule]) -> Result<(), NoMemory>
    ensures { OnOk result (string_bytes out.new ≡ string_bytes out.old ++ names_text rules.now) }
{
    match rules {
        [] => Ok(()),
        [rule, more @ ..] => {
            out.push_str(rule.name())?;
            write_more_names(out, more)
        }
    }
}

/// Writes the names of the rules of breaches.
fn write_rules(alloc: Global, out: &mut String, breaches: &[Breach]) -> Result<(), NoMemory>
    ensures { OnOk result
        (string_bytes out.new ≡ string_bytes out.old ++ names_text (rules_behind [] breaches.now)) }
{
    let rules = rules_of(alloc, breaches)?;
    write_names(out, rules.as_slice())
}

/// Writes how many breaches there are, whose rules they break, and the names of the rules.
fn write_some(
    alloc: Global,
    out: &mut String,
    bound: &str,
    breaches: &[Breach],
) -> Result<(), NoMemory>
    ensures { OnOk result (string_bytes out.new ≡ string_bytes out.old
        ++ (counted (length breaches.now) (codes "breach") (codes "breaches")
        ++ (codes " by the "
        ++ (bound.now ++ (codes " (" ++ (names_text (rules_behind [] breaches.now) ++ codes ")")))))) }
{
    write_counted(out, breaches.len(), "breach", "breaches")?;
    write!(out, " by the {bound} (")?;
    write_rules(alloc, out, breaches)?;
    out.push_str(")")
}

/// Writes how many of a side's rules' breaches there are, and the names of the rules.
#[tactic(auto, unfolding(crate::specs::Sum::side_sum))]
fn write_side(
    alloc: Global,
    out: &mut String,
    side: Side,
    breaches: &[Breach],
) -> Result<(), NoMemory>
    ensures { OnOk result (string_bytes out.new ≡ string_bytes out.old ++ side_sum side breaches.now) }
{
    let bound = side_text(side);
    if breaches.is_empty() {
        return write!(out, "none by the {bound}");
    }
    write_some(alloc, out, bound, breaches)
}

/// Writes the same of those of the breaches whose rule binds the side.
fn write_bound(
    alloc: Global,
    out: &mut String,
    side: Side,
    breaches: &[Breach],
) -> Result<(), NoMemory>
    ensures { OnOk result
        (string_bytes out.new ≡ string_bytes out.old ++ side_sum side (by_side side breaches.now)) }
{
    let bound = by_side(alloc, side, breaches)?;
    write_side(alloc, out, side, bound.as_slice())
}

/// Writes whose the first breach is.
#[tactic(auto, unfolding(crate::specs::Sum::whose_first))]
fn write_first(out: &mut String, side: Side) -> Result<(), NoMemory>
    ensures { OnOk result (string_bytes out.new ≡ string_bytes out.old ++ whose_first side) }
{
    let bound = side_text(side);
    write!(out, "; the first is the {bound}'s")
}

/// Writes what the breaches are by side, the side of the first one first.
#[tactic(auto, unfolding(crate::specs::Sum::sides_sum))]
fn write_sides(
    alloc: Global,
    out: &mut String,
    side: Side,
    breaches: &[Breach],
) -> Result<(), NoMemory>
    ensures { OnOk result (string_bytes out.new ≡ string_bytes out.old ++ sides_sum side breaches.now) }
{
    write_bound(alloc, out, side, breaches)?;
    out.push_str(", ")?;
    write_bound(alloc, out, other_side(side), breaches)?;
    write_first(out, side)
}

/// Writes the sum of the breaches.
fn write_breaches(alloc: Global, out: &mut String, breaches: &[Breach]) -> Result<(), NoMemory>
    ensures { OnOk result (string_bytes out.new ≡ string_bytes out.old ++ breaches_sum breaches.now) }
{
    match breaches {
        [] => out.push_str("no breach"),
        [first, ..] => write_sides(alloc, out, first.rule.side(), breaches),
    }
}

/// Writes the line of the sum.
#[tactic(auto, unfolding(crate::specs::Sum::sum_text))]
pub fn write_sum(
    alloc: Global,
    out: &mut String,
    events: &[HalEvent],
    breaches: &[Breach],
) -> Result<(), NoMemory>
    ensures { OnOk result (string_bytes out.new ≡ string_bytes out.old ++ sum_text events.now breaches.now) }
{
    write_counted(out, accepted_count(events), "request", "requests")?;
    out.push_str(", ")?;
    write_breaches(alloc, out, breaches)?;
    out.push_str("\n")
}
