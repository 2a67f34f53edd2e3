//! The plain report, line by line.
ghost use Rattle.std.specs.Prelude.{◌≡◌, ◌++◌, IfOk, OnOk, IsTrue, ◌∷◌, decimal, string_bytes};
ghost use Rattle.std.specs.List.{flat_map, list_all};
ghost use Rattle.hal_text.specs.Plain.{behind_spaces, breach_text, first_text, has_line, number_text, open_text, plain_text, side_text};

use cam_types::NoMemory;
use hal_model::{Breach, Side};
use std::alloc::Global;

/// Whom a rule binds.
pub fn side_text(side: Side) -> &'static str
    ensures { result.now ≡ side_text side }
{
    match side {
        Side::Framework => "framework",
        Side::Device => "device",
    }
}

/// Writes a number, or `-` where there is none, behind a space.
fn write_number(out: &mut String, number: Option<u32>) -> Result<(), NoMemory>
    ensures { OnOk result (string_bytes out.new ≡ string_bytes out.old ++ 32 ∷ number_text number) }
{
    match number {
        Some(number) => write!(out, " {number}"),
        None => out.push_str(" -"),
    }
}

/// Writes the line of a breach.
#[tactic(auto, unfolding(crate::specs::Plain::breach_text))]
fn write_breach(out: &mut String, lines: &[u32], breach: &Breach) -> Result<(), NoMemory>
    requires { IsTrue (has_line lines.now breach.now) }
    ensures { OnOk result (string_bytes out.new ≡ string_bytes out.old ++ breach_text lines.now breach.now) }
{
    let line = lines[breach.line as usize];
    let rule = breach.rule.name();
    let side = side_text(breach.rule.side());
    write!(out, "{line} {rule} {side}")?;
    write_number(out, breach.frame)?;
    write_number(out, breach.stream)?;
    out.push_str("\n")
}

/// Writes the lines of breaches.
fn write_breaches(out: &mut String, lines: &[u32], breaches: &[Breach]) -> Result<(), NoMemory>
    requires { IsTrue (list_all (has_line lines.now) breaches.now) }
    ensures { OnOk result
        (string_bytes out.new ≡ string_bytes out.old ++ flat_map (breach_text lines.now) breaches.now) }
{
    for breach in breaches {
        write_breach(out, lines, breach)?;
    }
    Ok(())
}

/// Writes numbers, each behind a space.
fn write_numbers(out: &mut String, numbers: &[u32]) -> Result<(), NoMemory>
    ensures { OnOk result
        (string_bytes out.new ≡ string_bytes out.old ++ behind_spaces numbers.now) }
{
    for number in numbers {
        write!(out, " {number}")?;
    }
    Ok(())
}

/// Writes the requests that are outstanding at the end, where there are some.
#[tactic(auto, unfolding(crate::specs::Plain::open_text))]
fn write_open(out: &mut String, outstanding: &[u32]) -> Result<(), NoMemory>
    ensures { OnOk result (string_bytes out.new ≡ string_bytes out.old ++ open_text outstanding.now) }
{
    if outstanding.is_empty() {
        return Ok(());
    }
    out.push_str("open")?;
    write_numbers(out, outstanding)?;
    out.push_str("\n")
}

/// Writes whose the first breach is, where there is one.
#[tactic(auto, unfolding(crate::specs::Plain::first_text))]
fn write_first(out: &mut String, breaches: &[Breach]) -> Result<(), NoMemory>
    ensures { OnOk result (string_bytes out.new ≡ string_bytes out.old ++ first_text breaches.now) }
{
    match breaches.first() {
        Some(breach) => {
            let side = side_text(breach.rule.side());
            writeln!(out, "first {side}")
        }
        None => Ok(()),
    }
}

/// The plain report of a log: a line for each breach, the numbers of the requests that are outstanding at the end, and
/// whose the first breach is. `lines` has the number of each event's line in the log's text.
#[tactic(auto, unfolding(crate::specs::Plain::plain_text))]
pub fn plain_text(
    alloc: Global,
    lines: &[u32],
    breaches: &[Breach],
    outstanding: &[u32],
) -> Result<Vec<u8>, NoMemory>
    requires lines { IsTrue (list_all (has_line lines.now) breaches.now) }
    ensures { IfOk result (λ text. text.items ≡ plain_text lines.now breaches.now outstanding.now) }
{
    let mut out = String::new(alloc);
    write_breaches(&mut out, lines, breaches)?;
    write_open(&mut out, outstanding)?;
    write_first(&mut out, breaches)?;
    Ok(out.into_bytes())
}
