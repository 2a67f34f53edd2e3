//! What is told of an entry that isn't allowed.
ghost use Rattle.std.specs.Prelude.{◌≡◌, ◌+◌, ◌≤◌, ◌++◌, IfOk, IsTrue, OnOk, Some, length, reverse};
ghost use Rattle.std.specs.List.{list_all};
ghost use Rattle.allowed_entries.specs.Entries.{allowed_entries};
ghost use Rattle.allowed_entries.specs.Known.{prints};
ghost use Rattle.explain_call.specs.Explained.{failed_text, illegal_head, illegal_text};
ghost use Rattle.rule_conditions.specs.Mentions.{mentions};
ghost use Rattle.trace_model.specs.Printable.{is_printable};

use crate::allowed::put_allowed_part;
use crate::reason::put_reason;
use crate::script::put_command_part;
use allowed_entries::AllowedEntry;
use cam_types::{NoMemory, Script};
use rule_conditions::{Condition, mentions};
use std::alloc::Global;
use trace_model::{Entry, RuleName};
use trace_text::Printer;
use wrong_words::{Choice, LINE_LIMIT, put_headed, put_last_lines, put_number};

/// Which entries before the faulty one a condition speaks of.
#[derive(Clone, Copy)]
struct Mentioned<'e> {
    condition: Condition,
    before: &'e [Entry],
    faulty: Entry,
}

impl<'e> Choice for Mentioned<'e> {
    ghost test = { λ choice. mentions choice.condition (reverse choice.before.now) choice.faulty };

    fn holds(&self, entry: &Entry) -> bool {
        mentions(self.condition, self.before, &self.faulty, entry)
    }
}

/// Writes the first line, of an entry whose line has the number.
#[tactic(auto, unfolding(crate::specs::Explained::illegal_head))]
fn put_head(text: &mut Vec<u8>, alloc: Global, number: u64, position: u32) -> Result<(), NoMemory>
    requires { number + position ≤ LINE_LIMIT }
    ensures { OnOk result (text.new.items ≡ text.old.items ++ illegal_head number position) }
{
    text.extend_from_slice(b"illegal: line ")?;
    put_number(text, alloc, number + u64::from(position))?;
    text.extend_from_slice(b" (entry ")?;
    put_number(text, alloc, u64::from(position))?;
    text.extend_from_slice(b")\n")
}

/// Writes the condition that an entry doesn't meet behind those before it, and the last of these of which it speaks.
#[tactic(auto, unfolding(crate::specs::Explained::failed_text))]
fn put_failed(
    text: &mut Vec<u8>,
    alloc: Global,
    printer: &mut Printer,
    script: &Script,
    part: &[u8],
    rule: RuleName,
    number: u64,
    before: &[Entry],
    faulty: &Entry,
    failed: Condition,
) -> Result<(), NoMemory>
    requires long { length part.now ≤ 134217728 }
    requires printable { IsTrue (list_all is_printable before.now) }
    requires numbers { number + length before.now ≤ LINE_LIMIT }
    ensures { OnOk result
        (text.new.items ≡ text.old.items
        ++ failed_text script.now part.now rule number before.now faulty.now (Some failed)) }
{
    put_reason(text, rule, failed)?;
    put_command_part(text, alloc, script, part, before, faulty)?;
    let mut lines = Vec::new(alloc);
    let choice = Mentioned {
        condition: failed,
        before,
        faulty: *faulty,
    };
    put_last_lines(&mut lines, alloc, printer, &choice, number, before)?;
    put_headed(text, b"It speaks of:\n", lines.as_slice())
}

/// The text of an entry that isn't allowed behind those before it, whose first has its line at the number. `failed` is
/// the condition that the entry doesn't meet, `allowed` what is allowed in its place.
#[tactic(auto, unfolding(crate::specs::Explained::illegal_text))]
pub fn illegal_text(
    alloc: Global,
    printer: &mut Printer,
    script: &Script,
    part: &[u8],
    rule: RuleName,
    number: u64,
    position: u32,
    before: &[Entry],
    faulty: &Entry,
    failed: Condition,
    allowed: &[AllowedEntry],
) -> Result<Vec<u8>, NoMemory>
    requires long { length part.now ≤ 134217728 }
    requires printable { IsTrue (list_all is_printable before.now) }
    requires shown { IsTrue (is_printable faulty.now) }
    requires numbers { number + length before.now ≤ LINE_LIMIT }
    requires head { number + position ≤ LINE_LIMIT }
    requires allowed { allowed.now ≡ allowed_entries script.now (reverse before.now) }
    requires lines { IsTrue (list_all prints allowed.now) }
    ensures { IfOk result
        (λ text. text.items ≡ illegal_text script.now part.now rule number position before.now faulty.now
        (Some failed)) }
{
    let mut text = Vec::new(alloc);
    put_head(&mut text, alloc, number, position)?;
    text.extend_from_slice(b"    ")?;
    text.extend_from_slice(printer.line(*faulty))?;
    put_failed(
        &mut text, alloc, printer, script, part, rule, number, before, faulty, failed,
    )?;
    put_allowed_part(&mut text, alloc, printer, allowed)?;
    Ok(text)
}
