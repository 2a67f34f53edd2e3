//! A plan read from its text.
ghost use Rattle.std.specs.Prelude.{◌≡◌, IsTrue, IfOk};
ghost use Rattle.reprocess_model.specs.Plan.{is_plan};
ghost use Rattle.text_parts.specs.Words.{loose_words};
ghost use Rattle.text_parts.specs.Reader.{Answers, GivesBy};
ghost use Rattle.reprocess_call.specs.Begun.{begun};
ghost use Rattle.reprocess_call.specs.Grammar.{fault_line, flush_line, input_line, later_line, output_with, pick_line, plan_of, request_line, with_line};

use crate::draft::Draft;
use crate::word::{one_output, one_request, one_size};
use call_parts::{LineText, read_text};
use reprocess_model::{Plan, ReCommand};
use std::alloc::Global;
use text_parts::{Cause, LineRefused, TextRefused, is_end, one_number};

fn set_input(draft: &mut Draft, words: &[u8]) -> Result<(), LineRefused>
    ensures { GivesBy
        (λ _. begun draft.new.input draft.new.outputs draft.new.faults draft.new.picks draft.new.commands) result
        (input_line (begun draft.old.input draft.old.outputs draft.old.faults draft.old.picks draft.old.commands)
        (loose_words words.now)) }
{
    if draft.input.is_some() {
        return Err(LineRefused::Bad(Cause::UnknownWord));
    }
    let spec = one_size(words)?;
    draft.set_input(spec);
    Ok(())
}

fn add_output(draft: &mut Draft, words: &[u8]) -> Result<(), LineRefused>
    ensures { GivesBy
        (λ _. begun draft.new.input draft.new.outputs draft.new.faults draft.new.picks draft.new.commands) result
        (output_with (begun draft.old.input draft.old.outputs draft.old.faults draft.old.picks draft.old.commands)
        draft.old.input (loose_words words.now)) }
{
    let Some(input) = draft.input else {
        return Err(LineRefused::Bad(Cause::UnknownWord));
    };
    if draft.is_started() {
        return Err(LineRefused::Bad(Cause::UnknownWord));
    }
    let spec = one_output(input, words)?;
    draft.add_output(input, spec)
}

fn add_fault(draft: &mut Draft, words: &[u8]) -> Result<(), LineRefused>
    ensures { GivesBy
        (λ _. begun draft.new.input draft.new.outputs draft.new.faults draft.new.picks draft.new.commands) result
        (fault_line (begun draft.old.input draft.old.outputs draft.old.faults draft.old.picks draft.old.commands)
        (loose_words words.now)) }
{
    if !draft.may_prepare() {
        return Err(LineRefused::Bad(Cause::UnknownWord));
    }
    let frame = one_number(words)?;
    draft.add_fault(frame)
}

fn add_picks(alloc: Global, draft: &mut Draft, words: &[u8]) -> Result<(), LineRefused>
    ensures { GivesBy
        (λ _. begun draft.new.input draft.new.outputs draft.new.faults draft.new.picks draft.new.commands) result
        (pick_line (begun draft.old.input draft.old.outputs draft.old.faults draft.old.picks draft.old.commands)
        (loose_words words.now)) }
{
    if !draft.may_prepare() {
        return Err(LineRefused::Bad(Cause::UnknownWord));
    }
    draft.add_picks(alloc, words)
}

fn add_request(draft: &mut Draft, words: &[u8]) -> Result<(), LineRefused>
    ensures { GivesBy
        (λ _. begun draft.new.input draft.new.outputs draft.new.faults draft.new.picks draft.new.commands) result
        (request_line (begun draft.old.input draft.old.outputs draft.old.faults draft.old.picks draft.old.commands)
        (loose_words words.now)) }
{
    if !draft.has_outputs() {
        return Err(LineRefused::Bad(Cause::UnknownWord));
    }
    let settings = one_request(words)?;
    draft.add_command(ReCommand::Request(settings))
}

fn add_flush(draft: &mut Draft, words: &[u8]) -> Result<(), LineRefused>
    ensures { GivesBy
        (λ _. begun draft.new.input draft.new.outputs draft.new.faults draft.new.picks draft.new.commands) result
        (flush_line (begun draft.old.input draft.old.outputs draft.old.faults draft.old.picks draft.old.commands)
        (loose_words words.now)) }
{
    if !draft.has_outputs() {
        return Err(LineRefused::Bad(Cause::UnknownWord));
    }
    if !is_end(words) {
        return Err(LineRefused::Bad(Cause::Extra));
    }
    draft.add_command(ReCommand::Flush)
}

/// Adds a line of what comes after the outputs, by its first word and what stands behind it.
#[tactic(auto, unfolding(crate::specs::Grammar::later_line))]
fn add_later_line(
    alloc: Global,
    draft: &mut Draft,
    word: &[u8],
    rest: &[u8],
) -> Result<(), LineRefused>
    ensures { GivesBy
        (λ _. begun draft.new.input draft.new.outputs draft.new.faults draft.new.picks draft.new.commands) result
        (later_line (begun draft.old.input draft.old.outputs draft.old.faults draft.old.picks draft.old.commands)
        word.now (loose_words rest.now)) }
{
    if word == b"pick".as_slice() {
        add_picks(alloc, draft, rest)
    } else if word == b"request".as_slice() {
        add_request(draft, rest)
    } else if word == b"flush".as_slice() {
        add_flush(draft, rest)
    } else {
        Err(LineRefused::Bad(Cause::UnknownWord))
    }
}

/// Adds a line.
#[tactic(auto, unfolding(crate::specs::Grammar::with_line))]
fn add_line(alloc: Global, draft: &mut Draft, word: &[u8], rest: &[u8]) -> Result<(), LineRefused>
    ensures { GivesBy
        (λ _. begun draft.new.input draft.new.outputs draft.new.faults draft.new.picks draft.new.commands) result
        (with_line (begun draft.old.input draft.old.outputs draft.old.faults draft.old.picks draft.old.commands)
        word.now (loose_words rest.now)) }
{
    if word == b"input".as_slice() {
        set_input(draft, rest)
    } else if word == b"output".as_slice() {
        add_output(draft, rest)
    } else if word == b"fault".as_slice() {
        add_fault(draft, rest)
    } else {
        add_later_line(alloc, draft, word, rest)
    }
}

impl LineText for Draft {
    type Text = Plan;

    ghost use Rattle.std.specs.Prelude.{IsTrue};
    ghost use Rattle.reprocess_model.specs.Plan.{is_plan};
    ghost use Rattle.reprocess_call.specs.Begun.{Begun, begun};
    ghost use Rattle.reprocess_call.specs.Grammar.{plan_text};

    ghost Stage = { Begun };

    ghost stage = { λ d. begun d.input d.outputs d.faults d.picks d.commands };

    ghost grammar = { plan_text };

    ghost is_fit = { λ plan. IsTrue (is_plan plan) };

    fn name() -> &'static str {
        "reprocess"
    }

    fn begin(alloc: Global) -> Draft {
        Draft::new(alloc)
    }

    fn with_line(mut self, alloc: Global, word: &[u8], rest: &[u8]) -> Result<Draft, LineRefused> {
        add_line(alloc, &mut self, word, rest)?;
        Ok(self)
    }

    fn finish(self) -> Option<Plan> {
        self.into_plan()
    }
}

/// Reads the plan of a reprocessing device, as `docs/FORMATS.md` has it: `read_text` of `call_parts` says in what time,
/// and which line a refusal names.
pub fn read(alloc: Global, bytes: &[u8]) -> Result<Plan, TextRefused>
    // What the text means, unless memory ran out.
    ensures exact { Answers result (plan_of bytes.now) }
    // Only plans within their limits are read.
    ensures valid { IfOk result (λ plan. IsTrue (is_plan plan)) }
{
    read_text::<Draft>(alloc, bytes)
}
