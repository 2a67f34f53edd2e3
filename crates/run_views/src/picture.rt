//! The text of a trace that was judged.
ghost use Rattle.std.specs.Prelude.{◌≡◌, ◌<◌, ◌^◌, IfOk, IfSome, length, reverse, true};
ghost use Rattle.std.specs.List.{list_all};
ghost use Rattle.timeline_model.specs.Charts.{chart_of};
ghost use Rattle.timeline_model.specs.Drawings.{all_drawn};
ghost use Rattle.timeline_model.specs.Timelines.{timeline};
ghost use Rattle.trace_model.specs.Legal.{IsLegal};
ghost use Rattle.trace_model.specs.Verdict.{IsVerdict};
ghost use Rattle.trace_model.specs.Printable.{is_printable};
ghost use Rattle.run_views.specs.Fronts.{fault_in, front, text_in, text_of};

use crate::form::{Form, text_in};
use crate::note::note_text;
use cam_types::{NoMemory, Script};
use std::alloc::Global;
use timeline_model::{Timeline, chart_of, timeline_of};
use trace_model::{Entry, Verdict};

/// The entries before the one that isn't allowed, or all.
fn front(entries: &[Entry], verdict: Verdict) -> &[Entry]
    ensures { result.now ≡ front entries.now verdict }
{
    match verdict {
        Verdict::IllegalAt { position, .. } => {
            let end = (position as usize).min(entries.len());
            &entries[..end]
        }
        Verdict::Legal => entries,
        Verdict::Incomplete { .. } => entries,
    }
}

/// The entry that isn't allowed.
fn fault_in(entries: &[Entry], verdict: Verdict) -> Option<Entry>
    ensures { result ≡ fault_in entries.now verdict }
{
    match verdict {
        Verdict::IllegalAt { position, .. } => entries.get(position as usize).copied(),
        Verdict::Legal => None,
        Verdict::Incomplete { .. } => None,
    }
}

/// The text of a timeline, with the entry behind it that isn't allowed and the note.
fn text_with(
    alloc: Global,
    form: Form,
    shown: &Timeline,
    fault: Option<Entry>,
    note: &[u8],
) -> Result<Vec<u8>, NoMemory>
    requires drawn { list_all (λ one. is_printable one.entry) shown.now.drawn ≡ true }
    requires fault { IfSome fault (λ entry. is_printable entry ≡ true) }
    ensures { IfOk result (λ text. text.items ≡ text_in form (chart_of shown.now fault note.now)) }
{
    let chart = chart_of(alloc, shown, fault, note)?;
    text_in(alloc, form, &chart)
}

/// The text of entries that are allowed, with the one behind them that isn't and the note.
fn text_of_legal(
    alloc: Global,
    form: Form,
    script: &Script,
    legal: &[Entry],
    fault: Option<Entry>,
    note: &[u8],
) -> Result<Vec<u8>, NoMemory>
    requires legal { IsLegal script.now (reverse legal.now) }
    requires few { length legal.now < 2 ^ 32 }
    requires drawn { list_all (λ one. is_printable one.entry) (all_drawn script.now (reverse legal.now)) ≡ true }
    requires fault { IfSome fault (λ entry. is_printable entry ≡ true) }
    ensures { IfOk result (λ text. text.items ≡
        text_in form (chart_of (timeline script.now (reverse legal.now)) fault note.now)) }
{
    let shown = timeline_of(alloc, script, legal)?;
    text_with(alloc, form, &shown, fault, note)
}

/// The text of a trace that has the verdict.
#[tactic(auto, unfolding(crate::specs::Fronts::text_of))]
pub fn text_of(
    alloc: Global,
    form: Form,
    script: &Script,
    entries: &[Entry],
    verdict: Verdict,
) -> Result<Vec<u8>, NoMemory>
    requires judged { IsVerdict script.now entries.now verdict }
    requires printable { list_all is_printable entries.now ≡ true }
    requires few { length entries.now < 2 ^ 32 }
    ensures { IfOk result (λ text. text.items ≡ text_of form script.now entries.now verdict) }
{
    let legal = front(entries, verdict);
    let fault = fault_in(entries, verdict);
    let note = note_text(alloc, script, legal, fault, verdict)?;
    text_of_legal(alloc, form, script, legal, fault, note.as_slice())
}
