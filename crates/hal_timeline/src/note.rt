//! What stands under the picture: the breaches, each event and rule once, and how many buffers are left out.
ghost use Rattle.std.specs.Prelude.{◌≡◌, ◌++◌, None, IfOk, OnOk, length, map, take};
ghost use Rattle.hal_timeline.specs.Notes.{breach_notes, count_text, heading_text, headings, left_notes, left_text, more_notes, more_text, notes_of, rule_text};

use crate::group::number_at;
use cam_types::{Listing, NoMemory};
use hal_model::Breach;
use hal_text::{front, is_same_heading, sentence_of, side_text};
use std::alloc::Global;
use timeline_model::Series;

/// So many breaches are told of.
const TOLD: usize = 40;

/// Lines under a picture.
type Notes = Series<Series<u8>>;

/// The first breach of each event and rule.
fn headings(alloc: Global, breaches: &[Breach]) -> Result<Vec<Breach>, NoMemory>
    ensures { IfOk result (λ heads. heads.items ≡ headings None breaches.now) }
{
    let mut heads = Vec::new(alloc);
    let mut last = None;
    for breach in breaches {
        if !is_same_heading(last, breach) {
            heads.push(*breach)?;
        }
        last = Some(*breach);
    }
    Ok(heads)
}

/// A line, a rule, whom it binds, and its sentence.
#[tactic(auto, unfolding(crate::specs::Notes::rule_text))]
fn rule_text(
    alloc: Global,
    line: u32,
    name: &str,
    side: &str,
    sentence: &str,
) -> Result<Vec<u8>, NoMemory>
    ensures { IfOk result (λ text. text.items ≡ rule_text line name.now side.now sentence.now) }
{
    let text = format!(in alloc; "line {line}: {name} ({side}): {sentence}")?;
    Ok(text.into_bytes())
}

/// What is told of a breach.
fn heading_text(alloc: Global, lines: &Listing<u32>, breach: &Breach) -> Result<Vec<u8>, NoMemory>
    ensures { IfOk result (λ text. text.items ≡ heading_text lines.now breach.now) }
{
    rule_text(
        alloc,
        number_at(lines, breach.line),
        breach.rule.name(),
        side_text(breach.rule.side()),
        sentence_of(breach.rule),
    )
}

/// Adds what is told of some breaches.
fn put_headings(
    alloc: Global,
    notes: &mut Notes,
    lines: &Listing<u32>,
    heads: &[Breach],
) -> Result<(), NoMemory>
    ensures { OnOk result (notes.new ≡ notes.old ++ map (heading_text lines.now) heads.now) }
{
    for breach in heads {
        notes.push(Series::of(heading_text(alloc, lines, breach)?))?;
    }
    Ok(())
}

/// How many breaches there are.
#[tactic(auto, unfolding(crate::specs::Notes::count_text))]
fn count_text(alloc: Global, count: usize) -> Result<Vec<u8>, NoMemory>
    ensures { IfOk result (λ text. text.items ≡ count_text count) }
{
    if count == 0 {
        b"no breach".to_vec(alloc)
    } else {
        let text = format!(in alloc; "breaches: {count}")?;
        Ok(text.into_bytes())
    }
}

/// How many more there are.
#[tactic(auto, unfolding(crate::specs::Notes::more_text))]
fn more_text(alloc: Global, more: usize) -> Result<Vec<u8>, NoMemory>
    ensures { IfOk result (λ text. text.items ≡ more_text more) }
{
    let text = format!(in alloc; "and {more} more lines, which camera hal has")?;
    Ok(text.into_bytes())
}

/// Adds how many more there are than are told of.
fn put_more(alloc: Global, notes: &mut Notes, count: usize) -> Result<(), NoMemory>
    ensures { OnOk result (notes.new ≡ notes.old ++ more_notes count) }
{
    if count > TOLD {
        notes.push(Series::of(more_text(alloc, count - TOLD)?))
    } else {
        Ok(())
    }
}

/// How many buffers are left out.
#[tactic(auto, unfolding(crate::specs::Notes::left_text))]
fn left_text(alloc: Global, left: u32) -> Result<Vec<u8>, NoMemory>
    ensures { IfOk result (λ text. text.items ≡ left_text left) }
{
    let text = format!(in alloc;
        "{left} buffers have no bar: 64 streams have lanes, of up to 16 rows, and 64 bars stand at a time"
    )?;
    Ok(text.into_bytes())
}

/// Adds how many buffers are left out, where some are.
fn put_left(alloc: Global, notes: &mut Notes, left: u32) -> Result<(), NoMemory>
    ensures { OnOk result (notes.new ≡ notes.old ++ left_notes left) }
{
    if left == 0 {
        Ok(())
    } else {
        notes.push(Series::of(left_text(alloc, left)?))
    }
}

/// Adds what is told of the breaches.
fn put_breaches(
    alloc: Global,
    notes: &mut Notes,
    lines: &Listing<u32>,
    breaches: &[Breach],
) -> Result<(), NoMemory>
    ensures { OnOk result (notes.new ≡ notes.old ++ breach_notes lines.now (headings None breaches.now)) }
{
    let heads = headings(alloc, breaches)?;
    put_headings(alloc, notes, lines, front(heads.as_slice(), TOLD))?;
    put_more(alloc, notes, heads.len())
}

/// What stands under the picture of a log with the breaches, of which so many buffers are left out.
pub fn notes_of(
    alloc: Global,
    lines: &Listing<u32>,
    breaches: &[Breach],
    left: u32,
) -> Result<Notes, NoMemory>
    ensures { IfOk result (λ notes. notes ≡ notes_of lines.now breaches.now left) }
{
    let mut notes = Series::new(alloc);
    notes.push(Series::of(count_text(alloc, breaches.len())?))?;
    put_breaches(alloc, &mut notes, lines, breaches)?;
    put_left(alloc, &mut notes, left)?;
    Ok(notes)
}
