//! The rows of the open frames.
ghost use Rattle.std.specs.Prelude.{◌≡◌, ◌==◌, ◌≤◌, ◌<◌, ◌+◌, ◌++◌, ◌∷◌, [], ℕ, IsTrue, OnOk, drop, filter, find, length, map, option_copied, option_map, take, vec_len};
ghost use Rattle.state_facts.specs.FrameReadings.{closes_one, finishes_in, has_pending, is_none_left, row_at};
ghost use Rattle.state_facts.specs.Row.{is_open_row, new_rows, row_after, rows_after};
ghost use Rattle.judge_rows.specs.Views.{are_free, row_of, rows_of};

use crate::row::{OpenRow, is_open, new_row, note_row, stays_open};
use crate::target::has_pending;
use cam_types::{DeviceFenceNo, FrameNo, NoMemory, Settings};
use std::alloc::Global;
use std::marker::Model;
use trace_model::Entry;

/// The rows of the open frames, the oldest first.
#[derive(Drop)]
pub struct RowTable {
    rows: Vec<OpenRow>,
}

impl Model for RowTable {
    ghost use Rattle.std.specs.Prelude.{List};
    ghost use Rattle.state_facts.specs.Row.{Row};
    ghost use Rattle.judge_rows.specs.Views.{rows_of};

    ghost Value = { List Row };

    ghost view = { λ t. rows_of t.rows.items };
}

impl RowTable {
    /// No frame is open.
    pub fn new(alloc: Global) -> RowTable
        ensures { result ≡ [] }
    {
        RowTable {
            rows: Vec::new(alloc),
        }
    }

    /// The rows, the oldest first.
    pub fn rows(&self) -> &[OpenRow]
        ensures { rows_of result.now ≡ self.now }
    {
        &self.rows
    }

    /// How many frames are open.
    pub fn len(&self) -> usize
        ensures { result ≡ length self.now }
    {
        self.rows.len()
    }

    /// Whether no frame is open.
    pub fn is_empty(&self) -> bool
        ensures { result ≡ is_none_left self.now }
    {
        self.rows.is_empty()
    }

    /// Notes an entry: a send opens a row with the settings, of a request that repeats or not, and each row that the
    /// entry closes goes. It gives device fences only to buffers that have none. The answer is an error only where
    /// memory runs out.
    pub fn note(&mut self, settings: Settings, repeats: bool, entry: &Entry) -> Result<(), NoMemory>
        requires { IsTrue (are_free entry.now self.old) }
        ensures { OnOk result (self.new ≡ rows_after settings repeats entry.now self.old) }
    {
        note_rows(&mut self.rows, entry);
        add_row(&mut self.rows, settings, repeats, entry)
    }

    /// Whether the entry is the last of a frame of a repeating request.
    pub fn finishes(&self, entry: &Entry) -> bool
        ensures { result ≡ finishes_in entry.now self.now }
    {
        match entry {
            Entry::Partial { frame, .. } => ends_row(entry, &self.rows, *frame),
            Entry::Filled { frame, .. } => ends_row(entry, &self.rows, *frame),
            Entry::Failed { frame, .. } => ends_row(entry, &self.rows, *frame),
            Entry::ErrorRequest { frame } => ends_row(entry, &self.rows, *frame),
            Entry::ErrorResult { frame } => ends_row(entry, &self.rows, *frame),
            Entry::Late { fence, .. } => ends_early(entry, &self.rows, *fence),
            _ => false,
        }
    }
}

// ---- rows that are looked for

fn row_of_frame(rows: &[OpenRow], frame: FrameNo) -> Option<&OpenRow>
    ensures { option_copied result ≡ find (λ r. r.frame.0 == frame.0) rows.now }
{
    rows.iter().find(|row| row.frame.0 == frame.0)
}

/// The row of the frame, if it is open.
pub fn find_row(rows: &[OpenRow], frame: FrameNo) -> Option<OpenRow>
    ensures { option_map row_of result ≡ row_at frame.0 (rows_of rows.now) }
{
    row_of_frame(rows, frame).copied()
}

fn waits_for(row: &OpenRow, fence: DeviceFenceNo) -> bool
    ensures { result ≡ has_pending fence.0 (row_of row.now) }
{
    has_pending(&row.targets, fence)
}

fn row_with(rows: &[OpenRow], fence: DeviceFenceNo) -> Option<&OpenRow>
    ensures { option_copied result ≡ find (λ r. has_pending fence.0 (row_of r)) rows.now }
{
    rows.iter().find(|row| waits_for(row, fence))
}

/// The row of the frame that has a buffer waiting for the device fence.
pub fn pending_row(rows: &[OpenRow], fence: DeviceFenceNo) -> Option<OpenRow>
    ensures { option_map row_of result ≡ find (has_pending fence.0) (rows_of rows.now) }
{
    row_with(rows, fence).copied()
}

// ---- what an entry does

fn closes(entry: &Entry, row: Option<OpenRow>) -> bool
    ensures { result ≡ closes_one entry.now (option_map row_of row) }
{
    match row {
        Some(row) => row.repeats && !stays_open(entry, &row),
        None => false,
    }
}

/// Whether the entry closes the row of the frame, which is of a repeating request.
fn ends_row(entry: &Entry, rows: &[OpenRow], frame: FrameNo) -> bool
    ensures { result ≡ closes_one entry.now (row_at frame.0 (rows_of rows.now)) }
{
    closes(entry, find_row(rows, frame))
}

/// The same of the row of the frame that has a buffer waiting for the device fence.
fn ends_early(entry: &Entry, rows: &[OpenRow], fence: DeviceFenceNo) -> bool
    ensures { result ≡ closes_one entry.now (find (has_pending fence.0) (rows_of rows.now)) }
{
    closes(entry, pending_row(rows, fence))
}

/// Puts a row that is open at a place, and tells the place after it.
fn keep(rows: &mut Vec<OpenRow>, kept: usize, row: OpenRow) -> usize
    requires { kept < vec_len rows.old }
    ensures rows { rows_of (take result rows.new.items) ≡
        rows_of (take kept rows.old.items) ++ filter is_open_row (row_of row ∷ []) }
    ensures rest { (i : ℕ) → kept < i → drop i rows.new.items ≡ drop i rows.old.items }
    ensures within { result ≤ kept + 1 }
    ensures len { vec_len rows.new ≡ vec_len rows.old }
{
    if is_open(&row) {
        rows[kept] = row;
        kept + 1
    } else {
        kept
    }
}

/// Notes the entry in each row, and keeps those that are open.
fn note_rows(rows: &mut Vec<OpenRow>, entry: &Entry)
    requires { IsTrue (are_free entry.now (rows_of rows.old.items)) }
    ensures { rows_of rows.new.items ≡ filter is_open_row (map (row_after entry.now) (rows_of rows.old.items)) }
{
    let mut kept = 0;
    for place in 0..rows.len() {
        let row = rows[place];
        kept = keep(rows, kept, note_row(entry, &row));
    }
    rows.truncate(kept);
}

/// Adds the row of a frame that an entry sends.
#[tactic(auto, using(crate::proofs::RowLemmas::rows_more))]
fn add_row(
    rows: &mut Vec<OpenRow>,
    settings: Settings,
    repeats: bool,
    entry: &Entry,
) -> Result<(), NoMemory>
    ensures { OnOk result (rows_of rows.new.items ≡ rows_of rows.old.items ++ new_rows settings repeats entry.now) }
{
    if let Entry::Send { frame, targets, .. } = entry {
        rows.push(new_row(*frame, settings, repeats, targets))?;
    }
    Ok(())
}
