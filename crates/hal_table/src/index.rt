//! The rows by the numbers of their requests, with what is kept beside them, and what an event does to all of it.
ghost use Rattle.std.specs.Prelude.{◌≡◌, ◌==◌, ◌≤◌, ◌&&◌, ◌∷◌, [], ℕ, Some, None, true, false, filter, length, map, nat_eq, not, option_copied, IfOk, OnOk, if◌then◌else◌};
ghost use Rattle.std.specs.List.{list_all};
ghost use Rattle.std.specs.Map.{keys_of, lookup, values_of};
ghost use Rattle.std.specs.BTreeSet.{contains};
ghost use Rattle.std.specs.Ordering.{nat_cmp};
ghost use Rattle.lru.specs.LruCache.{lru_cache};
ghost use Rattle.hal_model.specs.Framework.{is_empty};
ghost use Rattle.hal_model.specs.Rules.{frame_in};
ghost use Rattle.hal_model.specs.Words.{begins_request};
ghost use Rattle.hal_rows.specs.declared.row.Row.{Row as ARow};
ghost use Rattle.hal_rows.specs.Judged.{is_holding, is_holding_for};
ghost use Rattle.hal_rows.specs.Row.{is_row_in_call, is_row_live, note_row, note_rows, rows_but};
ghost use Rattle.hal_rows.specs.State.{settled};
ghost use Rattle.hal_row.specs.Settled.{IsTopped, settled_of};
ghost use Rattle.hal_table.specs.Index.{IsAdded, IsCounted, IsCountedWith, IsIndexed, IsKept, IsTaken, are_keyed, at_row, ends_call, gives_buffers, is_gone, is_touched, may_touch, with_row, without_gone};

use crate::held::{Held, add_targets, take_targets};
use cam_types::NoMemory;
use hal_model::{HalEvent, Returned};
use hal_row::row::{is_complete, is_live, note_row};
use hal_row::{Tops, raise_settled};
use hal_rows::Row;
use lru::LruCache;
use std::alloc::Global;
use std::collections::BTreeSet;

/// The rows, that which was begun last first; the numbers of the requests in call; the buffers that are held.
#[derive(Drop)]
pub struct Index {
    pub rows: LruCache<u32, Row>,
    pub called: BTreeSet<u32>,
    pub held: Held,
}

/// No row.
pub(crate) fn new_index(alloc: Global) -> Result<Index, NoMemory>
    ensures indexed { IfOk result IsIndexed }
    ensures rows { IfOk result (λ index. index.rows.entries ≡ []) }
{
    Ok(Index {
        rows: LruCache::unbounded(alloc)?,
        called: BTreeSet::new(alloc),
        held: Held::new(alloc),
    })
}

/// Takes all rows out.
pub(crate) fn clear(alloc: Global, index: &mut Index)
    ensures indexed { index.old.rows.cap ≡ u64.MAX → IsIndexed index.new }
{
    index.rows.clear();
    index.called.clear();
    index.held = Held::new(alloc);
}

// ---- what is held by a request

/// Counts what the request holds.
fn add_of(frame: u32, rows: &LruCache<u32, Row>, held: &mut Held) -> Result<(), NoMemory>
    ensures found { (r : ARow) → lookup (nat_eq frame) rows.now.entries ≡ Some r →
        OnOk result (IsAdded r.targets held.old held.new) }
    ensures none { lookup (nat_eq frame) rows.now.entries ≡ None → OnOk result (held.new ≡ held.old) }
{
    match rows.peek(&frame) {
        Some(row) => add_targets(held, row.targets.as_slice()),
        None => Ok(()),
    }
}

/// Counts it no more.
fn take_of(frame: u32, rows: &LruCache<u32, Row>, held: &mut Held) -> Result<(), NoMemory>
    ensures found { (r : ARow) → lookup (nat_eq frame) rows.now.entries ≡ Some r →
        OnOk result (IsTaken r.targets held.old held.new) }
    ensures none { lookup (nat_eq frame) rows.now.entries ≡ None → OnOk result (held.new ≡ held.old) }
{
    match rows.peek(&frame) {
        Some(row) => take_targets(held, row.targets.as_slice()),
        None => Ok(()),
    }
}

// ---- an event in the row of one request

/// Notes an event in the row of a request.
fn note_entry(
    alloc: Global,
    parts: u32,
    flushing: bool,
    frame: u32,
    event: &HalEvent,
    rows: &mut LruCache<u32, Row>,
) -> Result<(), NoMemory>
    ensures rows { OnOk result (rows.new.entries
        ≡ with_row (note_row parts flushing event.now) frame rows.old.entries) }
    ensures room { rows.new.cap ≡ rows.old.cap }
{
    match rows.peek_mut(&frame) {
        Some(row) => note_row(alloc, parts, flushing, event, row),
        None => Ok(()),
    }
}

#[tactic(auto, using(crate::proofs::Entries::empty_reads))]
fn is_some_given(buffers: &[Returned]) -> bool
    ensures { result ≡ not (is_empty buffers.now) }
{
    !buffers.is_empty()
}

/// Whether the event gives buffers back.
fn gives_buffers(event: &HalEvent) -> bool
    ensures { result ≡ gives_buffers event.now }
{
    match event {
        HalEvent::Results { buffers, .. } => is_some_given(buffers.as_slice()),
        _ => false,
    }
}

/// Notes an event that gives buffers back: what the request held is counted anew.
fn note_giving(
    alloc: Global,
    parts: u32,
    flushing: bool,
    frame: u32,
    event: &HalEvent,
    rows: &mut LruCache<u32, Row>,
    held: &mut Held,
) -> Result<(), NoMemory>
    ensures rows { OnOk result (rows.new.entries
        ≡ with_row (note_row parts flushing event.now) frame rows.old.entries) }
    ensures counted { IsCounted rows.old.entries held.old → OnOk result (IsCounted rows.new.entries held.new) }
    ensures room { rows.new.cap ≡ rows.old.cap }
{
    take_of(frame, rows, held)?;
    note_entry(alloc, parts, flushing, frame, event, rows)?;
    add_of(frame, rows, held)?;
    Ok(())
}

/// Notes an event in the row of a request and in what it holds.
fn note_held(
    alloc: Global,
    parts: u32,
    flushing: bool,
    frame: u32,
    event: &HalEvent,
    rows: &mut LruCache<u32, Row>,
    held: &mut Held,
) -> Result<(), NoMemory>
    ensures rows { OnOk result (rows.new.entries
        ≡ with_row (note_row parts flushing event.now) frame rows.old.entries) }
    ensures counted { IsCounted rows.old.entries held.old → OnOk result (IsCounted rows.new.entries held.new) }
    ensures room { rows.new.cap ≡ rows.old.cap }
{
    if gives_buffers(event) {
        return note_giving(alloc, parts, flushing, frame, event, rows, held);
    }
    note_entry(alloc, parts, flushing, frame, event, rows)?;
    Ok(())
}

/// Whether the event ends a request's call.
fn ends_call(event: &HalEvent) -> bool
    ensures { result ≡ ends_call event.now }
{
    matches!(
        event,
        HalEvent::RequestOk { .. } | HalEvent::RequestError { .. }
    )
}

/// The request is in call.
fn enter_call(frame: u32, called: &mut BTreeSet<u32>) -> Result<(), NoMemory>
    ensures { OnOk result ((n : ℕ) → contains nat_cmp called.new n
        ≡ (if frame == n then true else contains nat_cmp called.old n)) }
{
    called.insert(frame)?;
    Ok(())
}

/// The request isn't in call any more.
fn leave_call(frame: u32, called: &mut BTreeSet<u32>)
    ensures { (n : ℕ) → contains nat_cmp called.new n
        ≡ (if frame == n then false else contains nat_cmp called.old n) }
{
    called.remove(&frame);
}

/// Notes an event in whether the request is in call.
fn note_call(frame: u32, event: &HalEvent, called: &mut BTreeSet<u32>)
    ensures { (n : ℕ) → contains nat_cmp called.new n
        ≡ (if ends_call event.now && (frame == n) then false else contains nat_cmp called.old n) }
{
    if ends_call(event) {
        leave_call(frame, called);
    }
}

/// Whether a request is in call whose number isn't below this one.
pub(crate) fn is_called_from(frame: u32, called: &BTreeSet<u32>) -> bool
    ensures above { (n : ℕ) → contains nat_cmp called.now n ≡ true → frame ≤ n → result ≡ true }
    ensures found { result ≡ true → (n : ℕ) × (contains nat_cmp called.now n ≡ true) × (frame ≤ n) }
{
    match called.last() {
        Some(last) => frame <= *last,
        None => false,
    }
}

/// Whether the row isn't that of a live request.
fn is_gone(row: Option<&Row>) -> bool
    ensures { result ≡ is_gone (option_copied row.entry) }
{
    match row {
        Some(row) => !is_live(row),
        None => false,
    }
}

/// Takes the row of a request out that isn't live any more.
fn drop_gone(frame: u32, index: &mut Index) -> Result<(), NoMemory>
    requires { IsKept index.old }
    ensures kept { OnOk result (IsKept index.new) }
    ensures rows { OnOk result (index.new.rows.entries ≡ without_gone frame index.old.rows.entries) }
    ensures room { index.new.rows.cap ≡ index.old.rows.cap }
{
    let _valid = index.rows.len();
    if !is_gone(index.rows.peek(&frame)) {
        return Ok(());
    }
    take_of(frame, &index.rows, &mut index.held)?;
    leave_call(frame, &mut index.called);
    index.rows.pop(&frame);
    Ok(())
}

/// Notes an event in the row of a request, and in what is kept beside it.
fn note_marks(
    alloc: Global,
    parts: u32,
    flushing: bool,
    frame: u32,
    event: &HalEvent,
    index: &mut Index,
) -> Result<(), NoMemory>
    requires indexed { IsIndexed index.old }
    requires own { ends_call event.now ≡ true → frame_in event.now ≡ Some frame }
    ensures kept { OnOk result (IsKept index.new) }
    ensures rows { OnOk result (index.new.rows.entries
        ≡ with_row (note_row parts flushing event.now) frame index.old.rows.entries) }
    ensures room { index.new.rows.cap ≡ index.old.rows.cap }
{
    let _valid = index.rows.len();
    note_held(
        alloc,
        parts,
        flushing,
        frame,
        event,
        &mut index.rows,
        &mut index.held,
    )?;
    note_call(frame, event, &mut index.called);
    Ok(())
}

/// Notes an event in the row of a request, which goes where the request isn't live any more.
fn note_at(
    alloc: Global,
    parts: u32,
    flushing: bool,
    frame: u32,
    event: &HalEvent,
    index: &mut Index,
) -> Result<(), NoMemory>
    requires indexed { IsIndexed index.old }
    requires own { ends_call event.now ≡ true → frame_in event.now ≡ Some frame }
    ensures indexed { OnOk result (IsIndexed index.new) }
    ensures rows { OnOk result (values_of index.new.rows.entries ≡ filter is_row_live
        (map (at_row frame (note_row parts flushing event.now)) (values_of index.old.rows.entries))) }
    ensures room { index.new.rows.cap ≡ index.old.rows.cap }
{
    let _valid = index.rows.len();
    note_marks(alloc, parts, flushing, frame, event, index)?;
    drop_gone(frame, index)?;
    Ok(())
}

/// Notes an event that names a request: in its row, and in the numbers of what it brought back.
fn note_own(
    alloc: Global,
    parts: u32,
    flushing: bool,
    frame: u32,
    event: &HalEvent,
    index: &mut Index,
    tops: &mut Tops,
) -> Result<(), NoMemory>
    requires indexed { IsIndexed index.old }
    requires own { frame_in event.now ≡ Some frame }
    requires begun { begins_request event.now ≡ false }
    ensures indexed { OnOk result (IsIndexed index.new) }
    ensures rows { OnOk result (values_of index.new.rows.entries
        ≡ note_rows parts flushing event.now (values_of index.old.rows.entries)) }
    ensures tops { OnOk result (IsTopped
        (settled parts flushing event.now (values_of index.old.rows.entries)) tops.old tops.new) }
    ensures room { index.new.rows.cap ≡ index.old.rows.cap }
{
    let _valid = index.rows.len();
    note_marks(alloc, parts, flushing, frame, event, index)?;
    raise_settled(tops, event, index.rows.peek(&frame))?;
    drop_gone(frame, index)?;
    Ok(())
}

// ---- an event that names no request

/// Whether such an event may change rows.
fn may_touch(event: &HalEvent) -> bool
    ensures { result ≡ may_touch event.now }
{
    matches!(
        event,
        HalEvent::ConfigureBegin { .. }
            | HalEvent::FlushBegin
            | HalEvent::FlushOk
            | HalEvent::CloseBegin
            | HalEvent::CloseEnd
    )
}

/// Whether it changes the row.
fn is_touched(event: &HalEvent, row: &Row) -> bool
    ensures { result ≡ is_touched event.now row.now }
{
    match event {
        HalEvent::ConfigureBegin { .. } => !row.entered,
        HalEvent::CloseBegin => !row.entered,
        HalEvent::FlushBegin => {
            !row.entered
                || (if row.accepted {
                    !row.before_flush
                } else {
                    row.before_flush
                })
        }
        HalEvent::FlushOk => row.before_flush && (!row.flushed || is_complete(row)),
        HalEvent::CloseEnd => is_complete(row),
        _ => false,
    }
}

/// The numbers of the requests whose rows it changes.
fn frames_touched(
    alloc: Global,
    event: &HalEvent,
    rows: &LruCache<u32, Row>,
) -> Result<Vec<u32>, NoMemory>
    ensures { IfOk result (λ frames. frames.items
        ≡ keys_of (filter (λ e. is_touched event.now e.1) rows.now.entries)) }
{
    rows.iter()
        .filter(|(_, row)| is_touched(event, row))
        .map(|(frame, _)| *frame)
        .collect(alloc)
}

/// Notes an event in the rows that it changes.
fn note_touched(
    alloc: Global,
    parts: u32,
    flushing: bool,
    event: &HalEvent,
    index: &mut Index,
) -> Result<(), NoMemory>
    requires indexed { IsIndexed index.old }
    requires of_none { frame_in event.now ≡ None }
    ensures indexed { OnOk result (IsIndexed index.new) }
    ensures rows { OnOk result (values_of index.new.rows.entries
        ≡ note_rows parts flushing event.now (values_of index.old.rows.entries)) }
    ensures room { index.new.rows.cap ≡ index.old.rows.cap }
{
    let _valid = index.rows.len();
    let touched = frames_touched(alloc, event, &index.rows)?;
    let frames = touched.as_slice();
    for frame in frames {
        note_at(alloc, parts, flushing, *frame, event, index)?;
    }
    Ok(())
}

/// Notes an event that names no request.
#[tactic(auto, using(crate::proofs::Steps::still_read))]
fn note_rest(
    alloc: Global,
    parts: u32,
    flushing: bool,
    event: &HalEvent,
    index: &mut Index,
) -> Result<(), NoMemory>
    requires indexed { IsIndexed index.old }
    requires of_none { frame_in event.now ≡ None }
    ensures indexed { OnOk result (IsIndexed index.new) }
    ensures rows { OnOk result (values_of index.new.rows.entries
        ≡ note_rows parts flushing event.now (values_of index.old.rows.entries)) }
    ensures room { index.new.rows.cap ≡ index.old.rows.cap }
{
    if may_touch(event) {
        return note_touched(alloc, parts, flushing, event, index);
    }
    Ok(())
}

// ---- each event

/// The request that the event names, or none.
pub fn frame_in(event: &HalEvent) -> Option<u32>
    ensures { result ≡ frame_in event.now }
{
    match event {
        HalEvent::RequestBegin { frame, .. } => Some(*frame),
        HalEvent::RequestOk { frame } => Some(*frame),
        HalEvent::RequestError { frame, .. } => Some(*frame),
        HalEvent::Shutter { frame, .. } => Some(*frame),
        HalEvent::ErrorRequest { frame } => Some(*frame),
        HalEvent::ErrorResult { frame } => Some(*frame),
        HalEvent::ErrorBuffer { frame, .. } => Some(*frame),
        HalEvent::Results { frame, .. } => Some(*frame),
        _ => None,
    }
}

/// Notes an event that begins no request.
#[tactic(auto, using(crate::proofs::Settled::topped_none))]
pub(crate) fn note_event(
    alloc: Global,
    parts: u32,
    flushing: bool,
    event: &HalEvent,
    index: &mut Index,
    tops: &mut Tops,
) -> Result<(), NoMemory>
    requires indexed { IsIndexed index.old }
    requires begun { begins_request event.now ≡ false }
    ensures indexed { OnOk result (IsIndexed index.new) }
    ensures rows { OnOk result (values_of index.new.rows.entries
        ≡ note_rows parts flushing event.now (values_of index.old.rows.entries)) }
    ensures tops { OnOk result (IsTopped
        (settled parts flushing event.now (values_of index.old.rows.entries)) tops.old tops.new) }
    ensures room { index.new.rows.cap ≡ index.old.rows.cap }
{
    match frame_in(event) {
        Some(frame) => note_own(alloc, parts, flushing, frame, event, index, tops),
        None => note_rest(alloc, parts, flushing, event, index),
    }
}

// ---- a request begins

/// Counts what a request holds that begins, and enters its call. What the one of its number held goes.
fn hold(row: &Row, index: &mut Index) -> Result<(), NoMemory>
    ensures rows { index.new.rows ≡ index.old.rows }
    ensures called { OnOk result ((n : ℕ) → contains nat_cmp index.new.called n
        ≡ (if row.now.frame == n then true else contains nat_cmp index.old.called n)) }
    ensures counted { IsCounted index.old.rows.entries index.old.held → OnOk result
        (IsCountedWith row.now.frame row.now.targets index.old.rows.entries index.new.held) }
{
    take_of(row.frame, &index.rows, &mut index.held)?;
    add_targets(&mut index.held, row.targets.as_slice())?;
    enter_call(row.frame, &mut index.called)?;
    Ok(())
}

/// Puts the row of a request that begins in place of the one of its number.
pub(crate) fn begin_row(row: Row, index: &mut Index) -> Result<(), NoMemory>
    requires indexed { IsIndexed index.old }
    requires live { is_row_live row ≡ true }
    requires in_call { is_row_in_call row ≡ true }
    ensures indexed { OnOk result (IsIndexed index.new) }
    ensures rows { OnOk result (values_of index.new.rows.entries
        ≡ row ∷ rows_but row.frame (values_of index.old.rows.entries)) }
    ensures room { index.new.rows.cap ≡ index.old.rows.cap }
{
    let _valid = index.rows.len();
    hold(&row, index)?;
    index.rows.put(row.frame, row)?;
    Ok(())
}
