//! The table of open frames.
ghost use Rattle.std.specs.Prelude.{◌≡◌, ◌+◌, ◌<◌, ◌≤◌, ◌↔◌, [], ◌∷◌, ◌++◌, length, map, position, if◌then◌else◌, is_some, slice_get, IfErr, IfOk, IfSome, IsErr, IsNone, IsTrue, OnErr, OnOk};
ghost use Rattle.std.specs.List.{list_all};
ghost use Rattle.std.specs.Option.{option_and_then, option_map};
ghost use Rattle.device_rows.specs.TableRows.{are_apart, are_below, are_in_order, has_place, is_cleared, is_of, is_one_each, is_sound, parked_for, passes, row_of, view_of, with_mark, with_parked, with_row, with_rows, without};

use crate::mark::{Mark, marked};
use crate::parked::{put_parked, take_parked};
use crate::table_row::Row;
use cam_types::{Four, FrameNo, NoMemory, RowView, StreamIx};
use std::alloc::Global;
use std::marker::Model;

/// The rows of the open frames, in order of frames, each with what is parked for its targets. A contract sees the list
/// of the rows, and how many may stand at once. All its memory is taken by `new`. What is parked may be of a type that
/// can't be dropped: each call hands back what it doesn't keep, and a table is closed only where no row stands.
pub struct Table<B> {
    rows: Vec<Row<B>>,
    capacity: u32,
}

impl<B> Model for Table<B> {
    ghost use Rattle.std.specs.Prelude.{vec_capacity};
    ghost use Rattle.device_rows.specs.Inside.Kept.{IsKept};
    ghost use Rattle.device_rows.specs.TableRows.{Rows};

    ghost Value = { Rows B };

    ghost view = { λ t. record { rows = t.rows.items; capacity = t.capacity } };

    ghost invariant = { λ t. IsKept t.rows.items t.capacity (vec_capacity t.rows) };
}

impl<B> Table<B> {
    /// The table without a row, with the room for so many, 1 to 16.
    pub fn new(alloc: Global, rows: u32) -> Result<Table<B>, NoMemory>
        requires { (0 < rows) × (rows ≤ 16) }
        ensures { IfOk result (λ t. t ≡ record { rows = []; capacity = rows }) }
    {
        Ok(Table {
            rows: Vec::with_capacity(alloc, rows as usize)?,
            capacity: rows,
        })
    }

    /// Adds the row of a frame behind all others, with what is parked for its targets, in their order; hands this back
    /// exactly where as many rows stand as may.
    pub fn admit(&mut self, row: RowView, parked: Four<B>) -> Result<(), Four<B>>
        requires later { IsTrue (are_below row.frame.0 self.old.rows) }
        requires apart { IsTrue (are_apart row.targets) }
        requires one_each { IsTrue (is_one_each row.targets parked) }
        ensures full { IsErr result ↔ (length self.old.rows ≡ self.old.capacity) }
        ensures ok { OnOk result
            (self.new ≡ with_rows (self.old.rows ++ record { view = row; parked = parked } ∷ []) self.old) }
        ensures handed_back { IfErr result (λ back. back ≡ parked) }
        ensures err { OnErr result (self.new ≡ self.old) }
    {
        if self.rows.len() >= self.capacity as usize {
            return Err(parked);
        }
        self.rows.push_reserved(Row { view: row, parked });
        Ok(())
    }

    /// How many rows stand.
    pub fn len(&self) -> u32
        ensures value { result ≡ length self.now.rows }
        ensures within { (result ≤ self.now.capacity) × (self.now.capacity ≤ 16) }
    {
        self.rows.len() as u32
    }

    /// The row of a frame. None exactly where no such row stands.
    pub fn view(&self, frame: FrameNo) -> Option<RowView>
        ensures value { result ≡ option_map view_of (row_of frame.0 self.now.rows) }
        ensures kept { IsTrue (are_in_order self.now.rows) × IsTrue (list_all is_sound self.now.rows) }
    {
        let Some(place) = place_of(&self.rows, frame) else {
            return None;
        };
        let row = &self.rows[place];
        Some(row.view)
    }

    /// The row at a place, from 0 on in order of frames. None exactly where so many rows don't stand. It is the row
    /// that its frame finds.
    pub fn at(&self, place: u32) -> Option<RowView>
        ensures value { result ≡ option_map view_of (slice_get self.now.rows place) }
        ensures found { IfSome result (λ view. option_map view_of (row_of view.frame.0 self.now.rows) ≡ result) }
    {
        let row = self.rows.get(place as usize)?;
        Some(row.view)
    }

    /// Makes one change to the row of a frame. False exactly where no such row stands. A mark for a stream that isn't a
    /// target of the row changes nothing.
    pub fn mark(&mut self, frame: FrameNo, mark: Mark) -> bool
        ensures value { result ≡ is_some (row_of frame.0 self.old.rows) }
        ensures marked { self.new ≡ with_rows (with_row frame.0 (with_mark mark) self.old.rows) self.old }
    {
        let Some(place) = place_of(&self.rows, frame) else {
            return false;
        };
        let row = &mut self.rows[place];
        row.view = marked(mark, row.view);
        true
    }

    /// Makes one change to each row, as a stop does. What is parked stays.
    pub fn mark_all(&mut self, mark: Mark)
        ensures { self.new ≡ with_rows (map (with_mark mark) self.old.rows) self.old }
    {
        mark_each(&mut self.rows, mark);
    }

    /// Takes what is parked for the stream's target in the row of a frame. None exactly where nothing is parked there.
    pub fn take_target(&mut self, frame: FrameNo, stream: StreamIx) -> Option<B>
        ensures taken { result ≡ option_and_then (parked_for stream.0) (row_of frame.0 self.old.rows) }
        ensures left { self.new ≡ with_rows (with_row frame.0 (with_parked stream.0 None) self.old.rows) self.old }
    {
        let Some(place) = place_of(&self.rows, frame) else {
            return None;
        };
        let row = &mut self.rows[place];
        take_parked(row.view.targets, stream, &mut row.parked)
    }

    /// Parks a thing for the stream's target in the row of a frame. It is handed back exactly where there is no such
    /// target or its place is taken.
    pub fn put_target(&mut self, frame: FrameNo, stream: StreamIx, parked: B) -> Option<B>
        ensures handed_back { result ≡
            (if passes (has_place stream.0) (row_of frame.0 self.old.rows) then None else Some parked) }
        ensures parked { self.new ≡
            with_rows
            (if passes (has_place stream.0) (row_of frame.0 self.old.rows)
            then with_row frame.0 (with_parked stream.0 (Some parked)) self.old.rows else self.old.rows) self.old }
    {
        let Some(place) = place_of(&self.rows, frame) else {
            return Some(parked);
        };
        let row = &mut self.rows[place];
        put_parked(row.view.targets, stream, parked, &mut row.parked)
    }

    /// Removes the row of a frame. False exactly where no such row stands or something is parked in it; then all stays.
    pub fn retire(&mut self, frame: FrameNo) -> bool
        ensures value { result ≡ passes is_cleared (row_of frame.0 self.old.rows) }
        ensures left { self.new ≡
            with_rows
            (if passes is_cleared (row_of frame.0 self.old.rows) then without frame.0 self.old.rows
            else self.old.rows) self.old }
        ensures fewer { IsTrue result → length self.new.rows + 1 ≡ length self.old.rows }
    {
        let Some(place) = place_of(&self.rows, frame) else {
            return false;
        };
        let row = &self.rows[place];
        if !is_cleared(row) {
            return false;
        }
        discard(self.rows.remove(place));
        true
    }

    /// Takes out the last row, with what is parked in it. None exactly where no row stands.
    pub fn pop(&mut self) -> Option<Row<B>>
        ensures none { IsNone result ↔ (self.old.rows ≡ []) }
        ensures last { IfSome result (λ row. self.old.rows ≡ self.new.rows ++ row ∷ []) }
        ensures capacity { self.new.capacity ≡ self.old.capacity }
        ensures unchanged { IsNone result → self.new ≡ self.old }
    {
        self.rows.pop()
    }

    /// Whether no row stands.
    pub fn is_empty(&self) -> bool
        ensures { IsTrue result ↔ (self.now.rows ≡ []) }
    {
        self.rows.is_empty()
    }

    /// Ends a table in which no row stands.
    pub fn close(self)
        requires { self.rows ≡ [] }
    {
        let Table { rows, capacity: _ } = self;
        rows.destroy_empty();
    }
}

/// Makes one change to each row.
fn mark_each<B>(rows: &mut [Row<B>], mark: Mark)
    ensures { rows.new ≡ map (with_mark mark) rows.old }
{
    for row in rows.iter_mut() {
        row.view = marked(mark, row.view);
    }
}

/// The place of the row of a frame.
fn place_of<B>(rows: &[Row<B>], frame: FrameNo) -> Option<usize>
    ensures { result ≡ position (is_of frame.0) rows.now }
{
    rows.iter().position(|row| row.view.frame.0 == frame.0)
}

/// Whether nothing is parked in the row.
fn is_cleared<B>(row: &Row<B>) -> bool
    ensures { result ≡ is_cleared row.now }
{
    !row.parked.a.is_some()
        && (!row.parked.b.is_some() && (!row.parked.c.is_some() && !row.parked.d.is_some()))
}

/// Lets a row go in which nothing is parked.
fn discard<B>(row: Row<B>)
    requires { IsTrue (is_cleared row) }
{
    let Row { view: _, parked } = row;
    let Four { a, b, c, d } = parked;
    discard_empty(a);
    discard_empty(b);
    discard_empty(c);
    discard_empty(d);
}

fn discard_empty<B>(place: Option<B>)
    requires { place ≡ None }
{
    match place {
        None => {}
        Some(_) => unreachable!(),
    }
}
