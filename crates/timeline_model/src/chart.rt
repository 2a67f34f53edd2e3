//! The whole of what is drawn.

use crate::look::Look;
use crate::seat::Seat;
use crate::series::Series;

/// What was read.
#[derive(Clone, Copy, PartialEq, Eq)]
pub enum Kind {
    Trace,
    Hal,
}

/// Something that is drawn at a place.
#[derive(Clone, Copy)]
pub struct Piece {
    pub look: Look,
    /// The place where what ends here began.
    pub since: Option<u32>,
    /// The frame that it speaks of.
    pub frame: Option<u32>,
    /// The row of its bar.
    pub seat: Option<Seat>,
}

/// What is drawn of a line of the input.
#[derive(Drop)]
pub struct Group {
    /// How many entries or events stand before it.
    pub place: u32,
    /// The line's number, counted from 1.
    pub line: u64,
    /// What is shown of the line.
    pub title: Series<u8>,
    pub pieces: Series<Piece>,
    /// After it: how many items wait in the queue, or how many requests are live.
    pub level: u64,
    /// After it frames are stopped, or a flush or a close is under way.
    pub stopping: bool,
    /// The level, or whether it stops, may be another one than before.
    pub counted: bool,
    /// It isn't allowed, or breaks a rule.
    pub broken: bool,
}

/// A stream that has a lane.
#[derive(Clone, Copy, PartialEq, Eq)]
pub struct Lane {
    /// How many lanes stand before it.
    pub place: u8,
    /// The number by which the stream is known.
    pub stream: u32,
}

/// What is drawn.
#[derive(Drop)]
pub struct Chart {
    pub kind: Kind,
    /// How many rows the lane of a stream has.
    pub rows: u8,
    pub lanes: Series<Lane>,
    /// How many entries or events there are.
    pub count: u32,
    /// One for each of them, in order.
    pub groups: Series<Group>,
    /// The bars that aren't ended.
    pub unfinished: Series<Piece>,
    /// The line behind the groups that isn't allowed.
    pub fault: Option<Group>,
    /// What stands under the picture, line by line.
    pub notes: Series<Series<u8>>,
}
