//! Where things stand in the picture, in pixels.
ghost use Rattle.std.specs.Prelude.{◌≡◌, ◌<◌, ◌≤◌, ◌^◌};
ghost use Rattle.timeline_svg.specs.Places.{bottom, call_y, height, lane_height, lane_top, lower, mark_y, part_y, row_y, shift, top, width, x_of};

use timeline_model::{HalCall, Kind, Look, Piece, Seat};

/// Which lanes there are, and how many rows that of a stream has.
#[derive(Clone, Copy)]
pub struct Layout {
    pub kind: Kind,
    pub rows: u8,
}

/// Where the place of a line begins.
pub fn x_of(place: u32) -> u64
    ensures { result ≡ x_of place }
{
    100 + 10 * u64::from(place)
}

/// How much lower requests and the level stand: a hal log has a row for each of six calls.
pub fn shift(kind: Kind) -> u64
    ensures value { result ≡ shift kind }
    ensures fits { result ≤ 19 }
{
    match kind {
        Kind::Trace => 0,
        Kind::Hal => 19,
    }
}

/// How much lower what is below them stands: the times of a hal log's shutters are long.
pub fn lower(kind: Kind) -> u64
    ensures value { result ≡ lower kind }
    ensures fits { result ≤ 39 }
    ensures low { shift kind ≤ result }
{
    match kind {
        Kind::Trace => 0,
        Kind::Hal => 39,
    }
}

fn call_y(call: HalCall) -> u64
    ensures value { result ≡ call_y call }
    ensures fits { result ≤ 79 }
{
    match call {
        HalCall::Open => 24,
        HalCall::Init => 35,
        HalCall::Template => 46,
        HalCall::Configure => 57,
        HalCall::Flush => 68,
        HalCall::Close => 79,
    }
}

/// How high a stream's lane is.
pub fn lane_height(rows: u8) -> u64
    ensures value { result ≡ lane_height rows }
    ensures fits { result < 2 ^ 12 }
    ensures low { 14 ≤ result }
{
    11 * u64::from(rows) + 14
}

fn top(kind: Kind) -> u64
    ensures value { result ≡ top kind }
    ensures fits { result ≤ 251 }
    ensures low { 244 ≤ result }
{
    match kind {
        Kind::Trace => 244,
        Kind::Hal => 251,
    }
}

/// Where a stream's lane begins.
pub fn lane_top(layout: Layout, lane: u8) -> u64
    ensures value { result ≡ lane_top layout lane }
    ensures fits { result < 2 ^ 21 }
    ensures low { 244 ≤ result }
{
    top(layout.kind) + u64::from(lane) * lane_height(layout.rows)
}

/// Where a row of a stream's lane begins.
pub fn row_y(layout: Layout, seat: Option<Seat>) -> u64
    ensures value { result ≡ row_y layout seat }
    ensures fits { result < 2 ^ 22 }
{
    match seat {
        Some(seat) => lane_top(layout, seat.lane) + 11 * u64::from(seat.row),
        None => 196 + lower(layout.kind),
    }
}

/// Where a part of the metadata stands.
fn part_y(number: u32) -> u64
    ensures value { result ≡ part_y number }
    ensures fits { result ≤ 196 }
{
    169 + 9 * u64::from(number.min(3))
}

/// Where the mark of a piece stands.
pub fn mark_y(layout: Layout, piece: &Piece) -> u64
    ensures value { result ≡ mark_y layout piece.now.seat piece.now.look }
    ensures fits { result < 2 ^ 22 }
{
    match piece.look {
        Look::Begin => 60,
        Look::Call { .. } => 60,
        Look::CallBegin { call } => call_y(call),
        Look::CallOk { call } => call_y(call),
        Look::CallError { call } => call_y(call),
        Look::Send => 124 + shift(layout.kind),
        Look::Dropped => 124 + shift(layout.kind),
        Look::RequestBegin => 124 + shift(layout.kind),
        Look::RequestOk => 124 + shift(layout.kind),
        Look::RequestError => 124 + shift(layout.kind),
        Look::Shutter { .. } => 162 + lower(layout.kind),
        Look::ErrorDevice => 162 + lower(layout.kind),
        Look::Partial { number } => part_y(number) + lower(layout.kind),
        Look::ErrorRequest => 196 + lower(layout.kind),
        Look::ErrorResult => 196 + lower(layout.kind),
        Look::Release => 212,
        Look::Signal => 222,
        _ => row_y(layout, piece.seat),
    }
}

/// How wide a picture of so many lines is: it has room for one behind them, and for notes.
pub fn width(count: u32) -> u64
    ensures { result ≡ width count }
{
    (110 + 10 * u64::from(count)).max(1000)
}

/// Where the lanes of so many streams end.
pub fn bottom(layout: Layout, lanes: usize) -> u64
    ensures value { result ≡ bottom layout lanes }
    ensures fits { result < 2 ^ 20 }
{
    top(layout.kind) + 10 + (lanes as u64).min(64) * lane_height(layout.rows)
}

/// How high a picture with so many notes is.
pub fn height(bottom: u64, notes: usize) -> u64
    requires { bottom < 2 ^ 20 }
    ensures { result ≡ height bottom notes }
{
    bottom + 14 + 16 * (notes as u64).min(100)
}
