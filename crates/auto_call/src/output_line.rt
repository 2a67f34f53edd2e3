//! The lines in front of the trace.
ghost use Rattle.std.specs.Prelude.{◌≡◌, ◌≤◌, ◌+◌, ◌++◌, IfOk, length};
ghost use Rattle.text_parts.specs.Lines.{line_text};
ghost use Rattle.auto_call.specs.OutputLines.{end_line, front_of, line_of, line_words};

use crate::AeState;
use cam_types::{Listing, NoMemory};
use io_edge::{ROOM, Room};
use std::alloc::Global;

/// Nanoseconds in a step of exposure.
const STEP: u64 = 100_000;

/// A line in front of the trace.
#[derive(Clone, Copy)]
pub enum AutoLine {
    /// A frame, its exposure in nanoseconds and its mean brightness.
    Frame {
        frame: u32,
        exposure: u64,
        mean: u32,
    },
    /// The search of a scene is locked at an exposure, in nanoseconds.
    Locked {
        scene: u32,
        exposure: u64,
    },
    /// No exposure is bright enough for a scene.
    Limit {
        scene: u32,
    },
    /// The search of a scene isn't done: the steps that are left, of which 1,001 stands for none.
    Searching {
        scene: u32,
        low: u32,
        high: u32,
    },
}

/// Lines, the first one first.
pub type LineList = Listing<AutoLine>;

/// The line that tells how the search of a scene ended.
pub fn end_line(scene: u32, state: AeState) -> AutoLine
    ensures { result ≡ end_line scene state }
{
    match state {
        AeState::Searching { low, high } => AutoLine::Searching { scene, low, high },
        AeState::Locked { exposure } => AutoLine::Locked {
            scene,
            exposure: u64::from(exposure) * STEP,
        },
        AeState::AtLimit => AutoLine::Limit { scene },
    }
}

/// Writes the lines in front of the trace. Its room, of 4,096 bytes, is taken when it is made, and no line takes
/// memory.
#[derive(Drop)]
pub struct LinePrinter {
    room: Room,
}

impl LinePrinter {
    /// A printer with its room.
    pub fn new(alloc: Global) -> Result<LinePrinter, NoMemory> {
        let room = Room::new(alloc)?;
        Ok(LinePrinter { room })
    }

    /// The line, with its end, as `docs/FORMATS.md` has it. It takes no memory.
    pub fn line(&mut self, line: AutoLine) -> &[u8]
        ensures { result.now ≡ line_of line }
    {
        self.room.clear();
        put_line(&mut self.room, line);
        self.room.bytes()
    }
}

/// Writes the line of a frame.
fn put_frame(room: &mut Room, frame: u32, exposure: u64, mean: u32)
    requires { length room.old + 100 ≤ ROOM }
    ensures { room.new ≡ room.old ++ line_text (line_words (AutoLine.Frame frame exposure mean)) }
{
    room.put(b"frame ");
    room.put_small(frame);
    room.put(b" exposure ");
    room.put_large(exposure);
    room.put(b" mean ");
    room.put_small(mean);
    room.put(b"\n");
}

/// Writes the line of a scene whose search is locked.
fn put_locked(room: &mut Room, scene: u32, exposure: u64)
    requires { length room.old + 100 ≤ ROOM }
    ensures { room.new ≡ room.old ++ line_text (line_words (AutoLine.Locked scene exposure)) }
{
    room.put(b"scene ");
    room.put_small(scene);
    room.put(b" locked ");
    room.put_large(exposure);
    room.put(b"\n");
}

/// Writes the line of a scene for which no exposure is bright enough.
fn put_limit(room: &mut Room, scene: u32)
    requires { length room.old + 100 ≤ ROOM }
    ensures { room.new ≡ room.old ++ line_text (line_words (AutoLine.Limit scene)) }
{
    room.put(b"scene ");
    room.put_small(scene);
    room.put(b" limit\n");
}

/// Writes the line of a search that isn't done.
fn put_searching(room: &mut Room, scene: u32, low: u32, high: u32)
    requires { length room.old + 100 ≤ ROOM }
    ensures { room.new ≡ room.old ++ line_text (line_words (AutoLine.Searching scene low high)) }
{
    room.put(b"scene ");
    room.put_small(scene);
    room.put(b" searching ");
    room.put_small(low);
    room.put(b" ");
    room.put_small(high);
    room.put(b"\n");
}

/// Writes a line.
#[tactic(auto, unfolding(crate::specs::OutputLines::line_of))]
fn put_line(room: &mut Room, line: AutoLine)
    requires { length room.old + 100 ≤ ROOM }
    ensures { room.new ≡ room.old ++ line_of line }
{
    match line {
        AutoLine::Frame {
            frame,
            exposure,
            mean,
        } => put_frame(room, frame, exposure, mean),
        AutoLine::Locked { scene, exposure } => put_locked(room, scene, exposure),
        AutoLine::Limit { scene } => put_limit(room, scene),
        AutoLine::Searching { scene, low, high } => put_searching(room, scene, low, high),
    }
}

/// The text of the version line and the lines.
pub fn front_text(alloc: Global, lines: &[AutoLine]) -> Result<Vec<u8>, NoMemory>
    ensures { IfOk result (λ text. text.items ≡ front_of lines.now) }
{
    let mut printer = LinePrinter::new(alloc)?;
    let mut out = b"auto 1\n".to_vec(alloc)?;
    for line in lines {
        out.extend_from_slice(printer.line(*line))?;
    }
    Ok(out)
}
