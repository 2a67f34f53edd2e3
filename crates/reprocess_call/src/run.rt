//! The whole text of a run, written in pieces.
ghost use Rattle.std.specs.Prelude.{◌≡◌, ◌++◌, OnErr, OnOk};
ghost use Rattle.std.specs.List.{flat_map};
ghost use Rattle.io_edge.specs.Faults.{Counts};
ghost use Rattle.io_edge.specs.States.{Breaks, Writes};
ghost use Rattle.io_edge.specs.Pieces.{Gathers};
ghost use Rattle.reprocess_call.specs.Lines.{line_of, run_text};

use crate::line::LinePrinter;
use cam_types::NoMemory;
use io_edge::{Failed, Pieces, Sink};
use reprocess_model::ReEntry;
use std::alloc::Global;

/// Writes the texts of runs. All its memory is taken when it is made.
#[derive(Drop)]
pub struct RunWriter {
    printer: LinePrinter,
    pieces: Pieces,
}

/// Gathers the lines of a run, in order.
fn put_lines<K: Sink>(
    printer: &mut LinePrinter,
    pieces: &mut Pieces,
    lines: &[ReEntry],
    sink: &mut K,
) -> Result<(), Failed>
    ensures text { OnOk result
        (Gathers (K.state sink.old) (K.state sink.new) pieces.new (pieces.old ++ flat_map line_of lines.now)) }
    ensures failed { OnErr result
        (Breaks (K.state sink.old) (K.state sink.new) (pieces.old ++ flat_map line_of lines.now)) }
    ensures faults { Counts result (K.state sink.old).faults (K.state sink.new).faults }
{
    for line in lines {
        pieces.put(printer.line(*line), sink)?;
    }
    Ok(())
}

/// Writes the whole text of a run.
fn write_pieces<K: Sink>(
    printer: &mut LinePrinter,
    pieces: &mut Pieces,
    lines: &[ReEntry],
    sink: &mut K,
) -> Result<(), Failed>
    ensures written { OnOk result (Writes (K.state sink.old) (K.state sink.new) (run_text lines.now)) }
    ensures failed { OnErr result (Breaks (K.state sink.old) (K.state sink.new) (run_text lines.now)) }
    ensures faults { Counts result (K.state sink.old).faults (K.state sink.new).faults }
{
    pieces.clear();
    pieces.put(b"reprocess 1\n", sink)?;
    put_lines(printer, pieces, lines, sink)?;
    pieces.put(b"end\n", sink)?;
    pieces.flush(sink)
}

impl RunWriter {
    /// A writer with its room.
    pub fn new(alloc: Global) -> Result<RunWriter, NoMemory> {
        let printer = LinePrinter::new(alloc)?;
        let pieces = Pieces::new(alloc)?;
        Ok(RunWriter { printer, pieces })
    }

    /// Writes the text of a run, in pieces of `PIECE` bytes as they fill, and the rest at the end: `reprocess 1`, its
    /// lines, the oldest first, and `end`. It takes no memory.
    pub fn write<K: Sink>(&mut self, lines: &[ReEntry], sink: &mut K) -> Result<(), Failed>
        ensures written { OnOk result (Writes (K.state sink.old) (K.state sink.new) (run_text lines.now)) }
        ensures failed { OnErr result (Breaks (K.state sink.old) (K.state sink.new) (run_text lines.now)) }
        ensures faults { Counts result (K.state sink.old).faults (K.state sink.new).faults }
    {
        write_pieces(&mut self.printer, &mut self.pieces, lines, sink)
    }
}
