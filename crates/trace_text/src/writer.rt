//! A whole trace, written line by line, or its summary.

ghost use Rattle.std.specs.Prelude.{◌≡◌, ◌++◌, OnOk, OnErr, IfOk, IsTrue, [], true};
ghost use Rattle.std.specs.List.{flat_map, list_all};
ghost use Rattle.io_edge.specs.Faults.{Counts};
ghost use Rattle.io_edge.specs.States.{Breaks, Writes};
ghost use Rattle.trace_model.specs.Printable.{is_printable};
ghost use Rattle.trace_model.specs.Summary.{summary_of};
ghost use Rattle.trace_text.specs.Spelling.{line_of, spelling};
ghost use Rattle.trace_text.specs.Summary.{summary_line};
ghost use Rattle.io_edge.specs.Pieces.{Gathers};
ghost use Rattle.trace_text.specs.Texts.{text_behind};

use crate::Printer;
use cam_types::{NoMemory, Profile};
use io_edge::{Failed, Pieces, Sink, write_all};
use std::alloc::Global;
use std::marker::Model;
use trace_model::Entry;

/// Writes traces. All its memory is taken when it is made. A contract sees the profile that the first line names.
#[derive(Drop)]
pub struct TraceWriter {
    named: Option<Profile>,
    first: Vec<u8>,
    printer: Printer,
    pieces: Pieces,
}

impl Model for TraceWriter {
    ghost use Rattle.std.specs.Prelude.{◌≡◌, Option};
    ghost use Rattle.cam_types.specs.declared.profile.Profile.{Profile as AProfile};
    ghost use Rattle.trace_text.specs.Spelling.{first_line_of};

    ghost Value = { Option AProfile };

    ghost view = { λ w. w.named };

    ghost invariant = { λ w. w.first.items ≡ first_line_of w.named };
}

/// Gathers the lines of entries, in order.
fn put_lines<K: Sink>(
    printer: &mut Printer,
    pieces: &mut Pieces,
    trace: &[Entry],
    sink: &mut K,
) -> Result<(), Failed>
    requires { list_all is_printable trace.now ≡ true }
    ensures text { OnOk result
        (Gathers (K.state sink.old) (K.state sink.new) pieces.new (pieces.old ++ flat_map line_of trace.now)) }
    ensures failed { OnErr result
        (Breaks (K.state sink.old) (K.state sink.new) (pieces.old ++ flat_map line_of trace.now)) }
    ensures faults { Counts result (K.state sink.old).faults (K.state sink.new).faults }
{
    for entry in trace {
        pieces.put(printer.line(*entry), sink)?;
    }
    Ok(())
}

/// Writes a whole trace with this first line.
fn write_pieces<K: Sink>(
    first: &[u8],
    printer: &mut Printer,
    pieces: &mut Pieces,
    trace: &[Entry],
    sink: &mut K,
) -> Result<(), Failed>
    requires { list_all is_printable trace.now ≡ true }
    ensures written { OnOk result (Writes (K.state sink.old) (K.state sink.new) (text_behind first.now trace.now)) }
    ensures failed { OnErr result (Breaks (K.state sink.old) (K.state sink.new) (text_behind first.now trace.now)) }
    ensures faults { Counts result (K.state sink.old).faults (K.state sink.new).faults }
{
    pieces.clear();
    pieces.put(first, sink)?;
    put_lines(printer, pieces, trace, sink)?;
    pieces.put(b"end\n", sink)?;
    pieces.flush(sink)
}

impl TraceWriter {
    /// A writer with its room, for traces of the first version, or of the second where a profile is named.
    pub fn new(alloc: Global, profile: Option<Profile>) -> Result<TraceWriter, NoMemory>
        ensures { IfOk result (λ writer. writer ≡ profile) }
    {
        let mut printer = Printer::new(alloc, profile)?;
        let first = printer.first_line().to_vec(alloc)?;
        let pieces = Pieces::new(alloc)?;
        Ok(TraceWriter {
            named: profile,
            first,
            printer,
            pieces,
        })
    }

    /// Writes a whole trace, in pieces of `PIECE` bytes as they fill, and the rest at the end. It takes no memory.
    #[tactic(auto, unfolding(crate::specs::Spelling::spelling))]
    pub fn write<K: Sink>(&mut self, trace: &[Entry], sink: &mut K) -> Result<(), Failed>
        requires { list_all is_printable trace.now ≡ true }
        ensures same { self.new ≡ self.old }
        ensures written { OnOk result (Writes (K.state sink.old) (K.state sink.new) (spelling self.old trace.now)) }
        ensures failed { OnErr result (Breaks (K.state sink.old) (K.state sink.new) (spelling self.old trace.now)) }
        ensures faults { Counts result (K.state sink.old).faults (K.state sink.new).faults }
    {
        write_pieces(
            self.first.as_slice(),
            &mut self.printer,
            &mut self.pieces,
            trace,
            sink,
        )
    }

    /// Writes bytes that stand in front of a trace, in such pieces. It takes no memory.
    pub fn write_front<K: Sink>(&mut self, front: &[u8], sink: &mut K) -> Result<(), Failed>
        ensures same { self.new ≡ self.old }
        ensures written { OnOk result (Writes (K.state sink.old) (K.state sink.new) front.now) }
        ensures failed { OnErr result (Breaks (K.state sink.old) (K.state sink.new) front.now) }
        ensures faults { Counts result (K.state sink.old).faults (K.state sink.new).faults }
    {
        self.pieces.write(front, sink)
    }

    /// Writes the line of a trace's summary. It takes no memory.
    pub fn write_summary<K: Sink>(&mut self, trace: &[Entry], sink: &mut K) -> Result<(), Failed>
        ensures same { self.new ≡ self.old }
        ensures written { OnOk result
            (Writes (K.state sink.old) (K.state sink.new) (summary_line (summary_of trace.now))) }
        ensures failed { OnErr result
            (Breaks (K.state sink.old) (K.state sink.new) (summary_line (summary_of trace.now))) }
        ensures faults { Counts result (K.state sink.old).faults (K.state sink.new).faults }
    {
        write_all(sink, self.printer.summary(trace))
    }
}
