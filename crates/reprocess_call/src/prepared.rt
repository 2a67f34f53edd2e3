//! A run with all its memory taken: the device is opened, and room for printing is there, before the first step.
ghost use Rattle.std.specs.Prelude.{◌≡◌, IfOk, IsTrue};
ghost use Rattle.call_parts.specs.Answers.{Answers};
ghost use Rattle.reprocess_model.specs.Plan.{is_plan};
ghost use Rattle.reprocess_call.specs.Lines.{run_text};
ghost use Rattle.reprocess_call.specs.Reprocess.{PlaysPlan};
ghost use Rattle.call_parts.specs.Status.{status_number};

use crate::RunWriter;
use crate::player::play;
use call_parts::Status;
use cam_types::NoMemory;
use io_edge::Sink;
use reprocess_core::Reprocess;
use reprocess_model::{Plan, ReEntry};
use std::alloc::Global;
use std::marker::Model;

/// A run that isn't begun, with all the memory that it and its printing need. A contract sees its plan. It can't be let
/// go: `play_prepared` ends it.
pub struct Prepared {
    device: Reprocess,
    writer: RunWriter,
}

impl Model for Prepared {
    ghost use Rattle.std.specs.Prelude.{◌≡◌, []};
    ghost use Rattle.reprocess_model.specs.declared.plan.Plan.{Plan as APlan};

    ghost Value = { APlan };

    ghost view = { λ p. p.device.plan };

    ghost invariant = { λ p. p.device.past ≡ [] };
}

/// Takes all the memory that the run of a plan and its printing need.
pub fn prepare(alloc: Global, plan: Plan) -> Result<Prepared, NoMemory>
    requires { IsTrue (is_plan plan) }
    ensures { IfOk result (λ prepared. prepared ≡ plan) }
{
    let writer = RunWriter::new(alloc)?;
    let device = Reprocess::open(alloc, plan)?;
    Ok(Prepared { device, writer })
}

/// Plays the run, and writes it. It takes no memory: the status is 0, or 4 where the sink failed.
pub fn play_prepared<K: Sink>(prepared: Prepared, sink: &mut K) -> Status
    ensures { PlaysPlan prepared (status_number result) (K.state sink.old) (K.state sink.new) }
{
    let Prepared {
        mut device,
        mut writer,
    } = prepared;
    play(&mut device);
    let status = write_lines(&mut writer, device.lines(), sink);
    device.scrap();
    status
}

/// Writes the lines of a run.
fn write_lines<K: Sink>(writer: &mut RunWriter, lines: &[ReEntry], sink: &mut K) -> Status
    ensures { Answers 0 (run_text lines.now) (status_number result) (K.state sink.old) (K.state sink.new) }
{
    match writer.write(lines, sink) {
        Ok(()) => Status::Done,
        Err(_) => Status::SinkFailed,
    }
}
