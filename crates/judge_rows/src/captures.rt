//! What an entry does to the queue.
ghost use Rattle.std.specs.Prelude.{◌≡◌, length};
ghost use Rattle.trace_model.specs.Calls.{command_at};
ghost use Rattle.state_facts.specs.Turns.{turns_after};
ghost use Rattle.judge_rows.specs.Judged.{CanCapture, CanTakeAt, TakesOne};

use cam_types::{Reply, Script, Word};
use client_calls::CaptureQueue;
use trace_model::Entry;

/// Does what an answered call of the script's command at the place asks of the queue.
fn note_call(captures: &mut CaptureQueue, script: &Script, index: u32, word: Word, reply: &Reply)
    requires place { CanTakeAt captures.old.turns (command_at script.now index) word reply.now }
    requires room { TakesOne captures.old.turns.requests captures.old.room reply.now }
    requires kinds { length captures.old.kinds ≡ captures.old.turns.requests }
    ensures turns { captures.new.turns ≡ turns_after script.now (Entry.Call index word reply.now) captures.old.turns }
    ensures kinds { length captures.new.kinds ≡ captures.new.turns.requests }
    ensures room { captures.new.room ≡ captures.old.room }
{
    match script.commands.get(index) {
        Some(command) => captures.call(command, reply),
        None => unreachable!(),
    }
}

/// Notes an entry.
pub(crate) fn note_captures(captures: &mut CaptureQueue, script: &Script, entry: &Entry)
    requires can { CanCapture script.now captures.old.turns captures.old.room entry.now }
    requires kinds { length captures.old.kinds ≡ captures.old.turns.requests }
    ensures turns { captures.new.turns ≡ turns_after script.now entry.now captures.old.turns }
    ensures kinds { length captures.new.kinds ≡ captures.new.turns.requests }
    ensures room { captures.new.room ≡ captures.old.room }
{
    match entry {
        Entry::Call { index, word, reply } => note_call(captures, script, *index, *word, reply),
        Entry::Send { .. } => captures.send(),
        Entry::Dropped { .. } => captures.drop_first(),
        _ => {}
    }
}
