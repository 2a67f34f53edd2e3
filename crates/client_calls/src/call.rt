//! What an answered call asks of the queue.
ghost use Rattle.std.specs.Prelude.{◌≡◌, ℕ, ◌+◌, ◌≤◌, [], ◌∷◌, ◌++◌, false, Option, length};
ghost use Rattle.cam_types.specs.Limits.{queue_limit};
ghost use Rattle.cam_types.specs.declared.reply.Reply.TheVariants.{Ok as Accepted, Submitted};
ghost use Rattle.cam_types.specs.declared.script.Script.{Script as SomeScript};
ghost use Rattle.trace_model.specs.declared.entry.Entry.TheVariants.{Call};
ghost use Rattle.trace_model.specs.Calls.{command_at, is_repeat, word_of};
ghost use Rattle.trace_model.specs.Queue.{is_clearing_word};
ghost use Rattle.client_calls.specs.Requests.{named};
ghost use Rattle.state_facts.specs.Turns.{turns_after};
ghost use Rattle.client_calls.specs.Views.{turns_of};
ghost use Rattle.client_calls.specs.Captures.{HasPlace};

use crate::{Queue, QueueFull};
use cam_types::{Command, Item, ItemList, RequestId};

/// Whether the command repeats its items.
pub(crate) fn is_repeat(command: &Command) -> bool
    ensures { result ≡ is_repeat (Option.Some command.now) }
{
    matches!(command, Command::Repeat(_))
}

/// Whether the command, once accepted, takes the list that repeats away.
fn is_clearing(command: &Command) -> bool
    ensures { result ≡ is_clearing_word (word_of command.now) }
{
    matches!(
        command,
        Command::Stop
            | Command::Flush
            | Command::Configure(_)
            | Command::Close
            | Command::Disconnect
    )
}

/// Appends the item of a `once`, for which there is room.
fn append_one(queue: &mut Queue, request: RequestId, item: Item)
    requires { length queue.old.queued + 1 ≤ queue_limit }
    ensures { queue.new ≡ record queue.old { queued = queue.old.queued ++ named request 0 (item ∷ []) } }
{
    match queue.push_one(request, item) {
        Ok(()) => {}
        Err(QueueFull) => unreachable!(),
    }
}

/// Appends the items of a `burst`, for which there is room.
fn append_list(queue: &mut Queue, request: RequestId, items: &ItemList)
    requires { length queue.old.queued + length items.now ≤ queue_limit }
    ensures { queue.new ≡ record queue.old { queued = queue.old.queued ++ named request 0 items.now } }
{
    match queue.push_list(request, items) {
        Ok(()) => {}
        Err(QueueFull) => unreachable!(),
    }
}

/// Takes the items of a command that was accepted as the request.
pub(crate) fn submit(queue: &mut Queue, request: RequestId, command: &Command)
    requires { HasPlace (turns_of queue.old 0 0) command.now }
    ensures { (script : SomeScript) (n m i : ℕ) → command_at script i ≡ Option.Some command.now →
        turns_of queue.new n (request.0 + 1)
        ≡ turns_after script (Call i (word_of command.now) (Submitted request)) (turns_of queue.old n m) }
{
    match command {
        Command::Once(item) => append_one(queue, request, *item),
        Command::Burst(items) => append_list(queue, request, items),
        Command::Repeat(items) => queue.set_repeat(request, items),
        _ => unreachable!(),
    }
}

/// Takes the list that repeats away, where an accepted command asks for it.
pub(crate) fn clear(queue: &mut Queue, command: &Command)
    ensures { (script : SomeScript) (n m i : ℕ) → is_repeat (Option.Some command.now) ≡ false →
        turns_of queue.new n m ≡ turns_after script (Call i (word_of command.now) Accepted) (turns_of queue.old n m) }
{
    if is_clearing(command) {
        queue.clear_repeat();
    }
}
