//! The `begin` and the `call` of the next command.
ghost use Rattle.std.specs.Prelude.{◌≡◌, ◌+◌, ◌≤◌, ◌^◌, Option, IsTrue};
ghost use Rattle.cam_types.specs.Profile.{is_profile};
ghost use Rattle.state_facts.specs.Turns.{Turns as SomeTurns};
ghost use Rattle.state_facts.specs.Homes.{Homes as SomeHomes};
ghost use Rattle.state_facts.specs.Replies.{begin_with, call_with, idle_in, over_in, reply_in};
ghost use Rattle.client_calls.specs.Around.{IsAround};

use super::ClientCalls;
use crate::acceptance::acceptance;
use crate::around::Around;
use crate::command::{is_refusal, is_waiting, word_of};
use cam_types::{Command, Reply, Script};
use trace_model::Entry;

/// Whether nothing is in process and nothing waits.
fn is_idle(around: Around) -> bool
    ensures { (queue : SomeTurns) (homes : SomeHomes) → IsAround around queue homes →
        result ≡ idle_in around.quiet queue }
{
    around.quiet && around.waiting == 0
}

impl ClientCalls {
    /// The `begin` of the next command: it waits, and nothing has begun.
    pub(super) fn begin(&self, command: &Command) -> Option<Entry>
        ensures { result ≡ begin_with self.now.begun (Option.Some command.now) }
    {
        if is_waiting(command) && self.begun.is_none() {
            Some(Entry::Begin {
                word: word_of(command),
            })
        } else {
            None
        }
    }

    /// The reply to a command.
    fn reply(&self, script: &Script, around: Around, command: &Command) -> Reply
        requires profile { IsTrue (is_profile script.now.profile) }
        requires numbered { around.next_buffer + 72 ≤ 2 ^ 32 }
        ensures { (queue : SomeTurns) (homes : SomeHomes) → IsAround around queue homes →
            result ≡ reply_in script.now self.now queue homes command.now }
    {
        match self.refusal(script, around, command) {
            Some(refused) => refused,
            None => acceptance(script, around, command),
        }
    }

    /// Whether what an accepted command waits for is there.
    fn is_over(&self, around: Around, command: &Command) -> bool
        ensures { (queue : SomeTurns) (homes : SomeHomes) → IsAround around queue homes →
            result ≡ over_in around.quiet self.now queue homes command.now }
    {
        match command {
            Command::Flush => is_idle(around),
            Command::Disconnect => is_idle(around),
            Command::Configure(_) => is_idle(around) && around.all_home,
            Command::Wait => is_idle(around) && around.all_home,
            Command::Close => is_idle(around) && around.all_home,
            Command::Await(frames) => *frames <= self.done,
            Command::Once(_) => true,
            Command::Burst(_) => true,
            Command::Repeat(_) => true,
            Command::Stop => true,
        }
    }

    /// The call of the next command: it has begun, if it waits, and what it waits for is there, or it is refused.
    pub(super) fn call(&self, script: &Script, around: Around, command: &Command) -> Option<Entry>
        requires profile { IsTrue (is_profile script.now.profile) }
        requires numbered { around.next_buffer + 72 ≤ 2 ^ 32 }
        ensures { (queue : SomeTurns) (homes : SomeHomes) → IsAround around queue homes →
            result ≡ call_with script.now around.quiet self.now queue homes (Option.Some command.now) }
    {
        let reply = self.reply(script, around, command);
        let has_begun = !is_waiting(command) || self.begun.is_some();
        if has_begun && (is_refusal(&reply) || self.is_over(around, command)) {
            Some(Entry::Call {
                index: self.calls,
                word: word_of(command),
                reply,
            })
        } else {
            None
        }
    }
}
