//! The reply to a command.
ghost use Rattle.std.specs.Prelude.{◌≡◌, ◌↔◌, reverse, IsTrue};
ghost use Rattle.trace_model.specs.Entry.{is_refusal};
ghost use Rattle.trace_model.specs.Reply.{reply as reply_to};

use crate::acceptance::is_acceptance;
use crate::refusal::refusal;
use cam_types::{Command, Reply, Script, is_same_reply};
use judge_entries::entry::is_refusal;
use trace_model::Entry;

/// Whether the command gets the reply.
pub fn is_reply(script: &Script, entries: &[Entry], command: &Command, reply: Reply) -> bool
    ensures { IsTrue result ↔ (reply_to script.now (reverse entries.now) command.now ≡ reply) }
{
    match refusal(script, entries, command) {
        Some(refused) => is_same_reply(refused, reply),
        None => is_acceptance(script, entries, command, &reply),
    }
}

/// Whether the command is refused.
#[tactic(auto, using(crate::proofs::ReplyLemmas::accepted))]
pub fn is_refused(script: &Script, entries: &[Entry], command: &Command) -> bool
    ensures { result ≡ is_refusal (reply_to script.now (reverse entries.now) command.now) }
{
    match refusal(script, entries, command) {
        Some(refused) => is_refusal(&refused),
        None => false,
    }
}
