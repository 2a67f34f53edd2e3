//! All refusals of a command, in the order of their conditions.
ghost use Rattle.std.specs.Prelude.{◌≡◌, List, length, IsTrue};
ghost use Rattle.cam_types.specs.declared.item.Item.{Item as SomeItem};
ghost use Rattle.cam_types.specs.Profile.{is_profile};
ghost use Rattle.cam_types.specs.Refusals.{or_else, specs_refusal};
ghost use Rattle.state_facts.specs.Turns.{Turns as SomeTurns};
ghost use Rattle.state_facts.specs.Homes.{Homes as SomeHomes};
ghost use Rattle.state_facts.specs.Replies.{own_refusal_in, queue_refusal_in, state_refusal_in};
ghost use Rattle.client_calls.specs.Around.{IsAround};

use super::ClientCalls;
use crate::around::Around;
use crate::command::{is_closing, is_configure, word_of};
use crate::streams::stream_count;
use cam_types::{
    CLOSED, Command, DEVICE_FAILED, Item, ItemList, NOT_CONFIGURED, NOT_REPEATING, Profile,
    QUEUE_FULL, QUEUE_LIMIT, REPEATING, Reply, Script, SpecList,
};
use request_checks::{items_refusal, list_refusal};
use std::slice;

/// The refusal of a configuration of the streams. It is the same for every device.
fn specs_refusal(specs: &SpecList, profile: Profile) -> Option<Reply>
    requires { IsTrue (is_profile profile) }
    ensures { result ≡ specs_refusal specs.now }
{
    match request_checks::check(specs, profile) {
        Ok(_) => None,
        Err(refused) => Some(refused.reply()),
    }
}

/// The refusal of so many further items, where more would wait than the queue takes.
fn queue_refusal(around: Around, count: u32) -> Option<Reply>
    ensures { (queue : SomeTurns) (homes : SomeHomes) (items : List SomeItem) → IsAround around queue homes →
        length items ≡ count → result ≡ queue_refusal_in queue items }
{
    let waiting = around.waiting as u64 + count as u64;
    Reply::refused_where(waiting > QUEUE_LIMIT as u64, QUEUE_FULL)
}

impl ClientCalls {
    /// The refusal that the service's state gives.
    fn state_refusal(&self, command: &Command) -> Option<Reply>
        ensures { result ≡ state_refusal_in self.now command.now }
    {
        if self.closed {
            Some(Reply::refused(CLOSED))
        } else if is_closing(word_of(command)) {
            None
        } else if self.failed {
            Some(Reply::refused(DEVICE_FAILED))
        } else {
            Reply::refused_where(!is_configure(command) && !self.configured, NOT_CONFIGURED)
        }
    }

    /// The refusal of a `once`.
    fn once_refusal(&self, around: Around, item: &Item) -> Option<Reply>
        ensures { (queue : SomeTurns) (homes : SomeHomes) → IsAround around queue homes →
            result ≡ own_refusal_in self.now queue (Command.Once item.now) }
    {
        let items = slice::from_ref(item);
        match items_refusal(stream_count(self.streams), items) {
            Some(refused) => Some(refused),
            None => queue_refusal(around, 1),
        }
    }

    /// The refusal of a `burst`.
    fn burst_refusal(&self, around: Around, items: &ItemList) -> Option<Reply>
        ensures { (queue : SomeTurns) (homes : SomeHomes) → IsAround around queue homes →
            result ≡ own_refusal_in self.now queue (Command.Burst items.now) }
    {
        match list_refusal(stream_count(self.streams), items) {
            Some(refused) => Some(refused),
            None => queue_refusal(around, items.len()),
        }
    }

    /// The refusal that a command's own items, streams or conditions give.
    fn own_refusal(&self, script: &Script, around: Around, command: &Command) -> Option<Reply>
        requires { IsTrue (is_profile script.now.profile) }
        ensures { (queue : SomeTurns) (homes : SomeHomes) → IsAround around queue homes →
            result ≡ own_refusal_in self.now queue command.now }
    {
        match command {
            Command::Configure(specs) => specs_refusal(specs, script.profile),
            Command::Once(item) => self.once_refusal(around, item),
            Command::Burst(items) => self.burst_refusal(around, items),
            Command::Repeat(items) => list_refusal(stream_count(self.streams), items),
            Command::Stop => Reply::refused_where(!around.is_repeating, NOT_REPEATING),
            Command::Await(_) => Reply::refused_where(!around.is_repeating, NOT_REPEATING),
            Command::Wait => Reply::refused_where(around.is_repeating, REPEATING),
            Command::Flush => None,
            Command::Close => None,
            Command::Disconnect => None,
        }
    }

    /// The first refusal of the command whose condition holds.
    pub(super) fn refusal(
        &self,
        script: &Script,
        around: Around,
        command: &Command,
    ) -> Option<Reply>
        requires { IsTrue (is_profile script.now.profile) }
        ensures { (queue : SomeTurns) (homes : SomeHomes) → IsAround around queue homes →
            result ≡ or_else (state_refusal_in self.now command.now) (own_refusal_in self.now queue command.now) }
    {
        match self.state_refusal(command) {
            Some(refused) => Some(refused),
            None => self.own_refusal(script, around, command),
        }
    }
}
