//! All refusals of a command.
ghost use Rattle.std.specs.Prelude.{◌≡◌, reverse};
ghost use Rattle.cam_types.specs.Refusals.{specs_refusal};
ghost use Rattle.trace_model.specs.Reply.{is_configure_command, own_refusal, refusal, state_refusal};

use crate::queue::queue_refusal;
use cam_types::{
    CLOSED, Command, DEVICE_FAILED, Item, ItemList, NOT_CONFIGURED, NOT_REPEATING, Profile,
    REPEATING, Reply, Script, SpecList,
};
use judge_entries::command::word_of;
use judge_entries::entry::is_closing_word;
use judge_filters::call::is_closed;
use judge_filters::configuration::{is_configured, streams};
use judge_filters::next::is_list_repeating;
use judge_filters::stopping::has_failed;
use request_checks::{items_refusal, list_refusal};
use std::slice;
use trace_model::Entry;

fn is_configure_command(command: &Command) -> bool
    ensures { result ≡ is_configure_command command.now }
{
    matches!(command, Command::Configure(_))
}

/// The refusal that the service's state gives.
pub fn state_refusal(entries: &[Entry], command: &Command) -> Option<Reply>
    ensures { result ≡ state_refusal (reverse entries.now) command.now }
{
    if is_closed(entries) {
        Some(Reply::refused(CLOSED))
    } else if is_closing_word(word_of(command)) {
        None
    } else if has_failed(entries) {
        Some(Reply::refused(DEVICE_FAILED))
    } else {
        Reply::refused_where(
            !is_configure_command(command) && !is_configured(entries),
            NOT_CONFIGURED,
        )
    }
}

/// The refusal of a configuration of the streams. It is the same for every device.
fn specs_refusal(specs: &SpecList) -> Option<Reply>
    ensures { result ≡ specs_refusal specs.now }
{
    match request_checks::check(specs, Profile::PLAIN) {
        Ok(_) => None,
        Err(refused) => Some(refused.reply()),
    }
}

/// The refusal of a `once`.
fn once_refusal(script: &Script, entries: &[Entry], item: &Item) -> Option<Reply>
    ensures { result ≡ own_refusal script.now (reverse entries.now) (Command.Once item.now) }
{
    let items = slice::from_ref(item);
    match items_refusal(streams(script, entries).len(), items) {
        Some(refused) => Some(refused),
        None => queue_refusal(script, entries, items),
    }
}

/// The refusal of a `burst`.
fn burst_refusal(script: &Script, entries: &[Entry], items: &ItemList) -> Option<Reply>
    ensures { result ≡ own_refusal script.now (reverse entries.now) (Command.Burst items.now) }
{
    match list_refusal(streams(script, entries).len(), items) {
        Some(refused) => Some(refused),
        None => queue_refusal(script, entries, items.as_slice()),
    }
}

/// The refusal that a command's own items, streams or conditions give.
pub fn own_refusal(script: &Script, entries: &[Entry], command: &Command) -> Option<Reply>
    ensures { result ≡ own_refusal script.now (reverse entries.now) command.now }
{
    match command {
        Command::Configure(specs) => specs_refusal(specs),
        Command::Once(item) => once_refusal(script, entries, item),
        Command::Burst(items) => burst_refusal(script, entries, items),
        Command::Repeat(items) => list_refusal(streams(script, entries).len(), items),
        Command::Stop => Reply::refused_where(!is_list_repeating(script, entries), NOT_REPEATING),
        Command::Await(_) => Reply::refused_where(
            !is_list_repeating(script, entries),
            NOT_REPEATING,
        ),
        Command::Wait => Reply::refused_where(is_list_repeating(script, entries), REPEATING),
        Command::Flush => None,
        Command::Close => None,
        Command::Disconnect => None,
    }
}

/// The first refusal of the command whose condition holds.
pub fn refusal(script: &Script, entries: &[Entry], command: &Command) -> Option<Reply>
    ensures { result ≡ refusal script.now (reverse entries.now) command.now }
{
    match state_refusal(entries, command) {
        Some(refused) => Some(refused),
        None => own_refusal(script, entries, command),
    }
}
