//! The conditions of the client's entries.
ghost use Rattle.std.specs.Prelude.{◌≡◌, Some, reverse, option_copied};
ghost use Rattle.rule_conditions.specs.Parts.{over_holds};
ghost use Rattle.trace_model.specs.Place.{Client, is_at, place};
ghost use Rattle.rule_conditions.specs.Client.{begin_holds, call_holds, has_awaited, has_reply, has_word, release_holds};
ghost use Rattle.rule_conditions.specs.Client.{signal_holds, waits, waits_for_idle, waits_for_pool, where_accepted};

use crate::Condition;
use cam_types::{BufferId, Command, FenceNo, Reply, Script, Word};
use judge_entries::command::{is_waiting_command, next_command, word_of};
use judge_entries::number::{call_count, next_fence};
use judge_filters::call::begun;
use judge_filters::fence::{early_fence_of, is_signalled, is_there};
use judge_filters::open::is_quiet;
use judge_filters::place::is_at_client;
use judge_rules::over::is_queue_empty;
use judge_rules::pool::all_in_pool;
use judge_rules::reply::{is_refused, is_reply};
use judge_rules::since::done_since_begin;
use trace_model::Entry;

/// Whether the client has the buffer.
fn is_held(entries: &[Entry], buffer: BufferId) -> bool
    ensures { result ≡ is_at (place buffer.0 (reverse entries.now)) Client }
{
    is_at_client(entries, u64::from(buffer.0))
}

/// Whether the release of the buffer with the fence meets the condition.
pub fn release_holds(
    condition: Condition,
    entries: &[Entry],
    buffer: BufferId,
    fence: FenceNo,
) -> bool
    ensures { result ≡ release_holds condition (reverse entries.now) buffer.0 fence.0 }
{
    match condition {
        Condition::ReleaseAtClient => is_held(entries, buffer),
        Condition::ReleaseBehindPicture => is_there(entries, early_fence_of(entries, buffer)),
        Condition::ReleaseNextFence => fence.0 as usize == next_fence(entries),
        _ => true,
    }
}

/// Whether the signal of the fence meets the condition.
pub fn signal_holds(condition: Condition, entries: &[Entry], fence: FenceNo) -> bool
    ensures { result ≡ signal_holds condition (reverse entries.now) fence.0 }
{
    match condition {
        Condition::SignalBehindRelease => (fence.0 as usize) < next_fence(entries),
        Condition::SignalToldOnce => !is_signalled(entries, fence),
        _ => true,
    }
}

/// Whether there is a command, and it waits.
fn waits(command: Option<&Command>) -> bool
    ensures { result ≡ waits (option_copied command.entry) }
{
    match command {
        Some(command) => is_waiting_command(command),
        None => false,
    }
}

/// Whether there is a command, and it has the word.
fn has_word(command: Option<&Command>, word: Word) -> bool
    ensures { result ≡ has_word (option_copied command.entry) word }
{
    match command {
        Some(command) => word_of(command) == word,
        None => false,
    }
}

/// Whether the begin of a command with the word meets the condition.
pub fn begin_holds(condition: Condition, script: &Script, entries: &[Entry], word: Word) -> bool
    ensures { result ≡ begin_holds condition script.now (reverse entries.now) word }
{
    match condition {
        Condition::BeginOfWaitingCommand => waits(next_command(script, entries)),
        Condition::BeginWord => has_word(next_command(script, entries), word),
        Condition::BeginToldOnce => !begun(entries).is_some(),
        _ => true,
    }
}

/// Whether the reply is that of the command, where there is one.
fn has_reply(script: &Script, entries: &[Entry], command: Option<&Command>, reply: Reply) -> bool
    ensures { result ≡ has_reply script.now (reverse entries.now) (option_copied command.entry) reply }
{
    match command {
        Some(command) => is_reply(script, entries, command, reply),
        None => true,
    }
}

fn waits_for_idle(command: &Command) -> bool
    ensures { result ≡ waits_for_idle command.now }
{
    match command {
        Command::Flush | Command::Disconnect => true,
        Command::Configure(_) | Command::Wait | Command::Close => true,
        Command::Once(_) | Command::Burst(_) | Command::Repeat(_) => false,
        Command::Stop | Command::Await(_) => false,
    }
}

fn waits_for_pool(command: &Command) -> bool
    ensures { result ≡ waits_for_pool command.now }
{
    match command {
        Command::Configure(_) | Command::Wait | Command::Close => true,
        Command::Flush | Command::Disconnect => false,
        Command::Once(_) | Command::Burst(_) | Command::Repeat(_) => false,
        Command::Stop | Command::Await(_) => false,
    }
}

fn has_awaited(script: &Script, entries: &[Entry], command: &Command) -> bool
    ensures { result ≡ has_awaited script.now (reverse entries.now) command.now }
{
    match command {
        Command::Await(frames) => *frames as usize <= done_since_begin(script, entries),
        Command::Configure(_) | Command::Wait | Command::Close => true,
        Command::Flush | Command::Disconnect => true,
        Command::Once(_) | Command::Burst(_) | Command::Repeat(_) | Command::Stop => true,
    }
}

/// Whether what the condition asks of an accepted command is over.
fn over_holds(condition: Condition, script: &Script, entries: &[Entry], command: &Command) -> bool
    ensures { result ≡ over_holds condition script.now (reverse entries.now) command.now }
{
    match condition {
        Condition::CallNoFrameOpen => !waits_for_idle(command) || is_quiet(entries),
        Condition::CallQueueEmpty => !waits_for_idle(command) || is_queue_empty(script, entries),
        Condition::CallAllInPool => !waits_for_pool(command) || all_in_pool(entries),
        Condition::CallAwaitedFrames => has_awaited(script, entries, command),
        _ => true,
    }
}

/// Whether the next command, where there is one, is refused, or what the condition asks of it is over.
fn where_accepted(
    condition: Condition,
    script: &Script,
    entries: &[Entry],
    command: Option<&Command>,
) -> bool
    ensures { let past = reverse entries.now in
        result ≡
        where_accepted script.now past (option_copied command.entry) (over_holds condition script.now past) }
{
    match command {
        Some(command) => is_refused(script, entries, command)
            || over_holds(condition, script, entries, command),
        None => true,
    }
}

/// Whether the call meets the condition.
pub fn call_holds(
    condition: Condition,
    script: &Script,
    entries: &[Entry],
    index: u32,
    word: Word,
    reply: Reply,
) -> bool
    ensures { result ≡ call_holds condition script.now (reverse entries.now) index word reply }
{
    let command = next_command(script, entries);
    match condition {
        Condition::CallNextIndex => index as usize == call_count(entries),
        Condition::CallWord => has_word(command, word),
        Condition::CallBehindBegin => !waits(command) || begun(entries).is_some(),
        Condition::CallReply => has_reply(script, entries, command, reply),
        Condition::CallNoFrameOpen => where_accepted(condition, script, entries, command),
        Condition::CallQueueEmpty => where_accepted(condition, script, entries, command),
        Condition::CallAllInPool => where_accepted(condition, script, entries, command),
        Condition::CallAwaitedFrames => where_accepted(condition, script, entries, command),
        _ => true,
    }
}
