//! Scripts: commands, faults and picks.
ghost use Rattle.std.specs.Prelude.{◌≡◌, ◌&&◌, nat_le, nat_lt, sum_by};
ghost use Rattle.std.specs.List.{list_all, list_any};
ghost use Rattle.cam_types.specs.Limits.{awaited_limit};
ghost use Rattle.cam_types.specs.Script.{awaited_by, command_fits, is_closing_command, is_valid, item_fits, spec_fits};

use crate::item::{Item, ItemList};
use crate::limit::{
    AWAITED_LIMIT, BURST_LIMIT, COMMAND_LIMIT, FAULT_LIMIT, PICK_LIMIT, REPEAT_LIMIT, SPEC_LIMIT,
    TARGET_LIMIT,
};
use crate::list::Listing;
use crate::number::{FrameNo, StreamIx};
use crate::profile::Profile;
use crate::stream::{SpecList, StreamSpec};

/// A client's command.
#[derive(Debug, Drop)]
pub enum Command {
    Configure(SpecList),
    Once(Item),
    Burst(ItemList),
    Repeat(ItemList),
    Stop,
    Wait,
    /// Waits until so many more repeating frames are done.
    Await(u32),
    Flush,
    Close,
    Disconnect,
}

/// A command's word.
#[derive(Clone, Copy, Debug, PartialEq, Eq)]
pub enum Word {
    Configure,
    Once,
    Burst,
    Repeat,
    Stop,
    Wait,
    Await,
    Flush,
    Close,
    Disconnect,
}

/// A fault that the device shall have.
#[derive(Clone, Copy, Debug, PartialEq, Eq)]
pub enum Fault {
    /// The capture of the frame fails whole.
    Request(FrameNo),
    /// The frame lacks its last partial result.
    Result(FrameNo),
    /// The frame's buffer for the stream can't be filled.
    Buffer(FrameNo, StreamIx),
    /// The device fails where the frame would have its shutter.
    Device(FrameNo),
}

/// The faults of a script.
pub type FaultList = Listing<Fault>;

/// The picks of a script: pick number j chooses step j of a run.
pub type PickList = Listing<u32>;

/// The commands of a script.
pub type CommandList = Listing<Command>;

/// A client script, as read, with the added `close`. `early` says that good buffers may go to the client before they
/// are filled.
#[derive(Debug, Drop)]
pub struct Script {
    pub version: u8,
    pub profile: Profile,
    pub early: bool,
    pub faults: FaultList,
    pub picks: PickList,
    pub commands: CommandList,
}

impl Command {
    /// Whether a script may hold the command.
    pub fn fits(&self) -> bool
        ensures { result ≡ command_fits self.now }
    {
        match self {
            Command::Configure(specs) => specs.len() <= SPEC_LIMIT
                && all_specs_fit(specs.as_slice()),
            Command::Once(item) => item.fits(),
            Command::Burst(items) => items.len() <= BURST_LIMIT && all_items_fit(items.as_slice()),
            Command::Repeat(items) => items.len() <= REPEAT_LIMIT
                && all_items_fit(items.as_slice()),
            Command::Await(frames) => *frames > 0,
            _ => true,
        }
    }

    /// Whether the command closes the device for good.
    pub fn is_closing(&self) -> bool
        ensures { result ≡ is_closing_command self.now }
    {
        matches!(self, Command::Close | Command::Disconnect)
    }

    /// How many repeating frames the command waits for.
    pub fn awaited(&self) -> u32
        ensures { result ≡ awaited_by self.now }
    {
        match self {
            Command::Await(frames) => *frames,
            _ => 0,
        }
    }
}

fn all_specs_fit(specs: &[StreamSpec]) -> bool
    ensures { result ≡ list_all spec_fits specs.now }
{
    specs.iter().all(|spec| spec.fits())
}

fn all_items_fit(items: &[Item]) -> bool
    ensures { result ≡ list_all item_fits items.now }
{
    items.iter().all(|item| item.fits())
}

fn all_commands_fit(commands: &[Command]) -> bool
    ensures { result ≡ list_all command_fits commands.now }
{
    commands.iter().all(|command| command.fits())
}

fn has_closing(commands: &[Command]) -> bool
    ensures { result ≡ list_any is_closing_command commands.now }
{
    commands.iter().any(|command| command.is_closing())
}

/// Whether the commands wait for no more repeating frames than a script may.
fn await_within_limit(commands: &[Command]) -> bool
    ensures { result ≡ nat_le (sum_by awaited_by commands.now) awaited_limit }
{
    let mut awaited: u64 = 0;
    for command in commands {
        awaited += command.awaited() as u64;
        if awaited > AWAITED_LIMIT {
            return false;
        }
    }
    true
}

impl Script {
    /// Whether all counts and numbers are within their limits, and a `close` or a `disconnect` stands among the
    /// commands. `script_text::read` gives valid scripts alone.
    pub fn is_valid(&self) -> bool
        ensures { result ≡ is_valid self.now }
    {
        let commands = self.commands.as_slice();
        self.profile.fits(self.version)
            && self.faults.len() <= FAULT_LIMIT
            && self.picks.len() <= PICK_LIMIT
            && self.commands.len() <= COMMAND_LIMIT
            && all_commands_fit(commands)
            && await_within_limit(commands)
            && has_closing(commands)
    }
}
