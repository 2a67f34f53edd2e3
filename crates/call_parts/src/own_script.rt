//! What the scripts that a call makes itself have in common.
ghost use Rattle.std.specs.Prelude.{◌≡◌, IfOk};
ghost use Rattle.call_parts.specs.OwnScripts.{for_first_stream, plain_script, small_stream};

use cam_types::{
    CommandList, FaultList, Format, Item, NoMemory, PickList, Profile, Script, Settings, SpecList,
    StreamSpec, Targets,
};
use std::alloc::Global;

/// `yuv:40x30`.
const SMALL: StreamSpec = StreamSpec {
    input: false,
    format: Format::Yuv,
    width: 40,
    height: 30,
};

/// `yuv:40x30` as stream 0.
pub fn small_stream(alloc: Global) -> Result<SpecList, NoMemory>
    ensures { IfOk result (λ list. list ≡ small_stream) }
{
    let mut streams = SpecList::new(alloc);
    streams.push(SMALL)?;
    Ok(streams)
}

/// The settings for stream 0.
pub fn for_first_stream(settings: Settings) -> Item
    ensures { result ≡ for_first_stream settings }
{
    Item {
        settings,
        targets: Targets {
            count: 1,
            list: [0; 8],
        },
    }
}

/// The script of the commands alone: of version 1, whose device has the plain profile, with no fault and no pick.
pub fn plain_script(alloc: Global, commands: CommandList) -> Script
    ensures { result ≡ plain_script commands }
{
    Script {
        version: 1,
        profile: Profile::PLAIN,
        early: false,
        faults: FaultList::new(alloc),
        picks: PickList::new(alloc),
        commands,
    }
}
