//! What is due of the next frame, of the client, and of the device as a whole.
ghost use Rattle.std.specs.Prelude.{◌≡◌, ◌<◌, ◌^◌, ◌+◌, ◌++◌, IsTrue, OnOk, length};
ghost use Rattle.cam_types.specs.Profile.{is_profile};
ghost use Rattle.allowed_entries.specs.Readings.{ends_in, next_in};

use crate::entry::AllowedEntry;
use crate::list::{add, add_due};
use crate::sends::send_due;
use cam_types::{NoMemory, Script};
use judge_rows::JudgeTables;
use trace_check::client::client_due;
use trace_check::drop_due;
use trace_check::exposures::error_device_due;

/// Adds what is due of the next frame.
#[tactic(auto, unfolding(crate::specs::Readings::next_in))]
pub(crate) fn add_next(
    list: &mut Vec<AllowedEntry>,
    script: &Script,
    tables: &JudgeTables,
) -> Result<(), NoMemory>
    ensures { OnOk result (list.new.items ≡ list.old.items ++ next_in script.now tables.now.state) }
{
    add(list, send_due(script, tables))?;
    add_due(list, drop_due(tables))
}

/// Adds the begin or the call that is due, and the device's failure.
#[tactic(auto, using(crate::proofs::Client::begin_or_call), unfolding(crate::specs::Readings::ends_in))]
pub(crate) fn add_ends(
    list: &mut Vec<AllowedEntry>,
    script: &Script,
    tables: &JudgeTables,
) -> Result<(), NoMemory>
    requires profile { IsTrue (is_profile script.now.profile) }
    requires numbered { tables.now.state.buffers.first + (length tables.now.state.buffers.places + 72) < 2 ^ 32 }
    ensures { OnOk result (list.new.items ≡ list.old.items ++ ends_in script.now tables.now.state) }
{
    add_due(list, client_due(script, tables))?;
    add_due(list, error_device_due(script, tables))
}
