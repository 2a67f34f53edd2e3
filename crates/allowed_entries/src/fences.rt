//! The signals that are due, of fences and of device fences.
ghost use Rattle.std.specs.Prelude.{◌≡◌, ◌++◌, OnOk};
ghost use Rattle.allowed_entries.specs.Readings.{lates_in, signals_in};

use crate::entry::AllowedEntry;
use crate::list::{add, add_due};
use crate::pictures::late_due;
use cam_types::{DeviceFenceNo, FenceNo, NoMemory};
use judge_rows::JudgeTables;

/// Adds the signals that are due of the first so many fences.
pub(crate) fn add_signals(
    list: &mut Vec<AllowedEntry>,
    tables: &JudgeTables,
    count: u32,
) -> Result<(), NoMemory>
    ensures { OnOk result (list.new.items ≡ list.old.items ++ signals_in tables.now.state.buffers count) }
{
    for number in 0..count {
        add_due(list, tables.homes().signal_due(FenceNo(number)))?;
    }
    Ok(())
}

/// Adds the signals that are due of the first so many device fences.
pub(crate) fn add_lates(
    list: &mut Vec<AllowedEntry>,
    tables: &JudgeTables,
    count: u32,
) -> Result<(), NoMemory>
    ensures { OnOk result (list.new.items ≡ list.old.items ++ lates_in tables.now.state count) }
{
    for number in 0..count {
        add(list, late_due(tables, DeviceFenceNo(number)))?;
    }
    Ok(())
}
