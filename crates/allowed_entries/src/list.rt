//! The list of what is allowed, as it grows.
ghost use Rattle.std.specs.Prelude.{◌≡◌, ◌++◌, OnOk, option_to_list};
ghost use Rattle.allowed_entries.specs.Known.{shown};

use crate::entry::{AllowedEntry, known_of};
use cam_types::NoMemory;
use trace_model::Entry;

/// Adds an entry, where there is one.
pub(crate) fn add(
    list: &mut Vec<AllowedEntry>,
    allowed: Option<AllowedEntry>,
) -> Result<(), NoMemory>
    ensures { OnOk result (list.new.items ≡ list.old.items ++ option_to_list allowed) }
{
    if let Some(allowed) = allowed {
        list.push(allowed)?;
    }
    Ok(())
}

/// Adds what is told of an entry that is due, where one is.
pub(crate) fn add_due(list: &mut Vec<AllowedEntry>, due: Option<Entry>) -> Result<(), NoMemory>
    ensures { OnOk result (list.new.items ≡ list.old.items ++ shown due) }
{
    if let Some(entry) = due {
        list.push(known_of(entry))?;
    }
    Ok(())
}
