//! Lists that take one more entry.
ghost use Rattle.std.specs.Prelude.{◌≡◌, ◌++◌, ◌∷◌, [], OnOk};

use cam_types::{Listing, NoMemory};
use std::alloc::AllocError;

/// Appends an entry. A list that is full has no memory for one.
pub fn append<T: Drop>(list: &mut Listing<T>, entry: T) -> Result<(), NoMemory>
    ensures { OnOk result (list.new ≡ list.old ++ entry ∷ []) }
{
    if list.len() == u32::MAX {
        return Err(AllocError);
    }
    list.push(entry)
}
