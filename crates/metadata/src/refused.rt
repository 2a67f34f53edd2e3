//! Why values or bytes are refused.
ghost use Rattle.std.specs.Prelude.{◌≡◌};
ghost use Rattle.metadata.specs.declared.refused.AddRefused.TheVariants.{NoMemory as NoMemoryToAdd};
ghost use Rattle.metadata.specs.declared.refused.PackedRefused.TheVariants.{NoMemory as NoMemoryToRead};

use std::alloc::{AllocError, AllocFailed};

/// Why values were not added. The causes are tried in this order.
#[derive(Clone, Copy, Debug, PartialEq, Eq)]
pub enum AddRefused {
    /// There are no values, or more than 1,024.
    Count,
    /// The tag is there.
    Repeated,
    /// There would be more than 64 entries, or more than 4,096 bytes of data.
    Full,
    NoMemory,
}

impl<T: Drop> From<AllocFailed<T>> for AddRefused {
    ghost from_gives = { λ _ e. e ≡ NoMemoryToAdd };

    fn from(_e: AllocFailed<T>) -> AddRefused {
        AddRefused::NoMemory
    }
}

/// Why bytes were not read.
#[derive(Clone, Copy, Debug, PartialEq, Eq)]
pub enum PackedRefused {
    /// 1: there are fewer bytes than the header or the whole length has.
    Short,
    /// 2: a field of the header breaks its rule, or there are more bytes than the whole length says.
    BadHeader,
    /// 3: an entry has no type of the four, or a reserved byte that isn't zero.
    BadType,
    /// 4: an entry has no element, or more than 1,024.
    BadCount,
    /// 5: payloads don't tile the data area, pass it, leave bytes of it, or aren't filled up with zeros.
    Overlap,
    /// 6: a tag is below the one before it.
    Unsorted,
    /// 7: a tag equals the one before it.
    Repeated,
    NoMemory,
}

impl From<AllocError> for PackedRefused {
    ghost from_gives = { λ _ e. e ≡ NoMemoryToRead };

    fn from(_e: AllocError) -> PackedRefused {
        PackedRefused::NoMemory
    }
}

impl<T: Drop> From<AllocFailed<T>> for PackedRefused {
    ghost from_gives = { λ _ e. e ≡ NoMemoryToRead };

    fn from(_e: AllocFailed<T>) -> PackedRefused {
        PackedRefused::NoMemory
    }
}
