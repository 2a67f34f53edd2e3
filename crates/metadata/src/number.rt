//! Single numbers out of the values of an entry, and back.
ghost use Rattle.std.specs.Prelude.{◌≡◌, Some};
ghost use Rattle.metadata.specs.Entries.{values_at};
ghost use Rattle.metadata.specs.Numbers.{one_byte as byte_of, one_int32 as int32_of, one_int64 as int64_of};

use crate::{Packed, Values};

fn one_byte(values: &Values) -> Option<u8>
    ensures { result ≡ byte_of (Some values.now) }
{
    match values {
        Values::Bytes(list) => match list.as_slice() {
            [number] => Some(*number),
            _ => None,
        },
        Values::Int32(_) => None,
        Values::Int64(_) => None,
        Values::Rational(_) => None,
    }
}

fn one_int32(values: &Values) -> Option<u32>
    ensures { result ≡ int32_of (Some values.now) }
{
    match values {
        Values::Int32(list) => match list.as_slice() {
            [number] => {
                if *number >= 0 {
                    Some(*number as u32)
                } else {
                    None
                }
            }
            _ => None,
        },
        Values::Bytes(_) => None,
        Values::Int64(_) => None,
        Values::Rational(_) => None,
    }
}

fn one_int64(values: &Values) -> Option<u64>
    ensures { result ≡ int64_of (Some values.now) }
{
    match values {
        Values::Int64(list) => match list.as_slice() {
            [number] => {
                if *number >= 0 {
                    Some(*number as u64)
                } else {
                    None
                }
            }
            _ => None,
        },
        Values::Bytes(_) => None,
        Values::Int32(_) => None,
        Values::Rational(_) => None,
    }
}

/// The one byte under a tag.
pub(crate) fn byte_at(packed: &Packed, tag: u32) -> Option<u8>
    ensures { result ≡ byte_of (values_at tag packed.now) }
{
    match packed.find(tag) {
        Some(values) => one_byte(values),
        None => None,
    }
}

/// The one INT32 under a tag, if it isn't negative.
pub(crate) fn int32_at(packed: &Packed, tag: u32) -> Option<u32>
    ensures { result ≡ int32_of (values_at tag packed.now) }
{
    match packed.find(tag) {
        Some(values) => one_int32(values),
        None => None,
    }
}

/// The one INT64 under a tag, if it isn't negative.
pub(crate) fn int64_at(packed: &Packed, tag: u32) -> Option<u64>
    ensures { result ≡ int64_of (values_at tag packed.now) }
{
    match packed.find(tag) {
        Some(values) => one_int64(values),
        None => None,
    }
}
