//! The values of an entry, by type.
ghost use Rattle.std.specs.Prelude.{◌≡◌, ◌<◌, ◌^◌, length};
ghost use Rattle.metadata.specs.Spelling.{rounded as rounded_up, data_of};
ghost use Rattle.metadata.specs.Values.{type_of, count_of, payload};

use crate::element::ElementType;
use cam_types::Listing;

/// The values of a BYTE entry.
pub type ByteList = Listing<u8>;

/// The values of an INT32 entry.
pub type Int32List = Listing<i32>;

/// The values of an INT64 entry.
pub type Int64List = Listing<i64>;

/// The values of a RATIONAL entry.
pub type RationalList = Listing<Ratio>;

/// A rational number, as it is written: neither reduced nor checked.
#[derive(Clone, Copy, Debug, PartialEq, Eq)]
pub struct Ratio {
    pub numerator: i32,
    pub denominator: i32,
}

/// The values of an entry.
#[derive(Drop)]
pub enum Values {
    Bytes(ByteList),
    Int32(Int32List),
    Int64(Int64List),
    Rational(RationalList),
}

impl Values {
    /// The type of the elements.
    pub fn element_type(&self) -> ElementType
        ensures { result ≡ type_of self.now }
    {
        match self {
            Values::Bytes(_) => ElementType::Byte,
            Values::Int32(_) => ElementType::Int32,
            Values::Int64(_) => ElementType::Int64,
            Values::Rational(_) => ElementType::Rational,
        }
    }

    /// The number of elements.
    pub fn count(&self) -> u32
        ensures { result ≡ count_of self.now }
    {
        match self {
            Values::Bytes(list) => list.len(),
            Values::Int32(list) => list.len(),
            Values::Int64(list) => list.len(),
            Values::Rational(list) => list.len(),
        }
    }

    /// How many bytes the elements have.
    pub(crate) fn payload_len(&self) -> usize
        ensures len { result ≡ length (payload self.now) }
        ensures bound { result < 2 ^ 36 }
    {
        self.count() as usize * self.element_type().element_len()
    }

    /// How many bytes of the data area the elements take.
    pub(crate) fn data_len(&self) -> usize
        ensures len { result ≡ length (data_of (payload self.now)) }
        ensures bound { result < 2 ^ 37 }
    {
        let len = self.payload_len();
        if len <= SHORT { 0 } else { rounded(len) }
    }
}

/// The longest payload that stands in the entry itself.
pub(crate) const SHORT: usize = 4;

/// The least multiple of 8 that is no less.
pub(crate) fn rounded(len: usize) -> usize
    requires { len < 2 ^ 36 }
    ensures { result ≡ rounded_up len }
{
    (len + 7) / 8 * 8
}
