//! What a place of a line may ask for.

/// What a place of a line may ask for (docs/FORMATS.md, Script text and Trace text).
#[derive(Clone, Copy, PartialEq, Eq)]
pub enum WordKind {
    /// A word that isn't looked at.
    Any,
    /// A number of 32 bits.
    Number,
    /// A number of 8 bits: a stream, or the code of a refusal.
    Byte,
    /// A number of 32 bits from 1 on.
    Count,
    /// A number of a profile, from 1 to 16.
    ProfileNumber,
    /// A number of 64 bits.
    Time,
    /// 1, 2 or 3.
    PartNumber,
    /// `SETTINGS@TARGETS`.
    Item,
    /// `FORMAT:WxH`, or that behind `in:`.
    Spec,
    /// `bB`.
    Buffer,
    /// `fF`.
    Fence,
    /// `fF` or `-`.
    FenceOrNone,
    /// `dK`.
    DeviceFence,
    /// `rR.I`.
    ItemName,
    /// `rR` or `S:bB+C`.
    Reply,
    /// `S:bB:F`.
    Target,
    /// Hexadecimal digits, two for each byte.
    Bytes,
    /// 64 hexadecimal digits.
    Digest,
}
