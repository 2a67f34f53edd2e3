//! Worked bytes of packed metadata, and each refusal of bytes.
use cam_types::Settings;
use metadata::{Packed, PackedRefused, Ratio, SettingsRefused, Values, packed_of, settings_of};
use std::test::Fail;

/// Two entries: the byte 0 under 0x80000000, and the INT32 100 under 0x80000001.
const LOOK: [u8; 48] = [
    1, 0, 0, 0, 2, 0, 0, 0, 0, 0, 0, 0, 48, 0, 0, 0, // the header
    0, 0, 0, 128, 1, 0, 0, 0, 0, 0, 0, 0, 0, 0, 0, 0, // the byte
    1, 0, 0, 128, 1, 0, 0, 0, 100, 0, 0, 0, 1, 0, 0, 0, // the INT32
];

/// An entry of each type: -1 / 3, the INT32 -1, the least INT64, and five bytes.
const EACH_TYPE: [u8; 104] = [
    1, 0, 0, 0, 4, 0, 0, 0, 24, 0, 0, 0, 104, 0, 0, 0, // the header
    6, 0, 0, 0, 1, 0, 0, 0, 0, 0, 0, 0, 5, 0, 0, 0, // the RATIONAL
    7, 0, 0, 0, 1, 0, 0, 0, 255, 255, 255, 255, 1, 0, 0, 0, // the INT32
    8, 0, 0, 0, 1, 0, 0, 0, 8, 0, 0, 0, 3, 0, 0, 0, // the INT64
    9, 0, 0, 0, 5, 0, 0, 0, 16, 0, 0, 0, 0, 0, 0, 0, // the bytes
    255, 255, 255, 255, 3, 0, 0, 0, 0, 0, 0, 0, 0, 0, 0, 128, 1, 2, 3, 4, 5, 0, 0, 0, // the data area
];

const GREY: Settings = Settings {
    pattern: 0,
    level: 100,
    exposure: 10_000_000,
    iso: 100,
};

/// These settings under their tags.
const GREY_BYTES: [u8; 88] = [
    1, 0, 0, 0, 4, 0, 0, 0, 8, 0, 0, 0, 88, 0, 0, 0, // the header
    0, 0, 0, 128, 1, 0, 0, 0, 0, 0, 0, 0, 0, 0, 0, 0, // the pattern, a byte
    1, 0, 0, 128, 1, 0, 0, 0, 100, 0, 0, 0, 1, 0, 0, 0, // the level, an INT32
    2, 0, 0, 128, 1, 0, 0, 0, 0, 0, 0, 0, 3, 0, 0, 0, // the exposure, an INT64
    3, 0, 0, 128, 1, 0, 0, 0, 100, 0, 0, 0, 1, 0, 0, 0, // the sensitivity, an INT32
    128, 150, 152, 0, 0, 0, 0, 0, // the data area
];

/// A place in the first list, the byte that is put there, and the refusal.
const CHANGES: &[(usize, u8, PackedRefused)] = &[
    (0, 2, PackedRefused::BadHeader),
    (12, 49, PackedRefused::BadHeader),
    (28, 2, PackedRefused::BadType),
    (28, 4, PackedRefused::BadType),
    (29, 1, PackedRefused::BadType),
    (20, 0, PackedRefused::BadCount),
    (22, 1, PackedRefused::BadCount),
    (25, 1, PackedRefused::Overlap),
    (20, 5, PackedRefused::Overlap),
    (16, 2, PackedRefused::Unsorted),
    (32, 0, PackedRefused::Repeated),
];

#[test]
fn packed_lists_have_the_worked_bytes(rt: HostRuntime) -> Result<(), Fail> {
    let list = Packed::read(rt.alloc(), &EACH_TYPE).ok().ok_or("refused")?;
    assert_eq!(rt; list.to_bytes(rt.alloc())?.as_slice(), EACH_TYPE.as_slice());
    let ratio = Ratio {
        numerator: -1,
        denominator: 3,
    };
    assert!(rt;
        matches!(list.find(6), Some(Values::Rational(found)) if found.as_slice() == [ratio].as_slice())
    );
    assert!(rt;
        matches!(list.find(7), Some(Values::Int32(found)) if found.as_slice() == [-1].as_slice())
    );
    assert!(rt;
        matches!(list.find(8), Some(Values::Int64(found)) if found.as_slice() == [i64::MIN].as_slice())
    );
    assert!(rt;
        matches!(list.find(9), Some(Values::Bytes(found)) if found.as_slice() == [1, 2, 3, 4, 5].as_slice())
    );
    for (place, byte, refusal) in CHANGES {
        let mut changed = LOOK;
        assert!(rt; *place < 48);
        changed[*place] = *byte;
        let read = Packed::read(rt.alloc(), &changed);
        assert_eq!(rt; read.err(), Some(*refusal), "byte {place}");
    }
    for length in [0, 15, 47] {
        let read = Packed::read(rt.alloc(), &LOOK[..length]);
        assert_eq!(rt; read.err(), Some(PackedRefused::Short), "{length} bytes");
    }
    Ok(())
}

#[test]
fn settings_have_the_worked_bytes(rt: HostRuntime) -> Result<(), Fail> {
    let mut list = packed_of(rt.alloc(), GREY)?;
    assert_eq!(rt;
        list.to_bytes(rt.alloc())?.as_slice(),
        GREY_BYTES.as_slice()
    );
    assert_eq!(rt; settings_of(rt.alloc(), &list), Ok(GREY));
    let tag = 0x8000_0001;
    assert!(rt; list.erase(tag));
    let missing = Err(SettingsRefused::BadSetting { tag });
    assert_eq!(rt; settings_of(rt.alloc(), &list), missing);
    Ok(())
}
