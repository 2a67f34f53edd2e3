//! Worked digests, and which pictures are remembered: the ramp's by the frame modulo 256, the bars' by no frame.
use cam_types::{Format, FrameNo, Settings, StreamSpec};
use picture_stages::{PictureDigests, REMEMBERED_LIMIT};
use std::test::Fail;

const YUV: StreamSpec = StreamSpec {
    input: false,
    format: Format::Yuv,
    width: 40,
    height: 30,
};

const LARGE_YUV: StreamSpec = StreamSpec {
    width: 160,
    height: 120,
    ..YUV
};

const RAW: StreamSpec = StreamSpec {
    format: Format::Raw16,
    ..LARGE_YUV
};

const BARS: Settings = Settings {
    pattern: 1,
    level: 200,
    exposure: 10_000_000,
    iso: 100,
};

const RAMP: Settings = Settings {
    pattern: 2,
    level: 0,
    exposure: 10_000_000,
    iso: 100,
};

/// White that is more than the sensor can hold.
const FULL: Settings = Settings {
    pattern: 0,
    level: 255,
    exposure: 100_000_000,
    iso: 1_600,
};

/// The stream, the settings, the frame and the digest of each picture, and how many are remembered after it.
const PICTURES: &[(StreamSpec, Settings, u32, &str, usize)] = &[
    (
        RAW,
        BARS,
        0,
        "4a01212967293bdc5c555b5c0a8dcfa71fc7f4afb5edba9fcfc3ff0072bcbdd8",
        1,
    ),
    (
        RAW,
        BARS,
        7,
        "4a01212967293bdc5c555b5c0a8dcfa71fc7f4afb5edba9fcfc3ff0072bcbdd8",
        1,
    ),
    (
        YUV,
        BARS,
        7,
        "e2394df407730b4e7b9437b6e977d3af22b03aca37dae37400bbd142b1ab677d",
        2,
    ),
    (
        YUV,
        RAMP,
        7,
        "162450eb4543a60ecdecafc24e8838dd9fd06dab62f08baf375d887c48db21f2",
        3,
    ),
    (
        YUV,
        RAMP,
        8,
        "3d60336e2bc1149d4864e7a14c28c0a24006aacbf91bec8d8ccde46a23e1153b",
        4,
    ),
    (
        YUV,
        RAMP,
        263,
        "162450eb4543a60ecdecafc24e8838dd9fd06dab62f08baf375d887c48db21f2",
        4,
    ),
    (
        RAW,
        RAMP,
        u32::MAX,
        "6390c0a60ed229a3e549cec06038241d80a1ebf69cefd053434ce18fb5f3e1fe",
        5,
    ),
    (
        LARGE_YUV,
        FULL,
        0,
        "2b67de5cc32549cd5de5d16942b05ca62ef83c5617d31356a7965e7bf92cc72b",
        6,
    ),
    (
        RAW,
        BARS,
        256,
        "4a01212967293bdc5c555b5c0a8dcfa71fc7f4afb5edba9fcfc3ff0072bcbdd8",
        6,
    ),
];

#[test]
fn pictures_have_the_worked_digests(rt: HostRuntime) -> Result<(), Fail> {
    let mut memory = PictureDigests::with_room(rt.alloc(), PICTURES.len())?;
    for (spec, settings, frame, wanted, remembered) in PICTURES {
        let (digest, after) = memory.digest(*spec, *settings, FrameNo(*frame));
        memory = after;
        let text = hex::encode(rt.alloc(), digest)?;
        assert_eq!(rt; text.as_str(), *wanted, "of frame {frame}");
        assert_eq!(rt; memory.remembered(), *remembered, "after frame {frame}");
    }
    assert!(rt; memory.remembered() < REMEMBERED_LIMIT);
    Ok(())
}
