//! Frames at each stage of their life when a flush begins.
use cam_types::{
    BufferId, Four, FrameNo, RequestId, RowFaults, RowVerdict, RowView, SensorPlace, Settings,
    StreamIx, TargetState, TargetView,
};
use device_rows::verdict;

fn target(stream: u8, is_announced: bool, state: TargetState) -> Option<TargetView> {
    Some(TargetView {
        stream: StreamIx(stream),
        buffer: BufferId(0),
        fence: None,
        announced: is_announced,
        state,
    })
}

/// Which of the two buffers are missing.
const BOTH: Four<bool> = Four {
    a: Some(true),
    b: Some(true),
    c: None,
    d: None,
};

const SECOND: Four<bool> = Four {
    a: Some(false),
    b: Some(true),
    c: None,
    d: None,
};

const NEITHER: Four<bool> = Four {
    a: Some(false),
    b: Some(false),
    c: None,
    d: None,
};

/// A frame without a fault, which is stopped.
const STOPPED: RowView = RowView {
    frame: FrameNo(7),
    request: RequestId(3),
    settings: Settings {
        pattern: 0,
        level: 100,
        exposure: 10_000_000,
        iso: 100,
    },
    targets: Four {
        a: None,
        b: None,
        c: None,
        d: None,
    },
    shutter: None,
    parts: 0,
    request_error: false,
    result_error: false,
    sensor: SensorPlace::NotYet,
    stopped: true,
};

const NO_FAULT: RowFaults = RowFaults {
    request: false,
    result: false,
    buffers: NEITHER,
    device: false,
};

/// When the frame had its shutter, its partial results, and its two targets: whether it is announced that the buffer
/// failed, and how far it is. Then what the flush makes of the frame.
type Stage = (
    Option<u64>,
    u8,
    (bool, TargetState),
    (bool, TargetState),
    RowVerdict,
);

const STAGES: &[Stage] = &[
    (
        None,
        0,
        (false, TargetState::Waiting),
        (false, TargetState::Waiting),
        RowVerdict::Request,
    ),
    (
        Some(1_000_000_000),
        0,
        (false, TargetState::Waiting),
        (false, TargetState::Filled),
        RowVerdict::Request,
    ),
    (
        Some(1_000_000_000),
        1,
        (false, TargetState::Out),
        (false, TargetState::Waiting),
        RowVerdict::Parts {
            result: true,
            buffers: BOTH,
        },
    ),
    (
        Some(1_000_000_000),
        3,
        (false, TargetState::Out),
        (false, TargetState::Filled),
        RowVerdict::Parts {
            result: false,
            buffers: BOTH,
        },
    ),
    (
        Some(1_000_000_000),
        0,
        (false, TargetState::ReturnedOk),
        (false, TargetState::Out),
        RowVerdict::Parts {
            result: true,
            buffers: SECOND,
        },
    ),
    (
        Some(1_000_000_000),
        2,
        (false, TargetState::ReturnedOk),
        (false, TargetState::ReturnedOk),
        RowVerdict::Parts {
            result: true,
            buffers: NEITHER,
        },
    ),
    (
        Some(1_000_000_000),
        3,
        (true, TargetState::Waiting),
        (false, TargetState::Out),
        RowVerdict::Parts {
            result: false,
            buffers: SECOND,
        },
    ),
    (
        Some(1_000_000_000),
        0,
        (true, TargetState::Out),
        (true, TargetState::Filled),
        RowVerdict::Parts {
            result: true,
            buffers: NEITHER,
        },
    ),
    (
        Some(1_000_000_000),
        3,
        (false, TargetState::ReturnedOk),
        (true, TargetState::ReturnedFailed),
        RowVerdict::Nothing,
    ),
    (
        Some(1_000_000_000),
        0,
        (false, TargetState::ReturnedEarly),
        (false, TargetState::Waiting),
        RowVerdict::Parts {
            result: true,
            buffers: SECOND,
        },
    ),
    (
        Some(1_000_000_000),
        3,
        (false, TargetState::EarlyFilled),
        (false, TargetState::ReturnedEarly),
        RowVerdict::Nothing,
    ),
];

#[test]
fn a_flush_at_each_stage(rt: HostRuntime) {
    for (shutter, parts, first, second, wanted) in STAGES {
        let row = RowView {
            targets: Four {
                a: target(0, first.0, first.1),
                b: target(1, second.0, second.1),
                c: None,
                d: None,
            },
            shutter: *shutter,
            parts: *parts,
            ..STOPPED
        };
        assert_eq!(rt; verdict(row, NO_FAULT), *wanted);
        let goes_on = RowView {
            stopped: false,
            ..row
        };
        assert_eq!(rt; verdict(goes_on, NO_FAULT), RowVerdict::Nothing);
    }
}
