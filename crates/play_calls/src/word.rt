//! What a word says: each in bits of its own.
ghost use Rattle.std.specs.Prelude.{◌≡◌, ◌<◌};
ghost use Rattle.play_calls.specs.Generated.{extra_of, fault_by, fault_choice, has_fault, item_of, target_choice, targets_by};

use cam_types::{Fault, FrameNo, Item, Settings, StreamIx, Targets};

/// The exposure of every item, in nanoseconds.
const EXPOSURE: u64 = 10_000_000;

/// The sensitivity of every item.
const SENSITIVITY: u32 = 100;

/// How many more: of items in a burst, of frames awaited; and which of the commands without either.
pub(crate) fn extra_of(word: u64) -> u32
    ensures value { result ≡ extra_of word }
    ensures few { result < 4 }
{
    (word / 8 % 4) as u32
}

/// Stream 0, stream 1, or both.
fn targets_of(word: u64) -> Targets
    ensures { result ≡ targets_by (target_choice word) }
{
    match word / 4096 % 3 {
        0 => Targets {
            count: 1,
            list: [0; 8],
        },
        1 => Targets {
            count: 1,
            list: [1, 0, 0, 0, 0, 0, 0, 0],
        },
        _ => Targets {
            count: 2,
            list: [0, 1, 0, 0, 0, 0, 0, 0],
        },
    }
}

/// The item that the word's command asks for.
pub(crate) fn item_of(word: u64) -> Item
    ensures { result ≡ item_of word }
{
    Item {
        settings: Settings {
            pattern: (word / 32 % 3) as u8,
            level: (word / 128 % 256) as u32,
            exposure: EXPOSURE,
            iso: SENSITIVITY,
        },
        targets: targets_of(word),
    }
}

/// Whether the word has a fault.
pub(crate) fn has_fault(word: u64) -> bool
    ensures { result ≡ has_fault word }
{
    word / 1024 % 16 == 0
}

/// The fault that the word has for the frame of its own number.
pub(crate) fn fault_of(number: u32, word: u64) -> Fault
    ensures { result ≡ fault_by (fault_choice word) number }
{
    let frame = FrameNo(number);
    match word / 16_384 % 3 {
        0 => Fault::Request(frame),
        1 => Fault::Result(frame),
        _ => Fault::Buffer(frame, StreamIx(0)),
    }
}
