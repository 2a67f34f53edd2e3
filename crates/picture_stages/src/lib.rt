//! The simulated sensor and the stages behind it: a job of a frame and its settings is exposed, and gives the readout
//! that the two determine; a readout is written as a RAW16 or a YUV picture into a buffer, with its digest where that
//! is wanted. And the digests of pictures: drawn on a canvas, or found again where they were hashed before.
//!
//! A picture depends on the stream's format and size, on the settings, and for the ramp alone on the frame's number
//! modulo 256: that is its key. A `DigestMemory` is told digests and finds them again by their keys, up to a stated
//! number of them, whose room it takes at once. `PictureDigests` draws what isn't remembered. What is answered is the
//! definition's, whatever is remembered.
#![tactic(auto)]

mod bands;
mod canvas;
mod colour;
mod digests;
mod fill;
mod job;
mod key;
mod key_laws;
mod lanes;
mod laws;
mod memory;
mod narrow;
mod places;
mod raw_laws;
mod rows;
mod scene;
mod strip;
mod wide;
mod yuv_fill;
mod yuv_laws;

pub use canvas::Canvas;
pub use digests::PictureDigests;
pub use fill::{draw_raw, fill_raw, fill_raw_bands};
pub use job::{ExposedJob, SensorJob};
pub use key::{PictureKey, turn_of};
pub use key_laws::a_picture_is_that_of_its_key;
pub use laws::a_readout_lies_between_dark_and_full;
pub use memory::{DigestMemory, REMEMBERED_LIMIT};
pub use places::{TRIES, tries_of};
pub use raw_laws::a_raw_stream_has_raw_pictures;
pub use yuv_fill::{draw_yuv, fill_yuv, fill_yuv_bands};
pub use yuv_laws::a_yuv_stream_has_yuv_pictures;
