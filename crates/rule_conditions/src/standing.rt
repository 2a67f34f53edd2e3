//! What the past makes of frames and buffers, under one name each.
ghost use Rattle.std.specs.Prelude.{◌≡◌, reverse};
ghost use Rattle.rule_conditions.specs.Mentions.{holds_back, is_open_in, is_unended, is_unexposed};
ghost use Rattle.rule_conditions.specs.Mentions.{is_with_client, is_with_device};

use cam_types::{BufferId, FrameNo, StreamIx};
use judge_filters::frame::{has_error_request, has_shutter};
use judge_filters::open::{is_metadata_ended, is_open};
use judge_filters::order::lets_pass;
use judge_filters::place::{is_at_client, is_at_device};
use trace_model::Entry;

/// Whether the frame is open.
#[tactic(auto, unfolding(crate::specs::Mentions::is_open_in))]
pub fn is_open_in(entries: &[Entry], frame: FrameNo) -> bool
    ensures { result ≡ is_open_in (reverse entries.now) frame.0 }
{
    is_open(entries, frame)
}

/// Whether the frame has neither its shutter nor failed whole.
#[tactic(auto, unfolding(crate::specs::Mentions::is_unexposed))]
pub fn is_unexposed(entries: &[Entry], frame: FrameNo) -> bool
    ensures { result ≡ is_unexposed (reverse entries.now) frame.0 }
{
    !(has_shutter(entries, frame) || has_error_request(entries, frame))
}

/// Whether the frame's metadata hasn't ended.
#[tactic(auto, unfolding(crate::specs::Mentions::is_unended))]
pub fn is_unended(entries: &[Entry], frame: FrameNo) -> bool
    ensures { result ≡ is_unended (reverse entries.now) frame.0 }
{
    !is_metadata_ended(entries, frame)
}

/// Whether the frame keeps later buffers of the stream back.
#[tactic(auto, unfolding(crate::specs::Mentions::holds_back))]
pub fn holds_back(entries: &[Entry], stream: StreamIx, frame: FrameNo) -> bool
    ensures { result ≡ holds_back (reverse entries.now) stream.0 frame.0 }
{
    !lets_pass(entries, stream, frame)
}

/// Whether the buffer is at the device.
#[tactic(auto, unfolding(crate::specs::Mentions::is_with_device))]
pub fn is_with_device(entries: &[Entry], buffer: BufferId) -> bool
    ensures { result ≡ is_with_device (reverse entries.now) buffer.0 }
{
    is_at_device(entries, u64::from(buffer.0))
}

/// Whether the buffer is at the client.
#[tactic(auto, unfolding(crate::specs::Mentions::is_with_client))]
pub fn is_with_client(entries: &[Entry], buffer: BufferId) -> bool
    ensures { result ≡ is_with_client (reverse entries.now) buffer.0 }
{
    is_at_client(entries, u64::from(buffer.0))
}
