//! What a device can do: depth, and buffers of each format.
ghost use Rattle.std.specs.Prelude.{◌≡◌, ◌&&◌, nat_le, nat_lt, IsTrue};
ghost use Rattle.cam_types.specs.Limits.{profile_limit};
ghost use Rattle.cam_types.specs.Profile.{is_profile, is_profile_number, max_buffers, pool_size, profile_fits};

use crate::limit::{FRAME_DEPTH, PROFILE_LIMIT, RAW_BUFFERS, SPARE_BUFFERS, YUV_BUFFERS};
use crate::stream::Format;

/// What a device can do: how many frames may be open at once, and how many buffers of a stream of each format may be at
/// the device.
#[derive(Clone, Copy, Debug, PartialEq, Eq)]
pub struct Profile {
    pub depth: u32,
    pub raw: u32,
    pub yuv: u32,
}

fn is_profile_number(number: u32) -> bool
    ensures { result ≡ is_profile_number number }
{
    0 < number && number <= PROFILE_LIMIT
}

impl Profile {
    /// The profile of a script that names none.
    pub const PLAIN: Profile = Profile {
        depth: FRAME_DEPTH,
        raw: RAW_BUFFERS,
        yuv: YUV_BUFFERS,
    };

    /// Whether each number is from 1 to 16.
    pub fn is_valid(self) -> bool
        ensures { result ≡ is_profile self }
    {
        is_profile_number(self.depth)
            && (is_profile_number(self.raw) && is_profile_number(self.yuv))
    }

    /// Whether a script of the version may have the profile.
    pub fn fits(self, version: u8) -> bool
        ensures { result ≡ profile_fits version self }
    {
        match version {
            1 => self.depth == FRAME_DEPTH && (self.raw == RAW_BUFFERS && self.yuv == YUV_BUFFERS),
            2 => self.is_valid(),
            _ => false,
        }
    }

    /// How many buffers of a stream of the format may be at the device.
    pub fn max_buffers(self, format: Format) -> u32
        ensures { result ≡ max_buffers self format }
    {
        match format {
            Format::Raw16 => self.raw,
            Format::Yuv => self.yuv,
            Format::Other(_) => 0,
        }
    }

    /// How many buffers a stream of the format has: two more than may be at the device.
    pub fn pool_size(self, format: Format) -> u32
        requires { IsTrue (is_profile self) }
        ensures { result ≡ pool_size self format }
    {
        self.max_buffers(format) + SPARE_BUFFERS
    }
}
