//! The first line of a trace.

ghost use Rattle.std.specs.Prelude.{◌≡◌, ◌≤◌, ◌+◌, ◌++◌, length};
ghost use Rattle.trace_text.specs.Spelling.{first_line_of};

use cam_types::Profile;
use io_edge::{ROOM, Room};

/// Writes the first line of a trace, with the profile where one is named.
pub fn put_first(room: &mut Room, profile: Option<Profile>)
    requires { length room.old + 50 ≤ ROOM }
    ensures { room.new ≡ room.old ++ first_line_of profile }
{
    match profile {
        None => room.put(b"trace 1\n"),
        Some(profile) => {
            room.put(b"trace 2 ");
            room.put_small(profile.depth);
            room.put(b" ");
            room.put_small(profile.raw);
            room.put(b" ");
            room.put_small(profile.yuv);
            room.put(b"\n");
        }
    }
}
