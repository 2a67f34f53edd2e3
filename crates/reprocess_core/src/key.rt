//! What the picture of an output depends on.
ghost use Rattle.std.specs.Prelude.{◌≡◌, ◌<◌, ◌↔◌, IsTrue};
ghost use Rattle.reprocess_core.specs.Keys.{key_of};

use crate::ticket::InputTicket;
use cam_types::StreamSpec;
use picture_stages::{PictureKey, turn_of};

/// What the picture of an output depends on. Outputs with equal keys show equal pictures.
#[derive(Clone, Copy, PartialEq, Eq, Hash)]
pub struct OutputKey {
    /// What the picture of its input depends on.
    pub input: PictureKey,
    /// The size of the output in pixels.
    pub width: u32,
    pub height: u32,
}

/// What the picture depends on that is made of the ticket's for an output.
pub fn key_of(ticket: &InputTicket, to: StreamSpec) -> OutputKey
    ensures { result ≡ key_of ticket.now to }
{
    let from = ticket.spec();
    let settings = ticket.settings();
    let input = PictureKey {
        raw: false,
        width: from.width,
        height: from.height,
        pattern: settings.pattern,
        level: settings.level,
        exposure: settings.exposure,
        iso: settings.iso,
        turn: turn_of(settings, ticket.frame()),
    };
    OutputKey {
        input,
        width: to.width,
        height: to.height,
    }
}

/// Whether two keys are the same.
pub fn is_same_key(a: OutputKey, b: OutputKey) -> bool
    ensures { IsTrue result ↔ (a ≡ b) }
{
    is_same_input(a.input, b.input) && a.width == b.width && a.height == b.height
}

/// Whether two keys of inputs are the same.
fn is_same_input(a: PictureKey, b: PictureKey) -> bool
    ensures { IsTrue result ↔ (a ≡ b) }
{
    a == b
}
