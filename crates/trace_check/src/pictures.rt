//! A buffer that came back with its picture, and whether a digest is that of an open frame's picture.
ghost use Rattle.std.specs.Prelude.{◌≡◌, ◌↔◌, ℕ, None, slice_get, IsTrue};
ghost use Rattle.std.specs.List.{list_all};
ghost use Rattle.cam_types.specs.Metadata.{range_fault};
ghost use Rattle.cam_types.specs.Picture.{is_offered, picture};
ghost use Rattle.cam_types.specs.declared.stream.StreamSpec.{StreamSpec as SomeSpec};
ghost use Rattle.trace_model.specs.Picture.{digest_on};
ghost use Rattle.trace_check.specs.Drawing.{is_drawable};

use cam_types::{BufferId, FenceNo, FrameNo, Settings, StreamIx};
use judge_rows::{JudgeTables, OpenRow};
use metadata::range_fault;
use picture_stages::PictureDigests;

/// A buffer that came back with its picture, as its entry says.
#[derive(Clone, Copy)]
pub(crate) struct Fill {
    pub(crate) frame: FrameNo,
    pub(crate) stream: StreamIx,
    pub(crate) buffer: BufferId,
    pub(crate) fence: Option<FenceNo>,
    pub(crate) digest: [u8; 32],
}

/// Settings of a frame of which no item is known: they give the dark picture, as settings of zeros would.
pub(crate) const DARK: Settings = Settings {
    pattern: 0,
    level: 0,
    exposure: 100_000,
    iso: 100,
};

/// Settings in their range that give the same pictures.
fn settings_to_draw(settings: Settings) -> Settings
    requires { IsTrue (is_drawable settings) }
    ensures range { range_fault result ≡ None }
    ensures picture { (spec : SomeSpec) (n : ℕ) → picture spec result n ≡ picture spec settings n }
{
    if range_fault(settings).is_none() {
        settings
    } else {
        DARK
    }
}

/// Whether two digests are the same.
pub(crate) fn is_same_digest(a: [u8; 32], b: [u8; 32]) -> bool
    ensures { IsTrue result ↔ (a ≡ b) }
{
    a == b
}

/// Whether the digest is that of the row's picture for the stream, with the memory of digests.
pub(crate) fn is_its_digest(
    tables: &JudgeTables,
    stream: StreamIx,
    row: &OpenRow,
    digest: [u8; 32],
    memory: PictureDigests,
) -> (bool, PictureDigests)
    requires offered { IsTrue (list_all is_offered tables.now.state.client.streams) }
    requires drawable { IsTrue (is_drawable row.now.settings) }
    ensures { IsTrue result.0 ↔
        (digest ≡
        digest_on (slice_get tables.now.state.client.streams stream.0) row.now.settings row.now.frame.0) }
{
    match tables.client().stream(stream) {
        Some(spec) => {
            let settings = settings_to_draw(row.settings);
            let (drawn, memory) = memory.digest(spec, settings, row.frame);
            (is_same_digest(digest, drawn), memory)
        }
        None => (false, memory),
    }
}
