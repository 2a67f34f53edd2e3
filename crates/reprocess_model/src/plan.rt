//! Plans: the streams, the faults, the picks and the commands of a run.
ghost use Rattle.std.specs.Prelude.{◌≡◌};
ghost use Rattle.reprocess_model.specs.Plan.{are_outputs, is_output, is_yuv};

use cam_types::{Format, Four, FrameNo, Listing, PickList, Settings, StreamSpec};

/// The most bytes that a plan's text may have.
pub const PLAN_BYTES: usize = 65_536;

/// The most outputs of a plan.
pub const PLAN_OUTPUTS: u32 = 3;

/// The most faults of a plan.
pub const PLAN_FAULTS: u32 = 64;

/// The most picks of a plan.
pub const PLAN_PICKS: u32 = 1_024;

/// The most commands of a plan.
pub const PLAN_COMMANDS: u32 = 64;

/// A client's command.
#[derive(Clone, Copy)]
pub enum ReCommand {
    /// A picture of these settings is to be made smaller.
    Request(Settings),
    /// All that waits and all that can be is ended.
    Flush,
}

/// The requests that shall fail.
pub type FrameList = Listing<FrameNo>;

/// The commands of a plan.
pub type ReList = Listing<ReCommand>;

/// What a reprocessing device does: makes pictures of the input's size into pictures of the outputs' sizes, in pixels.
/// Pick number j chooses step j.
#[derive(Drop)]
pub struct Plan {
    pub input: StreamSpec,
    pub outputs: Four<StreamSpec>,
    pub faults: FrameList,
    pub picks: PickList,
    pub commands: ReList,
}

/// Whether pictures of the stream are YUV and of an offered size.
pub fn is_yuv(spec: StreamSpec) -> bool
    ensures { result ≡ is_yuv spec }
{
    match (spec.format, spec.width, spec.height) {
        (Format::Yuv, 160, 120) | (Format::Yuv, 80, 60) | (Format::Yuv, 40, 30) => true,
        _ => false,
    }
}

/// Whether the stream can be an output of a device with this input.
pub fn is_output(input: StreamSpec, spec: StreamSpec) -> bool
    ensures { result ≡ is_output input spec }
{
    is_yuv(spec) && spec.width <= input.width
}

/// Whether these are one to three outputs of a device with this input, from the first place on.
pub fn are_outputs(input: StreamSpec, outputs: Four<StreamSpec>) -> bool
    ensures { result ≡ are_outputs input outputs }
{
    match outputs {
        Four {
            a: Some(a),
            b: None,
            c: None,
            d: None,
        } => is_output(input, a),
        Four {
            a: Some(a),
            b: Some(b),
            c: None,
            d: None,
        } => is_output(input, a) && is_output(input, b),
        Four {
            a: Some(a),
            b: Some(b),
            c: Some(c),
            d: None,
        } => { is_output(input, a) && (is_output(input, b) && is_output(input, c)) }
        _ => false,
    }
}
