//! What contracts see of the jobs of sensor and stages.
use crate::item::Settings;
use crate::number::{BufferId, FrameNo, StreamIx};
use crate::stream::StreamSpec;

/// The buffer that a fill writes.
#[derive(Clone, Copy)]
pub struct FillTarget {
    pub stream: StreamIx,
    pub buffer: BufferId,
    pub spec: StreamSpec,
}

/// What contracts see of a job of the sensor or of a stage: a fill has a target, an exposure has none.
#[derive(Clone, Copy)]
pub struct JobView {
    pub frame: FrameNo,
    pub settings: Settings,
    pub fill: Option<FillTarget>,
}
