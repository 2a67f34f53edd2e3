//! A job of the sensor or of a stage.
ghost use Rattle.std.specs.Prelude.{◌≡◌, IsTrue};
ghost use Rattle.fill_jobs.specs.Held.{name_of};
ghost use Rattle.fill_jobs.specs.Places.{is_fill, is_fitting, view_of};

use crate::FillJob;
use crate::name::JobName;
use cam_types::{FrameNo, StreamIx};
use picture_stages::SensorJob;

/// A job in hand. It can't be copied or let go.
pub(crate) enum Job {
    Exposure(SensorJob),
    Fill(FillJob),
}

impl Job {
    /// The number of the frame.
    pub(crate) fn frame(&self) -> FrameNo
        ensures { result ≡ (view_of self.now).frame }
    {
        match self {
            Job::Exposure(job) => job.frame(),
            Job::Fill(job) => job.frame(),
        }
    }

    /// Whether it fills a buffer of the stream.
    pub(crate) fn is_fill_of(&self, stream: StreamIx) -> bool
        ensures { result ≡ is_fill stream.0 self.now }
    {
        match self {
            Job::Exposure(_) => false,
            Job::Fill(job) => job.stream().0 == stream.0,
        }
    }

    /// The frame, and the stream of a fill.
    pub(crate) fn name(&self) -> JobName
        requires { IsTrue (is_fitting self.now) }
        ensures { result ≡ name_of (view_of self.now) }
    {
        match self {
            Job::Exposure(job) => JobName {
                frame: job.frame(),
                stream: None,
            },
            Job::Fill(job) => JobName {
                frame: job.frame(),
                stream: Some(job.stream()),
            },
        }
    }
}
