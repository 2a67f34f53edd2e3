//! Jobs of the sensor: to be exposed, and exposed.
ghost use Rattle.std.specs.Prelude.{◌≡◌, ◌≤◌, None};
ghost use Rattle.cam_types.specs.Metadata.{range_fault};
ghost use Rattle.cam_types.specs.Picture.{readout as readout_of};

use crate::rows::{write_readout, write_readout_bands};
use cam_types::{FrameNo, Readout, Settings};
use std::marker::Model;
use std::thread::Threads;

/// A frame, its settings and its readout.
struct Exposure {
    frame: FrameNo,
    settings: Settings,
    readout: Readout,
}

/// A frame that the sensor is to expose, with the readout that it may write. It must be spent: it is neither dropped
/// nor copied, and ends by `expose` or `expose_bands` alone.
pub struct SensorJob {
    exposure: Exposure,
}

impl Model for SensorJob {
    ghost use Rattle.std.specs.Prelude.{◌≡◌, None};
    ghost use Rattle.cam_types.specs.declared.job.JobView.{JobView};
    ghost use Rattle.cam_types.specs.Metadata.{range_fault};

    ghost Value = { JobView };

    ghost view = { λ j. record { frame = j.exposure.frame; settings = j.exposure.settings; fill = None } };

    ghost invariant = { λ j. range_fault j.exposure.settings ≡ None };
}

/// A frame that was exposed. Its readout has the values that the frame and its settings determine. It must be spent:
/// it is neither dropped nor copied, and ends by `into_parts` alone.
pub struct ExposedJob {
    exposure: Exposure,
}

impl Model for ExposedJob {
    ghost use Rattle.std.specs.Prelude.{◌≡◌, None};
    ghost use Rattle.cam_types.specs.declared.job.JobView.{JobView};
    ghost use Rattle.cam_types.specs.Picture.{readout as readout_of};

    ghost Value = { JobView };

    ghost view = { λ j. record { frame = j.exposure.frame; settings = j.exposure.settings; fill = None } };

    ghost invariant = { λ j. j.exposure.readout ≡ readout_of j.exposure.settings j.exposure.frame.0 };
}

impl SensorJob {
    /// A job for a frame whose settings are in range. What the readout holds doesn't matter.
    pub fn new(frame: FrameNo, settings: Settings, scratch: Readout) -> SensorJob
        requires { range_fault settings ≡ None }
        ensures { result ≡ record { frame = frame; settings = settings; fill = None } }
    {
        let exposure = Exposure {
            frame,
            settings,
            readout: scratch,
        };
        SensorJob { exposure }
    }

    /// The number of the frame.
    pub fn frame(&self) -> FrameNo
        ensures number { result ≡ self.now.frame }
        ensures no_fill { self.now.fill ≡ None }
    {
        self.exposure.frame
    }

    /// Exposes the frame.
    pub fn expose(self) -> ExposedJob
        ensures { result ≡ self }
    {
        let SensorJob { mut exposure } = self;
        let values = exposure.readout.values_mut();
        write_readout(exposure.settings, exposure.frame, values);
        ExposedJob { exposure }
    }

    /// Exposes the frame as `expose` does, its rows in 1 to 8 bands that are written side by side, each by a thread of
    /// its own where one can be made. It takes no memory.
    pub fn expose_bands<R: Threads + Sync>(self, rt: &R, bands: u32) -> ExposedJob
        requires least { 1 ≤ bands }
        requires most { bands ≤ 8 }
        ensures { result ≡ self }
    {
        let SensorJob { mut exposure } = self;
        write_readout_bands(
            rt,
            exposure.settings,
            exposure.frame,
            bands,
            exposure.readout.values_mut(),
        );
        ExposedJob { exposure }
    }
}

impl ExposedJob {
    /// The number of the frame.
    pub fn frame(&self) -> FrameNo
        ensures number { result ≡ self.now.frame }
        ensures no_fill { self.now.fill ≡ None }
    {
        self.exposure.frame
    }

    /// The frame, its settings and its readout.
    pub fn into_parts(self) -> (FrameNo, Settings, Readout)
        ensures frame { result.0 ≡ self.frame }
        ensures settings { result.1 ≡ self.settings }
        ensures values { result.2 ≡ readout_of self.settings self.frame.0 }
    {
        let ExposedJob { exposure } = self;
        let Exposure {
            frame,
            settings,
            readout,
        } = exposure;
        (frame, settings, readout)
    }
}
