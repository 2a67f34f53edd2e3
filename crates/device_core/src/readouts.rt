//! Readouts as the store holds them: spare, home or away.
ghost use Rattle.std.specs.Prelude.{◌≡◌, None};
ghost use Rattle.cam_types.specs.Picture.{readout as readout_of};
ghost use Rattle.device_core.specs.Held.{as_exposed};

use cam_types::{FrameNo, Readout, Settings};
use picture_stages::ExposedJob;
use std::marker::Model;

/// A readout whose values don't matter.
#[derive(Drop)]
pub struct Scratch {
    readout: Readout,
}

impl Model for Scratch {
    ghost use Rattle.std.specs.Prelude.{ℕ};

    ghost Value = { ℕ };

    ghost view = { λ s. 0 };
}

/// The readout of a frame that was exposed. A contract sees the frame and its settings.
#[derive(Drop)]
pub struct HomeReadout {
    frame: FrameNo,
    settings: Settings,
    readout: Readout,
}

impl Model for HomeReadout {
    ghost use Rattle.std.specs.Prelude.{◌≡◌, None};
    ghost use Rattle.cam_types.specs.declared.job.JobView.{JobView};
    ghost use Rattle.cam_types.specs.Picture.{readout as readout_of};

    ghost Value = { JobView };

    ghost view = { λ h. record { frame = h.frame; settings = h.settings; fill = None } };

    ghost invariant = { λ h. h.readout ≡ readout_of h.settings h.frame.0 };
}

/// The readout of an open frame: a spare one before the exposure, then the frame's, while neither the sensor nor a
/// stage has it.
#[derive(Drop)]
pub enum Slot {
    Spare(Scratch),
    Home(HomeReadout),
    Away,
}

impl Scratch {
    pub fn new(readout: Readout) -> Scratch
        ensures { result ≡ 0 }
    {
        Scratch { readout }
    }

    pub fn into_readout(self) -> Readout {
        let Scratch { readout } = self;
        readout
    }
}

impl HomeReadout {
    /// The readout of a frame with these settings.
    pub fn new(frame: FrameNo, settings: Settings, readout: Readout) -> HomeReadout
        requires { readout ≡ readout_of settings frame.0 }
        ensures { result ≡ record { frame = frame; settings = settings; fill = None } }
    {
        HomeReadout {
            frame,
            settings,
            readout,
        }
    }

    /// The readout that the sensor gives back.
    pub fn of_exposed(job: ExposedJob) -> HomeReadout
        ensures { result ≡ as_exposed job }
    {
        let (frame, settings, readout) = job.into_parts();
        HomeReadout::new(frame, settings, readout)
    }

    pub fn into_readout(self) -> Readout
        ensures { result ≡ readout_of self.settings self.frame.0 }
    {
        let HomeReadout {
            frame: _,
            settings: _,
            readout,
        } = self;
        readout
    }
}
