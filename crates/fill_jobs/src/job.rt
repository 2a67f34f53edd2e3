//! Jobs of stages: to be filled, and filled.
ghost use Rattle.std.specs.Prelude.{◌≡◌, ◌≤◌, Some, None, IsTrue};
ghost use Rattle.cam_types.specs.Metadata.{range_fault};
ghost use Rattle.cam_types.specs.Picture.{is_offered, readout as readout_of};
ghost use Rattle.fill_jobs.specs.Buffers.{IsBufferFor, IsPictureOf, IsStreamAt};

use crate::digest::digest_with;
use crate::draw::{draw, draw_alone, draw_bands};
use cam_types::{FillTarget, FrameNo, PixelBuf, Readout, Settings, StreamIx};
use picture_stages::{DigestMemory, a_readout_lies_between_dark_and_full};
use std::marker::Model;
use std::thread::Threads;

/// A buffer for the picture of a frame, with the frame's readout.
struct Fill {
    frame: FrameNo,
    settings: Settings,
    target: FillTarget,
    readout: Readout,
    pixels: PixelBuf,
}

/// A buffer that a stage is to fill with the picture of a frame, with the frame's readout. It must be spent: it is
/// neither dropped nor copied, and ends by `fill`, `fill_with` or `fill_bands` alone.
pub struct FillJob {
    fill: Fill,
}

impl Model for FillJob {
    ghost use Rattle.std.specs.Prelude.{Some};
    ghost use Rattle.cam_types.specs.declared.job.JobView.{JobView};
    ghost use Rattle.fill_jobs.specs.Buffers.{IsFillOf};

    ghost Value = { JobView };

    ghost view = { λ j. record { frame = j.fill.frame; settings = j.fill.settings; fill = Some j.fill.target } };

    ghost invariant = { λ j. IsFillOf j.fill.settings j.fill.frame.0 j.fill.target j.fill.readout j.fill.pixels };
}

/// A buffer that a stage filled: it shows the picture of its frame, settings and stream, and its digest is that
/// picture's. It must be spent: it is neither dropped nor copied, and ends by `into_parts` alone.
pub struct FilledJob {
    fill: Fill,
    digest: [u8; 32],
}

impl Model for FilledJob {
    ghost use Rattle.std.specs.Prelude.{Some};
    ghost use Rattle.cam_types.specs.declared.job.JobView.{JobView};
    ghost use Rattle.fill_jobs.specs.Buffers.{IsFilledOf};

    ghost Value = { JobView };

    ghost view = { λ j. record { frame = j.fill.frame; settings = j.fill.settings; fill = Some j.fill.target } };

    ghost invariant = { λ j.
        IsFilledOf j.fill.settings j.fill.frame.0 j.fill.target j.fill.readout j.fill.pixels j.digest };
}

impl FillJob {
    /// A job for a frame whose settings are in range and a stream that is offered: with the frame's readout, and with
    /// the target's buffer, which has the picture's length and a whole block. What the buffer shows doesn't matter.
    pub fn new(
        frame: FrameNo,
        settings: Settings,
        target: FillTarget,
        readout: Readout,
        pixels: PixelBuf,
    ) -> FillJob
        requires range { range_fault settings ≡ None }
        requires offered { IsTrue (is_offered target.spec) }
        requires values { readout ≡ readout_of settings frame.0 }
        requires pixels { IsBufferFor target.spec target.buffer pixels }
        ensures { result ≡ record { frame = frame; settings = settings; fill = Some target } }
    {
        let fill = Fill {
            frame,
            settings,
            target,
            readout,
            pixels,
        };
        FillJob { fill }
    }

    /// The number of the frame.
    pub fn frame(&self) -> FrameNo
        ensures { result ≡ self.now.frame }
    {
        self.fill.frame
    }

    /// The stream whose buffer is filled.
    pub fn stream(&self) -> StreamIx
        ensures { IsStreamAt result.0 self.now.fill }
    {
        self.fill.target.stream
    }

    /// Fills the buffer with the picture. It takes no lock and no memory.
    pub fn fill(self) -> FilledJob
        ensures { result ≡ self }
    {
        a_readout_lies_between_dark_and_full();
        let FillJob { mut fill } = self;
        let parts = &mut fill;
        let digest = draw(&parts.readout, parts.target.spec, &mut parts.pixels);
        FilledJob { fill, digest }
    }

    /// Fills the buffer as `fill` does, and hashes the picture only where the memory doesn't know its digest; it may
    /// remember it then. It takes no lock and no memory.
    pub fn fill_with(self, memory: &mut DigestMemory) -> FilledJob
        ensures { result ≡ self }
    {
        a_readout_lies_between_dark_and_full();
        let FillJob { mut fill } = self;
        let parts = &mut fill;
        draw_alone(&parts.readout, parts.target.spec, &mut parts.pixels);
        let digest = digest_with(
            memory,
            fill.target.spec,
            fill.settings,
            fill.frame,
            &fill.pixels,
        );
        FilledJob { fill, digest }
    }

    /// Fills the buffer as `fill` does, the rows of the largest pictures in 1 to 8 bands that are written side by side,
    /// each by a thread of its own where one can be made. It takes no lock and no memory.
    pub fn fill_bands<R: Threads + Sync>(self, rt: &R, bands: u32) -> FilledJob
        requires least { 1 ≤ bands }
        requires most { bands ≤ 8 }
        ensures { result ≡ self }
    {
        a_readout_lies_between_dark_and_full();
        let FillJob { mut fill } = self;
        let parts = &mut fill;
        let digest = draw_bands(
            rt,
            &parts.readout,
            parts.target.spec,
            bands,
            &mut parts.pixels,
        );
        FilledJob { fill, digest }
    }
}

impl FilledJob {
    /// The number of the frame.
    pub fn frame(&self) -> FrameNo
        ensures { result ≡ self.now.frame }
    {
        self.fill.frame
    }

    /// The settings of the frame.
    pub fn settings(&self) -> Settings
        ensures { result ≡ self.now.settings }
    {
        self.fill.settings
    }

    /// The buffer that was filled.
    pub fn target(&self) -> FillTarget
        ensures { self.now.fill ≡ Some result }
    {
        self.fill.target
    }

    /// The stream whose buffer was filled.
    pub fn stream(&self) -> StreamIx
        ensures { IsStreamAt result.0 self.now.fill }
    {
        self.fill.target.stream
    }

    /// The frame's readout, and the buffer with its digest: it is the target's, over a whole block, and shows the
    /// frame's picture.
    pub fn into_parts(self) -> (Readout, PixelBuf, [u8; 32])
        ensures values { result.0 ≡ readout_of self.settings self.frame.0 }
        ensures picture { IsPictureOf self result.1 result.2 }
        ensures range { range_fault self.settings ≡ None }
    {
        let FilledJob { fill, digest } = self;
        let Fill {
            frame: _,
            settings: _,
            target: _,
            readout,
            pixels,
        } = fill;
        (readout, pixels, digest)
    }
}
