//! Buffers as the store holds them: waiting, with the waiter of their fence, or filled, with the digest.
ghost use Rattle.std.specs.Prelude.{◌≡◌, Some};
ghost use Rattle.fill_jobs.specs.Buffers.{IsBufferFor, IsPictureFor, IsPictureOf};

use buffer_pool::{Parked, Waiter};
use cam_types::{FillTarget, FrameNo, PixelBuf, Settings, StreamSpec};
use std::marker::Model;

/// A buffer that no stage has had yet, of a stream, with the waiter of its acquire fence. It can't be copied or let go.
pub struct WaitingBuf {
    spec: StreamSpec,
    pixels: PixelBuf,
    waiter: Option<Waiter>,
}

impl Model for WaitingBuf {
    ghost use Rattle.device_core.specs.Held.{Waiting};
    ghost use Rattle.fill_jobs.specs.Buffers.{IsBufferFor};

    ghost Value = { Waiting };

    ghost view = { λ w. record { buffer = w.pixels.id; spec = w.spec; fence = w.waiter } };

    ghost invariant = { λ w. IsBufferFor w.spec w.pixels.id w.pixels };
}

/// A buffer that shows a frame's picture, with its digest. It can't be copied or let go.
pub struct FilledBuf {
    frame: FrameNo,
    settings: Settings,
    target: FillTarget,
    pixels: PixelBuf,
    digest: [u8; 32],
}

impl Model for FilledBuf {
    ghost use Rattle.std.specs.Prelude.{Some};
    ghost use Rattle.cam_types.specs.declared.job.JobView.{JobView};
    ghost use Rattle.fill_jobs.specs.Buffers.{IsPictureFor};

    ghost Value = { JobView };

    ghost view = { λ f. record { frame = f.frame; settings = f.settings; fill = Some f.target } };

    ghost invariant = { λ f. IsPictureFor f.target.spec f.settings f.frame.0 f.target.buffer f.pixels f.digest };
}

/// What is held for a target: its buffer, before a stage has it or after.
pub enum Held {
    Waiting(WaitingBuf),
    Filled(FilledBuf),
}

impl WaitingBuf {
    /// A buffer of a stream as it came with a request.
    pub fn new(spec: StreamSpec, parked: Parked) -> WaitingBuf
        requires { IsBufferFor spec parked.pixels.id parked.pixels }
        ensures { result ≡ record { buffer = parked.pixels.id; spec = spec; fence = parked.waiter } }
    {
        let Parked { pixels, waiter } = parked;
        WaitingBuf {
            spec,
            pixels,
            waiter,
        }
    }

    /// The stream's specification.
    pub fn spec(&self) -> StreamSpec
        ensures { result ≡ self.now.spec }
    {
        self.spec
    }

    /// The buffer as it came.
    pub fn into_parked(self) -> Parked
        ensures pixels { IsBufferFor self.spec self.buffer result.pixels }
        ensures waiter { result.waiter ≡ self.fence }
    {
        let WaitingBuf {
            spec: _,
            pixels,
            waiter,
        } = self;
        Parked { pixels, waiter }
    }
}

impl FilledBuf {
    /// The buffer of a target, which shows the frame's picture, with the digest of it.
    pub fn new(
        frame: FrameNo,
        settings: Settings,
        target: FillTarget,
        pixels: PixelBuf,
        digest: [u8; 32],
    ) -> FilledBuf
        requires { IsPictureFor target.spec settings frame.0 target.buffer pixels digest }
        ensures { result ≡ record { frame = frame; settings = settings; fill = Some target } }
    {
        FilledBuf {
            frame,
            settings,
            target,
            pixels,
            digest,
        }
    }

    /// The buffer with its digest.
    pub fn into_parts(self) -> (PixelBuf, [u8; 32])
        ensures { IsPictureOf self result.0 result.1 }
    {
        let FilledBuf {
            frame: _,
            settings: _,
            target: _,
            pixels,
            digest,
        } = self;
        (pixels, digest)
    }
}
