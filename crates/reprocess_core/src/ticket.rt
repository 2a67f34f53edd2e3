//! An input at the device, with its picture.
ghost use Rattle.std.specs.Prelude.{◌≡◌, ◌*◌, ◌/◌, None, IsTrue, length};
ghost use Rattle.cam_types.specs.Metadata.{range_fault};
ghost use Rattle.cam_types.specs.Picture.{picture, readout as readout_of};
ghost use Rattle.reprocess_model.specs.Plan.{is_yuv};
ghost use Rattle.reprocess_core.specs.Tickets.{TicketView};

use cam_types::{FrameNo, PixelBuf, Readout, Settings, StreamSpec};
use picture_stages::{
    SensorJob, a_readout_lies_between_dark_and_full, a_yuv_stream_has_yuv_pictures, draw_yuv,
};
use std::marker::Model;

/// An input buffer at the device, which shows the picture of its request. It must be spent: it is neither dropped nor
/// copied, and ends by `into_buffer` alone.
pub struct InputTicket {
    frame: FrameNo,
    spec: StreamSpec,
    settings: Settings,
    pixels: PixelBuf,
}

impl Model for InputTicket {
    ghost use Rattle.reprocess_core.specs.Tickets.{IsDrawn, TicketView};

    ghost Value = { TicketView };

    ghost view = { λ t. record { frame = t.frame; spec = t.spec; settings = t.settings } };

    ghost invariant = { λ t. IsDrawn t.spec t.settings t.frame.0 t.pixels.bytes };
}

impl InputTicket {
    /// Draws the picture of a request into an input buffer. It takes no memory: the readout that it writes comes back.
    pub fn draw(
        frame: FrameNo,
        spec: StreamSpec,
        settings: Settings,
        scratch: Readout,
        mut pixels: PixelBuf,
    ) -> (InputTicket, Readout)
        requires yuv { IsTrue (is_yuv spec) }
        requires range { range_fault settings ≡ None }
        requires room { length pixels.bytes ≡ spec.width * spec.height * 3 / 2 }
        ensures { result.0 ≡ record { frame = frame; spec = spec; settings = settings } }
    {
        a_readout_lies_between_dark_and_full();
        a_yuv_stream_has_yuv_pictures();
        let exposed = SensorJob::new(frame, settings, scratch).expose();
        let (_, _, readout) = exposed.into_parts();
        draw_yuv(&readout, spec.width, spec.height, &mut pixels);
        let ticket = InputTicket {
            frame,
            spec,
            settings,
            pixels,
        };
        (ticket, readout)
    }

    /// The request whose input it is.
    pub fn frame(&self) -> FrameNo
        ensures { result ≡ self.now.frame }
    {
        self.frame
    }

    /// The settings of the request.
    pub fn settings(&self) -> Settings
        ensures { result ≡ self.now.settings }
    {
        self.settings
    }

    /// The stream of the picture.
    pub fn spec(&self) -> StreamSpec
        ensures value { result ≡ self.now.spec }
        ensures offered { IsTrue (is_yuv self.now.spec) }
    {
        self.spec
    }

    /// The bytes of the picture.
    pub fn bytes(&self) -> &[u8]
        ensures value { result.now ≡ picture self.now.spec self.now.settings self.now.frame.0 }
        ensures len { length result.now ≡ self.now.spec.width * self.now.spec.height * 3 / 2 }
    {
        self.pixels.bytes()
    }

    /// The input buffer back.
    pub fn into_buffer(self) -> PixelBuf
        ensures bytes { result.bytes ≡ picture self.spec self.settings self.frame.0 }
        ensures len { length result.bytes ≡ self.spec.width * self.spec.height * 3 / 2 }
    {
        let InputTicket {
            frame: _,
            spec: _,
            settings: _,
            pixels,
        } = self;
        pixels
    }
}
