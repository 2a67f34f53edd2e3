//! The pictures of inputs.
ghost use Rattle.std.specs.Prelude.{◌≡◌, ◌<◌, IsTrue, None, Some, is_some, length, slice_get, slice_index_or, slice_set};
ghost use Rattle.cam_types.specs.Metadata.{range_fault};
ghost use Rattle.reprocess_model.specs.Plan.{is_plan, requests};
ghost use Rattle.reprocess_core.specs.Inputs.{IsHomeWith, IsTicket, is_home};
ghost use Rattle.reprocess_core.specs.Tickets.{TicketView};

use crate::input::{Place, put, take_home};
use crate::ticket::InputTicket;
use cam_types::{FrameNo, Readout, Settings};
use reprocess_model::{InputId, Plan, ReCommand};

/// The settings of a request of a plan.
fn settings_of(plan: &Plan, frame: FrameNo) -> Settings
    requires within { frame.0 < length (requests plan.now.commands) }
    requires valid { IsTrue (is_plan plan.now) }
    ensures value { slice_get (requests plan.now.commands) frame.0 ≡ Some result }
    ensures range { range_fault result ≡ None }
{
    let commands = plan.commands.as_slice();
    let mut left = frame.0;
    for command in commands {
        if let ReCommand::Request(settings) = command {
            if left == 0 {
                return *settings;
            }
            left -= 1;
        }
    }
    unreachable!()
}

/// Draws the input of a request into a buffer that is at home.
pub fn draw_into(
    plan: &Plan,
    places: &mut [Option<Place>],
    readout: &mut Option<Readout>,
    frame: FrameNo,
    input: InputId,
)
    requires valid { IsTrue (is_plan plan.now) }
    requires request { frame.0 < length (requests plan.now.commands) }
    requires within { input.0 < length places.old }
    requires home { IsTrue (is_home (slice_index_or places.old input.0 None)) }
    requires room { IsHomeWith plan.now.input (slice_index_or places.old input.0 None) }
    requires readout { IsTrue (is_some readout.old) }
    ensures ticket { (t : TicketView) × IsTicket plan.now frame.0 t
        × (places.new ≡ slice_set (slice_set places.old input.0 None) input.0 (Some (Place.Out t))) }
    ensures readout { IsTrue (is_some readout.new) }
{
    let settings = settings_of(plan, frame);
    let pixels = take_home(places, input.0 as usize);
    let Some(scratch) = readout.take() else {
        unreachable!()
    };
    let (ticket, back) = InputTicket::draw(frame, plan.input, settings, scratch, pixels);
    put(places, input.0 as usize, Place::Out(ticket));
    *readout = Some(back);
}
