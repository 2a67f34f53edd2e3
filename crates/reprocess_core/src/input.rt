//! The three input buffers: each at home, or at the device with its ticket.
ghost use Rattle.std.specs.Prelude.{◌≡◌, ◌<◌, IsTrue, None, Some, length, slice_index_or, slice_set};
ghost use Rattle.reprocess_core.specs.Inputs.{is_home, is_out};

use crate::ticket::InputTicket;
use cam_types::PixelBuf;

/// Where an input buffer is. It can't be let go.
pub enum Place {
    Home(PixelBuf),
    Out(InputTicket),
}

/// A place for each of the three input buffers.
pub type Places = [Option<Place>; 3];

/// Takes the buffer of a place at which it is at home.
pub fn take_home(places: &mut [Option<Place>], place: usize) -> PixelBuf
    requires within { place < length places.old }
    requires home { IsTrue (is_home (slice_index_or places.old place None)) }
    ensures value { slice_index_or places.old place None ≡ Some (Place.Home result) }
    ensures places { places.new ≡ slice_set places.old place None }
{
    match places[place].take() {
        Some(Place::Home(pixels)) => pixels,
        Some(Place::Out(_ticket)) => unreachable!(),
        None => unreachable!(),
    }
}

/// Takes the ticket of a place whose buffer is at the device.
pub fn take_ticket(places: &mut [Option<Place>], place: usize) -> InputTicket
    requires within { place < length places.old }
    requires out { IsTrue (is_out (slice_index_or places.old place None)) }
    ensures value { slice_index_or places.old place None ≡ Some (Place.Out result) }
    ensures places { places.new ≡ slice_set places.old place None }
{
    match places[place].take() {
        Some(Place::Out(ticket)) => ticket,
        Some(Place::Home(_pixels)) => unreachable!(),
        None => unreachable!(),
    }
}

/// Puts a buffer or a ticket into a free place.
pub fn put(places: &mut [Option<Place>], place: usize, buffer: Place)
    requires within { place < length places.old }
    requires free { slice_index_or places.old place None ≡ None }
    ensures { places.new ≡ slice_set places.old place (Some buffer) }
{
    match places[place].replace(buffer) {
        None => {}
        Some(_) => unreachable!(),
    }
}

/// The ticket of a place whose buffer is at the device.
pub fn ticket_at(places: &[Option<Place>], place: usize) -> &InputTicket
    requires within { place < length places.now }
    requires out { IsTrue (is_out (slice_index_or places.now place None)) }
    ensures { slice_index_or places.now place None ≡ Some (Place.Out result.now) }
{
    match &places[place] {
        Some(Place::Out(ticket)) => ticket,
        _ => unreachable!(),
    }
}

/// Ends the places. An array whose values can't be let go ends by a pattern that names each.
pub fn end_places(places: Places) {
    let [first, second, third] = places;
    end(first);
    end(second);
    end(third);
}

fn end(place: Option<Place>) {
    match place {
        Some(Place::Home(pixels)) => {
            let _block = pixels.into_block();
        }
        Some(Place::Out(ticket)) => {
            let _block = ticket.into_buffer().into_block();
        }
        None => {}
    }
}
