//! Looks that take no turn.
ghost use Rattle.turn_lock.specs.Seats.{view, IsSeatOf};
ghost use Rattle.turn_lock.specs.Turns.{Looks};

use super::Turnstile;
use crate::kept::Kept;
use crate::plays::Count;
use crate::seat::Seat;

impl<S: Kept> Turnstile<S> {
    /// How many entries the history has at some moment of this call. It takes no turn, and doesn't wait: of the value it
    /// tells nothing else, and another seat may have added more since.
    pub fn count(&self, seat: &mut Seat<S>) -> u64
        requires { IsSeatOf S.fixed self.now seat.old }
        ensures seat { IsSeatOf S.fixed self.now seat.new }
        ensures look { Looks (view seat.old) result (view seat.new) }
    {
        self.table.shared.load::<Count>(&mut seat.place, 1)
    }
}
