//! Signallers that wait for their turn.
ghost use Rattle.std.specs.Prelude.{◌≡◌, ◌==◌, ◌↔◌, ◌++◌, ◌∷◌, [], ◌<◌, IfOk, IfSome, IsSome, IsTrue, length, slice_get};
ghost use Rattle.std.specs.List.{list_all, position_from};
ghost use Rattle.buffer_pool.specs.Fences.{made};
ghost use Rattle.buffer_pool.specs.Pending.{are_below, ascends, no_pending, stands, without};

use crate::{Fences, Signaller};
use std::alloc::{AllocError, Global};
use std::marker::Model;

/// The signallers of fences that weren't signalled yet, ascending by the fence's number. All its memory is taken by
/// `with_room`. It can't be let go: `scrap` ends it.
pub struct PendingSignals {
    signallers: Vec<Signaller>,
    /// How many may stand at once.
    room: u32,
}

impl Model for PendingSignals {
    ghost use Rattle.std.specs.Prelude.{vec_capacity};
    ghost use Rattle.buffer_pool.specs.Pending.{IsKept, Pending};

    ghost Value = { Pending };

    ghost view = { λ p. record { numbers = p.signallers.items; room = p.room } };

    ghost invariant = { λ p. IsKept p.signallers.items p.room (vec_capacity p.signallers) };
}

impl PendingSignals {
    /// No signaller, and room for so many.
    pub fn with_room(alloc: Global, room: u32) -> Result<PendingSignals, AllocError>
        ensures { IfOk result (λ pending. pending ≡ no_pending room) }
    {
        let signallers = Vec::with_capacity(alloc, room as usize)?;
        Ok(PendingSignals { signallers, room })
    }

    /// Keeps the signaller of a fence that is later than all that stand.
    pub fn push(&mut self, signaller: Signaller)
        requires later { IsTrue (are_below signaller self.old.numbers) }
        requires room { length self.old.numbers < self.old.room }
        ensures { self.new ≡ record self.old { numbers = self.old.numbers ++ signaller ∷ [] } }
    {
        self.signallers.push_reserved(signaller);
    }

    /// Takes the signaller of a fence. None exactly where it has none.
    pub fn take(&mut self, fence: u32) -> Option<Signaller>
        ensures value { IfSome result (λ signaller. signaller ≡ fence) }
        ensures some { IsSome result ↔ IsTrue (stands fence self.old.numbers) }
        ensures left { self.new ≡ record self.old { numbers = without fence self.old.numbers } }
    {
        let place = place_of(&self.signallers, fence)?;
        Some(self.signallers.remove(place))
    }

    /// Whether the signaller of a fence stands.
    pub fn stands(&self, fence: u32) -> bool
        ensures { result ≡ stands fence self.now.numbers }
    {
        self.signallers
            .iter()
            .any(|signaller| signaller.number() == fence)
    }

    /// How many signallers stand.
    pub fn len(&self) -> u32
        ensures value { result ≡ length self.now.numbers }
        ensures order { IsTrue (ascends self.now.numbers) }
    {
        self.signallers.len() as u32
    }

    /// The number of the fence at a place, from 0 on. None exactly where so many don't stand.
    pub fn at(&self, place: u32) -> Option<u32>
        ensures value { result ≡ slice_get self.now.numbers place }
    {
        let signaller = self.signallers.get(place as usize)?;
        Some(signaller.number())
    }

    /// Spends the signallers, which are of fences that were made by these. No fence is signalled.
    pub fn scrap(self, fences: &mut Fences)
        requires { IsTrue (are_below (made fences.old) self.numbers) }
        ensures { fences.new ≡ fences.old }
    {
        let PendingSignals {
            mut signallers,
            room: _,
        } = self;
        while let Some(signaller) = signallers.pop() {
            fences.scrap_signaller(signaller);
        }
        signallers.destroy_empty();
    }
}

/// The place of the signaller of a fence.
fn place_of(signallers: &[Signaller], fence: u32) -> Option<usize>
    ensures { result ≡ position_from (λ number. number == fence) 0 signallers.now }
{
    signallers
        .iter()
        .position(|signaller| signaller.number() == fence)
}
