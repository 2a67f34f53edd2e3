//! The search for an exposure.
ghost use Rattle.std.specs.Prelude.{◌≡◌, ℕ, suc, ◌+◌, ◌-◌, ◌*◌, ◌≤◌, nat_le};
ghost use Rattle.cam_types.specs.declared.item.Settings.{Settings as SomeSettings};
ghost use Rattle.auto_call.specs.Brightness.{at_step, least, mean as mean_of};
ghost use Rattle.auto_call.specs.Scene.{measured};
ghost use Rattle.auto_call.specs.Search.{IsWithin, Spans, decided, narrowed, start, state_of, step_of};

use crate::state::AeState;
use std::marker::Model;

/// The steps of exposure.
const STEPS: u32 = 1_000;

/// A search by halves for the least exposure at which a scene is bright enough, in steps of 100,000 ns. A contract
/// sees the steps that are left.
#[derive(Clone, Copy)]
pub struct Ae {
    low: u32,
    high: u32,
}

impl Model for Ae {
    ghost use Rattle.auto_call.specs.Search.{IsWithin, Search};

    ghost Value = { Search };

    ghost view = { λ a. record { low = a.low; high = a.high } };

    ghost invariant = { λ a. IsWithin (record { low = a.low; high = a.high }) };

    ghost inverse = { λ s. record { low = s.low; high = s.high } };
}

impl Ae {
    /// A search of which every step is left, and none.
    pub fn start() -> Ae
        ensures { result ≡ start }
    {
        Ae {
            low: 1,
            high: STEPS + 1,
        }
    }

    /// The step of the next frame, from 1 to 1,000.
    pub fn exposure(&self) -> u32
        ensures value { result ≡ step_of self.now }
        ensures least { 1 ≤ result }
        ensures most { result ≤ 1000 }
    {
        if self.low < self.high {
            (self.low + self.high) / 2
        } else {
            self.low.min(STEPS)
        }
    }

    /// Leaves the steps up to the next frame's, if that was bright enough, or those above it.
    fn narrow(&mut self, enough: bool)
        ensures value { self.new ≡ narrowed enough self.old }
        ensures within { IsWithin self.old }
    {
        if self.low < self.high {
            if enough {
                self.high = self.exposure();
            } else {
                self.low = self.exposure() + 1;
            }
        }
    }

    /// Takes the mean of the next frame, captured at the search's exposure, and the target. Where one step alone is
    /// left nothing changes.
    pub fn learn(&mut self, mean: u32, target: u32)
        ensures value { self.new ≡ narrowed (nat_le target mean) self.old }

        // What is left is halved at least.
        ensures halves { (self.new.high - self.new.low) * 2 ≤ self.old.high - self.old.low }

        // The least step of a solid scene or of bars stays among the steps that are left, if the mean is the scene's.
        ensures keeps { (s : SomeSettings) (n : ℕ) → s.pattern ≤ 1 → mean ≡ mean_of (at_step s (step_of self.old)) n →
            Spans self.old (least s target) → Spans self.new (least s target) }

        // One more frame of a scene, if the mean is that of this frame.
        ensures follows { (s : SomeSettings) (first frames : ℕ) → self.old ≡ measured s target first frames →
            mean ≡ mean_of (at_step s (step_of self.old)) (first + frames) →
            self.new ≡ measured s target first (suc frames) }
    {
        self.narrow(mean >= target);
    }

    /// How far the search is.
    pub fn state(&self) -> AeState
        ensures value { result ≡ state_of self.now }

        // After ten frames of a solid scene or of bars it is locked at the least step that is bright enough, or at the
        // limit where there is none.
        ensures decided { (s : SomeSettings) (target first frames : ℕ) → s.pattern ≤ 1 → 10 ≤ frames →
            self.now ≡ measured s target first frames → result ≡ decided (least s target) }
    {
        if self.low < self.high {
            AeState::Searching {
                low: self.low,
                high: self.high,
            }
        } else if self.low > STEPS {
            AeState::AtLimit
        } else {
            AeState::Locked { exposure: self.low }
        }
    }
}
