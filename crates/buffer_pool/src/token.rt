//! The two ends of a fence, which can only be spent.
ghost use Rattle.std.specs.Prelude.{◌≡◌};

use std::marker::Model;

/// The right to signal a fence. A contract sees it as the fence's number. It can't be copied or let go:
/// `Fences::signal` and `Fences::scrap_signaller` end it.
pub struct Signaller {
    number: u32,
}

impl Model for Signaller {
    ghost use Rattle.std.specs.Prelude.{ℕ};

    ghost Value = { ℕ };

    ghost view = { λ s. s.number };
}

/// The right to wait for a fence. A contract sees it as the fence's number. It can't be copied or let go:
/// `Fences::redeem` of a signalled fence and `Fences::scrap_waiter` end it.
pub struct Waiter {
    number: u32,
}

impl Model for Waiter {
    ghost use Rattle.std.specs.Prelude.{ℕ};

    ghost Value = { ℕ };

    ghost view = { λ w. w.number };
}

impl Signaller {
    /// The fence's number.
    pub fn number(&self) -> u32
        ensures { result ≡ self.now }
    {
        self.number
    }

    pub(crate) fn over(number: u32) -> Signaller
        ensures { result ≡ number }
    {
        Signaller { number }
    }

    pub(crate) fn spend(self) -> u32
        ensures { result ≡ self }
    {
        let Signaller { number } = self;
        number
    }
}

impl Waiter {
    /// The fence's number.
    pub fn number(&self) -> u32
        ensures { result ≡ self.now }
    {
        self.number
    }

    pub(crate) fn over(number: u32) -> Waiter
        ensures { result ≡ number }
    {
        Waiter { number }
    }

    pub(crate) fn spend(self) -> u32
        ensures { result ≡ self }
    {
        let Waiter { number } = self;
        number
    }
}
