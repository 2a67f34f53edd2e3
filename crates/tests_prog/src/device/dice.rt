//! Numbers that look random, from a seed.
ghost use Rattle.std.specs.Prelude.{◌<◌};

/// A generator of numbers (a linear congruential one; that a seed gives the same numbers is all that is asked).
#[derive(Clone, Copy)]
pub(crate) struct Dice {
    state: u64,
}

impl Dice {
    pub fn new(seed: u32) -> Dice {
        Dice {
            state: (seed as u64)
                .wrapping_mul(0x9E37_79B9_7F4A_7C15)
                .wrapping_add(1),
        }
    }

    /// A number below `sides`.
    pub fn roll(&mut self, sides: u32) -> u32
        requires { 0 < sides }
    {
        self.state = self
            .state
            .wrapping_mul(6_364_136_223_846_793_005)
            .wrapping_add(1_442_695_040_888_963_407);
        (self.state >> 33) as u32 % sides
    }
}
