//! Whose turn it is.
ghost use Rattle.std.specs.Prelude.{◌≡◌};
ghost use Rattle.logical_call.specs.Whose.{turn_of};

/// Whose turn it is.
#[derive(Clone, Copy)]
pub(crate) enum Turn {
    First,
    Second,
    /// Both runs are complete.
    Over,
}

/// Whose turn it is by a pick, and by whether the run of the first and of the second is complete.
pub(crate) fn turn_of(pick: u32, first_done: bool, second_done: bool) -> Turn
    ensures { result ≡ turn_of pick first_done second_done }
{
    match (first_done, second_done) {
        (true, true) => Turn::Over,
        (true, false) => Turn::Second,
        (false, true) => Turn::First,
        (false, false) => {
            if pick % 2 == 0 {
                Turn::First
            } else {
                Turn::Second
            }
        }
    }
}
