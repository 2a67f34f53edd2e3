//! The steps of threads at a turnstile, as the table sees them.
// The rule of the table, and what each step on it tells.
ghost use Rattle.turn_lock.specs.Steps.{Claims, Tells, Releases, Stays, Counts, Compares, joining};
ghost use Rattle.turn_lock.specs.Turns.{splitting, split_off};
ghost use Rattle.turn_lock.specs.Views.{spent};

use crate::kept::Kept;
use crate::view::View;
use atomic_table::{Join, Play, Split, TableRule};
use std::snapshot::Snapshot;

/// The rule. The table is told the value that it begins with.
pub struct Rule;

impl<S: Kept> TableRule<Option<S>, View<S::Fixed, S::Entry, S::Job>, Snapshot<S>> for Rule {
    ghost use Rattle.turn_lock.specs.Rule.{IsKept};
    ghost use Rattle.turn_lock.specs.Views.{root_view};

    ghost holds = { λ key. IsKept S.fixed S.entries S.jobs (S.fixed key.value) };

    ghost first = { λ key. root_view (S.fixed key.value) (S.entries key.value) };
}

// The first word goes from 0 to 1, where it was 0.
pub(crate) struct Claim;

impl<S: Kept> Play<Option<S>, View<S::Fixed, S::Entry, S::Job>> for Claim {
    ghost then = { Claims S.fixed S.entries S.jobs };
}

// The second word becomes the number of entries of the value that the holder leaves.
pub(crate) struct Tell;

impl<S: Kept> Play<Option<S>, View<S::Fixed, S::Entry, S::Job>> for Tell {
    ghost then = { Tells S.entries };
}

// The first word goes from 1 to 0.
pub(crate) struct Release;

impl<S: Kept> Play<Option<S>, View<S::Fixed, S::Entry, S::Job>> for Release {
    ghost then = { Releases S.entries S.jobs };
}

// A thread begins or ends to wait: the third word goes up or down.
pub(crate) struct Queue;

impl<S, F, E, J> Play<Option<S>, View<F, E, J>> for Queue {
    ghost then = { Stays };
}

// A new seat.
pub(crate) struct Cut;

impl<F, E, J> Split<View<F, E, J>> for Cut {
    ghost left = { splitting };

    ghost right = { split_off };
}

// A seat taken in.
pub(crate) struct Glue;

impl<F, E, J> Join<View<F, E, J>> for Glue {
    ghost both = { joining };

    ghost spent = { spent };
}

// A look at the second word, by which the seat learns how many entries the history has.
pub(crate) struct Count;

impl<S, F, E, J> Play<Option<S>, View<F, E, J>> for Count {
    ghost then = { Counts };
}

// A look at the first word, by which the root learns that of the two histories of a join the shorter begins the longer.
pub(crate) struct Look;

impl<S, F, E, J> Play<Option<S>, View<F, E, J>> for Look {
    ghost then = { Compares };
}
