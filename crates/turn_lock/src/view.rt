//! What a seat knows.
use std::collections::LinkedList;

/// What a seat knows. It lives in proofs alone: no value of it is made.
pub struct View<F, E, J> {
    /// The turnstile's fixed value. The spent view that a join leaves has none.
    pub fixed: Option<F>,
    /// The seat's number. The root has 0.
    pub number: u64,
    /// The entries that it saw last.
    pub seen: LinkedList<E>,
    /// The jobs that it has out.
    pub jobs: LinkedList<J>,
    /// Whether it holds the turn.
    pub holds: bool,
    /// While it holds the turn, the jobs that the other seats have out.
    pub rest: LinkedList<J>,
    /// Of the root, the numbers of the seats that it split off and has not joined.
    pub others: LinkedList<u64>,
    /// Of the root, how many seats there ever were.
    pub made: u64,
    /// Of the root, the shorter of the two histories at its last join.
    pub told: LinkedList<E>,
}
