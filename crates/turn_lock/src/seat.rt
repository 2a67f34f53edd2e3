//! A seat at a turnstile.
use crate::kept::Kept;
use crate::view::View;
use std::marker::PhantomData;

/// A thread's place at one turnstile. It is spent by `join` or `close`.
pub struct Seat<S: Kept> {
    pub(crate) place: atomic_table::Seat<Option<S>, View<S::Fixed, S::Entry, S::Job>>,
}

/// The value, for as long as a seat holds the turn. It is spent by `leave`.
pub struct Held<S> {
    pub value: S,
    pub(crate) turn: PhantomData<S>,
}
