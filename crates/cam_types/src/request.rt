//! Items of the queue, as they wait and as their turn is.
use crate::item::Item;
use crate::number::RequestId;

/// An item that waits in the queue: the item at place `index`, from 0 on, of a `once` or a `burst`.
#[derive(Clone, Copy)]
pub struct WaitingItem {
    pub request: RequestId,
    pub index: u32,
    pub item: Item,
}

/// An item whose turn it is: the item at place `index`, from 0 on, of its request.
#[derive(Clone, Copy)]
pub struct Queued {
    pub request: RequestId,
    pub index: u32,
    pub item: Item,
    /// Whether the item is of the list that repeats.
    pub repeating: bool,
}
