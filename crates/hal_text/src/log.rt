//! Hal logs.

use cam_types::Listing;
use hal_model::EventList;

/// A hal log, read from its text.
#[derive(Drop)]
pub struct HalLog {
    /// The device's partial result count, 1 to 16.
    pub parts: u32,
    /// The events, the first one first.
    pub events: EventList,
    /// Of each event the number of its line in the text, counted from 1.
    pub lines: Listing<u32>,
}
