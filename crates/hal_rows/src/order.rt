//! What is asked of later requests.

/// What a later request brought back: the last part of its metadata, in order; of a stream a buffer that is ok, one
/// that the strict order counts, such a one that isn't ok.
#[derive(Clone, Copy)]
pub enum Order {
    Sound,
    Filled(u32),
    Orderly(u32),
    Other(u32),
}
