//! What the rest of the service says, as far as replies ask for it.

/// What the rest of the service says, as far as replies ask for it.
#[derive(Clone, Copy)]
pub struct Around {
    /// Whether no frame is in process.
    pub quiet: bool,
    /// How many items wait.
    pub waiting: u32,
    /// Whether there is a list that repeats.
    pub is_repeating: bool,
    /// How many requests were accepted, which is the number of the next.
    pub requests: u32,
    /// The number of the next buffer.
    pub next_buffer: u32,
    /// Whether every buffer is in its pool.
    pub all_home: bool,
}
