//! Who is at work.
use std::sync::atomic::{AtomicU32, Ordering};

/// The loops of a run, and how many of them are at work. Where a thread can't be started, its loop runs before those that
/// it should have run beside, and these aren't there.
#[derive(Drop)]
pub(crate) struct Crew {
    all: u32,
    here: AtomicU32,
}

impl Crew {
    /// So many loops, of which none has begun.
    pub(crate) fn of(all: u32) -> Crew {
        Crew {
            all,
            here: AtomicU32::new(0),
        }
    }

    /// A loop begins.
    pub(crate) fn come(&self) {
        self.here.fetch_add(1, Ordering::SeqCst);
    }

    /// A loop ends.
    pub(crate) fn go(&self) {
        self.here.fetch_sub(1, Ordering::SeqCst);
    }

    /// Whether every loop is at work.
    pub(crate) fn is_whole(&self) -> bool {
        self.here.load(Ordering::SeqCst) >= self.all
    }
}
