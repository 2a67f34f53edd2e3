//! A gate at which fills wait for one another, or which is open.
use cam_types::{FrameNo, StreamIx};
use camera_top::Gate;
use std::sync::atomic::{AtomicBool, AtomicU32, Ordering};
use std::thread;
use std::time::{Clock, Duration};

/// Between two looks a fill sleeps so many microseconds.
const LOOK: u64 = 500;

/// So many looks a fill waits for the others: some three seconds.
const LOOKS: u32 = 6_000;

/// So many fills stay at the gate for a while more, so that steps of others fall within them.
const STAYING: u32 = 32;

/// How long they stay, in microseconds.
const STAY: u64 = 2_000;

/// Which fills wait at a gate.
#[derive(Clone, Copy)]
pub enum Held {
    /// None.
    Nobody,
    /// The first one, until so many have begun.
    First(u32),
    /// Each, until so many have begun, and the first ones then stay for a while.
    Each(u32),
}

/// A gate at which fills wait for others. It counts who came and who left. Once a fill has waited in vain no other waits.
#[derive(Drop)]
pub struct Meeting<'a, R> {
    rt: &'a R,
    held: Held,
    came: AtomicU32,
    left: AtomicU32,
    is_over: AtomicBool,
}

impl<'a, R: Clock> Meeting<'a, R> {
    /// A gate at which these wait, and sleep by this clock.
    pub fn of(rt: &'a R, held: Held) -> Meeting<'a, R> {
        Meeting {
            rt,
            held,
            came: AtomicU32::new(0),
            left: AtomicU32::new(0),
            is_over: AtomicBool::new(false),
        }
    }

    /// How many fills came.
    pub fn came(&self) -> u32 {
        self.came.load(Ordering::SeqCst)
    }

    /// How many fills left.
    pub fn left(&self) -> u32 {
        self.left.load(Ordering::SeqCst)
    }

    /// Whether so many fills as were wanted have begun, and none waited in vain.
    pub fn has_met(&self) -> bool {
        self.is_met() && !self.is_over.load(Ordering::SeqCst)
    }

    fn is_met(&self) -> bool {
        match self.held {
            Held::Nobody => true,
            Held::First(wanted) | Held::Each(wanted) => self.came() >= wanted,
        }
    }

    /// Waits until so many have begun; in vain it waits once.
    fn await_all(&self) {
        for _ in 0..LOOKS {
            if self.is_met() || self.is_over.load(Ordering::SeqCst) {
                return;
            }
            thread::sleep(self.rt, Duration::from_micros(LOOK));
        }
        self.is_over.store(true, Ordering::SeqCst);
    }
}

impl<'a, R: Clock> Gate for Meeting<'a, R> {
    fn enter(&self, _frame: FrameNo, _stream: StreamIx) {
        let before = self.came.fetch_add(1, Ordering::SeqCst);
        match self.held {
            Held::First(_) if before == 0 => self.await_all(),
            Held::Each(_) => {
                self.await_all();
                if before < STAYING {
                    thread::sleep(self.rt, Duration::from_micros(STAY));
                }
            }
            _ => {}
        }
    }

    fn leave(&self, _frame: FrameNo, _stream: StreamIx) {
        self.left.fetch_add(1, Ordering::SeqCst);
    }
}
