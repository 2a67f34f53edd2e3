//! How a loop waits that finds no work.
use crate::crew::Crew;
use std::hint::spin_loop;
use std::thread;
use std::time::{Clock, Duration};

/// So many waits since a loop had work are a spin alone, and those behind them, to here, a yield alone: work often comes
/// at once.
const SPINS: u32 = 20;

const YIELDS: u32 = 30;

/// All other waits are a sleep, of no more than so many microseconds.
const LONGEST: u32 = 400;

/// A sleep counts as so many other waits.
const SLEEP: u32 = 20;

/// The history hasn't grown for so many waits: a loop asks whether the run is complete.
const ASKS: u32 = 40;

/// It hasn't grown for so many: the loop ends. They are some four seconds, or a third of a second where not all loops are
/// at work.
const MANY: u32 = 200_000;

const FEW: u32 = 20_000;

/// A loop that often looks in vain lets others make so many moves at most before it looks again.
const PATIENCE: u64 = 16;

/// Since when a loop finds no work: at how many moves it last looked in vain, how many it saw since, how many it lets
/// pass before it looks again, how often it has waited since it had work, and for how many waits the history hasn't
/// grown, and whether it asked since if the run is complete.
#[derive(Drop)]
pub(crate) struct Idle {
    vain: Option<u64>,
    last: Option<u64>,
    patience: u64,
    waits: u32,
    still: u32,
    asked: bool,
}

/// What a loop does next.
#[derive(Clone, Copy)]
pub(crate) enum Next {
    /// It asks for a turn: there may be work.
    Look,
    /// Others are at work: it reads the number of moves again.
    Watch,
    /// There is no more than when it last looked in vain.
    Rest,
}

impl Idle {
    /// Not at all yet.
    pub(crate) fn new() -> Idle {
        Idle {
            vain: None,
            last: None,
            patience: 1,
            waits: 0,
            still: 0,
            asked: false,
        }
    }

    /// What to do at so many moves. A loop looks where none came since it read the number before, or as many as it
    /// lets pass.
    pub(crate) fn next(&mut self, moves: u64) -> Next {
        let Some(vain) = self.vain else {
            return Next::Look;
        };
        if vain == moves {
            return Next::Rest;
        }
        if self.last == Some(moves) || moves.saturating_sub(vain) >= self.patience {
            return Next::Look;
        }
        self.last = Some(moves);
        Next::Watch
    }

    /// There was no work at so many moves, or at more.
    pub(crate) fn note(&mut self, moves: u64) {
        self.vain = Some(moves);
        self.last = None;
        self.patience = self.patience.saturating_mul(2).min(PATIENCE);
        self.still = 0;
        self.asked = false;
    }

    /// There was work.
    pub(crate) fn end(&mut self) {
        self.vain = None;
        self.patience = 1;
        self.waits = 0;
    }

    /// Whether it is time to ask if the run is complete.
    pub(crate) fn asks(&mut self) -> bool {
        let asks = self.still >= ASKS && !self.asked;
        self.asked = self.asked || asks;
        asks
    }

    /// Whether the loop has waited so long that it is to end.
    pub(crate) fn is_over(&self, crew: &Crew) -> bool {
        self.still >= MANY || self.still >= FEW && !crew.is_whole()
    }

    /// Waits, for longer each time.
    pub(crate) fn wait<R: Clock>(&mut self, rt: &R) {
        let mut counts = 1;
        if self.waits < SPINS {
            spin_loop();
        } else if self.waits < YIELDS {
            thread::yield_now();
        } else {
            let micros = (self.waits - YIELDS + 1).min(LONGEST);
            thread::sleep(rt, Duration::from_micros(u64::from(micros)));
            counts = SLEEP;
        }
        self.waits = self.waits.saturating_add(1);
        self.still = self.still.saturating_add(counts);
    }
}
