//! Both judges over a trace and its changes.

use super::altered::ALTERATIONS;
use super::changed::{Change, changed};
use cam_types::{NoMemory, Script};
use std::alloc::Global;
use std::fmt::{self, Write};
use trace_check::{check, check_plain};
use trace_model::{TraceList, Verdict};

/// The places of a trace that are changed, counted from 0.
#[derive(Clone, Copy)]
pub struct Places {
    pub first: usize,
    /// How far each lies behind the one before.
    pub step: usize,
}

/// What was judged.
#[derive(Clone, Copy)]
pub struct Tally {
    /// The entries of the trace.
    pub entries: u32,
    /// How many places were changed.
    pub places: u64,
    /// The traces that both judges were given.
    pub judged: u64,
    /// How many of them are legal.
    pub legal: u64,
    /// How many of them the judges say otherwise of.
    pub otherwise: u64,
}

impl fmt::Display for Tally {
    fn fmt<W: Write>(&self, f: &mut fmt::Formatter<W>) -> fmt::Result {
        write!(
            f,
            "{} entries, {} of them changed; {} traces judged, {} legal; {} judged otherwise",
            self.entries, self.places, self.judged, self.legal, self.otherwise
        )
    }
}

impl Tally {
    /// Gives a trace to both judges.
    fn judge(&mut self, alloc: Global, script: &Script, trace: &TraceList) -> Result<(), NoMemory> {
        let verdict = check(alloc, script, trace)?;
        let plain = check_plain(alloc, script, trace)?;
        self.judged = self.judged.saturating_add(1);
        if verdict == Verdict::Legal {
            self.legal = self.legal.saturating_add(1);
        }
        if verdict != plain {
            self.otherwise = self.otherwise.saturating_add(1);
        }
        Ok(())
    }

    /// Gives the trace to both judges with each change at a place.
    fn judge_changes(
        &mut self,
        alloc: Global,
        script: &Script,
        trace: &TraceList,
        at: usize,
    ) -> Result<(), NoMemory> {
        for change in [Change::LeftOut, Change::Doubled, Change::Exchanged] {
            if let Some(other) = changed(alloc, trace, at, change)? {
                self.judge(alloc, script, &other)?;
            }
        }
        for number in 0..ALTERATIONS {
            if let Some(other) = changed(alloc, trace, at, Change::Altered(number))? {
                self.judge(alloc, script, &other)?;
            }
        }
        self.places = self.places.saturating_add(1);
        Ok(())
    }
}

/// Gives a trace to both judges, and then with each change at each of the places.
pub fn judge_all(
    alloc: Global,
    script: &Script,
    trace: &TraceList,
    places: Places,
) -> Result<Tally, NoMemory> {
    let mut tally = Tally {
        entries: trace.len(),
        places: 0,
        judged: 0,
        legal: 0,
        otherwise: 0,
    };
    tally.judge(alloc, script, trace)?;
    for at in (0..trace.as_slice().len())
        .skip(places.first)
        .step_by(places.step.max(1))
    {
        tally.judge_changes(alloc, script, trace, at)?;
    }
    Ok(tally)
}
