//! Gives both judges a worked trace behind its script: as it is, and with an entry left out, doubled, exchanged with the
//! next or altered at each place. It writes one line with what was judged.

mod agreement;
mod altered;
mod changed;

use crate::failure::NotTried;
use crate::input_of;
use agreement::{Places, judge_all};
use call_parts::parts_of;
use trace_reader::TRACE_BYTES;

/// Judges the trace of the standard input at the places that the words name, and tells whether both judges always said
/// the same.
pub fn try_trace(rt: &HostRuntime, words: &[String]) -> Result<bool, NotTried> {
    let alloc = rt.alloc();
    let places = places_of(words)?;
    let input = input_of(rt, TRACE_BYTES)?;
    if input.len() > TRACE_BYTES {
        return Err(NotTried::Input);
    }
    let parts = parts_of(input.as_slice());
    let script = script_text::read(alloc, parts.script)?;
    let trace = trace_reader::read(alloc, parts.trace, parts.first_line as u32)?;
    let tally = judge_all(alloc, &script, &trace, places)?;
    println!(rt; "{tally}")?;
    Ok(tally.otherwise == 0)
}

/// The places that the words give: the first and the step. All, where there are none.
fn places_of(words: &[String]) -> Result<Places, NotTried> {
    let mut numbers = [0, 1];
    for (at, text) in words.iter().enumerate() {
        let number = numbers.get_mut(at).ok_or(NotTried::Words)?;
        *number = text.as_str().parse().map_err(|_| NotTried::Words)?;
    }
    let [first, step] = numbers;
    if step == 0 {
        return Err(NotTried::Words);
    }
    Ok(Places { first, step })
}
