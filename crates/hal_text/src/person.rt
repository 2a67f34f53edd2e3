//! The whole report for a person.
ghost use Rattle.std.specs.Prelude.{◌≡◌, ◌++◌, None, IfOk, OnOk, IsTrue, length, string_bytes, take};
ghost use Rattle.std.specs.List.{flat_map, list_all};
ghost use Rattle.hal_model.specs.Fits.{is_well_made};
ghost use Rattle.hal_text.specs.Person.{breaches_text, more_text, open_line, open_lines, open_text, person_text, told_limit};

use crate::HalLog;
use crate::breach::{write_about, write_breach};
use crate::search::{front, last_begin};
use crate::sum::write_sum;
use cam_types::NoMemory;
use hal_model::Breach;
use std::alloc::Global;

/// So many breaches, and so many open requests, are told of; the others are counted.
const TOLD: usize = 100;

/// Writes how many more there are than are told of.
#[tactic(auto, unfolding(crate::specs::Person::more_text))]
fn write_more(out: &mut String, count: usize) -> Result<(), NoMemory>
    ensures { OnOk result (string_bytes out.new ≡ string_bytes out.old ++ more_text count) }
{
    if count > TOLD {
        let more = count - TOLD;
        writeln!(out, "and {more} more, which hal --plain lists")
    } else {
        Ok(())
    }
}

/// Writes what is told of each breach.
fn write_breaches(out: &mut String, log: &HalLog, breaches: &[Breach]) -> Result<(), NoMemory>
    requires { IsTrue (list_all is_well_made log.now.events) }
    ensures { OnOk result
        (string_bytes out.new ≡ string_bytes out.old ++ breaches_text log.now None breaches.now) }
{
    let mut last = None;
    for breach in breaches {
        write_breach(out, log, last, breach)?;
        last = Some(*breach);
    }
    Ok(())
}

/// Writes each open request, and where it begins.
fn write_frames(out: &mut String, log: &HalLog, frames: &[u32]) -> Result<(), NoMemory>
    requires { IsTrue (list_all is_well_made log.now.events) }
    ensures { OnOk result
        (string_bytes out.new ≡ string_bytes out.old ++ flat_map (open_line log.now) frames.now) }
{
    for frame in frames {
        write_about(out, log, Some(*frame), None, last_begin(*frame, log))?;
    }
    Ok(())
}

/// Writes what is open at the end.
#[tactic(auto, unfolding(crate::specs::Person::open_lines))]
fn write_lines(out: &mut String, log: &HalLog, outstanding: &[u32]) -> Result<(), NoMemory>
    requires { IsTrue (list_all is_well_made log.now.events) }
    ensures { OnOk result
        (string_bytes out.new ≡ string_bytes out.old ++ open_lines log.now outstanding.now) }
{
    out.push_str("open at the end of the log:\n")?;
    write_frames(out, log, front(outstanding, TOLD))?;
    write_more(out, outstanding.len())
}

/// Writes what is open at the end, where something is.
fn write_open(out: &mut String, log: &HalLog, outstanding: &[u32]) -> Result<(), NoMemory>
    requires { IsTrue (list_all is_well_made log.now.events) }
    ensures { OnOk result
        (string_bytes out.new ≡ string_bytes out.old ++ open_text log.now outstanding.now) }
{
    if outstanding.is_empty() {
        return Ok(());
    }
    write_lines(out, log, outstanding)
}

/// The report of a log for a person: its breaches, the numbers of the requests that are outstanding at the end, and the
/// sum. Each lookup takes time in the length of the log, and of breaches and open requests 100 each are looked up.
#[tactic(auto, unfolding(crate::specs::Person::person_text))]
pub fn person_text(
    alloc: Global,
    log: &HalLog,
    breaches: &[Breach],
    outstanding: &[u32],
) -> Result<Vec<u8>, NoMemory>
    requires made { IsTrue (list_all is_well_made log.now.events) }
    ensures { IfOk result (λ text. text.items ≡ person_text log.now breaches.now outstanding.now) }
{
    let mut out = String::new(alloc);
    write_breaches(&mut out, log, front(breaches, TOLD))?;
    write_more(&mut out, breaches.len())?;
    write_open(&mut out, log, outstanding)?;
    write_sum(alloc, &mut out, log.events.as_slice(), breaches)?;
    Ok(out.into_bytes())
}
