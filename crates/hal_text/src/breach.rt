//! What is told of a breach: its event, the rule, what it is about and what it refers to.
ghost use Rattle.std.specs.Prelude.{◌≡◌, ◌++◌, ◌&&◌, [], true, OnOk, IsTrue, Some, codes, if◌then◌else◌, option_copied, slice_get, string_bytes};
ghost use Rattle.std.specs.List.{list_all};
ghost use Rattle.hal_model.specs.Fits.{is_well_made};
ghost use Rattle.hal_text.specs.Person.{about_text, breach_text, detail_text, event_text, found_text, is_same_event, is_same_heading, line_of, place_text, rule_head, rule_tail, rule_text, since_text, stream_part, told_text};
ghost use Rattle.hal_text.specs.Sum.{is_same_rule};

use crate::search::{call_place, clue_place, request_place};
use crate::sentence::sentence_of;
use crate::sum::is_same_rule;
use crate::{HalLog, side_text};
use cam_types::NoMemory;
use hal_model::{Breach, HalEvent, Rule, write_event};

/// Writes the line of an event behind its number.
#[tactic(auto, unfolding(crate::specs::Person::line_of))]
fn write_line(out: &mut String, line: u32, event: &HalEvent) -> Result<(), NoMemory>
    requires { IsTrue (is_well_made event.now) }
    ensures { OnOk result (string_bytes out.new ≡ string_bytes out.old ++ line_of (Some line) (Some event.now)) }
{
    write!(out, "line {line}: ")?;
    write_event(out, event)
}

/// Writes the event at a place, with its line.
#[tactic(auto, unfolding(crate::specs::Person::line_of))]
pub fn write_place(out: &mut String, log: &HalLog, place: usize) -> Result<(), NoMemory>
    requires { IsTrue (list_all is_well_made log.now.events) }
    ensures { OnOk result (string_bytes out.new ≡ string_bytes out.old ++ place_text log.now place) }
{
    match log.lines.as_slice().get(place) {
        None => Ok(()),
        Some(line) => match log.events.as_slice().get(place) {
            None => Ok(()),
            Some(event) => write_line(out, *line, event),
        },
    }
}

/// Writes the event at a place behind some words, where there is one.
#[tactic(auto, unfolding(crate::specs::Person::found_text))]
fn write_found(
    out: &mut String,
    words: &str,
    log: &HalLog,
    place: Option<usize>,
) -> Result<(), NoMemory>
    requires { IsTrue (list_all is_well_made log.now.events) }
    ensures { OnOk result (string_bytes out.new ≡ string_bytes out.old ++ found_text words.now log.now place) }
{
    match place {
        Some(place) => {
            out.push_str(words)?;
            write_place(out, log, place)
        }
        None => Ok(()),
    }
}

/// Writes the stream, where there is one.
fn write_stream(out: &mut String, stream: Option<u32>) -> Result<(), NoMemory>
    ensures { OnOk result (string_bytes out.new ≡ string_bytes out.old ++ stream_part stream) }
{
    match stream {
        Some(stream) => write!(out, ", stream {stream}"),
        None => Ok(()),
    }
}

/// Ends a line, with where a request begins.
#[tactic(auto, unfolding(crate::specs::Person::since_text))]
fn write_since(out: &mut String, log: &HalLog, begin: Option<usize>) -> Result<(), NoMemory>
    requires { IsTrue (list_all is_well_made log.now.events) }
    ensures { OnOk result (string_bytes out.new ≡ string_bytes out.old ++ since_text log.now begin) }
{
    match begin {
        Some(place) => {
            out.push_str(", since ")?;
            write_place(out, log, place)
        }
        None => out.push_str("\n"),
    }
}

/// Writes which frame and which stream is meant, and where the frame's request begins.
#[tactic(auto, unfolding(crate::specs::Person::about_text))]
pub fn write_about(
    out: &mut String,
    log: &HalLog,
    frame: Option<u32>,
    stream: Option<u32>,
    begin: Option<usize>,
) -> Result<(), NoMemory>
    requires { IsTrue (list_all is_well_made log.now.events) }
    ensures { OnOk result
        (string_bytes out.new ≡ string_bytes out.old ++ about_text log.now frame stream begin) }
{
    match (frame, stream) {
        (Some(frame), stream) => {
            write!(out, "    frame {frame}")?;
            write_stream(out, stream)?;
            write_since(out, log, begin)
        }
        (None, Some(stream)) => writeln!(out, "    stream {stream}"),
        (None, None) => Ok(()),
    }
}

/// Writes what a breach is about and what it refers to.
#[tactic(auto, unfolding(crate::specs::Person::detail_text))]
fn write_detail(
    out: &mut String,
    log: &HalLog,
    breach: &Breach,
    event: &HalEvent,
) -> Result<(), NoMemory>
    requires { IsTrue (list_all is_well_made log.now.events) }
    ensures { OnOk result
        (string_bytes out.new ≡ string_bytes out.old ++ detail_text log.now breach.now event.now) }
{
    let begin = request_place(log, breach, event);
    write_about(out, log, breach.frame, breach.stream, begin)?;
    write_found(out, "      see ", log, clue_place(log, breach, event))
}

/// Writes an event, and where its call begins.
#[tactic(auto, unfolding(crate::specs::Person::event_text))]
fn write_heading(
    out: &mut String,
    log: &HalLog,
    place: u32,
    event: &HalEvent,
) -> Result<(), NoMemory>
    requires { IsTrue (list_all is_well_made log.now.events) }
    ensures { OnOk result
        (string_bytes out.new ≡ string_bytes out.old ++ event_text log.now place event.now) }
{
    write_place(out, log, place as usize)?;
    write_found(out, "  since ", log, call_place(log, place, event))
}

/// Writes the name of a rule, and whom it binds.
#[tactic(auto, unfolding(crate::specs::Person::rule_head))]
fn write_rule_head(out: &mut String, name: &str, side: &str) -> Result<(), NoMemory>
    ensures { OnOk result (string_bytes out.new ≡ string_bytes out.old ++ rule_head name.now side.now) }
{
    write!(out, "  {name} ({side}")
}

/// Writes where the header says it, and its sentence.
#[tactic(auto, unfolding(crate::specs::Person::rule_tail))]
fn write_rule_tail(out: &mut String, section: &str, sentence: &str) -> Result<(), NoMemory>
    ensures { OnOk result (string_bytes out.new ≡ string_bytes out.old ++ rule_tail section.now sentence.now) }
{
    writeln!(out, "; camera3.h: {section}): {sentence}")
}

/// Writes a rule: its name, whom it binds, where the header says it, and its sentence.
fn write_rule(out: &mut String, rule: Rule) -> Result<(), NoMemory>
    ensures { OnOk result (string_bytes out.new ≡ string_bytes out.old ++ rule_text rule) }
{
    write_rule_head(out, rule.name(), side_text(rule.side()))?;
    write_rule_tail(out, rule.section(), sentence_of(rule))
}

/// Whether the breach before is of the same event.
fn is_same_event(last: Option<Breach>, breach: &Breach) -> bool
    ensures { result ≡ is_same_event last breach.now }
{
    match last {
        Some(other) => other.line == breach.line,
        None => false,
    }
}

/// Whether it is of the same event and rule.
pub fn is_same_heading(last: Option<Breach>, breach: &Breach) -> bool
    ensures { result ≡ is_same_heading last breach.now }
{
    match last {
        Some(other) => other.line == breach.line && is_same_rule(other.rule, breach.rule),
        None => false,
    }
}

/// Writes the event of a breach, unless the breach before has it.
fn write_event_once(
    out: &mut String,
    log: &HalLog,
    last: Option<Breach>,
    breach: &Breach,
    event: &HalEvent,
) -> Result<(), NoMemory>
    requires { IsTrue (list_all is_well_made log.now.events) }
    ensures { OnOk result
        (string_bytes out.new ≡ string_bytes out.old
        ++ (if is_same_event last breach.now then [] else event_text log.now breach.now.line event.now)) }
{
    if is_same_event(last, breach) {
        return Ok(());
    }
    write_heading(out, log, breach.line, event)
}

/// Writes the rule of a breach, unless the breach before has it.
fn write_rule_once(out: &mut String, last: Option<Breach>, breach: &Breach) -> Result<(), NoMemory>
    ensures { OnOk result
        (string_bytes out.new ≡ string_bytes out.old
        ++ (if is_same_heading last breach.now then [] else rule_text breach.now.rule)) }
{
    if is_same_heading(last, breach) {
        return Ok(());
    }
    write_rule(out, breach.rule)
}

/// Writes what is told of a breach of the event.
#[tactic(auto, unfolding(crate::specs::Person::told_text))]
fn write_told(
    out: &mut String,
    log: &HalLog,
    last: Option<Breach>,
    breach: &Breach,
    event: &HalEvent,
) -> Result<(), NoMemory>
    requires { IsTrue (list_all is_well_made log.now.events) }
    ensures { OnOk result
        (string_bytes out.new ≡ string_bytes out.old ++ told_text log.now last breach.now event.now) }
{
    write_event_once(out, log, last, breach, event)?;
    write_rule_once(out, last, breach)?;
    write_detail(out, log, breach, event)
}

/// Writes what is told of a breach behind another one.
pub fn write_breach(
    out: &mut String,
    log: &HalLog,
    last: Option<Breach>,
    breach: &Breach,
) -> Result<(), NoMemory>
    requires { IsTrue (list_all is_well_made log.now.events) }
    ensures { OnOk result
        (string_bytes out.new ≡ string_bytes out.old
        ++ breach_text log.now last breach.now (slice_get log.now.events breach.now.line)) }
{
    match log.events.get(breach.line) {
        Some(event) => write_told(out, log, last, breach, event),
        None => Ok(()),
    }
}
