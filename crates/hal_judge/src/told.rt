//! What an event breaks: the rules in their order, each with what is at fault.
ghost use Rattle.std.specs.Prelude.{◌≡◌, ◌∷◌, ◌++◌, [], None, filter, map, option_copied, IfOk, OnOk};
ghost use Rattle.hal_model.specs.Rules.{at, at_buffers, frame_in};
ghost use Rattle.hal_judge.specs.Judged.{named_in};
ghost use Rattle.hal_rows.specs.Judged.{all_breaches_at, at_target_rows, breach_of, breaches_at, faults_at, for_row, is_target_unknown_in, row_astray};
ghost use Rattle.hal_checks.specs.Buffers.{buffer_rule, flaw_rule, is_buffer_wrong};
ghost use Rattle.hal_checks.specs.Targets.{target_rule};
ghost use Rattle.hal_table.specs.State.{state_of};

use crate::fault::{
    at, buffers_astray, buffers_flawed, buffers_wrong, one, plain, rows_meant, rows_silent,
    streams_wrong, target_rows_unknown, targets_wrong,
};
use crate::order::ordered;
use crate::rule::breaks;
use cam_types::NoMemory;
use hal_checks::back::{BufferFault, BufferFlaw};
use hal_checks::framework::TargetFault;
use hal_checks::meant::Which;
use hal_model::{Breach, Fault, HalEvent, HalStream, Returned, Rule};
use hal_rows::Row;
use hal_table::{HalTable, frame_in};
use std::alloc::Global;

/// What is at fault where nothing else is said: the request that the event names.
fn own(alloc: Global, event: &HalEvent) -> Result<Vec<Fault>, NoMemory>
    ensures { IfOk result (λ faults. faults.items ≡ record { frame = frame_in event.now; stream = None } ∷ []) }
{
    one(
        alloc,
        Fault {
            frame: frame_in(event),
            stream: None,
        },
    )
}

// ---- the targets of a request that begins

fn wrong_targets(
    alloc: Global,
    fault: TargetFault,
    event: &HalEvent,
    table: &HalTable,
) -> Result<Vec<Fault>, NoMemory>
    ensures { IfOk result (λ faults. faults.items ≡ faults_at (target_rule fault) event.now (state_of table.now)) }
{
    match event {
        HalEvent::RequestBegin { frame, targets, .. } => {
            targets_wrong(alloc, fault, *frame, targets.as_slice(), table)
        }
        _ => own(alloc, event),
    }
}

// ---- where a call returns

fn unknown_of(
    alloc: Global,
    frame: u32,
    streams: &[HalStream],
    row: Option<&Row>,
) -> Result<Vec<Fault>, NoMemory>
    ensures { IfOk result (λ faults. faults.items ≡
        for_row (λ r. at_target_rows frame (filter (is_target_unknown_in streams.now) r.targets))
        (option_copied row.entry)) }
{
    match row {
        Some(row) => target_rows_unknown(alloc, frame, streams, row.targets.as_slice()),
        None => Ok(Vec::new(alloc)),
    }
}

fn accepted_unknown_stream(
    alloc: Global,
    event: &HalEvent,
    table: &HalTable,
) -> Result<Vec<Fault>, NoMemory>
    ensures { IfOk result (λ faults.
        faults.items ≡ faults_at Rule.AcceptedUnknownStream event.now (state_of table.now)) }
{
    match event {
        HalEvent::RequestOk { frame } => {
            let streams = table.device().streams.as_slice();
            unknown_of(alloc, *frame, streams, table.row_for(*frame))
        }
        _ => own(alloc, event),
    }
}

fn no_max_buffers(alloc: Global, event: &HalEvent, table: &HalTable) -> Result<Vec<Fault>, NoMemory>
    ensures { IfOk result (λ faults. faults.items ≡ faults_at Rule.NoMaxBuffers event.now (state_of table.now)) }
{
    match event {
        HalEvent::ConfigureOk { most } => {
            streams_wrong(alloc, table.device().asked.as_slice(), most.as_slice())
        }
        _ => own(alloc, event),
    }
}

// ---- buffers that come back

fn astray_of(
    alloc: Global,
    frame: u32,
    row: Option<&Row>,
    buffers: &[Returned],
) -> Result<Vec<Fault>, NoMemory>
    ensures { IfOk result (λ faults. faults.items ≡
        for_row (λ r. map (at frame) (row_astray r [] buffers.now)) (option_copied row.entry)) }
{
    match row {
        Some(row) => buffers_astray(alloc, frame, row, buffers),
        None => Ok(Vec::new(alloc)),
    }
}

fn not_at_device(alloc: Global, event: &HalEvent, table: &HalTable) -> Result<Vec<Fault>, NoMemory>
    ensures { IfOk result (λ faults. faults.items ≡ faults_at Rule.NotAtDevice event.now (state_of table.now)) }
{
    match event {
        HalEvent::Results { frame, buffers, .. } => {
            astray_of(alloc, *frame, table.row_for(*frame), buffers.as_slice())
        }
        _ => own(alloc, event),
    }
}

fn flawed_buffers(
    alloc: Global,
    flaw: BufferFlaw,
    event: &HalEvent,
    table: &HalTable,
) -> Result<Vec<Fault>, NoMemory>
    ensures { IfOk result (λ faults. faults.items ≡ faults_at (flaw_rule flaw) event.now (state_of table.now)) }
{
    match event {
        HalEvent::Results { frame, buffers, .. } => {
            buffers_flawed(alloc, flaw, *frame, buffers.as_slice())
        }
        _ => own(alloc, event),
    }
}

fn wrong_of(
    alloc: Global,
    fault: BufferFault,
    frame: u32,
    row: Option<&Row>,
    table: &HalTable,
    buffers: &[Returned],
) -> Result<Vec<Fault>, NoMemory>
    ensures { IfOk result (λ faults. faults.items ≡
        for_row (λ r. at_buffers frame (filter (is_buffer_wrong fault (state_of table.now) r) buffers.now))
        (option_copied row.entry)) }
{
    match row {
        Some(row) => buffers_wrong(alloc, fault, frame, row, table, buffers),
        None => Ok(Vec::new(alloc)),
    }
}

fn wrong_buffers(
    alloc: Global,
    fault: BufferFault,
    event: &HalEvent,
    table: &HalTable,
) -> Result<Vec<Fault>, NoMemory>
    ensures { IfOk result (λ faults. faults.items ≡ faults_at (buffer_rule fault) event.now (state_of table.now)) }
{
    match event {
        HalEvent::Results { frame, buffers, .. } => wrong_of(
            alloc,
            fault,
            *frame,
            table.row_for(*frame),
            table,
            buffers.as_slice(),
        ),
        _ => own(alloc, event),
    }
}

// ---- errors of buffers

/// What is at fault in an error of a buffer is its stream too.
fn named(event: &HalEvent) -> Fault
    ensures { result ≡ named_in event.now }
{
    match event {
        HalEvent::ErrorBuffer { frame, stream } => at(*frame, *stream),
        _ => Fault {
            frame: frame_in(event),
            stream: None,
        },
    }
}

// ---- all rules

/// What is at fault where the event breaks the rule.
fn faults(
    alloc: Global,
    rule: Rule,
    event: &HalEvent,
    table: &HalTable,
) -> Result<Vec<Fault>, NoMemory>
    ensures { IfOk result (λ faults. faults.items ≡ faults_at rule event.now (state_of table.now)) }
{
    match rule {
        Rule::InitOrder => one(alloc, plain()),
        Rule::InitTwice => one(alloc, plain()),
        Rule::NoConfiguration => own(alloc, event),
        Rule::NoOutput => own(alloc, event),
        Rule::NoSettings => own(alloc, event),
        Rule::TwoInputs => one(alloc, plain()),
        Rule::ConfigureInFlight => rows_meant(alloc, Which::InFlight, event, table),
        Rule::OverlappingCalls => one(alloc, plain()),
        Rule::CallAfterClose => one(alloc, plain()),
        Rule::FrameNumber => own(alloc, event),
        Rule::HeldBuffer => wrong_targets(alloc, TargetFault::Held, event, table),
        Rule::RepeatedStream => wrong_targets(alloc, TargetFault::Repeated, event, table),
        Rule::TooManyBuffers => wrong_targets(alloc, TargetFault::TooMany, event, table),
        Rule::UnknownStream => wrong_targets(alloc, TargetFault::Unknown, event, table),
        Rule::AcceptedBeforeInit => one(alloc, plain()),
        Rule::AcceptedInitTwice => one(alloc, plain()),
        Rule::AcceptedDead => one(alloc, plain()),
        Rule::AcceptedNoOutput => own(alloc, event),
        Rule::AcceptedTwoInputs => one(alloc, plain()),
        Rule::AcceptedNoSettings => own(alloc, event),
        Rule::AcceptedUnknownStream => accepted_unknown_stream(alloc, event, table),
        Rule::NoMaxBuffers => no_max_buffers(alloc, event, table),
        Rule::RefusedRequest => own(alloc, event),
        Rule::RefusedAfterCallback => own(alloc, event),
        Rule::UnknownFrame => own(alloc, event),
        Rule::CallbackAfterClose => own(alloc, event),
        Rule::CallbackAfterFailure => own(alloc, event),
        Rule::FailedWithFrames => rows_meant(alloc, Which::Outstanding, event, table),
        Rule::ShutterTwice => own(alloc, event),
        Rule::ShutterAfterRequestError => own(alloc, event),
        Rule::EmptyResult => own(alloc, event),
        Rule::PartialNumber => own(alloc, event),
        Rule::PartialTwice => own(alloc, event),
        Rule::MetadataAfterRequestError => own(alloc, event),
        Rule::MetadataOrder => own(alloc, event),
        Rule::NotAtDevice => not_at_device(alloc, event, table),
        Rule::BufferStatus => flawed_buffers(alloc, BufferFlaw::Unclear, event, table),
        Rule::BufferOrder => wrong_buffers(alloc, BufferFault::Overtaken, event, table),
        Rule::FailedBufferOrder => wrong_buffers(alloc, BufferFault::Disorderly, event, table),
        Rule::GoodAfterError => wrong_buffers(alloc, BufferFault::Filled, event, table),
        Rule::AcquireFence => flawed_buffers(alloc, BufferFlaw::Acquire, event, table),
        Rule::ReleaseFence => wrong_buffers(alloc, BufferFault::Fenced, event, table),
        Rule::ErrorTwice => one(alloc, named(event)),
        Rule::ErrorBesideRequestError => one(alloc, named(event)),
        Rule::RequestErrorLate => own(alloc, event),
        Rule::ErrorForGoodBuffer => one(alloc, named(event)),
        Rule::ErrorUnknownStream => one(alloc, named(event)),
        Rule::FlushLeft => rows_meant(alloc, Which::Left, event, table),
        Rule::CloseLeft => rows_meant(alloc, Which::Outstanding, event, table),
        Rule::FailedWithoutNotice => rows_silent(alloc, event, table),
        Rule::NoShutter => rows_meant(alloc, Which::Unlit, event, table),
    }
}

// ---- breaches

/// Adds a breach of the rule for each fault.
fn add_faults(
    line: u32,
    rule: Rule,
    faults: &[Fault],
    breaches: &mut Vec<Breach>,
) -> Result<(), NoMemory>
    ensures { OnOk result (breaches.new.items ≡ breaches.old.items ++ map (breach_of line rule) faults.now) }
{
    for fault in faults {
        breaches.push(Breach {
            line,
            rule,
            frame: fault.frame,
            stream: fault.stream,
        })?;
    }
    Ok(())
}

/// Where an event stands: its line, and the device's partial result count.
#[derive(Clone, Copy, PartialEq, Eq)]
pub struct Place {
    pub line: u32,
    pub parts: u32,
}

/// Adds what the event breaks of a rule.
fn add_of_rule(
    alloc: Global,
    place: Place,
    rule: Rule,
    event: &HalEvent,
    table: &HalTable,
    breaches: &mut Vec<Breach>,
) -> Result<(), NoMemory>
    ensures { OnOk result (breaches.new.items ≡
        breaches.old.items ++ breaches_at place.parts place.line event.now (state_of table.now) rule) }
{
    if !breaks(place.parts, rule, event, table) {
        return Ok(());
    }
    let told = ordered(alloc, faults(alloc, rule, event, table)?)?;
    add_faults(place.line, rule, told.as_slice(), breaches)?;
    Ok(())
}

/// Adds what the event breaks of the rules, in the order of these.
pub fn add_breaches(
    alloc: Global,
    place: Place,
    rules: &[Rule],
    event: &HalEvent,
    table: &HalTable,
    breaches: &mut Vec<Breach>,
) -> Result<(), NoMemory>
    ensures { OnOk result (breaches.new.items ≡
        breaches.old.items ++ all_breaches_at place.parts place.line event.now (state_of table.now) rules.now) }
{
    for rule in rules {
        add_of_rule(alloc, place, *rule, event, table, breaches)?;
    }
    Ok(())
}
