//! What lines say, the oldest first: each is read once.
ghost use Rattle.std.specs.Prelude.{◌≡◌, ◌≤◌, ◌∷◌, List, length, reverse};
ghost use Rattle.reprocess_model.specs.declared.entry.ReEntry.{ReEntry as AnEntry};
ghost use Rattle.reprocess_model.specs.Past.{buffer_at as buffer_in, call_count as calls_in, has_buffer as has_buffer_in, has_error as error_in, has_fill as fill_in, has_input as back_in, is_buffer as is_buffer_in, input_holder as input_holder_in, input_of as input_in, is_gone as gone_in, is_returned as returned_in, is_stopped as stopped_in, is_stopping as stopping_in, is_taken as taken_in, output_holder as output_holder_in, output_of as output_in, request_count as requests_in};

use crate::line::{
    is_begin_flush, is_call, is_called, is_error_of, is_fill_of, is_input_of, is_return_of, leaves,
    takes,
};
use cam_types::Four;
use reprocess_model::{ReEntry, ReOut};

/// How many commands are answered.
pub fn call_count(lines: &[ReEntry]) -> usize
    ensures value { result ≡ calls_in (reverse lines.now) }
    ensures most { result ≤ length lines.now }
{
    let mut count = 0;
    for line in lines {
        if is_call(line) {
            count += 1;
        }
    }
    count
}

/// How many requests are called.
pub fn request_count(lines: &[ReEntry]) -> usize
    ensures value { result ≡ requests_in (reverse lines.now) }
    ensures most { result ≤ length lines.now }
{
    let mut count = 0;
    for line in lines {
        if is_called(line) {
            count += 1;
        }
    }
    count
}

/// Whether a request was taken.
pub fn is_taken(lines: &[ReEntry], request: u32) -> bool
    ensures { result ≡ taken_in request (reverse lines.now) }
{
    let mut found = false;
    for line in lines {
        found = takes(line, request) || found;
    }
    found
}

/// Whether a request was taken or dropped.
pub fn is_gone(lines: &[ReEntry], request: u32) -> bool
    ensures { result ≡ gone_in request (reverse lines.now) }
{
    let mut found = false;
    for line in lines {
        found = leaves(line, request) || found;
    }
    found
}

/// Whether a request has its error.
pub fn has_error(lines: &[ReEntry], request: u32) -> bool
    ensures { result ≡ error_in request (reverse lines.now) }
{
    let mut found = false;
    for line in lines {
        found = is_error_of(line, request) || found;
    }
    found
}

/// Whether an output of a request is filled.
pub fn has_fill(lines: &[ReEntry], request: u32) -> bool
    ensures { result ≡ fill_in request (reverse lines.now) }
{
    let mut found = false;
    for line in lines {
        found = is_fill_of(line, request) || found;
    }
    found
}

/// Whether the buffer of a request for an output came back.
pub fn is_returned(lines: &[ReEntry], request: u32, output: u8) -> bool
    ensures { result ≡ returned_in request output (reverse lines.now) }
{
    let mut found = false;
    for line in lines {
        found = is_return_of(line, request, output) || found;
    }
    found
}

/// Whether the input of a request came back.
pub fn has_input(lines: &[ReEntry], request: u32) -> bool
    ensures { result ≡ back_in request (reverse lines.now) }
{
    let mut found = false;
    for line in lines {
        found = is_input_of(line, request) || found;
    }
    found
}

fn stopping_after(before: bool, line: &ReEntry) -> bool
    ensures { (past : List AnEntry) → before ≡ stopping_in past → result ≡ stopping_in (line.now ∷ past) }
{
    match line {
        ReEntry::BeginFlush => true,
        ReEntry::Flushed { .. } => false,
        _ => before,
    }
}

/// Whether a flush goes on.
pub fn is_stopping(lines: &[ReEntry]) -> bool
    ensures { result ≡ stopping_in (reverse lines.now) }
{
    let mut stopping = false;
    for line in lines {
        stopping = stopping_after(stopping, line);
    }
    stopping
}

/// Whether a request is stopped.
pub fn is_stopped(lines: &[ReEntry], request: u32) -> bool
    ensures { result ≡ stopped_in request (reverse lines.now) }
{
    let mut taken = false;
    let mut stopped = false;
    for line in lines {
        stopped = (is_begin_flush(line) && taken) || stopped;
        taken = takes(line, request) || taken;
    }
    stopped
}

fn input_after(before: Option<u32>, line: &ReEntry, request: u32) -> Option<u32>
    ensures { (past : List AnEntry) → before ≡ input_in request past → result ≡ input_in request (line.now ∷ past) }
{
    match line {
        ReEntry::Take { frame, input, .. } if frame.0 == request => Some(input.0),
        _ => before,
    }
}

/// The input buffer that a request was taken with.
pub fn input_of(lines: &[ReEntry], request: u32) -> Option<u32>
    ensures { result ≡ input_in request (reverse lines.now) }
{
    let mut input = None;
    for line in lines {
        input = input_after(input, line, request);
    }
    input
}

/// The buffer of a take for an output.
fn buffer_at(outputs: Four<ReOut>, output: u8) -> Option<u32>
    ensures { result ≡ buffer_in outputs output }
{
    let out = match output {
        0 => outputs.a,
        1 => outputs.b,
        2 => outputs.c,
        3 => outputs.d,
        _ => None,
    };
    match out {
        Some(out) => Some(out.buffer.0),
        None => None,
    }
}

fn output_after(before: Option<u32>, line: &ReEntry, request: u32, output: u8) -> Option<u32>
    ensures { (past : List AnEntry) → before ≡ output_in request output past →
        result ≡ output_in request output (line.now ∷ past) }
{
    match line {
        ReEntry::Take { frame, outputs, .. } if frame.0 == request => buffer_at(*outputs, output),
        _ => before,
    }
}

/// The buffer that a request was taken with for an output.
pub fn output_of(lines: &[ReEntry], request: u32, output: u8) -> Option<u32>
    ensures { result ≡ output_in request output (reverse lines.now) }
{
    let mut buffer = None;
    for line in lines {
        buffer = output_after(buffer, line, request, output);
    }
    buffer
}

fn input_holder_after(before: Option<u32>, line: &ReEntry, buffer: u32) -> Option<u32>
    ensures { (past : List AnEntry) → before ≡ input_holder_in buffer past →
        result ≡ input_holder_in buffer (line.now ∷ past) }
{
    match line {
        ReEntry::Take { frame, input, .. } if input.0 == buffer => Some(frame.0),
        ReEntry::Input { input, .. } if input.0 == buffer => None,
        _ => before,
    }
}

/// The request at which an input buffer is at the device.
pub fn input_holder(lines: &[ReEntry], buffer: u32) -> Option<u32>
    ensures { result ≡ input_holder_in buffer (reverse lines.now) }
{
    let mut holder = None;
    for line in lines {
        holder = input_holder_after(holder, line, buffer);
    }
    holder
}

/// Whether a take has the buffer.
fn has_buffer(outputs: Four<ReOut>, buffer: u32) -> bool
    ensures { result ≡ has_buffer_in buffer outputs }
{
    is_buffer(outputs.a, buffer)
        || (is_buffer(outputs.b, buffer)
            || (is_buffer(outputs.c, buffer) || is_buffer(outputs.d, buffer)))
}

fn is_buffer(out: Option<ReOut>, buffer: u32) -> bool
    ensures { result ≡ is_buffer_in buffer out }
{
    match out {
        Some(out) => out.buffer.0 == buffer,
        None => false,
    }
}

fn output_holder_after(before: Option<u32>, line: &ReEntry, number: u32) -> Option<u32>
    ensures { (past : List AnEntry) → before ≡ output_holder_in number past →
        result ≡ output_holder_in number (line.now ∷ past) }
{
    match line {
        ReEntry::Take { frame, outputs, .. } => if has_buffer(*outputs, number) {
            Some(frame.0)
        } else {
            before
        },
        ReEntry::Failed { buffer, .. } => if buffer.0 == number { None } else { before },
        ReEntry::Fill { buffer, .. } => if buffer.0 == number { None } else { before },
        _ => before,
    }
}

/// The request at which an output buffer is at the device.
pub fn output_holder(lines: &[ReEntry], number: u32) -> Option<u32>
    ensures { result ≡ output_holder_in number (reverse lines.now) }
{
    let mut holder = None;
    for line in lines {
        holder = output_holder_after(holder, line, number);
    }
    holder
}
