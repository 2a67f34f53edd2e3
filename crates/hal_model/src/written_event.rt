//! The lines of events.

ghost use Rattle.std.specs.Prelude.{◌≡◌, ◌++◌, ◌∷◌, [], true, OnOk, IsTrue, codes, decimal, map, string_bytes};
ghost use Rattle.std.specs.List.{flat_map, list_all};
ghost use Rattle.text_parts.specs.Lines.{line_text};
ghost use Rattle.hal_model.specs.Words.{is_callback};
ghost use Rattle.hal_model.specs.Fits.{error_fits, is_max_typed, is_returned_typed, is_small, is_small_or_none, is_stream_typed, is_target_typed, is_typed, is_well_made};
ghost use Rattle.hal_model.specs.Spelling.{behind_spaces, error_words, event_line, event_words, mark_words, max_text, mode_words, ok_words, pack_text, returned_text, settings_text, stream_text, target_text};

use crate::value::{number_is_small, write_error, write_list, write_number_or};
use crate::{HalError, HalEvent, HalStream, HalTarget, Pack, Returned, StreamMax};
use cam_types::NoMemory;

/// Writes the line of a call that ends in error.
fn write_failed(out: &mut String, call: &str, error: HalError) -> Result<(), NoMemory>
    requires { IsTrue (error_fits error) }
    ensures { OnOk result
        (string_bytes out.new ≡ string_bytes out.old ++ line_text (call.now ∷ error_words error)) }
{
    write!(out, "{call} end error ")?;
    write_error(out, error)?;
    out.push_str("\n")
}

/// Writes the line of a word, a number and what stands behind it.
fn write_numbered(out: &mut String, word: &str, number: u32, what: &str) -> Result<(), NoMemory>
    ensures text { OnOk result
        (string_bytes out.new ≡ string_bytes out.old
        ++ line_text (word.now ∷ decimal number ∷ what.now ∷ [])) }
    ensures typed { OnOk result (is_small number ≡ true) }
{
    number_is_small(number);
    writeln!(out, "{word} {number} {what}")
}

/// Writes the mode of a configuration behind a space, if it has one.
fn write_mode(out: &mut String, mode: Option<u32>) -> Result<(), NoMemory>
    ensures text { OnOk result (string_bytes out.new ≡ string_bytes out.old ++ behind_spaces (mode_words mode)) }
    ensures typed { OnOk result (is_small_or_none mode ≡ true) }
{
    match mode {
        None => Ok(()),
        Some(mode) => {
            number_is_small(mode);
            write!(out, " mode:{mode}")
        }
    }
}

/// Writes the line of a configuration that begins.
fn write_configure(
    out: &mut String,
    mode: Option<u32>,
    streams: &[HalStream],
) -> Result<(), NoMemory>
    ensures text { OnOk result
        (string_bytes out.new ≡ string_bytes out.old ++ event_line (HalEvent.ConfigureBegin mode streams.now)) }
    ensures typed { OnOk result (is_typed (HalEvent.ConfigureBegin mode streams.now) ≡ true) }
{
    out.push_str("configure begin")?;
    write_mode(out, mode)?;
    write_list(out, streams)?;
    out.push_str("\n")?;
    Ok(())
}

/// Writes the line of a configuration that is accepted.
fn write_configured(out: &mut String, maxes: &[StreamMax]) -> Result<(), NoMemory>
    ensures text { OnOk result
        (string_bytes out.new ≡ string_bytes out.old ++ event_line (HalEvent.ConfigureOk maxes.now)) }
    ensures typed { OnOk result (is_typed (HalEvent.ConfigureOk maxes.now) ≡ true) }
{
    out.push_str("configure end ok")?;
    write_list(out, maxes)?;
    out.push_str("\n")
}

/// Writes a word behind a space, if it stands.
fn write_mark(out: &mut String, stands: bool, word: &str) -> Result<(), NoMemory>
    ensures { OnOk result
        (string_bytes out.new ≡ string_bytes out.old ++ behind_spaces (mark_words stands word.now)) }
{
    if stands {
        write!(out, " {word}")
    } else {
        Ok(())
    }
}

/// Writes the number of a request that begins, and whether its settings are those of the one before.
fn write_settings(out: &mut String, frame: u32, same: bool) -> Result<(), NoMemory>
    ensures text { OnOk result
        (string_bytes out.new ≡ string_bytes out.old
        ++ codes "request" ++ behind_spaces (decimal frame ∷ codes "begin" ∷ settings_text same ∷ [])) }
    ensures typed { OnOk result (is_small frame ≡ true) }
{
    number_is_small(frame);
    if same {
        write!(out, "request {frame} begin same")
    } else {
        write!(out, "request {frame} begin settings")
    }
}

/// Writes the line of a request that begins.
fn write_request(
    out: &mut String,
    frame: u32,
    same: bool,
    targets: &[HalTarget],
    no_handle: bool,
    bad_settings: bool,
) -> Result<(), NoMemory>
    ensures text { OnOk result
        (string_bytes out.new ≡ string_bytes out.old
        ++ event_line (HalEvent.RequestBegin frame same targets.now no_handle bad_settings)) }
    ensures typed { OnOk result
        (is_typed (HalEvent.RequestBegin frame same targets.now no_handle bad_settings) ≡ true) }
{
    write_settings(out, frame, same)?;
    write_list(out, targets)?;
    write_mark(out, no_handle, "nohandle")?;
    write_mark(out, bad_settings, "badsettings")?;
    out.push_str("\n")
}

/// Writes the line of a request that is accepted.
fn write_accepted(out: &mut String, frame: u32) -> Result<(), NoMemory>
    ensures text { OnOk result
        (string_bytes out.new ≡ string_bytes out.old ++ event_line (HalEvent.RequestOk frame)) }
    ensures typed { OnOk result (is_small frame ≡ true) }
{
    number_is_small(frame);
    writeln!(out, "request {frame} end ok")
}

/// Writes the line of a request that is refused.
fn write_refused(out: &mut String, frame: u32, error: HalError) -> Result<(), NoMemory>
    requires { IsTrue (error_fits error) }
    ensures text { OnOk result
        (string_bytes out.new ≡ string_bytes out.old ++ event_line (HalEvent.RequestError frame error)) }
    ensures typed { OnOk result (is_small frame ≡ true) }
{
    number_is_small(frame);
    write!(out, "request {frame} end error ")?;
    write_error(out, error)?;
    out.push_str("\n")
}

/// Writes the line of a shutter.
fn write_shutter(out: &mut String, frame: u32, time: u64) -> Result<(), NoMemory>
    ensures text { OnOk result
        (string_bytes out.new ≡ string_bytes out.old ++ event_line (HalEvent.Shutter frame time)) }
    ensures typed { OnOk result (is_typed (HalEvent.Shutter frame time) ≡ true) }
{
    number_is_small(frame);
    writeln!(out, "shutter {frame} {time}")
}

/// Writes the line of an error of a buffer.
fn write_buffer_notice(out: &mut String, frame: u32, stream: Option<u32>) -> Result<(), NoMemory>
    ensures text { OnOk result
        (string_bytes out.new ≡ string_bytes out.old ++ event_line (HalEvent.ErrorBuffer frame stream)) }
    ensures typed { OnOk result (is_typed (HalEvent.ErrorBuffer frame stream) ≡ true) }
{
    number_is_small(frame);
    write!(out, "error {frame} buffer:")?;
    write_number_or(out, "?", stream)?;
    out.push_str("\n")
}

/// Writes what metadata a result has.
fn write_pack(out: &mut String, pack: Pack) -> Result<(), NoMemory>
    ensures { OnOk result (string_bytes out.new ≡ string_bytes out.old ++ pack_text pack) }
{
    match pack {
        Pack::Entries => out.push_str("metadata"),
        Pack::Empty => out.push_str("empty"),
        Pack::Absent => out.push_str("none"),
    }
}

/// Writes the line of a result.
fn write_result(
    out: &mut String,
    frame: u32,
    partial: u32,
    pack: Pack,
    buffers: &[Returned],
    input: bool,
) -> Result<(), NoMemory>
    ensures text { OnOk result
        (string_bytes out.new ≡ string_bytes out.old
        ++ event_line (HalEvent.Results frame partial pack buffers.now input)) }
    ensures typed { OnOk result (is_typed (HalEvent.Results frame partial pack buffers.now input) ≡ true) }
{
    number_is_small(frame);
    number_is_small(partial);
    write!(out, "result {frame} partial {partial} ")?;
    write_pack(out, pack)?;
    write_list(out, buffers)?;
    write_mark(out, input, "input")?;
    out.push_str("\n")
}

/// Writes the line of a callback.
fn write_callback(out: &mut String, event: &HalEvent) -> Result<(), NoMemory>
    requires { IsTrue (is_callback event.now) }
    ensures text { OnOk result (string_bytes out.new ≡ string_bytes out.old ++ event_line event.now) }
    ensures typed { OnOk result (is_typed event.now ≡ true) }
{
    match event {
        HalEvent::Shutter { frame, time } => write_shutter(out, *frame, *time),
        HalEvent::ErrorRequest { frame } => write_numbered(out, "error", *frame, "request"),
        HalEvent::ErrorResult { frame } => write_numbered(out, "error", *frame, "result"),
        HalEvent::ErrorBuffer { frame, stream } => write_buffer_notice(out, *frame, *stream),
        HalEvent::Results {
            frame,
            partial,
            pack,
            buffers,
            input,
        } => write_result(out, *frame, *partial, *pack, buffers.as_slice(), *input),
        _ => out.push_str("error device\n"),
    }
}

/// Writes the line of an event.
pub fn write_event(out: &mut String, event: &HalEvent) -> Result<(), NoMemory>
    requires { IsTrue (is_well_made event.now) }
    ensures text { OnOk result (string_bytes out.new ≡ string_bytes out.old ++ event_line event.now) }
    ensures typed { OnOk result (is_typed event.now ≡ true) }
{
    match event {
        HalEvent::OpenBegin => out.push_str("open begin\n"),
        HalEvent::OpenOk => out.push_str("open end ok\n"),
        HalEvent::OpenError { error } => write_failed(out, "open", *error),
        HalEvent::InitBegin => out.push_str("init begin\n"),
        HalEvent::InitOk => out.push_str("init end ok\n"),
        HalEvent::InitError { error } => write_failed(out, "init", *error),
        HalEvent::TemplateBegin { template } => write_numbered(out, "template", *template, "begin"),
        HalEvent::TemplateOk { template } => write_numbered(out, "template", *template, "end ok"),
        HalEvent::TemplateNull { template } => write_numbered(
            out, "template", *template, "end null",
        ),
        HalEvent::ConfigureBegin { mode, streams } => {
            write_configure(out, *mode, streams.as_slice())
        }
        HalEvent::ConfigureOk { most } => write_configured(out, most.as_slice()),
        HalEvent::ConfigureError { error } => write_failed(out, "configure", *error),
        HalEvent::RequestBegin {
            frame,
            same,
            targets,
            no_handle,
            bad_settings,
        } => write_request(
            out,
            *frame,
            *same,
            targets.as_slice(),
            *no_handle,
            *bad_settings,
        ),
        HalEvent::RequestOk { frame } => write_accepted(out, *frame),
        HalEvent::RequestError { frame, error } => write_refused(out, *frame, *error),
        HalEvent::FlushBegin => out.push_str("flush begin\n"),
        HalEvent::FlushOk => out.push_str("flush end ok\n"),
        HalEvent::FlushError { error } => write_failed(out, "flush", *error),
        HalEvent::CloseBegin => out.push_str("close begin\n"),
        HalEvent::CloseEnd => out.push_str("close end\n"),
        _ => write_callback(out, event),
    }
}
