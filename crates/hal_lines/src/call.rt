//! The lines of calls.

ghost use Rattle.std.specs.Prelude.{◌≡◌, ◌∷◌, IfOk, IfSome, IsTrue, List, ℕ};
ghost use Rattle.text_parts.specs.Words.{loose_words};
ghost use Rattle.hal_model.specs.Fits.{error_fits, is_well_made};
ghost use Rattle.hal_lines.specs.Lines.{asked_of, asked_streams, close_of, configure_end, configure_of, ended_of, ending_of, flush_of, given_streams, init_of, open_of, request_of, stage_of, streams_of, template_end, template_of, template_stage};
ghost use Rattle.hal_lines.specs.Reader.{is_ending_valid};
ghost use Rattle.hal_lines.specs.Reader.{Gives};

use crate::cause::{Cause, LineRefused};
use crate::kind::{Ending, TemplateStage};
use crate::list::{flaws_of, list_of, no_marks};
use crate::value::{both, error_of, settings_of, small};
use crate::word::mode_of;
use cam_types::Listing;
use hal_model::HalEvent;
use std::alloc::Global;
use text_parts::{has_text, is_end, next_loose_word};

/// How a call ends, behind `end`.
#[tactic(auto, unfolding(crate::specs::Lines::ending_of))]
fn ending_of(words: &[u8]) -> Result<Ending, Cause>
    ensures value { result ≡ ending_of (loose_words words.now) }
    ensures valid { IfOk result (λ ending. IsTrue (is_ending_valid ending)) }
{
    let Some((how, rest)) = next_loose_word(words) else {
        return Err(Cause::BadLine);
    };
    let Some((name, rest)) = next_loose_word(rest) else {
        return if has_text(how, "ok") {
            Ok(Ending::Ok)
        } else {
            Err(Cause::BadLine)
        };
    };
    if has_text(how, "error") && is_end(rest) {
        Ok(Ending::Error(error_of(name)?))
    } else {
        Err(Cause::BadLine)
    }
}

/// A stage of a call that has but a begin and an end: none for the begin.
#[tactic(auto, unfolding(crate::specs::Lines::stage_of))]
fn stage_of(words: &[u8]) -> Result<Option<Ending>, Cause>
    ensures value { result ≡ stage_of (loose_words words.now) }
    ensures valid { IfOk result (λ stage. IfSome stage (λ ending. IsTrue (is_ending_valid ending))) }
{
    let Some((stage, rest)) = next_loose_word(words) else {
        return Err(Cause::BadLine);
    };
    if has_text(stage, "begin") && is_end(rest) {
        Ok(None)
    } else if has_text(stage, "end") {
        Ok(Some(ending_of(rest)?))
    } else {
        Err(Cause::BadLine)
    }
}

/// The line of an `open`.
pub fn open_of(words: &[u8]) -> Result<HalEvent, Cause>
    ensures value { result ≡ open_of (loose_words words.now) }
    ensures valid { IfOk result (λ event. IsTrue (is_well_made event)) }
{
    Ok(match stage_of(words)? {
        None => HalEvent::OpenBegin,
        Some(Ending::Ok) => HalEvent::OpenOk,
        Some(Ending::Error(error)) => HalEvent::OpenError { error },
    })
}

/// The line of an `init`.
pub fn init_of(words: &[u8]) -> Result<HalEvent, Cause>
    ensures value { result ≡ init_of (loose_words words.now) }
    ensures valid { IfOk result (λ event. IsTrue (is_well_made event)) }
{
    Ok(match stage_of(words)? {
        None => HalEvent::InitBegin,
        Some(Ending::Ok) => HalEvent::InitOk,
        Some(Ending::Error(error)) => HalEvent::InitError { error },
    })
}

/// The line of a `flush`.
pub fn flush_of(words: &[u8]) -> Result<HalEvent, Cause>
    ensures value { result ≡ flush_of (loose_words words.now) }
    ensures valid { IfOk result (λ event. IsTrue (is_well_made event)) }
{
    Ok(match stage_of(words)? {
        None => HalEvent::FlushBegin,
        Some(Ending::Ok) => HalEvent::FlushOk,
        Some(Ending::Error(error)) => HalEvent::FlushError { error },
    })
}

/// The line of a `close`.
#[tactic(auto, unfolding(crate::specs::Lines::close_of))]
pub fn close_of(words: &[u8]) -> Result<HalEvent, Cause>
    ensures value { result ≡ close_of (loose_words words.now) }
    ensures valid { IfOk result (λ event. IsTrue (is_well_made event)) }
{
    let Some((stage, rest)) = next_loose_word(words) else {
        return Err(Cause::BadLine);
    };
    if !is_end(rest) {
        Err(Cause::BadLine)
    } else if has_text(stage, "begin") {
        Ok(HalEvent::CloseBegin)
    } else if has_text(stage, "end") {
        Ok(HalEvent::CloseEnd)
    } else {
        Err(Cause::BadLine)
    }
}

/// How a call for a template ends, behind `end`.
fn template_end(words: &[u8]) -> Result<TemplateStage, Cause>
    ensures { result ≡ template_end (loose_words words.now) }
{
    let Some((how, rest)) = next_loose_word(words) else {
        return Err(Cause::BadLine);
    };
    if !is_end(rest) {
        Err(Cause::BadLine)
    } else if has_text(how, "ok") {
        Ok(TemplateStage::Ok)
    } else if has_text(how, "null") {
        Ok(TemplateStage::Null)
    } else {
        Err(Cause::BadLine)
    }
}

/// The stage of a call for a template.
#[tactic(auto, unfolding(crate::specs::Lines::template_stage))]
fn template_stage(word: &[u8], words: &[u8]) -> Result<TemplateStage, Cause>
    ensures { result ≡ template_stage word.now (loose_words words.now) }
{
    if has_text(word, "begin") && is_end(words) {
        Ok(TemplateStage::Begin)
    } else if has_text(word, "end") {
        template_end(words)
    } else {
        Err(Cause::BadLine)
    }
}

/// The line of a template.
pub fn template_of(words: &[u8]) -> Result<HalEvent, Cause>
    ensures value { result ≡ template_of (loose_words words.now) }
    ensures valid { IfOk result (λ event. IsTrue (is_well_made event)) }
{
    let Some((template, rest)) = next_loose_word(words) else {
        return Err(Cause::BadLine);
    };
    let Some((word, rest)) = next_loose_word(rest) else {
        return Err(Cause::BadLine);
    };
    let (template, stage) = both(small(template), template_stage(word, rest))?;
    Ok(match stage {
        TemplateStage::Begin => HalEvent::TemplateBegin { template },
        TemplateStage::Ok => HalEvent::TemplateOk { template },
        TemplateStage::Null => HalEvent::TemplateNull { template },
    })
}

/// A configuration that begins, by its mode and the words of its streams.
fn streams_of(
    alloc: Global,
    mode: Result<Option<u32>, Cause>,
    words: &[u8],
) -> Result<HalEvent, LineRefused>
    ensures value { Gives result (streams_of mode (loose_words words.now)) }
    ensures valid { IfOk result (λ event. IsTrue (is_well_made event)) }
{
    let (streams, rest) = list_of(alloc, words)?;
    let (mode, (streams, ())) = both(mode, both(streams, no_marks(rest)))?;
    Ok(HalEvent::ConfigureBegin { mode, streams })
}

/// `[mode:M] [STREAM ..]` of a configuration that begins.
#[tactic(auto, unfolding(crate::specs::Lines::asked_streams))]
fn asked_streams(alloc: Global, words: &[u8]) -> Result<HalEvent, LineRefused>
    ensures value { Gives result (asked_streams (loose_words words.now)) }
    ensures valid { IfOk result (λ event. IsTrue (is_well_made event)) }
{
    let Some((word, rest)) = next_loose_word(words) else {
        return Ok(HalEvent::ConfigureBegin {
            mode: None,
            streams: Listing::new(alloc),
        });
    };
    match mode_of(word) {
        None => streams_of(alloc, Ok(None), words),
        Some(number) => {
            let mode = match small(number) {
                Ok(mode) => Ok(Some(mode)),
                Err(cause) => Err(cause),
            };
            streams_of(alloc, mode, rest)
        }
    }
}

/// `S:MAX ..` of a configuration that is accepted.
fn given_streams(alloc: Global, words: &[u8]) -> Result<HalEvent, LineRefused>
    ensures value { Gives result (given_streams (loose_words words.now)) }
    ensures valid { IfOk result (λ event. IsTrue (is_well_made event)) }
{
    let (most, rest) = list_of(alloc, words)?;
    let (most, ()) = both(most, no_marks(rest))?;
    Ok(HalEvent::ConfigureOk { most })
}

/// How a configuration ends, behind `end`.
#[tactic(auto, unfolding(crate::specs::Lines::configure_end, crate::specs::Lines::ending_of))]
fn configure_end(alloc: Global, words: &[u8]) -> Result<HalEvent, LineRefused>
    ensures value { Gives result (configure_end (loose_words words.now)) }
    ensures valid { IfOk result (λ event. IsTrue (is_well_made event)) }
{
    let Some((how, rest)) = next_loose_word(words) else {
        return Err(LineRefused::Bad(Cause::BadLine));
    };
    if has_text(how, "ok") {
        return given_streams(alloc, rest);
    }
    match ending_of(words)? {
        Ending::Ok => Err(LineRefused::Bad(Cause::BadLine)),
        Ending::Error(error) => Ok(HalEvent::ConfigureError { error }),
    }
}

/// The line of a configuration.
#[tactic(auto, unfolding(crate::specs::Lines::configure_of))]
pub fn configure_of(alloc: Global, words: &[u8]) -> Result<HalEvent, LineRefused>
    ensures value { Gives result (configure_of (loose_words words.now)) }
    ensures valid { IfOk result (λ event. IsTrue (is_well_made event)) }
{
    let Some((stage, rest)) = next_loose_word(words) else {
        return Err(LineRefused::Bad(Cause::BadLine));
    };
    if has_text(stage, "begin") {
        asked_streams(alloc, rest)
    } else if has_text(stage, "end") {
        configure_end(alloc, rest)
    } else {
        Err(LineRefused::Bad(Cause::BadLine))
    }
}

/// A request that begins, by its number and the words behind `begin`.
fn asked_of(alloc: Global, frame: Result<u32, Cause>, words: &[u8]) -> Result<HalEvent, LineRefused>
    ensures value { Gives result (asked_of frame (loose_words words.now)) }
    ensures valid { IfOk result (λ event. IsTrue (is_well_made event)) }
{
    let Some((settings, rest)) = next_loose_word(words) else {
        return Err(LineRefused::Bad(Cause::BadLine));
    };
    let (targets, rest) = list_of(alloc, rest)?;
    let fields = both(
        frame,
        both(settings_of(settings), both(targets, flaws_of(rest))),
    );
    match fields {
        Ok((frame, (same, (targets, (no_handle, bad_settings))))) => Ok(HalEvent::RequestBegin {
            frame,
            same,
            targets,
            no_handle,
            bad_settings,
        }),
        Err(cause) => Err(LineRefused::Bad(cause)),
    }
}

/// A request that ends, by its number and the words behind `end`.
fn request_end(frame: Result<u32, Cause>, words: &[u8]) -> Result<HalEvent, LineRefused>
    ensures value { Gives result (ended_of frame (loose_words words.now)) }
    ensures valid { IfOk result (λ event. IsTrue (is_well_made event)) }
{
    let (frame, ending) = both(frame, ending_of(words))?;
    Ok(match ending {
        Ending::Ok => HalEvent::RequestOk { frame },
        Ending::Error(error) => HalEvent::RequestError { frame, error },
    })
}

/// The line of a request.
#[tactic(auto, unfolding(crate::specs::Lines::request_of))]
pub fn request_of(alloc: Global, words: &[u8]) -> Result<HalEvent, LineRefused>
    ensures value { Gives result (request_of (loose_words words.now)) }
    ensures valid { IfOk result (λ event. IsTrue (is_well_made event)) }
{
    let Some((frame, rest)) = next_loose_word(words) else {
        return Err(LineRefused::Bad(Cause::BadLine));
    };
    let Some((stage, rest)) = next_loose_word(rest) else {
        return Err(LineRefused::Bad(Cause::BadLine));
    };
    if has_text(stage, "begin") {
        asked_of(alloc, small(frame), rest)
    } else if has_text(stage, "end") {
        request_end(small(frame), rest)
    } else {
        Err(LineRefused::Bad(Cause::BadLine))
    }
}
