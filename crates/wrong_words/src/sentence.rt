//! The sentences of causes, and the words that may begin a line.
ghost use Rattle.std.specs.Prelude.{◌≡◌};
ghost use Rattle.wrong_words.specs.Sentences.{fault_words, line_words, long_input, long_script, other_profile, packed_part, script_sentence, trace_sentence, trace_words, version_lines};

use text_parts::Cause;
use trace_reader::Cause as TraceCause;

/// The sentence of a cause of a script's line.
#[tactic(auto, unfolding(crate::specs::Sentences::script_sentence))]
pub fn script_sentence(cause: Cause) -> &'static str
    ensures { result.now ≡ script_sentence cause }
{
    match cause {
        Cause::NotAscii => "A byte of the line isn't from 0x20 to 0x7E",
        Cause::Version => "The first line that counts isn't camera 1 or camera 2",
        Cause::UnknownWord =>
            "The first word isn't that of any line of its version, or the word after fault isn't that of a fault",
        Cause::BadNumber =>
            "A word in the place of a number, a stream or an item isn't one, or is out of its range",
        Cause::Missing => "The line has too few words",
        Cause::Extra => "The line has too many words",
        Cause::Limit => "With this line a limit is passed",
        Cause::FaultAfterCommand => "A fault, pick, early or device line stands after a command",
    }
}

/// The sentence of a cause of a trace's line.
#[tactic(auto, unfolding(crate::specs::Sentences::trace_sentence))]
pub fn trace_sentence(cause: TraceCause) -> &'static str
    ensures { result.now ≡ trace_sentence cause }
{
    match cause {
        TraceCause::Truncated => "No complete line of the trace is end",
        TraceCause::BadNumber =>
            "A number or a hexadecimal text isn't one in its one spelling, or is out of its range",
        TraceCause::BadLine => "The line has none of the shapes of a trace's lines at its place",
        TraceCause::BadMetadata =>
            "The text of a partial line isn't the packed form of the part with its number",
    }
}

/// The first words of a script's lines.
#[tactic(auto, unfolding(crate::specs::Sentences::line_words))]
pub fn line_words() -> &'static str
    ensures { result.now ≡ line_words }
{
    "device, early, fault, pick, configure, once, burst, repeat, stop, wait, await, flush, close or disconnect"
}

/// The words behind `fault`.
#[tactic(auto, unfolding(crate::specs::Sentences::fault_words))]
pub fn fault_words() -> &'static str
    ensures { result.now ≡ fault_words }
{
    "request, result, buffer or device"
}

/// The version lines of a script.
#[tactic(auto, unfolding(crate::specs::Sentences::version_lines))]
pub fn version_lines() -> &'static str
    ensures { result.now ≡ version_lines }
{
    "camera 1 or camera 2"
}

/// The sentence of a script that is too long.
#[tactic(auto, unfolding(crate::specs::Sentences::long_script))]
pub fn long_script() -> &'static str
    ensures { result.now ≡ long_script }
{
    "The script has more than 65536 bytes"
}

/// The sentence of an input that is too long.
#[tactic(auto, unfolding(crate::specs::Sentences::long_input))]
pub fn long_input() -> &'static str
    ensures { result.now ≡ long_input }
{
    "The input has more than 134217728 bytes"
}

/// The sentence of a trace whose profile isn't its script's.
#[tactic(auto, unfolding(crate::specs::Sentences::other_profile))]
pub fn other_profile() -> &'static str
    ensures { result.now ≡ other_profile }
{
    "Both parts are read, but the trace's profile isn't the script's"
}

/// What may stand as the text of a `partial` line.
#[tactic(auto, unfolding(crate::specs::Sentences::packed_part))]
pub fn packed_part() -> &'static str
    ensures { result.now ≡ packed_part }
{
    "the packed form of that part"
}

/// The first words of a trace's lines.
#[tactic(auto, unfolding(crate::specs::Sentences::trace_words))]
pub fn trace_words() -> &'static str
    ensures { result.now ≡ trace_words }
{
    "trace on the first line, then begin, call, send, drop, shutter, partial, buffer, early, filled, error, release or signal, and end"
}
