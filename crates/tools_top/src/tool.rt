//! The forms of the second program's words.

ghost use Rattle.std.specs.Prelude.{◌≡◌};
ghost use Rattle.tools_top.specs.Tools.{alone, of_three, of_two, picture_of, tool_of, video_of};

use text_parts::number_within;

/// The greatest number of a stream that words name, and of a frame.
const STREAM_LIMIT: u64 = 255;

const FRAME_LIMIT: u64 = 4_294_967_295;

/// What the words ask for: `hal`, with `--plain`, with `--strict` or with both behind it; `hal-of`, `candidates`,
/// `explain`, `timeline`, with `--perfetto` or without, `video STREAM`, `picture FRAME STREAM` or `help`.
#[derive(Clone, Copy)]
pub enum Tool {
    /// Judge a hal log, and write the report for a person, or the plain one; `strict`: by the strict rules too.
    Hal { plain: bool, strict: bool },
    /// Write the hal log of a trace.
    HalOf,
    /// Write a script's moves with the candidates before each.
    Candidates,
    /// Judge a trace, and explain the verdict.
    Explain,
    /// Draw a trace, or write it for Perfetto.
    Timeline { perfetto: bool },
    /// Write the good pictures of a stream.
    Video { stream: u8 },
    /// Write one picture.
    Picture { frame: u32, stream: u8 },
    Help,
}

/// A tool of one word.
fn alone(word: &str) -> Option<Tool>
    ensures { result ≡ alone word.now }
{
    match word {
        "hal" => Some(Tool::Hal {
            plain: false,
            strict: false,
        }),
        "hal-of" => Some(Tool::HalOf),
        "candidates" => Some(Tool::Candidates),
        "explain" => Some(Tool::Explain),
        "timeline" => Some(Tool::Timeline { perfetto: false }),
        "help" => Some(Tool::Help),
        _ => None,
    }
}

/// The good pictures of a stream, 0 to 255.
fn video_of(stream: &str) -> Option<Tool>
    ensures { result ≡ video_of stream.now }
{
    let stream = number_within(stream.as_bytes(), 0, STREAM_LIMIT)?;
    Some(Tool::Video {
        stream: stream as u8,
    })
}

/// The picture of a frame, 0 to 4,294,967,295, and a stream, 0 to 255.
fn picture_of(frame: &str, stream: &str) -> Option<Tool>
    ensures { result ≡ picture_of frame.now stream.now }
{
    let frame = number_within(frame.as_bytes(), 0, FRAME_LIMIT)?;
    let stream = number_within(stream.as_bytes(), 0, STREAM_LIMIT)?;
    Some(Tool::Picture {
        frame: frame as u32,
        stream: stream as u8,
    })
}

/// A tool of two words.
fn of_two(first: &str, second: &str) -> Option<Tool>
    ensures { result ≡ of_two first.now second.now }
{
    match (first, second) {
        ("hal", "--plain") => Some(Tool::Hal {
            plain: true,
            strict: false,
        }),
        ("hal", "--strict") => Some(Tool::Hal {
            plain: false,
            strict: true,
        }),
        ("timeline", "--perfetto") => Some(Tool::Timeline { perfetto: true }),
        ("video", _) => video_of(second),
        _ => None,
    }
}

/// A tool of three words.
fn of_three(first: &str, second: &str, third: &str) -> Option<Tool>
    ensures { result ≡ of_three first.now second.now third.now }
{
    match (first, second, third) {
        ("hal", "--plain", "--strict") => Some(Tool::Hal {
            plain: true,
            strict: true,
        }),
        ("picture", _, _) => picture_of(second, third),
        _ => None,
    }
}

/// The tool that the words ask for. There are no other spellings, no other order and no abbreviations.
pub fn tool_of(words: &[&str]) -> Option<Tool>
    ensures { result ≡ tool_of words.now }
{
    match words {
        [word] => alone(word),
        [first, second] => of_two(first, second),
        [first, second, third] => of_three(first, second, third),
        _ => None,
    }
}
