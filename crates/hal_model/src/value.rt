//! The words that stand for values: errors, streams, targets and buffers that come back.

ghost use Rattle.std.specs.Prelude.{◌≡◌, ℕ, List, Bool, ◌++◌, ◌∷◌, [], true, OnOk, IsTrue, map, string_bytes};
ghost use Rattle.std.specs.List.{flat_map, list_all};
ghost use Rattle.hal_model.specs.Fits.{error_fits, is_letter, is_format_typed, is_max_typed, is_release_typed, is_returned_typed, is_small, is_small_or_none, is_stream_typed, is_target_typed};
ghost use Rattle.hal_model.specs.Spelling.{acquire_text, behind_spaces, direction_text, error_text, format_text, max_text, number_or, release_text, returned_text, rotation_text, size_text, status_text, stream_text, target_text};

use crate::{
    Direction, HalError, HalFence, HalFormat, HalStream, HalTarget, Returned, Status, StreamMax,
};
use cam_types::NoMemory;

/// A value that stands in a list.
pub trait Listed {
    /// How it is written.
    ghost text: { Self → List ℕ };

    /// Whether its numbers are within their types.
    ghost typed: { Self → Bool };

    /// Writes it.
    fn write(&self, out: &mut String) -> Result<(), NoMemory>
        ensures text { OnOk result (string_bytes out.new ≡ string_bytes out.old ++ text self.now) }
        ensures typed { OnOk result (typed self.now ≡ true) };
}

/// Writes values, each behind a space.
pub fn write_list<T: Listed>(out: &mut String, values: &[T]) -> Result<(), NoMemory>
    ensures text { OnOk result (string_bytes out.new ≡ string_bytes out.old ++ behind_spaces (map T.text values.now)) }
    ensures typed { OnOk result (list_all T.typed values.now ≡ true) }
{
    for value in values {
        out.push_str(" ")?;
        value.write(out)?;
    }
    Ok(())
}

/// A number of 32 bits is below 2^32.
pub fn number_is_small(number: u32)
    ensures { is_small number ≡ true }
{}

/// Writes a number, or what stands in the place of none.
pub fn write_number_or(out: &mut String, sign: &str, number: Option<u32>) -> Result<(), NoMemory>
    ensures text { OnOk result
        (string_bytes out.new ≡ string_bytes out.old ++ number_or sign.now number) }
    ensures typed { OnOk result (is_small_or_none number ≡ true) }
{
    match number {
        None => out.push_str(sign),
        Some(number) => {
            number_is_small(number);
            write!(out, "{number}")
        }
    }
}

/// Writes the name of an error.
pub fn write_error(out: &mut String, error: HalError) -> Result<(), NoMemory>
    requires { IsTrue (error_fits error) }
    ensures { OnOk result (string_bytes out.new ≡ string_bytes out.old ++ error_text error) }
{
    match error {
        HalError::NoDevice => out.push_str("ENODEV"),
        HalError::Other(name) => write_letters(out, &name.letters[..usize::from(name.count)]),
    }
}

/// Writes a format.
fn write_format(out: &mut String, format: HalFormat) -> Result<(), NoMemory>
    ensures text { OnOk result (string_bytes out.new ≡ string_bytes out.old ++ format_text format) }
    ensures typed { OnOk result (is_format_typed format ≡ true) }
{
    match format {
        HalFormat::Yuv => out.push_str("YUV"),
        HalFormat::Implementation => out.push_str("IMPL"),
        HalFormat::Blob => out.push_str("BLOB"),
        HalFormat::Raw16 => out.push_str("RAW16"),
        HalFormat::Number(number) => {
            number_is_small(number);
            write!(out, "H{number:X}")
        }
    }
}

/// Writes the rotation of a stream that is rotated.
fn write_rotation(out: &mut String, degrees: u32) -> Result<(), NoMemory>
    ensures text { OnOk result (string_bytes out.new ≡ string_bytes out.old ++ rotation_text degrees) }
    ensures typed { OnOk result (is_small degrees ≡ true) }
{
    number_is_small(degrees);
    if degrees == 0 {
        return Ok(());
    }
    write!(out, ":r{degrees}")
}

/// Writes the direction of a stream that isn't an output alone.
fn write_direction(out: &mut String, direction: Direction) -> Result<(), NoMemory>
    ensures { OnOk result (string_bytes out.new ≡ string_bytes out.old ++ direction_text direction) }
{
    match direction {
        Direction::Output => Ok(()),
        Direction::Input => out.push_str(":in"),
        Direction::Bidirectional => out.push_str(":bidi"),
    }
}

/// Writes the format and the size of a stream.
fn write_size(out: &mut String, stream: &HalStream) -> Result<(), NoMemory>
    ensures text { OnOk result (string_bytes out.new ≡ string_bytes out.old ++ size_text stream.now) }
    ensures format { OnOk result (is_format_typed stream.now.format ≡ true) }
    ensures width { OnOk result (is_small stream.now.width ≡ true) }
    ensures height { OnOk result (is_small stream.now.height ≡ true) }
{
    let HalStream {
        format,
        width,
        height,
        ..
    } = *stream;
    number_is_small(width);
    number_is_small(height);
    write_format(out, format)?;
    write!(out, "x{width}x{height}")
}

/// Writes a stream.
impl Listed for HalStream {
    ghost text = { stream_text };

    ghost typed = { is_stream_typed };

    #[tactic(auto, unfolding(crate::specs::Spelling::stream_text))]
    fn write(&self, out: &mut String) -> Result<(), NoMemory> {
        let number = self.stream;
        number_is_small(number);
        write!(out, "{number}:")?;
        write_size(out, self)?;
        write_rotation(out, self.rotation)?;
        write_direction(out, self.direction)
    }
}

/// Writes how many buffers of a stream the device takes.
impl Listed for StreamMax {
    ghost text = { max_text };

    ghost typed = { is_max_typed };

    fn write(&self, out: &mut String) -> Result<(), NoMemory> {
        let StreamMax { stream, max } = *self;
        number_is_small(stream);
        number_is_small(max);
        write!(out, "{stream}:{max}")
    }
}

/// Writes a target.
impl Listed for HalTarget {
    ghost text = { target_text };

    ghost typed = { is_target_typed };

    fn write(&self, out: &mut String) -> Result<(), NoMemory> {
        let HalTarget {
            stream,
            buffer,
            fence,
        } = *self;
        number_is_small(stream);
        number_is_small(buffer);
        write!(out, "{stream}:b{buffer}:")?;
        write_number_or(out, "-", fence)
    }
}

/// Writes a status between two colons.
fn write_status(out: &mut String, status: Status) -> Result<(), NoMemory>
    ensures { OnOk result (string_bytes out.new ≡ string_bytes out.old ++ 58 ∷ (status_text status ++ 58 ∷ [])) }
{
    match status {
        Status::Filled => out.push_str(":ok:"),
        Status::Failed => out.push_str(":error:"),
        Status::Unknown => out.push_str(":?:"),
    }
}

/// Writes a release fence.
fn write_release(out: &mut String, fence: HalFence) -> Result<(), NoMemory>
    ensures text { OnOk result (string_bytes out.new ≡ string_bytes out.old ++ release_text fence) }
    ensures typed { OnOk result (is_release_typed fence ≡ true) }
{
    match fence {
        HalFence::Absent => out.push_str("-"),
        HalFence::Number(number) => {
            number_is_small(number);
            write!(out, "{number}")
        }
        HalFence::Foreign => out.push_str("?"),
    }
}

/// Writes that the acquire fence wasn't -1, where it wasn't.
fn write_acquire(out: &mut String, acquire: bool) -> Result<(), NoMemory>
    ensures { OnOk result (string_bytes out.new ≡ string_bytes out.old ++ acquire_text acquire) }
{
    if acquire {
        out.push_str(":acquire")
    } else {
        Ok(())
    }
}

/// Writes a buffer that comes back.
impl Listed for Returned {
    ghost text = { returned_text };

    ghost typed = { is_returned_typed };

    #[tactic(auto, unfolding(crate::specs::Spelling::returned_text))]
    fn write(&self, out: &mut String) -> Result<(), NoMemory> {
        write_number_or(out, "?", self.stream)?;
        out.push_str(":b")?;
        write_number_or(out, "?", self.buffer)?;
        write_status(out, self.status)?;
        write_release(out, self.release)?;
        write_acquire(out, self.acquire)
    }
}

/// Writes the letters of a name.
fn write_letters(out: &mut String, letters: &[u8]) -> Result<(), NoMemory>
    requires { IsTrue (list_all is_letter letters.now) }
    ensures { OnOk result (string_bytes out.new ≡ string_bytes out.old ++ letters.now) }
{
    for letter in letters {
        out.push(char::from(*letter))?;
    }
    Ok(())
}
