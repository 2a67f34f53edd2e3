//! How the text is put together: plain text of a line, and events behind commas.
ghost use Rattle.std.specs.Prelude.{◌≡◌, ◌<◌, ◌++◌, ◌∷◌, IfOk, OnOk, false, map, string_bytes};
ghost use Rattle.serde_json.specs.View.{view};
ghost use Rattle.serde_json.specs.Written.{compact_text, has_float};
ghost use Rattle.timeline_json.specs.Plain.{plain};

use cam_types::NoMemory;
use serde_json::Value;
use std::alloc::Global;

/// A byte that is text as it is, or `?`.
fn plain(byte: u8) -> char
    ensures value { result ≡ plain byte }
    ensures ascii { result < 128 }
{
    match byte {
        b' '..=b'~' => byte as char,
        _ => '?',
    }
}

/// Writes a line as text.
pub fn put_plain(text: &mut String, line: &[u8]) -> Result<(), NoMemory>
    ensures { OnOk result (string_bytes text.new ≡ string_bytes text.old ++ map plain line.now) }
{
    for byte in line {
        text.push(plain(*byte))?;
    }
    Ok(())
}

/// A line as text.
pub fn plain_text(alloc: Global, line: &[u8]) -> Result<String, NoMemory>
    ensures { IfOk result (λ text. string_bytes text ≡ map plain line.now) }
{
    let mut text = String::new(alloc);
    put_plain(&mut text, line)?;
    Ok(text)
}

/// Writes bytes.
pub fn put(out: &mut Vec<u8>, bytes: &[u8]) -> Result<(), NoMemory>
    ensures { OnOk result (out.new.items ≡ out.old.items ++ bytes.now) }
{
    out.extend_from_slice(bytes)
}

/// Writes a value.
pub fn put_value(out: &mut Vec<u8>, alloc: Global, value: Value) -> Result<(), NoMemory>
    requires { has_float (view value) ≡ false }
    ensures { OnOk result (out.new.items ≡ out.old.items ++ compact_text (view value)) }
{
    let text = value.to_string(alloc)?;
    out.extend_from_slice(text.as_bytes())
}

/// Writes an event behind a comma.
pub fn put_event(out: &mut Vec<u8>, alloc: Global, event: Value) -> Result<(), NoMemory>
    requires { has_float (view event) ≡ false }
    ensures { OnOk result (out.new.items ≡ out.old.items ++ 44 ∷ compact_text (view event)) }
{
    put(out, b",")?;
    put_value(out, alloc, event)
}
