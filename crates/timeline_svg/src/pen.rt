//! How the picture's text is written: text, and bytes of which none may mean anything in XML.
ghost use Rattle.std.specs.Prelude.{◌≡◌, ◌++◌, OnOk, string_bytes};
ghost use Rattle.std.specs.List.{flat_map};
ghost use Rattle.timeline_svg.specs.Escapes.{escaped};

use cam_types::NoMemory;

/// Writes text.
pub fn put(out: &mut String, text: &str) -> Result<(), NoMemory>
    ensures { OnOk result (string_bytes out.new ≡ string_bytes out.old ++ text.now) }
{
    out.push_str(text)
}

/// Writes a byte as it stands in XML.
fn put_escaped_byte(out: &mut String, byte: u8) -> Result<(), NoMemory>
    ensures { OnOk result (string_bytes out.new ≡ string_bytes out.old ++ escaped byte) }
{
    match byte {
        b'&' => put(out, "&amp;"),
        b'<' => put(out, "&lt;"),
        b'>' => put(out, "&gt;"),
        b' '..=b'~' => out.push(byte as char),
        _ => put(out, "?"),
    }
}

/// Writes bytes as they stand in XML.
pub fn put_escaped(out: &mut String, bytes: &[u8]) -> Result<(), NoMemory>
    ensures { OnOk result (string_bytes out.new ≡ string_bytes out.old ++ flat_map escaped bytes.now) }
{
    for byte in bytes {
        put_escaped_byte(out, *byte)?;
    }
    Ok(())
}
