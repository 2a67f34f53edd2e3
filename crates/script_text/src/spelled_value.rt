//! The words that stand for values: settings, targets, captures, formats and streams.

ghost use Rattle.std.specs.Prelude.{◌≡◌, ◌++◌, ◌∷◌, [], true, OnOk, map, decimal, string_bytes, ◌^◌, nat_lt};
ghost use Rattle.std.specs.List.{flat_map, join_by, list_all};
ghost use Rattle.script_text.specs.Spelling.{settings_text, targets_text, item_text, format_text, spec_text, behind_spaces};
ghost use Rattle.script_text.specs.Fits.{bytes_typed, format_typed, item_typed, numbers_typed, settings_typed, spec_typed, targets_typed};

use cam_types::{Format, Item, NoMemory, Settings, StreamSpec, Targets};

/// A number of 8 bits is below 2^8.
pub fn is_byte(number: u8)
    ensures { nat_lt number (2 ^ 8) ≡ true }
{}

/// A number of 32 bits is below 2^32.
pub fn is_word(number: u32)
    ensures { nat_lt number (2 ^ 32) ≡ true }
{}

/// Writes settings, as four numbers.
fn write_settings(out: &mut String, settings: &Settings) -> Result<(), NoMemory>
    ensures text { OnOk result (string_bytes out.new ≡ string_bytes out.old ++ settings_text settings.now) }
    ensures typed { OnOk result (settings_typed settings.now ≡ true) }
{
    let Settings {
        pattern,
        level,
        exposure,
        iso,
    } = *settings;
    write!(out, "{pattern},{level},{exposure},{iso}")
}

/// Writes streams, each behind a `+`.
fn write_more(out: &mut String, streams: &[u8]) -> Result<(), NoMemory>
    ensures text { OnOk result
        (string_bytes out.new ≡ string_bytes out.old ++ flat_map (λ stream. 43 ∷ decimal stream) streams.now) }
    ensures typed { OnOk result (bytes_typed streams.now ≡ true) }
{
    for stream in streams {
        is_byte(*stream);
        write!(out, "+{stream}")?;
    }
    Ok(())
}

/// Writes streams, with a `+` between each two.
fn write_streams(out: &mut String, streams: &[u8]) -> Result<(), NoMemory>
    ensures text { OnOk result (string_bytes out.new ≡ string_bytes out.old ++ join_by decimal (43 ∷ []) streams.now) }
    ensures typed { OnOk result (bytes_typed streams.now ≡ true) }
{
    match streams {
        [] => Ok(()),
        [first, more @ ..] => {
            is_byte(*first);
            write!(out, "{first}")?;
            write_more(out, more)
        }
    }
}

/// Writes targets.
fn write_targets(out: &mut String, targets: &Targets) -> Result<(), NoMemory>
    ensures text { OnOk result (string_bytes out.new ≡ string_bytes out.old ++ targets_text targets.now) }
    ensures typed { OnOk result (targets_typed targets.now ≡ true) }
{
    if targets.count == 0 {
        return out.push_str("-");
    }
    let count = targets.list.len().min(usize::from(targets.count));
    write_streams(out, &targets.list[..count])
}

/// Writes a capture.
pub fn write_item(out: &mut String, item: &Item) -> Result<(), NoMemory>
    ensures text { OnOk result (string_bytes out.new ≡ string_bytes out.old ++ item_text item.now) }
    ensures typed { OnOk result (item_typed item.now ≡ true) }
{
    write_settings(out, &item.settings)?;
    out.push_str("@")?;
    write_targets(out, &item.targets)
}

/// Writes captures, each behind a space.
pub fn write_items(out: &mut String, items: &[Item]) -> Result<(), NoMemory>
    ensures text { OnOk result
        (string_bytes out.new ≡ string_bytes out.old ++ behind_spaces (map item_text items.now)) }
    ensures typed { OnOk result (list_all item_typed items.now ≡ true) }
{
    for item in items {
        out.push_str(" ")?;
        write_item(out, item)?;
    }
    Ok(())
}

/// Writes a format.
fn write_format(out: &mut String, format: Format) -> Result<(), NoMemory>
    ensures text { OnOk result (string_bytes out.new ≡ string_bytes out.old ++ format_text format) }
    ensures typed { OnOk result (format_typed format ≡ true) }
{
    match format {
        Format::Raw16 => out.push_str("raw16"),
        Format::Yuv => out.push_str("yuv"),
        Format::Other(number) => write!(out, "x{number}"),
    }
}

/// Writes a stream.
fn write_spec(out: &mut String, spec: &StreamSpec) -> Result<(), NoMemory>
    ensures text { OnOk result (string_bytes out.new ≡ string_bytes out.old ++ spec_text spec.now) }
    ensures typed { OnOk result (spec_typed spec.now ≡ true) }
{
    let StreamSpec {
        input,
        format,
        width,
        height,
    } = *spec;
    if input {
        out.push_str("in:")?;
    }
    write_format(out, format)?;
    write!(out, ":{width}x{height}")
}

/// Writes streams, each behind a space.
pub fn write_specs(out: &mut String, specs: &[StreamSpec]) -> Result<(), NoMemory>
    ensures text { OnOk result
        (string_bytes out.new ≡ string_bytes out.old ++ behind_spaces (map spec_text specs.now)) }
    ensures typed { OnOk result (list_all spec_typed specs.now ≡ true) }
{
    for spec in specs {
        out.push_str(" ")?;
        write_spec(out, spec)?;
    }
    Ok(())
}

/// Writes numbers, each behind a space.
pub fn write_numbers(out: &mut String, numbers: &[u32]) -> Result<(), NoMemory>
    ensures text { OnOk result
        (string_bytes out.new ≡ string_bytes out.old ++ behind_spaces (map decimal numbers.now)) }
    ensures typed { OnOk result (numbers_typed numbers.now ≡ true) }
{
    for number in numbers {
        is_word(*number);
        write!(out, " {number}")?;
    }
    Ok(())
}
