//! Writes the packed form.
ghost use Rattle.std.specs.Prelude.{◌≡◌, ◌≤◌, ◌<◌, ◌+◌, ◌++◌, ◌^◌, [], ◌∷◌, length, replicate, false, OnOk, IfOk, IsTrue, FitsSigned};
ghost use Rattle.std.specs.Int.{w32, w64};
ghost use Rattle.std.specs.List.{flat_map, AllByRecursion};
ghost use Rattle.metadata.specs.Values.{payload, int32_bytes, int64_bytes, ratio_bytes, RatioFits, ValuesFit};
ghost use Rattle.metadata.specs.Entries.{IsPacked, NumbersFit};
ghost use Rattle.metadata.specs.Fitting.{ShortFits, LongFits};
ghost use Rattle.metadata.specs.Spelling.{bytes_of, u32_bytes, filled, is_short, data_of, field_of, entry_bytes, entries_bytes, data_area};

use crate::entry::Entry;
use crate::places::area_len;
use crate::values::{Ratio, SHORT, Values, rounded};
use cam_types::NoMemory;
use std::alloc::Global;

/// The version of the packed form.
const VERSION: u32 = 1;

fn put_bytes(out: &mut Vec<u8>, bytes: &[u8]) -> Result<(), NoMemory>
    ensures bytes { OnOk result (out.new.items ≡ out.old.items ++ bytes.now) }
    ensures fit { AllByRecursion (λ b. b < 2 ^ 8) bytes.now }
{
    out.extend_from_slice(bytes)
}

fn put_int32s(out: &mut Vec<u8>, numbers: &[i32]) -> Result<(), NoMemory>
    ensures bytes { OnOk result (out.new.items ≡ out.old.items ++ flat_map int32_bytes numbers.now) }
    ensures fit { OnOk result (AllByRecursion (FitsSigned w32) numbers.now) }
{
    for n in numbers {
        put_int32(out, *n)?;
    }
    Ok(())
}

fn put_int32(out: &mut Vec<u8>, value: i32) -> Result<(), NoMemory>
    ensures bytes { OnOk result (out.new.items ≡ out.old.items ++ int32_bytes value) }
    ensures fit { FitsSigned w32 value }
{
    out.extend_from_slice(&value.to_le_bytes())
}

fn put_int64s(out: &mut Vec<u8>, numbers: &[i64]) -> Result<(), NoMemory>
    ensures bytes { OnOk result (out.new.items ≡ out.old.items ++ flat_map int64_bytes numbers.now) }
    ensures fit { OnOk result (AllByRecursion (FitsSigned w64) numbers.now) }
{
    for n in numbers {
        put_int64(out, *n)?;
    }
    Ok(())
}

fn put_int64(out: &mut Vec<u8>, number: i64) -> Result<(), NoMemory>
    ensures bytes { OnOk result (out.new.items ≡ out.old.items ++ int64_bytes number) }
    ensures fit { FitsSigned w64 number }
{
    out.extend_from_slice(&number.to_le_bytes())
}

fn put_ratios(out: &mut Vec<u8>, ratios: &[Ratio]) -> Result<(), NoMemory>
    ensures bytes { OnOk result (out.new.items ≡ out.old.items ++ flat_map ratio_bytes ratios.now) }
    ensures fit { OnOk result (AllByRecursion RatioFits ratios.now) }
{
    for r in ratios {
        put_ratio(out, *r)?;
    }
    Ok(())
}

fn put_ratio(out: &mut Vec<u8>, ratio: Ratio) -> Result<(), NoMemory>
    ensures bytes { OnOk result (out.new.items ≡ out.old.items ++ ratio_bytes ratio) }
    ensures fit { RatioFits ratio }
{
    put_int32(out, ratio.numerator)?;
    put_int32(out, ratio.denominator)
}

fn put_payload(out: &mut Vec<u8>, values: &Values) -> Result<(), NoMemory>
    ensures bytes { OnOk result (out.new.items ≡ out.old.items ++ payload values.now) }
    ensures fit { OnOk result (ValuesFit values.now) }
{
    match values {
        Values::Bytes(list) => put_bytes(out, list.as_slice()),
        Values::Int32(list) => put_int32s(out, list.as_slice()),
        Values::Int64(list) => put_int64s(out, list.as_slice()),
        Values::Rational(list) => put_ratios(out, list.as_slice()),
    }
}

fn put_zeros(out: &mut Vec<u8>, count: usize) -> Result<(), NoMemory>
    ensures { OnOk result (out.new.items ≡ out.old.items ++ replicate count 0) }
{
    for _ in 0..count {
        out.push(0)?;
    }
    Ok(())
}

/// The payload, and zeros up to a length.
fn put_filled(out: &mut Vec<u8>, values: &Values, len: usize) -> Result<(), NoMemory>
    ensures bytes { OnOk result (out.new.items ≡ out.old.items ++ filled len (payload values.now)) }
    ensures fit { OnOk result (ValuesFit values.now) }
{
    put_payload(out, values)?;
    put_zeros(out, len.saturating_sub(values.payload_len()))
}

/// The third field of an entry.
fn put_field(out: &mut Vec<u8>, values: &Values, place: u32) -> Result<(), NoMemory>
    ensures bytes { OnOk result (out.new.items ≡ out.old.items ++ field_of place (payload values.now)) }
    ensures fit { OnOk result (IsTrue (is_short (payload values.now)) → ValuesFit values.now) }
{
    if values.payload_len() <= SHORT {
        put_filled(out, values, SHORT)
    } else {
        out.extend_from_slice(&place.to_le_bytes())
    }
}

#[tactic(auto, unfolding(crate::specs::Spelling::entry_bytes))]
fn put_entry(out: &mut Vec<u8>, entry: &Entry, place: u32) -> Result<(), NoMemory>
    ensures bytes { OnOk result (out.new.items ≡ out.old.items ++ entry_bytes place entry.now) }
    ensures fit { OnOk result (ShortFits entry.now) }
{
    let values = &entry.values;
    out.extend_from_slice(&entry.tag.to_le_bytes())?;
    out.extend_from_slice(&values.count().to_le_bytes())?;
    put_field(out, values, place)?;
    out.extend_from_slice(&[values.element_type().number(), 0, 0, 0])
}

/// What the data area has of the values.
fn put_data(out: &mut Vec<u8>, values: &Values) -> Result<(), NoMemory>
    ensures bytes { OnOk result (out.new.items ≡ out.old.items ++ data_of (payload values.now)) }
    ensures fit { OnOk result ((is_short (payload values.now) ≡ false) → ValuesFit values.now) }
{
    let len = values.payload_len();
    if len <= SHORT {
        return Ok(());
    }
    put_filled(out, values, rounded(len))
}

fn put_entries(out: &mut Vec<u8>, entries: &[Entry]) -> Result<(), NoMemory>
    requires { length (data_area entries.now) ≤ 4096 }
    ensures bytes { OnOk result (out.new.items ≡ out.old.items ++ entries_bytes 0 entries.now) }
    ensures fit { OnOk result (AllByRecursion ShortFits entries.now) }
{
    let mut place = 0;
    for entry in entries {
        put_entry(out, entry, place as u32)?;
        place += entry.values.data_len();
    }
    Ok(())
}

fn put_area(out: &mut Vec<u8>, entries: &[Entry]) -> Result<(), NoMemory>
    ensures bytes { OnOk result (out.new.items ≡ out.old.items ++ data_area entries.now) }
    ensures fit { OnOk result (AllByRecursion LongFits entries.now) }
{
    for entry in entries {
        put_data(out, &entry.values)?;
    }
    Ok(())
}

/// The one spelling of entries.
#[tactic(auto, unfolding(crate::specs::Spelling::bytes_of))]
pub(crate) fn bytes_from(alloc: Global, entries: &[Entry]) -> Result<Vec<u8>, NoMemory>
    requires { IsPacked entries.now }
    ensures bytes { IfOk result (λ bytes. bytes.items ≡ bytes_of entries.now) }
    ensures fit { IfOk result (λ _. NumbersFit entries.now) }
{
    let count = entries.len() as u32;
    let area = area_len(entries) as u32;
    let whole = 16 + 16 * count + area;
    let mut out = Vec::with_capacity(alloc, whole as usize)?;
    out.extend_from_slice(&VERSION.to_le_bytes())?;
    out.extend_from_slice(&count.to_le_bytes())?;
    out.extend_from_slice(&area.to_le_bytes())?;
    out.extend_from_slice(&whole.to_le_bytes())?;
    put_entries(&mut out, entries)?;
    put_area(&mut out, entries)?;
    Ok(out)
}
