//! Reads the packed form, with the first refusal.
ghost use Rattle.std.specs.Prelude.{◌≡◌, ◌≤◌, ◌<◌, ◌*◌, ◌+◌, ◌==◌, ◌||◌, ◌^◌, length, take, drop, IfOk, IfSome, MatchResult, option_map, None, Some, Ok, Err};
ghost use Rattle.std.specs.Option.{option_copied};
ghost use Rattle.metadata.specs.Values.{element_len, pieces, values_from, int32_of, int64_of, ratio_of};
ghost use Rattle.metadata.specs.Reading.{AnswersPacked, u32_at as u32_in, all_zero as are_zero, payload_before_zeros as before_zeros, payload_at as payload_in, order_refusal, entry_of, entries_of, is_header as is_good_header, list_of};

use crate::element::ElementType;
use crate::entry::Entry;
use crate::limit::{AREA_LIMIT, COUNT_LIMIT, ENTRY_LIMIT};
use crate::refused::PackedRefused;
use crate::values::{ByteList, Int32List, Int64List, Ratio, RationalList, SHORT, Values, rounded};
use cam_types::NoMemory;
use std::alloc::Global;

/// The bytes of a header, and of an entry.
const SLOT: usize = 16;

fn u32_at(bytes: &[u8], at: usize) -> u32
    requires { at + 4 ≤ length bytes.now }
    ensures { result ≡ u32_in at bytes.now }
{
    u32::from_le_bytes([bytes[at], bytes[at + 1], bytes[at + 2], bytes[at + 3]])
}

fn i32_at(bytes: &[u8], at: usize) -> i32
    requires { at + 4 ≤ length bytes.now }
    ensures { result ≡ int32_of (take 4 (drop at bytes.now)) }
{
    u32_at(bytes, at).cast_signed()
}

fn i64_at(bytes: &[u8], at: usize) -> i64
    requires { at + 8 ≤ length bytes.now }
    ensures { result ≡ int64_of (take 8 (drop at bytes.now)) }
{
    i64::from_le_bytes([
        bytes[at],
        bytes[at + 1],
        bytes[at + 2],
        bytes[at + 3],
        bytes[at + 4],
        bytes[at + 5],
        bytes[at + 6],
        bytes[at + 7],
    ])
}

fn ratio_at(bytes: &[u8], at: usize) -> Ratio
    requires { at + 8 ≤ length bytes.now }
    ensures { result ≡ ratio_of (take 8 (drop at bytes.now)) }
{
    Ratio {
        numerator: i32_at(bytes, at),
        denominator: i32_at(bytes, at + 4),
    }
}

fn bytes_from(alloc: Global, bytes: &[u8]) -> Result<ByteList, NoMemory>
    requires { length bytes.now < 2 ^ 32 }
    ensures { IfOk result (λ list. list ≡ bytes.now) }
{
    let mut list = ByteList::new(alloc);
    for byte in bytes {
        list.push(*byte)?;
    }
    Ok(list)
}

fn int32s_from(alloc: Global, count: u32, bytes: &[u8]) -> Result<Int32List, NoMemory>
    requires { length bytes.now ≡ 4 * count }
    ensures { IfOk result (λ list. list ≡ pieces 4 int32_of count bytes.now) }
{
    let mut list = Int32List::new(alloc);
    for i in 0..count {
        list.push(i32_at(bytes, 4 * i as usize))?;
    }
    Ok(list)
}

fn int64s_from(alloc: Global, count: u32, bytes: &[u8]) -> Result<Int64List, NoMemory>
    requires { length bytes.now ≡ 8 * count }
    ensures { IfOk result (λ list. list ≡ pieces 8 int64_of count bytes.now) }
{
    let mut list = Int64List::new(alloc);
    for i in 0..count {
        list.push(i64_at(bytes, 8 * i as usize))?;
    }
    Ok(list)
}

fn ratios_from(alloc: Global, count: u32, bytes: &[u8]) -> Result<RationalList, NoMemory>
    requires { length bytes.now ≡ 8 * count }
    ensures { IfOk result (λ list. list ≡ pieces 8 ratio_of count bytes.now) }
{
    let mut list = RationalList::new(alloc);
    for i in 0..count {
        list.push(ratio_at(bytes, 8 * i as usize))?;
    }
    Ok(list)
}

/// The values that a payload has.
fn values_of(
    alloc: Global,
    element: ElementType,
    count: u32,
    payload: &[u8],
) -> Result<Values, NoMemory>
    requires { length payload.now ≡ count * element_len element }
    ensures { IfOk result (λ values. values ≡ values_from element count payload.now) }
{
    match element {
        ElementType::Byte => Ok(Values::Bytes(bytes_from(alloc, payload)?)),
        ElementType::Int32 => Ok(Values::Int32(int32s_from(alloc, count, payload)?)),
        ElementType::Int64 => Ok(Values::Int64(int64s_from(alloc, count, payload)?)),
        ElementType::Rational => Ok(Values::Rational(ratios_from(alloc, count, payload)?)),
    }
}

fn all_zero(bytes: &[u8]) -> bool
    ensures { result ≡ are_zero bytes.now }
{
    bytes.iter().all(|b| *b == 0)
}

/// The first `size` bytes, if zeros follow them.
#[tactic(auto, unfolding(crate::specs::Reading::payload_before_zeros))]
fn payload_before_zeros(size: usize, bytes: &[u8]) -> Option<&[u8]>
    requires { size ≤ length bytes.now }
    ensures found { option_copied result ≡ before_zeros size bytes.now }
    ensures len { IfSome result (λ payload. length payload.now ≡ size) }
{
    let (payload, filling) = bytes.split_at(size);
    if all_zero(filling) {
        Some(payload)
    } else {
        None
    }
}

/// The payload of an entry, and how far the area is tiled with it.
#[tactic(auto, unfolding(crate::specs::Reading::payload_at))]
fn payload_at<'a>(
    slot: &'a [u8],
    size: usize,
    area: &'a [u8],
    tiled: usize,
) -> Option<(&'a [u8], usize)>
    requires slot { length slot.now ≡ 16 }
    requires size { size < 2 ^ 36 }
    requires tiled { tiled ≤ length area.now }
    ensures found { option_map (λ found. (found.0.now, found.1)) result ≡ payload_in slot.now size area.now tiled }
    ensures len { IfSome result (λ found. length found.0.now ≡ size) }
    ensures end { IfSome result (λ found. found.1 ≤ length area.now) }
{
    if size <= SHORT {
        let payload = payload_before_zeros(size, &slot[8..12])?;
        return Some((payload, tiled));
    }
    let end = tiled + rounded(size);
    if u32_at(slot, 8) as usize != tiled || end > area.len() {
        return None;
    }
    let payload = payload_before_zeros(size, &area[tiled..end])?;
    Some((payload, end))
}

/// Refuses a tag that isn't above the last one.
fn check_order(tag: u32, last: Option<u32>) -> Result<(), PackedRefused>
    ensures { MatchResult result (λ _. order_refusal tag last ≡ None) (λ e. order_refusal tag last ≡ Some e) }
{
    match last {
        None => Ok(()),
        Some(last) if tag < last => Err(PackedRefused::Unsorted),
        Some(last) if tag == last => Err(PackedRefused::Repeated),
        Some(_) => Ok(()),
    }
}

/// The entry in 16 bytes, and how far the area is tiled with it.
#[tactic(auto, unfolding(crate::specs::Reading::entry_of))]
fn entry_at(
    alloc: Global,
    slot: &[u8],
    area: &[u8],
    tiled: usize,
    last: Option<u32>,
) -> Result<(Entry, usize), PackedRefused>
    requires slot { length slot.now ≡ 16 }
    requires tiled { tiled ≤ length area.now }
    ensures entry { AnswersPacked (λ found. found) result (entry_of slot.now area.now tiled last) }
    ensures tiled { IfOk result (λ found. found.1 ≤ length area.now) }
{
    let Some(element) = ElementType::from_number(slot[12]) else {
        return Err(PackedRefused::BadType);
    };
    if !all_zero(&slot[13..16]) {
        return Err(PackedRefused::BadType);
    }
    let count = u32_at(slot, 4);
    if count == 0 || count > COUNT_LIMIT {
        return Err(PackedRefused::BadCount);
    }
    let size = count as usize * element.element_len();
    let Some((payload, end)) = payload_at(slot, size, area, tiled) else {
        return Err(PackedRefused::Overlap);
    };
    let tag = u32_at(slot, 0);
    check_order(tag, last)?;
    let values = values_of(alloc, element, count, payload)?;
    Ok((Entry { tag, values }, end))
}

/// The entries in so many times 16 bytes, whose payloads tile the area.
fn entries_at(
    alloc: Global,
    count: usize,
    slots: &[u8],
    area: &[u8],
) -> Result<Vec<Entry>, PackedRefused>
    requires { length slots.now ≡ 16 * count }
    ensures { AnswersPacked (λ entries. entries.items) result
        (entries_of (pieces 16 (λ slot. slot) count slots.now) area.now 0 None) }
{
    let mut entries = Vec::new(alloc);
    let mut tiled = 0;
    let mut last = None;
    let mut rest = slots;
    for _ in 0..count {
        let (slot, after) = rest.split_at(SLOT);
        let (entry, end) = entry_at(alloc, slot, area, tiled, last)?;
        last = Some(entry.tag);
        tiled = end;
        rest = after;
        entries.push(entry)?;
    }
    if tiled != area.len() {
        return Err(PackedRefused::Overlap);
    }
    Ok(entries)
}

/// Whether the header keeps its rules.
fn is_header(bytes: &[u8]) -> bool
    requires { 16 ≤ length bytes.now }
    ensures { result ≡ is_good_header bytes.now }
{
    let count = u32_at(bytes, 4);
    let area = u32_at(bytes, 8);
    u32_at(bytes, 0) == 1
        && count <= ENTRY_LIMIT
        && area % 8 == 0
        && area <= AREA_LIMIT
        && u32_at(bytes, 12) == 16 + 16 * count + area
}

/// The entries that the bytes spell.
pub(crate) fn entries_from(alloc: Global, bytes: &[u8]) -> Result<Vec<Entry>, PackedRefused>
    ensures { AnswersPacked (λ entries. entries.items) result (list_of bytes.now) }
{
    if bytes.len() < SLOT {
        return Err(PackedRefused::Short);
    }
    if !is_header(bytes) {
        return Err(PackedRefused::BadHeader);
    }
    let whole = u32_at(bytes, 12) as usize;
    if bytes.len() < whole {
        return Err(PackedRefused::Short);
    }
    if whole < bytes.len() {
        return Err(PackedRefused::BadHeader);
    }
    let count = u32_at(bytes, 4) as usize;
    let (slots, area) = bytes[SLOT..].split_at(SLOT * count);
    entries_at(alloc, count, slots, area)
}
