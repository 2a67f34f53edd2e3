//! Settings as a packed list, and back.
ghost use Rattle.std.specs.Prelude.{◌≡◌, ◌∷◌, [], ◌<◌, ◌^◌, pos, None, Ok, OnOk, IfOk};
ghost use Rattle.metadata.specs.Entries.{add_refusal, with_entry};
ghost use Rattle.metadata.specs.Numbers.{byte_entry, int32_entry, int64_entry, settings_entries, settings_in, pattern_in, level_in, exposure_in, sensitivity_in};
ghost use Rattle.cam_types.specs.Metadata.{range_fault};

use crate::number::{byte_at, int32_at, int64_at};
use crate::rule::{
    EXPOSURE, LEVEL, PATTERN, SENSITIVITY, is_exposure, is_level, is_pattern, is_sensitivity,
};
use crate::{AddRefused, ByteList, Int32List, Int64List, Packed, Values};
use cam_types::{NoMemory, Settings};
use std::alloc::{AllocError, Global};

/// Why a packed list has no settings.
#[derive(Clone, Copy, Debug, PartialEq, Eq)]
pub enum SettingsRefused {
    /// The least of the four settings' tags that is missing, has another type or count, or is out of its range.
    BadSetting { tag: u32 },
    NoMemory,
}

fn pattern_of(packed: &Packed) -> Result<u8, SettingsRefused>
    ensures { result ≡ pattern_in packed.now }
{
    match byte_at(packed, PATTERN) {
        None => Err(SettingsRefused::BadSetting { tag: PATTERN }),
        Some(pattern) => {
            if is_pattern(pattern) {
                Ok(pattern)
            } else {
                Err(SettingsRefused::BadSetting { tag: PATTERN })
            }
        }
    }
}

fn level_of(packed: &Packed) -> Result<u32, SettingsRefused>
    ensures { result ≡ level_in packed.now }
{
    match int32_at(packed, LEVEL) {
        None => Err(SettingsRefused::BadSetting { tag: LEVEL }),
        Some(level) => {
            if is_level(level) {
                Ok(level)
            } else {
                Err(SettingsRefused::BadSetting { tag: LEVEL })
            }
        }
    }
}

fn exposure_of(packed: &Packed) -> Result<u64, SettingsRefused>
    ensures { result ≡ exposure_in packed.now }
{
    match int64_at(packed, EXPOSURE) {
        None => Err(SettingsRefused::BadSetting { tag: EXPOSURE }),
        Some(exposure) => {
            if is_exposure(exposure) {
                Ok(exposure)
            } else {
                Err(SettingsRefused::BadSetting { tag: EXPOSURE })
            }
        }
    }
}

fn sensitivity_of(packed: &Packed) -> Result<u32, SettingsRefused>
    ensures { result ≡ sensitivity_in packed.now }
{
    match int32_at(packed, SENSITIVITY) {
        None => Err(SettingsRefused::BadSetting { tag: SENSITIVITY }),
        Some(iso) => {
            if is_sensitivity(iso) {
                Ok(iso)
            } else {
                Err(SettingsRefused::BadSetting { tag: SENSITIVITY })
            }
        }
    }
}

/// The settings that a packed list has; other tags are ignored. This takes no memory, so that `NoMemory` never comes.
#[tactic(auto, unfolding(crate::specs::Numbers::settings_in))]
pub fn settings_of(_alloc: Global, packed: &Packed) -> Result<Settings, SettingsRefused>
    ensures { result ≡ settings_in packed.now }
{
    let pattern = pattern_of(packed)?;
    let level = level_of(packed)?;
    let exposure = exposure_of(packed)?;
    let iso = sensitivity_of(packed)?;
    Ok(Settings {
        pattern,
        level,
        exposure,
        iso,
    })
}

/// Adds values for which there is room.
fn put(packed: &mut Packed, tag: u32, values: Values) -> Result<(), NoMemory>
    requires { add_refusal tag values packed.old ≡ None }
    ensures { OnOk result (packed.new ≡ with_entry (record { tag = tag; values = values }) packed.old) }
{
    match packed.add(tag, values) {
        Ok(()) => Ok(()),
        Err(AddRefused::NoMemory) => Err(AllocError),
        Err(AddRefused::Count) => unreachable!(),
        Err(AddRefused::Repeated) => unreachable!(),
        Err(AddRefused::Full) => unreachable!(),
    }
}

/// Adds a number as a BYTE, for which there is room.
fn put_byte(alloc: Global, packed: &mut Packed, tag: u32, number: u8) -> Result<(), NoMemory>
    requires { add_refusal tag (Values.Bytes (number ∷ [])) packed.old ≡ None }
    ensures { OnOk result (packed.new ≡ with_entry (byte_entry tag number) packed.old) }
{
    let mut list = ByteList::new(alloc);
    list.push(number)?;
    put(packed, tag, Values::Bytes(list))
}

/// Adds a number as an INT32, for which there is room.
fn put_int32(alloc: Global, packed: &mut Packed, tag: u32, number: u32) -> Result<(), NoMemory>
    requires fits { number < 2 ^ 31 }
    requires room { add_refusal tag (Values.Int32 (pos number ∷ [])) packed.old ≡ None }
    ensures { OnOk result (packed.new ≡ with_entry (int32_entry tag number) packed.old) }
{
    let mut list = Int32List::new(alloc);
    list.push(number as i32)?;
    put(packed, tag, Values::Int32(list))
}

/// Adds a number as an INT64, for which there is room.
fn put_int64(alloc: Global, packed: &mut Packed, tag: u32, number: u64) -> Result<(), NoMemory>
    requires fits { number < 2 ^ 63 }
    requires room { add_refusal tag (Values.Int64 (pos number ∷ [])) packed.old ≡ None }
    ensures { OnOk result (packed.new ≡ with_entry (int64_entry tag number) packed.old) }
{
    let mut list = Int64List::new(alloc);
    list.push(number as i64)?;
    put(packed, tag, Values::Int64(list))
}

/// The packed list of settings that are in range.
pub fn packed_of(alloc: Global, settings: Settings) -> Result<Packed, NoMemory>
    requires { range_fault settings ≡ None }
    ensures entries { IfOk result (λ packed. packed ≡ settings_entries settings) }
    ensures again { IfOk result (λ packed. settings_in packed ≡ Ok settings) }
{
    let mut packed = Packed::new(alloc);
    put_byte(alloc, &mut packed, PATTERN, settings.pattern)?;
    put_int32(alloc, &mut packed, LEVEL, settings.level)?;
    put_int64(alloc, &mut packed, EXPOSURE, settings.exposure)?;
    put_int32(alloc, &mut packed, SENSITIVITY, settings.iso)?;
    Ok(packed)
}
