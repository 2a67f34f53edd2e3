//! The device is opened and closed.
ghost use Rattle.std.specs.Prelude.{◌≡◌, ◌≤◌, None, Some, IfOk, IfSome, false, true, length, map, if◌then◌else◌};
ghost use Rattle.std.specs.List.{list_all};
ghost use Rattle.cam_types.specs.Profile.{is_profile};
ghost use Rattle.hal_device_c.specs.Calls.{IsAnswer, are_bad_faults, close_answer, is_done, open_error};
ghost use Rattle.hal_device_c.specs.Records.{fault_of, has_kind, profile_of};
ghost use Rattle.hal_device_model.specs.State.{opened};

use crate::answer::{DONE, INVALID, NO_MEMORY, NOT_OPEN};
use crate::handle::{Handle, Held};
use crate::records::{FaultRecord, ProfileRecord, fault_of, has_kind, profile_of};
use cam_types::{FaultList, NoMemory, Profile};
use hal_device::HalDevice;
use std::alloc::Global;

/// The most faults that a device takes.
const FAULTS_MOST: usize = 65_536;

/// Opens a device of the profile that shall have these faults. EINVAL where the handle is open, a number of the
/// profile isn't from 1 to 16, a fault has no kind, or there are more than 65,536.
#[unsafe(no_mangle)]
pub extern "C" fn pauvigre_open(
    alloc: Global,
    handle: &mut Handle,
    profile: &ProfileRecord,
    faults: &[FaultRecord],
) -> i32
    ensures answer { IsAnswer (open_error profile.now faults.now handle.old.device) result }
    ensures device { handle.new.device ≡ (if is_done result
        then Some (opened (profile_of profile.now) (map fault_of faults.now)) else handle.old.device) }
{
    if let Some(held) = handle.take(alloc) {
        handle.put(alloc, held);
        return INVALID;
    }
    let profile = profile_of(*profile);
    if are_bad(faults) || !profile.is_valid() {
        return INVALID;
    }
    match opened(alloc, profile, faults) {
        Some(held) => {
            handle.put(alloc, held);
            DONE
        }
        None => NO_MEMORY,
    }
}

/// Ends the device, and gives all its memory back. ENODEV where the handle isn't open.
#[unsafe(no_mangle)]
pub extern "C" fn pauvigre_close(alloc: Global, handle: &mut Handle) -> i32
    ensures answer { result ≡ close_answer handle.old.device }
    ensures device { handle.new.device ≡ None }
{
    match handle.take(alloc) {
        Some(_) => DONE,
        None => NOT_OPEN,
    }
}

/// A device with these faults on the heap. None where there is no memory.
fn opened(alloc: Global, profile: Profile, faults: &[FaultRecord]) -> Option<Box<Held, Global>>
    requires faults { are_bad_faults faults.now ≡ false }
    requires profile { is_profile profile ≡ true }
    ensures { IfSome result (λ held. held.value ≡ opened profile (map fault_of faults.now)) }
{
    let list = list_of(alloc, faults).ok()?;
    let device = HalDevice::open(alloc, profile, list).ok()?;
    Box::new(alloc, Held::new(device)).ok()
}

/// Whether there are too many faults, or one has no kind.
fn are_bad(faults: &[FaultRecord]) -> bool
    ensures { result ≡ are_bad_faults faults.now }
{
    FAULTS_MOST < faults.len() || !have_kinds(faults)
}

fn have_kinds(faults: &[FaultRecord]) -> bool
    ensures { result ≡ list_all has_kind faults.now }
{
    faults.iter().all(|fault| has_kind(fault))
}

/// The faults, of which there aren't too many.
fn list_of(alloc: Global, faults: &[FaultRecord]) -> Result<FaultList, NoMemory>
    requires { length faults.now ≤ 65536 }
    ensures { IfOk result (λ list. list ≡ map fault_of faults.now) }
{
    let mut list = FaultList::new(alloc);
    for fault in faults {
        list.push(fault_of(*fault))?;
    }
    Ok(list)
}
