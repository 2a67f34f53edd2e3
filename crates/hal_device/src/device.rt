//! The device behind `camera3_device_t`: its opening and its end.
ghost use Rattle.std.specs.Prelude.{◌≡◌, IfErr, IfOk, None, slice_get};
ghost use Rattle.hal_device_model.specs.Calls.{IsRefusal, open_error};
ghost use Rattle.hal_device_model.specs.State.{opened};
ghost use Rattle.device_core.specs.Stored.{no_plan};

use crate::quiet::QuietDevice;
use crate::shelves::Shelves;
use cam_types::{FaultList, Four, Profile, RowView, Settings};
use hal_device_model::CallError;
use request_checks::Plan;
use std::alloc::Global;
use std::marker::Model;

/// The device behind `camera3_device_t`. Any call may be made at any time: each tests what it asks, and answers an
/// error of the header's, or None, where it can't be done. It can't be let go: `close` ends it.
pub struct HalDevice {
    pub(crate) quiet: QuietDevice,
    pub(crate) shelves: Shelves,
    pub(crate) plan: Plan,
    pub(crate) profile: Profile,
    pub(crate) initialized: bool,
    pub(crate) failed: bool,
    pub(crate) flushing: bool,
    pub(crate) closing: bool,
    /// The settings that were accepted last, since the last configuration.
    pub(crate) last: Option<Settings>,
    /// The first frame number that may still come.
    pub(crate) next: u64,
}

impl Model for HalDevice {
    ghost use Rattle.hal_device.specs.Kept.{IsKept};
    ghost use Rattle.hal_device_model.specs.State.{HalDeviceState};

    ghost Value = { HalDeviceState };

    ghost view = { λ h. record {
      profile = h.profile;
      device = h.quiet;
      spares = h.shelves;
      initialized = h.initialized;
      failed = h.failed;
      flushing = h.flushing;
      closing = h.closing;
      last = h.last;
      next = h.next;
    } };

    ghost invariant = { λ h. IsKept h.quiet h.plan h.profile h.shelves h.next };
}

impl HalDevice {
    /// A device of the profile that shall have these faults, with no stream. EINVAL exactly where a number of the
    /// profile isn't from 1 to 16.
    pub fn open(alloc: Global, profile: Profile, faults: FaultList) -> Result<HalDevice, CallError>
        ensures device { IfOk result (λ device. device ≡ opened profile faults) }
        ensures profile { IfOk result (λ device. open_error profile ≡ None) }
        ensures error { IfErr result (λ error. IsRefusal (open_error profile) error) }
    {
        if !profile.is_valid() {
            return Err(CallError::InvalidArgument);
        }
        match QuietDevice::new(alloc, profile.depth, faults) {
            Ok(quiet) => Ok(HalDevice {
                quiet,
                shelves: Shelves::empty(alloc),
                plan: no_plan(),
                profile,
                initialized: false,
                failed: false,
                flushing: false,
                closing: false,
                last: None,
                next: 0,
            }),
            Err(_) => Err(CallError::NoMemory),
        }
    }

    /// The row at a place, from 0 on in order of frames. None exactly where so many rows don't stand.
    pub fn at(&self, place: u32) -> Option<RowView>
        ensures { result ≡ slice_get self.now.device.rows place }
    {
        self.quiet.at(place)
    }

    /// Ends the device, and spends all that it holds.
    pub fn close(self) {
        let HalDevice {
            quiet,
            shelves: _,
            plan: _,
            profile: _,
            initialized: _,
            failed: _,
            flushing: _,
            closing: _,
            last: _,
            next: _,
        } = self;
        quiet.scrap();
    }
}

/// The plan without a stream.
fn no_plan() -> Plan
    ensures { result ≡ no_plan }
{
    Plan {
        streams: Four {
            a: None,
            b: None,
            c: None,
            d: None,
        },
    }
}
