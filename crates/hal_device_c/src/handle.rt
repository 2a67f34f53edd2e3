//! The handle that C keeps: a device on the heap, or none.
ghost use Rattle.std.specs.Prelude.{◌≡◌, None, Some};
ghost use Rattle.std.specs.Option.{option_map};
ghost use Rattle.std.specs.declared.option.Option.{Option as Maybe};
ghost use Rattle.hal_device_model.specs.State.{HalDeviceState};
ghost use Rattle.hal_device_c.specs.Room.{coded_device};

use crate::room::Room;
use hal_device::HalDevice;
use std::alloc::Global;
use std::marker::Model;
use std::mem::replace;
use std::ptr::null_mut;

/// A device that may be let go: its end is its close.
pub struct Held {
    pub(crate) device: HalDevice,
}

impl Model for Held {
    ghost use Rattle.hal_device_model.specs.State.{HalDeviceState};

    ghost Value = { HalDeviceState };

    ghost view = { λ h. h.device };
}

impl Drop for Held {
    fn drop(self) {
        let Held { device } = self;
        device.close();
    }
}

/// What C keeps of a device, zeroed where there is none: the place on the heap at which it stands. A contract sees the
/// state of the device, or None.
#[repr(C)]
pub struct Handle {
    at: *mut (),
    pub ghost device: { Maybe HalDeviceState } by { coded_device },
}

impl Model for Handle {
    ghost use Rattle.hal_device_c.specs.Room.{holds};

    ghost also_owns = { λ h. holds h.at h.device };
}

// What a handle owns is plain data, so C may hand it to another thread.
unsafe impl Send for Handle {}

impl Held {
    pub(crate) fn new(device: HalDevice) -> Held
        ensures { result ≡ device }
    {
        Held { device }
    }
}

impl Handle {
    /// Without a device.
    fn shut() -> Handle
        ensures { result.device ≡ None }
    {
        Handle { at: null_mut() }
    }

    /// With the device in this room.
    fn of(room: Room<Held, Global>) -> Handle
        ensures { result.device ≡ Some room.value }
    {
        let Room { at, heap: _ } = room;
        Handle { at: at as *mut () }
    }

    /// The room with the device, if there is one.
    fn into_room(self, heap: Global) -> Option<Room<Held, Global>>
        ensures { option_map (λ r. r.value) result ≡ self.device }
    {
        let Handle { at } = self;
        if at.is_null() {
            None
        } else {
            let at = at as *mut Held;
            Some(Room { at, heap })
        }
    }

    /// Takes the device out.
    pub(crate) fn take(&mut self, alloc: Global) -> Option<Box<Held, Global>>
        ensures taken { option_map (λ b. b.value) result ≡ self.old.device }
        ensures handle { self.new.device ≡ None }
    {
        Some(replace(self, Handle::shut()).into_room(alloc)?.into_box())
    }

    /// Puts a device in; one that was there is closed.
    pub(crate) fn put(&mut self, alloc: Global, held: Box<Held, Global>)
        ensures { self.new.device ≡ Some held.value }
    {
        if let Some(room) = replace(self, Handle::of(Room::of(held))).into_room(alloc) {
            drop(room.into_box());
        }
    }
}
