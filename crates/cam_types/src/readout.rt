//! The values of the sensor, owned by one place at a time.
ghost use Rattle.std.specs.Prelude.{◌≡◌, length};
ghost use Rattle.std.specs.Borrow.{sem};
ghost use Rattle.cam_types.specs.Readouts.{LendsValues};

use crate::limit::SENSOR_VALUES;
use crate::list::NoMemory;
use std::alloc::Global;
use std::marker::Model;

/// The values of the sensor, row by row: 120 rows of 160. It is owned by one place at a time and never copied.
#[derive(Drop)]
pub struct Readout {
    values: Vec<u16>,
}

impl Model for Readout {
    ghost use Rattle.std.specs.Prelude.{◌≡◌, ℕ, List, length};

    ghost Value = { List ℕ };

    ghost view = { λ r. r.values.items };

    ghost invariant = { λ r. length r.values.items ≡ 19200 };
}

impl Readout {
    /// A readout with every value 0.
    pub fn new(alloc: Global) -> Result<Readout, NoMemory> {
        let values = vec![in alloc; 0; SENSOR_VALUES]?;
        Ok(Readout { values })
    }

    /// The values.
    pub fn values(&self) -> &[u16]
        ensures value { result.now ≡ self.now }
        ensures len { length result.now ≡ 19200 }
    {
        self.values.as_slice()
    }

    /// The values, for writing.
    pub fn values_mut(&mut self) -> &mut [u16]
        ensures* writes_back { sem 𝓛 (LendsValues self.entry result) }
        ensures value { result.now ≡ self.old }
        ensures len { length result.now ≡ 19200 }
    {
        self.values.as_mut_slice()
    }
}
