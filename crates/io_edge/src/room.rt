//! Room for one line, which is taken once.

ghost use Rattle.std.specs.Prelude.{◌≡◌, ◌≤◌, ◌+◌, ◌*◌, ◌++◌, [], length, IfOk, decimal};
ghost use Rattle.hex.specs.Hex.{encode_lower};

use cam_types::NoMemory;
use std::alloc::Global;
use std::marker::Model;

/// The bytes that a line may have.
pub const ROOM: usize = 4_096;

/// The most bytes that are written as hexadecimal text at once.
pub const HEX_BYTES: usize = 56;

/// A line as far as it is written. A contract sees its bytes. No call but `new` takes memory.
#[derive(Drop)]
pub struct Room {
    text: Vec<u8>,
}

impl Model for Room {
    ghost use Rattle.std.specs.Prelude.{List, ℕ, ◌≤◌, vec_capacity};

    ghost Value = { List ℕ };

    ghost view = { λ r. r.text.items };

    ghost invariant = { λ r. 4096 ≤ vec_capacity r.text };
}

impl Room {
    /// Room for a line, which is empty.
    pub fn new(alloc: Global) -> Result<Room, NoMemory>
        ensures { IfOk result (λ room. room ≡ []) }
    {
        let text = Vec::with_capacity(alloc, ROOM)?;
        Ok(Room { text })
    }

    /// Forgets what is written.
    pub fn clear(&mut self)
        ensures { self.new ≡ [] }
    {
        self.text.clear();
    }

    /// What is written.
    pub fn bytes(&self) -> &[u8]
        ensures { result.now ≡ self.now }
    {
        self.text.as_slice()
    }

    /// Writes bytes.
    pub fn put(&mut self, bytes: &[u8])
        requires { length self.old + length bytes.now ≤ ROOM }
        ensures text { self.new ≡ self.old ++ bytes.now }
        ensures len { length self.new ≡ length self.old + length bytes.now }
    {
        self.text.extend_from_slice(bytes).unwrap();
    }

    /// Writes a number in decimal, without leading zeros.
    #[tactic(auto, using(crate::proofs::Numbers::number_digit, crate::proofs::Numbers::number_more, crate::proofs::Numbers::length_digit, crate::proofs::Numbers::length_more))]
    fn put_number(&mut self, number: u64)
        requires { length self.old + length (decimal number) ≤ ROOM }
        ensures text { self.new ≡ self.old ++ decimal number }
        ensures len { length self.new ≡ length self.old + length (decimal number) }
    {
        if number >= 10 {
            self.put_number(number / 10);
        }
        self.put(&[b'0' + (number % 10) as u8]);
    }

    /// Writes a number of 32 bits.
    #[tactic(auto, using(crate::proofs::Numbers::length_small))]
    pub fn put_small(&mut self, number: u32)
        requires { length self.old + 10 ≤ ROOM }
        ensures text { self.new ≡ self.old ++ decimal number }
        ensures len { length self.new ≤ length self.old + 10 }
    {
        self.put_number(u64::from(number));
    }

    /// Writes a number of 64 bits.
    #[tactic(auto, using(crate::proofs::Numbers::length_large))]
    pub fn put_large(&mut self, number: u64)
        requires { length self.old + 20 ≤ ROOM }
        ensures text { self.new ≡ self.old ++ decimal number }
        ensures len { length self.new ≤ length self.old + 20 }
    {
        self.put_number(number);
    }

    /// Writes bytes as hexadecimal text in lower case, two digits for each.
    pub fn put_hex(&mut self, bytes: &[u8])
        requires short { length bytes.now ≤ HEX_BYTES }
        requires room { length self.old + 2 * length bytes.now ≤ ROOM }
        ensures text { self.new ≡ self.old ++ encode_lower bytes.now }
        ensures len { length self.new ≡ length self.old + 2 * length bytes.now }
    {
        let mut digits = [0; 2 * HEX_BYTES];
        let digits = &mut digits[..2 * bytes.len()];
        hex::encode_to_slice(bytes, digits).unwrap();
        self.put(digits);
    }
}
