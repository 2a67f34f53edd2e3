//! The fences that were made, and which are signalled.
ghost use Rattle.std.specs.Prelude.{◌≡◌, ◌↔◌, ◌<◌, IfOk, IfErr, IsOk, IsTrue, OnOk, OnErr};
ghost use Rattle.buffer_pool.specs.Fences.{is_signalled, made, no_fences, with_fence, with_signal};

use crate::token::{Signaller, Waiter};
use std::alloc::{AllocError, Global};
use std::marker::Model;

/// The fences that were made, numbered from 0 on, and which of them are signalled. Every call costs the same, however
/// many were made before.
#[derive(Drop)]
pub struct Fences {
    signalled: Vec<bool>,
    /// How many fences can be made without more memory.
    room: u32,
}

impl Model for Fences {
    ghost use Rattle.std.specs.Prelude.{◌≤◌, vec_capacity};
    ghost use Rattle.buffer_pool.specs.Fences.{FencesMade};

    ghost Value = { FencesMade };

    ghost view = { λ f. record { signalled = f.signalled.items; room = f.room } };

    ghost invariant = { λ f. f.room ≤ vec_capacity f.signalled };
}

impl Fences {
    /// No fence, and room for none.
    pub fn new(alloc: Global) -> Fences
        ensures { result ≡ no_fences 0 }
    {
        Fences {
            signalled: Vec::new(alloc),
            room: 0,
        }
    }

    /// No fence, and room for so many.
    pub fn with_room(alloc: Global, count: u32) -> Result<Fences, AllocError>
        ensures { IfOk result (λ fences. fences ≡ no_fences count) }
    {
        let signalled = Vec::with_capacity(alloc, count as usize)?;
        Ok(Fences {
            signalled,
            room: count,
        })
    }

    /// Makes the next fence, which isn't signalled.
    pub fn make(&mut self) -> Result<(Signaller, Waiter), AllocError>
        requires { made self.old < u32.MAX }
        ensures signaller { IfOk result (λ pair. pair.0 ≡ made self.old) }
        ensures waiter { IfOk result (λ pair. pair.1 ≡ made self.old) }
        ensures ok { OnOk result (self.new ≡ with_fence self.old) }
        ensures err { OnErr result (self.new ≡ self.old) }
    {
        let number = self.signalled.len() as u32;
        self.signalled.push(false)?;
        Ok((Signaller::over(number), Waiter::over(number)))
    }

    /// Makes the next fence, as `make`, in the room that there is.
    pub fn make_in(&mut self) -> (Signaller, Waiter)
        requires { made self.old < self.old.room }
        ensures signaller { result.0 ≡ made self.old }
        ensures waiter { result.1 ≡ made self.old }
        ensures made { self.new ≡ with_fence self.old }
    {
        let number = self.signalled.len() as u32;
        let _ = self.signalled.push(false);
        (Signaller::over(number), Waiter::over(number))
    }

    /// Signals a fence that was made here, and gives its number.
    pub fn signal(&mut self, token: Signaller) -> u32
        requires { token < made self.old }
        ensures number { result ≡ token }
        ensures signalled { self.new ≡ with_signal token self.old }
    {
        let number = token.spend();
        self.signalled[number as usize] = true;
        number
    }

    /// Whether the fence is signalled. One that wasn't made isn't.
    pub fn signalled(&self, number: u32) -> bool
        ensures { result ≡ is_signalled number self.now }
    {
        match self.signalled.get(number as usize) {
            Some(signalled) => *signalled,
            None => false,
        }
    }

    /// Gives the fence's number where the fence is signalled, and where it isn't the waiter back. The fence was made
    /// here.
    pub fn redeem(&mut self, token: Waiter) -> Result<u32, Waiter>
        requires { token < made self.old }
        ensures signalled { IsOk result ↔ IsTrue (is_signalled token self.old) }
        ensures number { IfOk result (λ number. number ≡ token) }
        ensures waiter { IfErr result (λ waiter. waiter ≡ token) }
        ensures unchanged { self.new ≡ self.old }
    {
        if self.signalled(token.number()) {
            Ok(token.spend())
        } else {
            Err(token)
        }
    }

    /// Spends a waiter of a fence that was made here.
    pub fn scrap_waiter(&mut self, token: Waiter)
        requires { token < made self.old }
        ensures { self.new ≡ self.old }
    {
        let _ = token.spend();
    }

    /// Spends a signaller of a fence that was made here. The fence stays as it is.
    pub fn scrap_signaller(&mut self, token: Signaller)
        requires { token < made self.old }
        ensures { self.new ≡ self.old }
    {
        let _ = token.spend();
    }
}
