//! The digests of outputs that were hashed before.
ghost use Rattle.std.specs.Prelude.{◌≡◌, ◌≤◌, ◌<◌, IfSome, IsTrue, length};
ghost use Rattle.std.specs.List.{All};
ghost use Rattle.cam_types.specs.Picture.{picture};
ghost use Rattle.reprocess_model.specs.Plan.{is_yuv};
ghost use Rattle.reprocess_model.specs.Reduce.{reduced};
ghost use Rattle.reprocess_core.specs.Keys.{IsPlaceOf, output_by};
ghost use Rattle.sha2.specs.Sha256.{sha256};

use crate::key::{OutputKey, is_same_key, key_of};
use crate::ticket::InputTicket;
use cam_types::{NoMemory, StreamSpec};
use picture_stages::{TRIES, tries_of};
use std::alloc::Global;
use std::marker::Model;

/// How many outputs a request has at most.
const OUTPUTS: usize = 3;

/// An output's key, and its digest.
#[derive(Clone, Copy)]
pub struct Told {
    key: OutputKey,
    digest: [u8; 32],
}

/// Digests of outputs, in room that was taken at once: a table in which a key has few places.
#[derive(Drop)]
pub struct OutputMemory {
    places: Vec<Option<Told>>,
}

impl Model for OutputMemory {
    ghost use Rattle.std.specs.Prelude.{ℕ, length};
    ghost use Rattle.std.specs.List.{All};
    ghost use Rattle.reprocess_core.specs.Keys.{IsPlaceOf};

    ghost Value = { ℕ };

    ghost view = { λ m. length m.places.items };

    ghost invariant = { λ m. All IsPlaceOf m.places.items };
}

impl OutputMemory {
    /// Nothing is remembered, and there is room for all outputs of so many requests. All memory that it ever has is taken
    /// here.
    pub fn with_room(alloc: Global, requests: u32) -> Result<OutputMemory, NoMemory> {
        let outputs = OUTPUTS * requests as usize;
        let places = vec![in alloc; None; 2 * outputs + TRIES]?;
        Ok(OutputMemory { places })
    }

    /// The SHA-256 of the picture that is made of the ticket's for an output, where it is remembered.
    pub fn find(&self, ticket: &InputTicket, to: StreamSpec) -> Option<[u8; 32]>
        ensures { IfSome result (λ digest. digest ≡ sha256 (reduced ticket.now.spec to
            (picture ticket.now.spec ticket.now.settings ticket.now.frame.0))) }
    {
        let _yuv = ticket.spec();
        let key = key_of(ticket, to);
        let (first, end) = tries_of(&key, self.places.len());
        find_in(&self.places[first..end], key)
    }

    /// Remembers the SHA-256 of the picture that is made of the ticket's for an output, where there is room for it. It
    /// takes no memory.
    pub fn remember(&mut self, ticket: &InputTicket, to: StreamSpec, digest: [u8; 32])
        requires { digest ≡ sha256 (reduced ticket.now.spec to
            (picture ticket.now.spec ticket.now.settings ticket.now.frame.0)) }
    {
        let _yuv = ticket.spec();
        let key = key_of(ticket, to);
        let (first, end) = tries_of(&key, self.places.len());
        if let Some(free) = free_place(&self.places[first..end]) {
            self.places[first + free] = Some(Told { key, digest });
        }
    }
}

/// Finds a key's digest, before the first place that is free.
fn find_in(places: &[Option<Told>], key: OutputKey) -> Option<[u8; 32]>
    requires { All IsPlaceOf places.now }
    ensures { IfSome result (λ digest. digest ≡ sha256 (output_by key)) }
{
    for place in places {
        let Some(told) = place else {
            return None;
        };
        if is_same_key(told.key, key) {
            return Some(told.digest);
        }
    }
    None
}

/// The first place that is free.
fn free_place(places: &[Option<Told>]) -> Option<usize>
    ensures { IfSome result (λ place. place < length places.now) }
{
    places.iter().position(|place| place.is_none())
}
