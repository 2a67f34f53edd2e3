//! Where the configuration's buffers are, and what each entry does to it.
ghost use Rattle.std.specs.Prelude.{◌≡◌, ◌-◌, ◌+◌, ◌<◌, ◌^◌, ◌++◌, ◌∷◌, [], None, Some, false, true, length, map, option_to_list, replicate, slice_set, OnOk};
ghost use Rattle.cam_types.specs.Four.{four_list};
ghost use Rattle.cam_types.specs.declared.number.BufferId.{BufferId as SomeBuffer};
ghost use Rattle.cam_types.specs.declared.number.FenceNo.{FenceNo as SomeFence};
ghost use Rattle.trace_model.specs.Place.{Client as TheClient, Device as TheDevice, Pool as ThePool};
ghost use Rattle.state_facts.specs.Homes.{configured, no_homes, homes_after, put, sent_with};
ghost use Rattle.judge_rows.specs.Homes.{fences_in, helds_in, place_of, places_in};

use crate::fences::FenceBook;
use crate::made::replace_made;
use cam_types::{BufferId, DeviceFenceNo, FenceNo, Four, Made, NoMemory, Reply};
use judge_entries::number::made_in;
use std::alloc::Global;
use std::marker::Model;
use trace_model::{Entry, Sent};

/// Where a buffer is.
#[derive(Clone, Copy, PartialEq, Eq)]
pub enum Home {
    Pool,
    Device,
    Client,
}

/// A buffer: where it is, the fence with which it came home, and the device fence with which it went to the client
/// early.
#[derive(Clone, Copy)]
pub(crate) struct Berth {
    pub(crate) home: Home,
    pub(crate) fence: Option<FenceNo>,
    pub(crate) held: Option<DeviceFenceNo>,
}

/// A buffer that was just made.
const FRESH: Berth = Berth {
    home: Home::Pool,
    fence: None,
    held: None,
};

/// A buffer that was just sent.
const SENT: Berth = Berth {
    home: Home::Device,
    fence: None,
    held: None,
};

/// Where the configuration's buffers are, and which fences are signalled.
#[derive(Drop)]
pub struct HomeTable {
    pub(crate) made: Vec<Made>,
    /// The number of the first buffer.
    pub(crate) first: u32,
    pub(crate) berths: Vec<Berth>,
    /// The fences of releases.
    pub(crate) releases: FenceBook,
    /// The device fences of early returns.
    pub(crate) pictures: FenceBook,
}

impl Model for HomeTable {
    ghost use Rattle.state_facts.specs.Homes.{Homes};
    ghost use Rattle.judge_rows.specs.Homes.{fences_in, helds_in, places_in};

    ghost Value = { Homes };

    ghost view = { λ t.
        record {
          made = t.made.items;
          first = t.first;
          places = places_in t.berths.items;
          fences = fences_in t.berths.items;
          signalled = t.releases;
          held = helds_in t.berths.items;
          late = t.pictures;
        } };
}

impl HomeTable {
    /// Before the first configuration.
    pub fn new(alloc: Global) -> HomeTable
        ensures { result ≡ no_homes }
    {
        HomeTable {
            made: Vec::new(alloc),
            first: 0,
            berths: Vec::new(alloc),
            releases: FenceBook::new(alloc),
            pictures: FenceBook::new(alloc),
        }
    }

    /// Notes an entry: each that names a buffer moves it, a release and an early return give a fence, an accepted
    /// configuration makes fresh buffers. The answer is an error only where memory runs out.
    pub fn note(&mut self, entry: &Entry) -> Result<(), NoMemory>
        requires first { (homes_after entry.now self.old).first < 2 ^ 32 }
        requires fences { length (homes_after entry.now self.old).signalled < 2 ^ 32 }
        requires device_fences { length (homes_after entry.now self.old).late < 2 ^ 32 }
        ensures { OnOk result (self.new ≡ homes_after entry.now self.old) }
    {
        match entry {
            Entry::Call {
                reply: Reply::Configured(each),
                ..
            } => self.configure(each),
            Entry::Send { targets, .. } => {
                self.send(targets);
                Ok(())
            }
            Entry::Filled { buffer, .. } => {
                self.put(*buffer, Home::Client, None, None);
                Ok(())
            }
            Entry::Failed { buffer, fence, .. } => {
                self.put(*buffer, Home::Pool, *fence, None);
                Ok(())
            }
            Entry::Release { buffer, fence } => {
                self.put(*buffer, Home::Pool, Some(*fence), None);
                self.releases.give()
            }
            Entry::Signal { fence } => {
                self.releases.signal(fence.0);
                Ok(())
            }
            Entry::Early { buffer, fence, .. } => {
                self.put(*buffer, Home::Client, None, Some(*fence));
                self.pictures.give()
            }
            Entry::Late { fence, .. } => {
                self.pictures.signal(fence.0);
                Ok(())
            }
            _ => Ok(()),
        }
    }

    /// Puts the buffer at a place, with a fence and a device fence.
    fn put(
        &mut self,
        buffer: BufferId,
        home: Home,
        fence: Option<FenceNo>,
        held: Option<DeviceFenceNo>,
    )
        ensures { self.new ≡ put buffer.0 (place_of home) fence held self.old }
    {
        let place = buffer.0.saturating_sub(self.first) as usize;
        set_berth(&mut self.berths, place, Berth { home, fence, held });
    }

    /// Puts the target's buffer, if there is one, at the device.
    fn send_one(&mut self, target: Option<Sent>)
        ensures { self.new ≡ sent_with (option_to_list target) self.old }
    {
        if let Some(target) = target {
            let place = target.buffer.0.saturating_sub(self.first) as usize;
            set_berth(&mut self.berths, place, SENT);
        }
    }

    /// Puts the buffers of a send at the device.
    #[tactic(auto, using(crate::proofs::HomeLemmas::sent_four))]
    fn send(&mut self, targets: &Four<Sent>)
        ensures { self.new ≡ sent_with (four_list targets.now) self.old }
    {
        self.send_one(targets.d);
        self.send_one(targets.c);
        self.send_one(targets.b);
        self.send_one(targets.a);
    }

    /// Makes the buffers of a configuration.
    fn configure(&mut self, each: &Four<Made>) -> Result<(), NoMemory>
        requires { (configured (four_list each.now) self.old).first < 2 ^ 32 }
        ensures { OnOk result (self.new ≡ configured (four_list each.now) self.old) }
    {
        let old = self.berths.len() as u32;
        self.first += old;
        replace_made(&mut self.made, each)?;
        fill_fresh(&mut self.berths, made_in(each) as usize)
    }
}

/// Puts a buffer at a place, if it is there.
#[tactic(auto, using(crate::proofs::HomeLemmas::map_set))]
fn set_berth(berths: &mut Vec<Berth>, place: usize, berth: Berth)
    ensures places { places_in berths.new.items ≡
        slice_set (places_in berths.old.items) place (place_of berth.home) }
    ensures fences { fences_in berths.new.items ≡ slice_set (fences_in berths.old.items) place berth.fence }
    ensures held { helds_in berths.new.items ≡ slice_set (helds_in berths.old.items) place berth.held }
{
    if place < berths.len() {
        berths[place] = berth;
    }
}

/// So many fresh buffers, in place of the old ones.
fn fill_fresh(berths: &mut Vec<Berth>, count: usize) -> Result<(), NoMemory>
    ensures places { OnOk result (places_in berths.new.items ≡ replicate count ThePool) }
    ensures fences { OnOk result (fences_in berths.new.items ≡ replicate count None) }
    ensures held { OnOk result (helds_in berths.new.items ≡ replicate count None) }
{
    berths.clear();
    berths.resize(count, FRESH)?;
    Ok(())
}
