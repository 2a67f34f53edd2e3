//! A trace as a list of entries, with the profile that its first line may name.
ghost use Rattle.std.specs.Prelude.{◌≡◌, ◌<◌, ◌++◌, ◌∷◌, [], length, None, OnErr, OnOk, option_copied, slice_get};

use crate::entry::Entry;
use cam_types::{Listing, NoMemory, Profile};
use std::alloc::Global;

/// The entries of a trace, in order, and the device profile, where the trace's first line names one.
#[derive(Debug, Drop)]
pub struct TraceList {
    pub profile: Option<Profile>,
    pub entries: Listing<Entry>,
}

impl TraceList {
    /// The list of no entry, without a profile.
    pub fn new(alloc: Global) -> TraceList
        ensures { result ≡ record { profile = None; entries = [] } }
    {
        TraceList {
            profile: None,
            entries: Listing::new(alloc),
        }
    }

    /// Appends an entry.
    pub fn push(&mut self, entry: Entry) -> Result<(), NoMemory>
        requires { length self.old.entries < u32.MAX }
        ensures ok { OnOk result (self.new ≡ record self.old { entries = self.old.entries ++ entry ∷ [] }) }
        ensures err { OnErr result (self.new ≡ self.old) }
    {
        self.entries.push(entry)
    }

    /// How many entries there are.
    pub fn len(&self) -> u32
        ensures { result ≡ length self.now.entries }
    {
        self.entries.len()
    }

    /// The entry at a place, counted from 0. None exactly where so many entries don't stand.
    pub fn get(&self, place: u32) -> Option<&Entry>
        ensures { option_copied result ≡ slice_get self.now.entries place }
    {
        self.entries.get(place)
    }

    /// All entries.
    pub fn as_slice(&self) -> &[Entry]
        ensures { result.now ≡ self.now.entries }
    {
        self.entries.as_slice()
    }
}
