//! Fences that are given in order, and signalled.
ghost use Rattle.std.specs.Prelude.{◌≡◌, ◌==◌, ◌+◌, ◌<◌, ◌≤◌, ◌^◌, ◌++◌, ◌∷◌, [], ℕ, not, false, true, drop, filter, length, slice_index_or, slice_set, take, vec_len, OnOk};
ghost use Rattle.std.specs.List.{list_all, list_any};

use cam_types::NoMemory;
use std::alloc::Global;
use std::marker::Model;

/// Fences that were given in order, from 0 on. A contract sees for each whether it is signalled; those alone that
/// aren't are kept.
#[derive(Drop)]
pub struct FenceBook {
    /// How many were given.
    count: u32,
    /// Those that aren't signalled, ascending.
    waiting: Vec<u32>,
}

impl Model for FenceBook {
    ghost use Rattle.std.specs.Prelude.{◌≡◌, Bool, List, true};
    ghost use Rattle.judge_rows.specs.Fences.{are_given, marks};

    ghost Value = { List Bool };

    ghost view = { λ b. marks b.waiting.items b.count };

    ghost invariant = { λ b. are_given b.count b.waiting.items ≡ true };
}

impl FenceBook {
    /// No fence was given.
    pub fn new(alloc: Global) -> FenceBook
        ensures { result ≡ [] }
    {
        FenceBook {
            count: 0,
            waiting: Vec::new(alloc),
        }
    }

    /// How many fences were given, which is the number of the next.
    pub fn count(&self) -> u32
        ensures { result ≡ length self.now }
    {
        self.count
    }

    /// Gives the next fence, which isn't signalled.
    pub fn give(&mut self) -> Result<(), NoMemory>
        requires { length self.old + 1 < 2 ^ 32 }
        ensures { OnOk result (self.new ≡ self.old ++ false ∷ []) }
    {
        self.waiting.push(self.count)?;
        self.count += 1;
        Ok(())
    }

    /// Signals the fence of the number. One that wasn't given changes nothing.
    pub fn signal(&mut self, number: u32)
        ensures { self.new ≡ slice_set self.old number true }
    {
        leave_out(&mut self.waiting, number);
    }

    /// Whether the fence of the number was given and is signalled.
    pub fn is_signalled(&self, number: u32) -> bool
        ensures { result ≡ slice_index_or self.now number false }
    {
        number < self.count && !stands(&self.waiting, number)
    }

    /// Whether each fence that was given is signalled.
    pub fn is_all_signalled(&self) -> bool
        ensures { result ≡ list_all (λ b. b) self.now }
    {
        self.waiting.is_empty()
    }
}

/// Puts the number at the place, unless it is the fence's, and tells the place after it.
fn keep(waiting: &mut Vec<u32>, kept: usize, number: u32, fence: u32) -> usize
    requires { kept < vec_len waiting.old }
    ensures items { take result waiting.new.items ≡
        take kept waiting.old.items ++ filter (λ n. not (n == fence)) (number ∷ []) }
    ensures rest { (i : ℕ) → kept < i → drop i waiting.new.items ≡ drop i waiting.old.items }
    ensures within { result ≤ kept + 1 }
    ensures len { vec_len waiting.new ≡ vec_len waiting.old }
{
    if number == fence {
        kept
    } else {
        waiting[kept] = number;
        kept + 1
    }
}

/// Leaves a number out.
fn leave_out(waiting: &mut Vec<u32>, fence: u32)
    ensures { waiting.new.items ≡ filter (λ n. not (n == fence)) waiting.old.items }
{
    let mut kept = 0;
    for place in 0..waiting.len() {
        let number = waiting[place];
        kept = keep(waiting, kept, number, fence);
    }
    waiting.truncate(kept);
}

/// Whether the number is among these.
fn stands(waiting: &[u32], fence: u32) -> bool
    ensures { result ≡ list_any (λ n. n == fence) waiting.now }
{
    waiting.iter().any(|number| *number == fence)
}
