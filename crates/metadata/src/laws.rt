//! What holds of all bytes and all lists.

ghost use Rattle.std.specs.Prelude.{◌≡◌, ℕ, ◌<◌, ◌^◌, List, Ok, All};
ghost use Rattle.metadata.specs.declared.entry.Entry.{Entry as AnEntry};
ghost use Rattle.metadata.specs.Entries.{IsPacked, NumbersFit};
ghost use Rattle.metadata.specs.Reading.{list_of};
ghost use Rattle.metadata.specs.Spelling.{bytes_of};

/// Bytes that spell a list are the one spelling of that list, and it is one that `Packed::add` can make.
pub fn read_is_spelled()
    ensures { (bytes : List ℕ) (entries : List AnEntry) → All (λ b. b < 2 ^ 8) bytes → list_of bytes ≡ Ok entries
        → (bytes ≡ bytes_of entries) × IsPacked entries × NumbersFit entries }
{}

/// The spelling of a list that `Packed::add` can make spells that list.
pub fn spelled_is_read()
    ensures { (entries : List AnEntry) → IsPacked entries → NumbersFit entries →
        list_of (bytes_of entries) ≡ Ok entries }
{}
