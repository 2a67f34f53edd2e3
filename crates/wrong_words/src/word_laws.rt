//! A line that is refused for a bad word has one.
ghost use Rattle.std.specs.Prelude.{◌≡◌, Err, IsTrue, List, Option, is_some, ℕ};
ghost use Rattle.text_parts.specs.declared.cause.Cause.TheVariants.{BadNumber};
ghost use Rattle.script_text.specs.Grammar.{Begun, after};
ghost use Rattle.wrong_words.specs.WordPlaces.{wrong_in_script};

/// Each line of a script that is refused for a word which isn't a number, a stream or an item has a wrong word, whatever
/// stands before it.
pub fn a_bad_word_is_found()
    ensures { (before : Option Begun) → (line : List ℕ) → after before line ≡ Err BadNumber →
        IsTrue (is_some (wrong_in_script line)) }
{}
