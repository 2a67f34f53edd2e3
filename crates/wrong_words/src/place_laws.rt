//! The lines of a text that is read are those of its script.
ghost use Rattle.std.specs.Prelude.{◌≡◌, List, Ok, ℕ};
ghost use Rattle.cam_types.specs.declared.script.Script.{Script as SomeScript};
ghost use Rattle.script_text.specs.Grammar.{script_of};
ghost use Rattle.wrong_words.specs.Laws.{StandsIn};

/// Of a text that is a script the lines of faults and commands, and the words of picks, mean the script's faults, commands
/// and picks: one each, and in their order. A `close` that is added has no line.
pub fn a_script_has_its_lines()
    ensures { (text : List ℕ) → (script : SomeScript) → script_of text ≡ Ok script → StandsIn text script }
{}
