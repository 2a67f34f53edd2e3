//! What holds of all settings and all parts.

ghost use Rattle.std.specs.Prelude.{◌≡◌, None, Some, Ok};
ghost use Rattle.cam_types.specs.Metadata.{range_fault};
ghost use Rattle.cam_types.specs.declared.item.Settings.{Settings as SomeSettings};
ghost use Rattle.cam_types.specs.declared.partial_result.PartialResult.{PartialResult as APart};
ghost use Rattle.metadata.specs.Reading.{list_of};
ghost use Rattle.metadata.specs.Spelling.{bytes_of};
ghost use Rattle.metadata.specs.Numbers.{settings_in, settings_entries};
ghost use Rattle.metadata.specs.Parts.{part_in, part_number, part_entries, PartFits, PatternFits};

use crate::spelled_is_read;

/// Settings in range are read in the list that is packed of them.
pub fn settings_read_back()
    ensures { (settings : SomeSettings) → range_fault settings ≡ None →
        settings_in (settings_entries settings) ≡ Ok settings }
{}

/// A part that has a packed form is read in that form.
pub fn parts_read_back()
    ensures { (part : APart) → PatternFits part → PartFits part
        → (list_of (bytes_of (part_entries part)) ≡ Ok (part_entries part))
        × (part_in (part_number part) (part_entries part) ≡ Some part) }
{
    spelled_is_read();
}
