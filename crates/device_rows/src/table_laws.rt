//! What holds of the rows of every table.

ghost use Rattle.std.specs.Prelude.{◌≡◌, ℕ, None, true};
ghost use Rattle.device_rows.specs.declared.table_row.Row.{Row as ARow};
ghost use Rattle.device_rows.specs.TableRows.{is_cleared, is_sound, parked_for};

/// Nothing is parked out of reach: a row from which no stream takes anything can be retired.
pub fn what_is_parked_is_in_reach<B>()
    ensures { (row : ARow B) → is_sound row ≡ true → ((s : ℕ) → parked_for s row ≡ None) → is_cleared row ≡ true }
{}
