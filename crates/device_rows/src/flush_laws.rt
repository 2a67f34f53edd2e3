//! What holds of the verdict on every row.

ghost use Rattle.std.specs.Prelude.{◌≡◌, false, true, IsSome, IsTrue};
ghost use Rattle.cam_types.specs.declared.row.RowFaults.{RowFaults as SomeFaults};
ghost use Rattle.cam_types.specs.declared.row.RowView.{RowView as ARow};
ghost use Rattle.cam_types.specs.declared.row.RowVerdict.TheVariants.{Nothing};
ghost use Rattle.device_rows.specs.Due.{has_fault, is_all_said, verdict_of};

/// A frame that has no fault and that nothing stopped has no error.
pub fn no_error_without_a_cause()
    ensures { (row : ARow) (faults : SomeFaults) → row.stopped ≡ false → has_fault faults ≡ false →
        verdict_of row faults ≡ Nothing }
{}

/// A stop leaves nothing out: once no error is due for an exposed frame that was stopped, it failed whole, or its
/// metadata ended and the client waits for word of none of its buffers.
pub fn a_stop_leaves_nothing_out()
    ensures { (row : ARow) (faults : SomeFaults) → row.stopped ≡ true → IsSome row.shutter →
        verdict_of row faults ≡ Nothing → IsTrue (is_all_said row) }
{}
