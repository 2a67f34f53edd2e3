//! Worked values of the bounds, as facts.
ghost use Rattle.std.specs.Prelude.{◌≡◌, List};
ghost use Rattle.cam_types.specs.declared.item.Item.{Item as SomeItem};
ghost use Rattle.trace_laws.specs.Bounds.{buffer_bound, fence_bound, frame_bound, time_bound};
ghost use Rattle.trace_laws.specs.Worked.{await_script, burst_script, once_script};

/// The bounds of three short scripts, worked out by hand: 64 frames for each command and two more, one for each item of
/// a `once` or a `burst`, and as many as an `await` says.
pub fn worked_bounds()
    ensures once { (item : SomeItem) → frame_bound (once_script item) ≡ 257 }
    ensures burst { (first second : SomeItem) → frame_bound (burst_script first second) ≡ 258 }
    ensures awaited { (items : List SomeItem) → frame_bound (await_script items) ≡ 420 }
    ensures fences { (item : SomeItem) → fence_bound (once_script item) ≡ 1028 }
    ensures buffers { (item : SomeItem) → buffer_bound (once_script item) ≡ 48 }
    ensures times { (item : SomeItem) → time_bound (once_script item) ≡ 26700000000 }
{}
