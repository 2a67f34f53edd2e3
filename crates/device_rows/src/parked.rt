//! What is parked for the targets of a row: put and taken by stream.
ghost use Rattle.std.specs.Prelude.{◌≡◌, ◌&&◌, not, is_some, if◌then◌else◌};
ghost use Rattle.device_rows.specs.TableRows.{has_target, is_for, parked_at, placed_at};

use cam_types::{Four, StreamIx, TargetView};

fn is_for(stream: StreamIx, target: Option<TargetView>) -> bool
    ensures { result ≡ is_for stream.0 target }
{
    match target {
        Some(target) => target.stream.0 == stream.0,
        None => false,
    }
}

/// Takes what is parked for the target of the stream.
pub(crate) fn take_parked<B>(
    targets: Four<TargetView>,
    stream: StreamIx,
    parked: &mut Four<B>,
) -> Option<B>
    ensures taken { result ≡ parked_at stream.0 targets parked.old }
    ensures left { parked.new ≡ placed_at stream.0 targets None parked.old }
{
    if is_for(stream, targets.a) {
        return parked.a.take();
    }
    if is_for(stream, targets.b) {
        return parked.b.take();
    }
    if is_for(stream, targets.c) {
        return parked.c.take();
    }
    if is_for(stream, targets.d) {
        return parked.d.take();
    }
    None
}

/// Fills an empty place, or hands back what a taken one has no room for.
fn park<B>(place: &mut Option<B>, thing: B) -> Option<B>
    ensures handed_back { result ≡ (if is_some place.old then Some thing else None) }
    ensures kept { place.new ≡ (if is_some place.old then place.old else Some thing) }
{
    if place.is_some() {
        return Some(thing);
    }
    place.replace(thing)
}

/// Parks a thing for the target of the stream, or hands it back where there is no such target or its place is taken.
pub(crate) fn put_parked<B>(
    targets: Four<TargetView>,
    stream: StreamIx,
    thing: B,
    parked: &mut Four<B>,
) -> Option<B>
    ensures handed_back { result ≡
        (if has_target stream.0 targets && not (is_some (parked_at stream.0 targets parked.old)) then None
        else Some thing) }
    ensures kept { parked.new ≡
        (if has_target stream.0 targets && not (is_some (parked_at stream.0 targets parked.old))
        then placed_at stream.0 targets (Some thing) parked.old else parked.old) }
{
    if is_for(stream, targets.a) {
        return park(&mut parked.a, thing);
    }
    if is_for(stream, targets.b) {
        return park(&mut parked.b, thing);
    }
    if is_for(stream, targets.c) {
        return park(&mut parked.c, thing);
    }
    if is_for(stream, targets.d) {
        return park(&mut parked.d, thing);
    }
    Some(thing)
}
