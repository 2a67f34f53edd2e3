//! Which errors are due for an open frame.
ghost use Rattle.std.specs.Prelude.{◌≡◌, ◌↔◌, IsTrue};
ghost use Rattle.device_rows.specs.Due.{fails_in_part, fails_whole, is_awaited, is_bare, is_cut_short, is_some_true, is_true_at, is_untouched, misses_at, misses_buffer, misses_metadata, missing_buffers, verdict_of};

use cam_types::{Four, RowFaults, RowVerdict, RowView, TargetView};

/// The errors that are due for an open frame with these faults. `buffers` of both has the order of the row's targets;
/// a target without an entry in `faults.buffers` has no fault of its buffer.
pub fn verdict(row: RowView, faults: RowFaults) -> RowVerdict
    ensures value { result ≡ verdict_of row faults }

    // The whole capture fails exactly where nothing of it came and it has a cause; no other error follows.
    ensures whole { (result ≡ RowVerdict.Request) ↔ IsTrue (fails_whole row faults) }
    ensures failed_already { IsTrue row.request_error → result ≡ RowVerdict.Nothing }
{
    if fails_whole(row, faults) {
        return RowVerdict::Request;
    }
    let result = misses_metadata(row, faults);
    let buffers = missing_buffers(row, faults);
    if fails_in_part(row, faults) && (result || is_some_true(buffers)) {
        return RowVerdict::Parts { result, buffers };
    }
    RowVerdict::Nothing
}

fn is_awaited(target: TargetView) -> bool
    ensures { result ≡ is_awaited target }
{
    !target.announced && !target.state.is_returned()
}

fn is_untouched(target: Option<TargetView>) -> bool
    ensures { result ≡ is_untouched target }
{
    match target {
        Some(target) => is_awaited(target),
        None => true,
    }
}

fn is_bare(row: RowView) -> bool
    ensures { result ≡ is_bare row }
{
    let Four { a, b, c, d } = row.targets;
    (row.parts == 0 && (!row.request_error && !row.result_error))
        && (is_untouched(a) && (is_untouched(b) && (is_untouched(c) && is_untouched(d))))
}

fn fails_whole(row: RowView, faults: RowFaults) -> bool
    ensures { result ≡ fails_whole row faults }
{
    is_bare(row) && (row.stopped || (faults.request && row.shutter.is_some()))
}

fn fails_in_part(row: RowView, faults: RowFaults) -> bool
    ensures { result ≡ fails_in_part row faults }
{
    (row.shutter.is_some() && !row.request_error) && (!faults.request || row.stopped)
}

fn is_cut_short(row: RowView) -> bool
    ensures { result ≡ is_cut_short row }
{
    row.stopped && !is_bare(row)
}

fn misses_metadata(row: RowView, faults: RowFaults) -> bool
    ensures { result ≡ misses_metadata row faults }
{
    row.awaits_metadata() && (faults.result || is_cut_short(row))
}

fn misses_buffer(cut_short: bool, fault: Option<bool>, target: TargetView) -> bool
    ensures { result ≡ misses_buffer cut_short fault target }
{
    match fault {
        Some(fault) => is_awaited(target) && (fault || cut_short),
        None => is_awaited(target) && cut_short,
    }
}

fn misses_at(cut_short: bool, fault: Option<bool>, target: Option<TargetView>) -> Option<bool>
    ensures { result ≡ misses_at cut_short fault target }
{
    match target {
        Some(target) => Some(misses_buffer(cut_short, fault, target)),
        None => None,
    }
}

fn missing_buffers(row: RowView, faults: RowFaults) -> Four<bool>
    ensures { result ≡ missing_buffers row faults }
{
    let cut_short = is_cut_short(row);
    Four {
        a: misses_at(cut_short, faults.buffers.a, row.targets.a),
        b: misses_at(cut_short, faults.buffers.b, row.targets.b),
        c: misses_at(cut_short, faults.buffers.c, row.targets.c),
        d: misses_at(cut_short, faults.buffers.d, row.targets.d),
    }
}

fn is_some_true(four: Four<bool>) -> bool
    ensures { result ≡ is_some_true four }
{
    let Four { a, b, c, d } = four;
    a == Some(true) || (b == Some(true) || (c == Some(true) || d == Some(true)))
}
