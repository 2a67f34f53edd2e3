//! What is left where a flush or a close returns, or where the device fails: whether an event breaks a rule on that.
ghost use Rattle.std.specs.Prelude.{◌≡◌};
ghost use Rattle.hal_rows.specs.Judged.{close_left_at, failed_with_frames_at, failed_without_notice_at, flush_left_at, no_shutter_at};
ghost use Rattle.hal_table.specs.State.{state_of};

use crate::meant::{Which, is_some_meant};
use hal_model::HalEvent;
use hal_row::word::is_point;
use hal_table::HalTable;

/// Whether a flush returns that leaves a request.
pub fn flush_left(event: &HalEvent, table: &HalTable) -> bool
    ensures { result ≡ flush_left_at event.now (state_of table.now) }
{
    match event {
        HalEvent::FlushOk => !table.device().dead && is_some_meant(Which::Left, event, table),
        _ => false,
    }
}

/// Whether a close returns that leaves a request.
pub fn close_left(event: &HalEvent, table: &HalTable) -> bool
    ensures { result ≡ close_left_at event.now (state_of table.now) }
{
    match event {
        HalEvent::CloseEnd => !table.device().dead
            && is_some_meant(Which::Outstanding, event, table),
        _ => false,
    }
}

/// Whether the device fails while requests are outstanding.
pub fn failed_with_frames(event: &HalEvent, table: &HalTable) -> bool
    ensures { result ≡ failed_with_frames_at event.now (state_of table.now) }
{
    match event {
        HalEvent::ErrorDevice => is_some_meant(Which::Outstanding, event, table),
        _ => false,
    }
}

/// Whether a flush or a close returns, and a buffer in error has no notice.
pub fn failed_without_notice(event: &HalEvent, table: &HalTable) -> bool
    ensures { result ≡ failed_without_notice_at event.now (state_of table.now) }
{
    is_point(event) && (!table.device().dead && is_some_meant(Which::Silent, event, table))
}

/// Whether a flush or a close returns, and a complete request has no shutter.
pub fn no_shutter(event: &HalEvent, table: &HalTable) -> bool
    ensures { result ≡ no_shutter_at event.now (state_of table.now) }
{
    is_point(event) && (!table.device().dead && is_some_meant(Which::Unlit, event, table))
}
