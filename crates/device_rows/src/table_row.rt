//! A row of the table: an open frame and what is parked for it.
use cam_types::{Four, RowView};

/// An open frame, and what is parked for its targets: at each place what is parked for the target at that place of
/// `view.targets`. A place from which it was taken is empty.
pub struct Row<B> {
    pub view: RowView,
    pub parked: Four<B>,
}
