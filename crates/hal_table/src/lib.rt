//! What a judge of hal logs keeps: the device, the rows of the live requests, and who was begun last of the requests
//! that brought something back. Each event is noted in it.
#![tactic(auto)]

mod device;
mod held;
mod index;
mod rows;
mod table;

pub use index::frame_in;
pub use rows::LiveRows;
pub use table::HalTable;
