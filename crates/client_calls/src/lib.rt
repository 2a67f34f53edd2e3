//! What the client has called and what it may call next, and what is to be captured next: the queue of items and the
//! list that repeats, with the numbers of frames and requests.
//!
//! `ClientCalls` keeps the few numbers that tell which command is next, whether it has begun, and which reply it gets.
//! `due` gives the `begin` or the `call` that is due, each refusal in the order of its number, and `note` takes what an
//! entry of the trace changes. What it asks of queue, buffers and frames is said to it by an `Around`.
//!
//! `CaptureQueue` is what the service keeps of its client's captures: the items that wait, the list that repeats, the
//! number of the next frame, and of each accepted request whether its items repeat. A send takes the next item under
//! the next number, a drop the first that waits, and an answered call appends, sets or clears. Each is the step that
//! the state of a trace makes for that entry. All its memory is taken when it is made.
#![tactic(auto)]

mod acceptance;
mod around;
mod call;
mod calls;
mod captures;
mod command;
mod item;
mod queue;
mod streams;

pub use around::Around;
pub use calls::ClientCalls;
pub use cam_types::Queued;
pub use captures::CaptureQueue;
pub use item::QueueFull;
pub use queue::Queue;
