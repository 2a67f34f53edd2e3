//! Where bytes come from and go to, and lines on their way there: sources and sinks whose faults are counted, so that a
//! caller can say that it failed only where its end did; room for a line, and pieces into which lines are gathered.
#![tactic(auto)]

mod calls;
mod fault_count;
mod mem_sink;
mod mem_source;
mod pieces;
mod plain_source;
mod reading;
mod room;
mod sink;
mod source;
mod std_sink;
mod std_source;
mod writing;

pub use mem_sink::MemSink;
pub use mem_source::MemSource;
pub use pieces::{PIECE, Pieces};
pub use plain_source::PlainSource;
pub use reading::{ReadBytes, ReadFault, read_all};
pub use room::{HEX_BYTES, ROOM, Room};
pub use sink::Sink;
pub use source::{Failed, Source};
use std::alloc::AllocError;
pub use std_sink::StdSink;
pub use std_source::StdSource;
pub use writing::write_all;

/// Want of memory.
pub type NoMemory = AllocError;
