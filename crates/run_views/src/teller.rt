//! Text that is told to a sink in pieces. Once the sink has failed nothing more is written, and whoever tells goes on.
ghost use Rattle.std.specs.Prelude.{◌≡◌, ℕ, IfOk, List, [], decimal, false};
ghost use Rattle.call_parts.specs.Answers.{Answers};
ghost use Rattle.io_edge.specs.States.{SinkState};
ghost use Rattle.run_views.specs.Told.{IsTold, TellsMore};
ghost use Rattle.call_parts.specs.Status.{status_number};

use call_parts::Status;
use cam_types::NoMemory;
use io_edge::{Pieces, Sink};
use itoa::Buffer;
use std::alloc::Global;

/// What is gathered of a piece, and whether the sink has failed. No call but `new` takes memory.
#[derive(Drop)]
pub(crate) struct Teller {
    pieces: Pieces,
    broken: bool,
}

impl Teller {
    /// Room for a piece, of which nothing is gathered.
    pub(crate) fn new(alloc: Global) -> Result<Teller, NoMemory>
        ensures { IfOk result (λ teller. teller ≡ record { pieces = []; broken = false }) }
    {
        let pieces = Pieces::new(alloc)?;
        Ok(Teller {
            pieces,
            broken: false,
        })
    }

    /// Tells bytes.
    pub(crate) fn put<K: Sink>(&mut self, bytes: &[u8], sink: &mut K)
        ensures { TellsMore bytes.now self.old self.new (K.state sink.old) (K.state sink.new) }
    {
        if self.broken {
            return;
        }
        match self.pieces.put(bytes, sink) {
            Ok(()) => {}
            Err(_) => self.broken = true,
        }
    }

    /// Tells a number in decimal, without leading zeros.
    pub(crate) fn put_number<K: Sink>(&mut self, number: u64, sink: &mut K)
        ensures { TellsMore (decimal number) self.old self.new (K.state sink.old) (K.state sink.new) }
    {
        let mut digits = Buffer::new();
        self.put(digits.format(number).as_bytes(), sink);
    }

    /// Writes what is gathered. The status is 0, or 4 where the sink failed.
    pub(crate) fn finish<K: Sink>(mut self, sink: &mut K) -> Status
        ensures { (first : SinkState) (text : List ℕ) → IsTold self first (K.state sink.old) text
            → Answers 0 text (status_number result) first (K.state sink.new) }
    {
        if self.broken {
            return Status::SinkFailed;
        }
        match self.pieces.flush(sink) {
            Ok(()) => Status::Done,
            Err(_) => Status::SinkFailed,
        }
    }
}
