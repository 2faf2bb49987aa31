//! A text that grows as it is written to.

ghost use Rattle.std.specs.Prelude.{◌≡◌, [], nat_lt};

use edge_io::{Sink, WriteErr, one_more};
use std::alloc::Global;
use std::marker::Model;

/// A text that grows as it is written to. It tells its bytes. A write fails only if memory
/// runs out, and is then counted.
#[derive(Drop)]
pub struct TextSink {
    bytes: Vec<u8>,
    faults: u64,
}

impl Model for TextSink {
    ghost use Rattle.in_process.specs.Taken.{TextState};

    ghost Value = { TextState };

    ghost view = { λ sink. record { bytes = sink.bytes.items; faults = sink.faults } };
}

impl TextSink {
    /// An empty text. It takes no memory.
    pub fn new(alloc: Global) -> TextSink
        ensures { result ≡ record { bytes = []; faults = 0 } }
    {
        TextSink {
            bytes: Vec::new(alloc),
            faults: 0,
        }
    }

    /// Whether a write has failed.
    pub fn has_failed(&self) -> bool
        ensures { result ≡ nat_lt 0 self.now.faults }
    {
        self.faults > 0
    }

    /// The text so far.
    pub fn text(&self) -> &[u8]
        ensures { result.now ≡ self.now.bytes }
    {
        &self.bytes
    }
}

impl Sink for TextSink {
    ghost use Rattle.std.specs.Prelude.{Some};

    ghost taken = { λ sink. Some sink.bytes };

    ghost faults = { λ sink. sink.faults };

    fn write(&mut self, piece: &[u8]) -> Result<usize, WriteErr> {
        if piece.is_empty() {
            return Ok(0);
        }
        match self.bytes.extend_from_slice(piece) {
            Ok(()) => Ok(piece.len()),
            Err(_) => {
                self.faults = one_more(self.faults);
                Err(WriteErr::Failed)
            }
        }
    }
}
