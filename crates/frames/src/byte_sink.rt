//! A sink that keeps bytes.
ghost use Rattle.std.specs.Prelude.{◌≡◌, [], ◌∷◌, length};
ghost use Rattle.frames.specs.Sinks.{SinkAnswer, piece_unless_empty};
ghost use Rattle.frames.specs.Makes.{byte_sink, bytes_of, bytes_memories, with_front};
ghost use Rattle.std.proofs.Common.{rules};

use crate::lent::{append, first};
use crate::room::Room;
use crate::sink::IpcMessageSink;
use layout::Fault;

/// Bytes in lent memory.
#[derive(Drop)]
pub struct ByteSink<'a> {
    memory: &'a mut [u8],
    len: usize,
}

impl<'a> ByteSink<'a> {
    /// It holds the first bytes of a memory, so many or all that there are.
    pub fn new(memory: &'a mut [u8], held: usize) -> ByteSink<'a>
        ensures same_memory { result.memory.ghost_name ≡ memory.entry.ghost_name }
        ensures bytes { result.memory.now ≡ memory.old }
        ensures meaning { bytes_of result ≡ byte_sink memory.old held }
    {
        let len = held.min(memory.len());
        ByteSink { memory, len }
    }

    /// The bytes that it holds.
    pub fn held(&self) -> &[u8]
        ensures { result.now ≡ (bytes_of self.now).held }
    {
        first(self.memory, self.len)
    }
}

impl IpcMessageSink for ByteSink<'_> {
    const PIECE_COST: u64 = 0;

    ghost cost = { 0 };

    ghost meaning = { bytes_of };

    ghost memories = { bytes_memories };

    fn price() -> u64
        ensures { result ≡ 0 }
    {
        Self::PIECE_COST
    }

    fn free(&self) -> Room {
        Room {
            bytes: self.memory.len().saturating_sub(self.len) as u64,
            pieces: 0,
        }
    }

    fn write_slice(&mut self, bytes: &[u8]) -> Result<(), Fault>
        ensures answer { SinkAnswer 0 bytes.now (piece_unless_empty (length bytes.now)) (bytes_of self.old) (bytes_of self.new) result }
        ensures memory { self.new.memory.now ≡ with_front (bytes_of self.new).held self.old.memory.now }
        ensures memories { bytes_memories self.new ≡ bytes_memories self.old }
    {
        self.len = append(self.memory, self.len, bytes)?;
        Ok(())
    }

    fn write_encoded_buffer(&mut self, bytes: &[u8]) -> Result<(), Fault>
        ensures answer { SinkAnswer 0 bytes.now (length bytes.now ∷ []) (bytes_of self.old) (bytes_of self.new) result }
        ensures memory { self.new.memory.now ≡ with_front (bytes_of self.new).held self.old.memory.now }
        ensures memories { bytes_memories self.new ≡ bytes_memories self.old }
    {
        self.write_slice(bytes)
    }

    ghost small_cost = { Prim.search rules };
}
