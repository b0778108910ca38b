//! A sink that keeps bytes and how long each piece is.
ghost use Rattle.std.specs.Prelude.{◌≡◌, [], ◌∷◌, length, Some};
ghost use Rattle.frames.specs.Sinks.{SinkAnswer, piece_unless_empty};
ghost use Rattle.frames.specs.Makes.{buffers_sink, buffers_of, lengths_of, buffers_memories, with_front};
ghost use Rattle.std.proofs.Common.{rules};

use crate::lent::{append, first};
use crate::room::Room;
use crate::sink::IpcMessageSink;
use layout::{Fault, Refusal};

/// Bytes in lent memory, and a table of how long each piece of them is.
#[derive(Drop)]
pub struct Buffers<'a> {
    memory: &'a mut [u8],
    len: usize,
    lengths: &'a mut [usize],
    count: usize,
}

impl<'a> Buffers<'a> {
    /// It holds the first bytes of a memory, so many or all that there are, and no piece so far.
    pub fn new(memory: &'a mut [u8], held: usize, lengths: &'a mut [usize]) -> Buffers<'a>
        ensures same_memory { result.memory.ghost_name ≡ memory.entry.ghost_name }
        ensures bytes { result.memory.now ≡ memory.old }
        ensures same_lengths { result.lengths.ghost_name ≡ lengths.entry.ghost_name }
        ensures places { result.lengths.now ≡ lengths.old }
        ensures meaning { buffers_of result ≡ buffers_sink memory.old held lengths.old 0 }
    {
        let len = held.min(memory.len());
        Buffers {
            memory,
            len,
            lengths,
            count: 0,
        }
    }

    /// The bytes that it holds.
    pub fn held(&self) -> &[u8]
        ensures { result.now ≡ (buffers_of self.now).held }
    {
        first(self.memory, self.len)
    }

    /// How long each piece is.
    pub fn lengths(&self) -> &[usize]
        ensures { Some result.now ≡ (buffers_of self.now).lengths }
    {
        first(self.lengths, self.count)
    }
}

impl IpcMessageSink for Buffers<'_> {
    const PIECE_COST: u64 = 1;

    ghost cost = { 1 };

    ghost meaning = { buffers_of };

    ghost memories = { buffers_memories };

    fn price() -> u64
        ensures { result ≡ 1 }
    {
        Self::PIECE_COST
    }

    fn free(&self) -> Room {
        Room {
            bytes: self.memory.len().saturating_sub(self.len) as u64,
            pieces: self.lengths.len().saturating_sub(self.count) as u64,
        }
    }

    fn write_slice(&mut self, bytes: &[u8]) -> Result<(), Fault>
        ensures answer { SinkAnswer 1 bytes.now (piece_unless_empty (length bytes.now)) (buffers_of self.old) (buffers_of self.new) result }
        ensures memory { self.new.memory.now ≡ with_front (buffers_of self.new).held self.old.memory.now }
        ensures lengths { self.new.lengths.now ≡ with_front (lengths_of self.new) self.old.lengths.now }
        ensures memories { buffers_memories self.new ≡ buffers_memories self.old }
    {
        if bytes.is_empty() {
            return Ok(());
        }
        self.write_encoded_buffer(bytes)
    }

    fn write_encoded_buffer(&mut self, bytes: &[u8]) -> Result<(), Fault>
        ensures answer { SinkAnswer 1 bytes.now (length bytes.now ∷ []) (buffers_of self.old) (buffers_of self.new) result }
        ensures memory { self.new.memory.now ≡ with_front (buffers_of self.new).held self.old.memory.now }
        ensures lengths { self.new.lengths.now ≡ with_front (lengths_of self.new) self.old.lengths.now }
        ensures memories { buffers_memories self.new ≡ buffers_memories self.old }
    {
        if self.count >= self.lengths.len() {
            return Err(Refusal::Sink.into());
        }
        self.len = append(self.memory, self.len, bytes)?;
        self.lengths[self.count] = bytes.len();
        self.count += Self::PIECE_COST as usize;
        Ok(())
    }

    ghost small_cost = { Prim.search rules };
}
