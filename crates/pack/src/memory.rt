//! The memories that a call is lent.
ghost use Rattle.std.specs.Prelude.{IfOk};
ghost use Rattle.pack.specs.Lending.{AreMade, IsLent};

use columns::{BufferEntry, BufferRecord, EncodedBuffer, FieldRecord, Memory, Message};
use orders::MemorySizes;
use std::alloc::{AllocError, Global};

/// The longest memories, which are also lent where no line says how long they are. A recording has fewer nodes, with at most
/// three buffers each, and a call sends the values of 64 dictionaries and the batch: so only work memory can be too short.
pub(crate) const MOST: MemorySizes = MemorySizes {
    fields: 65_536,
    buffers: 196_608,
    messages: 65,
    work: 16_777_216,
    metadata: 65_536,
};

/// Memories for a call.
#[derive(Drop)]
pub(crate) struct Memories {
    fields: Vec<FieldRecord>,
    buffers: Vec<BufferEntry>,
    messages: Vec<Message>,
    work: Vec<u8>,
    metadata: Vec<u8>,
}

impl Memories {
    /// Memories of these sizes, but none longer than the longest.
    pub(crate) fn new(heap: Global, sizes: &MemorySizes) -> Result<Memories, AllocError>
        ensures { IfOk result (λ m. AreMade sizes.now m) }
    {
        let blank = BufferEntry {
            buffer: BufferRecord::default(),
            source: EncodedBuffer::Work(0),
        };
        let fields = sizes.fields.min(MOST.fields) as usize;
        let buffers = sizes.buffers.min(MOST.buffers) as usize;
        let messages = sizes.messages.min(MOST.messages) as usize;
        let work = sizes.work.min(MOST.work) as usize;
        let metadata = sizes.metadata.min(MOST.metadata) as usize;
        Ok(Memories {
            fields: vec![in heap; FieldRecord::default(); fields]?,
            buffers: vec![in heap; blank; buffers]?,
            messages: vec![in heap; Message::default(); messages]?,
            work: vec![in heap; 0; work]?,
            metadata: vec![in heap; 0; metadata]?,
        })
    }

    /// Lends them.
    pub(crate) fn lend(&mut self) -> Memory<'_>
        ensures { IsLent self.old result }
    {
        Memory {
            fields: self.fields.as_mut_slice(),
            buffers: self.buffers.as_mut_slice(),
            messages: self.messages.as_mut_slice(),
            work: self.work.as_mut_slice(),
            metadata: self.metadata.as_mut_slice(),
        }
    }
}
