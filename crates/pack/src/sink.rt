//! The sink of a case, and its headers.
ghost use Rattle.std.specs.Prelude.{◌≡◌, ◌++◌, min, drop, map, replicate, vec_items, option_copied, IfOk};

use frames::{Buffers, ByteSink, IpcMessageSink};
use std::alloc::Global;
use std::io;

/// The most bytes that a sink takes.
const MOST_BYTES: u64 = 268_435_456;

/// The most pieces that a sink takes.
const MOST_PIECES: u64 = 1_048_576;

/// A sink whose bytes and pieces are printed.
pub(crate) trait CaseSink: IpcMessageSink {
    /// The bytes that it holds.
    fn bytes(&self) -> &[u8]
        ensures { result.now ≡ (Self.meaning self.now).held };

    /// How long each piece is, where it keeps them.
    fn pieces(&self) -> Option<&[usize]>
        ensures { option_copied result ≡ (Self.meaning self.now).lengths };
}

impl CaseSink for ByteSink<'_> {
    fn bytes(&self) -> &[u8] {
        self.held()
    }

    fn pieces(&self) -> Option<&[usize]> {
        None
    }
}

impl CaseSink for Buffers<'_> {
    fn bytes(&self) -> &[u8] {
        self.held()
    }

    fn pieces(&self) -> Option<&[usize]> {
        Some(self.lengths())
    }
}

/// What comes after so many items.
pub(crate) fn since<T>(items: &[T], count: usize) -> &[T]
    ensures { result.now ≡ drop count items.now }
{
    &items[count.min(items.len())..]
}

/// Memory for a sink: what it holds at first, and room for so many bytes more, but no more than the most.
pub(crate) fn sink_memory(heap: Global, held: &[u8], more: u64) -> io::Result<Vec<u8>>
    ensures { IfOk result (λ memory. memory.items ≡ held.now ++ replicate (min more 268435456) 0) }
{
    let mut memory = Vec::new(heap);
    memory.extend_from_slice(held)?;
    memory.resize(held.len() + more.min(MOST_BYTES) as usize, 0)?;
    Ok(memory)
}

/// Memory for the lengths of so many pieces, but no more than the most.
pub(crate) fn piece_lengths(heap: Global, pieces: u64) -> io::Result<Vec<usize>>
    ensures { IfOk result (λ lengths. lengths.items ≡ replicate (min pieces 1048576) 0) }
{
    Ok(vec![in heap; 0; pieces.min(MOST_PIECES) as usize]?)
}

/// The headers of a case, in their order.
pub(crate) fn header_slices(heap: Global, headers: &[Vec<u8>]) -> io::Result<Vec<&[u8]>>
    ensures { IfOk result (λ slices. map (λ h. h.now) slices.items ≡ map vec_items headers.now) }
{
    let mut slices = Vec::with_capacity(heap, headers.len())?;
    for header in headers {
        slices.push(header.as_slice())?;
    }
    Ok(slices)
}
