//! Bytes in lent memory.
ghost use Rattle.std.specs.Prelude.{◌≡◌, take};
ghost use Rattle.frames.specs.Makes.{AppendAnswer};

use layout::{Fault, Refusal};

/// Puts bytes after the first `len` bytes of a memory, where they fit, and answers how many stand there then.
pub(crate) fn append(memory: &mut [u8], len: usize, bytes: &[u8]) -> Result<usize, Fault>
    ensures { AppendAnswer memory.old len bytes.now memory.new result }
{
    let start = len.min(memory.len());
    if bytes.len() > memory.len() - start {
        return Err(Refusal::Sink.into());
    }
    let end = start + bytes.len();
    memory[start..end].copy_from_slice(bytes);
    Ok(end)
}

/// The first `len` items of a memory; all where there are fewer.
pub(crate) fn first<T>(memory: &[T], len: usize) -> &[T]
    ensures { result.now ≡ take len memory.now }
{
    &memory[..len.min(memory.len())]
}
