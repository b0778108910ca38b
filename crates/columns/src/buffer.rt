//! Buffers of a message, and where their bytes are.
ghost use Rattle.std.specs.Prelude.{◌+◌, ◌≤◌, length};
ghost use Rattle.layout.specs.Bits.{bytes_for};
ghost use Rattle.layout.specs.Messages.{bit_bytes};
ghost use Rattle.columns.specs.Bits.{bits_of};
ghost use Rattle.columns.specs.Buffers.{Makes};

use crate::bits::write_bits;
use crate::record::EncodedBuffer;
use layout::{BitSlice, bytes_for};

/// So many bytes, from a place on.
#[derive(Clone, Copy, Debug, PartialEq, Eq, Hash)]
pub(crate) struct Buffer {
    pub source: EncodedBuffer,
    pub len: u64,
}

/// The bits that are sent of these, in work memory from a place on.
pub(crate) fn bit_slice(bits: &BitSlice, work: &mut [u8], at: usize) -> Buffer
    requires { at + bytes_for bits.now.len ≤ length work.now }
    ensures { Makes (bit_bytes (bits_of bits.now)) at work.old work.new result }
{
    let len = bytes_for(bits.len);
    let end = at + len as usize;
    write_bits(bits, &mut work[at..end]);
    Buffer {
        source: EncodedBuffer::Work(at as u64),
        len,
    }
}
