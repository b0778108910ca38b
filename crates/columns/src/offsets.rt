//! Offsets that are sent: each less the first.
ghost use Rattle.std.specs.Prelude.{◌≡◌, ℕ, ◌+◌, ◌-◌, ◌*◌, ◌^◌, ◌<◌, ◌≤◌, length};
ghost use Rattle.layout.specs.declared.number.Width.{Width};
ghost use Rattle.layout.specs.Lists.{rows as row_list};
ghost use Rattle.layout.specs.Numbers.{wide, le_all};
ghost use Rattle.layout.specs.Rules.{HasOffsets};
ghost use Rattle.recording.specs.Contents.{offset_in};
ghost use Rattle.recording.specs.NodeRefs.{numbers_of};
ghost use Rattle.recording.specs.Passing.{AreContents, IsPassed, IsSmaller};
ghost use Rattle.recording.specs.Windows.{window_in, HasStrings, HasElements};
ghost use Rattle.columns.specs.Buffers.{Makes, offsets_in, AreStringBuffers};

use crate::buffer::Buffer;
use crate::record::EncodedBuffer;
use layout::{Width, read, write};
use recording::Window;

/// Offsets of 32 bits, or of 64.
pub(crate) trait OffsetSizeTrait {
    ghost WIDTH: { Width };

    const WIDTH: Width;
}

impl OffsetSizeTrait for i32 {
    ghost WIDTH = { Width.Four };

    const WIDTH: Width = Width::Four;
}

impl OffsetSizeTrait for i64 {
    ghost WIDTH = { Width.Eight };

    const WIDTH: Width = Width::Eight;
}

// Writes offsets, one more than there are rows, each less the first.
fn write_offsets<O: OffsetSizeTrait>(offsets: &[u8], rows: u64, out: &mut [u8])
    requires few { rows < 2 ^ 63 }
    requires long { length offsets.now ≡ (rows + 1) * wide O.WIDTH }
    requires room { length out.now ≡ (rows + 1) * wide O.WIDTH }
    requires rise { (i : ℕ) → i ≤ rows → offset_in offsets.now (wide O.WIDTH) 0 ≤ offset_in offsets.now (wide O.WIDTH) i }
    ensures { out.new ≡ le_all (wide O.WIDTH) (row_list (rows + 1) (λ i. offset_in offsets.now (wide O.WIDTH) i - offset_in offsets.now (wide O.WIDTH) 0)) }
{
    let width = O::WIDTH;
    let first: u64 = read(offsets, width);
    for i in 0..rows + 1 {
        let at = i as usize * width.bytes();
        let offset: u64 = read(&offsets[at..], width);
        write(&mut out[at..], width, offset - first);
    }
}

/// The offsets of a window, each less the first, in work memory; with no row they are one that is 0. And where what the rows
/// have begins in the data or the child, and how much it is.
pub(crate) fn reencode_offsets<O: OffsetSizeTrait>(
    window: &Window,
    work: &mut [u8],
    at: usize,
) -> (Buffer, u64, u64)
    requires width { HasOffsets (numbers_of window.now.node) O.WIDTH }
    requires room { at + (window.now.rows + 1) * wide O.WIDTH ≤ length work.now }
    ensures offsets { Makes (offsets_in (wide O.WIDTH) window.now) at work.old work.new result.0 }
    ensures contents { AreContents window.now result.1 result.2 }
{
    let offsets = window.offset_slots();
    let end = at + offsets.len();
    write_offsets::<O>(offsets, window.rows(), &mut work[at..end]);
    let (first, count) = window.contents();
    let buffer = Buffer {
        source: EncodedBuffer::Work(at as u64),
        len: offsets.len() as u64,
    };
    (buffer, first, count)
}

/// The offsets and the values of a window's byte strings, in that order.
pub(crate) fn get_byte_array_buffers<O: OffsetSizeTrait>(
    window: &Window,
    work: &mut [u8],
    at: usize,
) -> [Buffer; 2]
    requires width { HasStrings (numbers_of window.now.node) O.WIDTH }
    requires room { at + (window.now.rows + 1) * wide O.WIDTH ≤ length work.now }
    ensures { AreStringBuffers (wide O.WIDTH) window.now at work.old work.new result }
{
    let (offsets, first, count) = reencode_offsets::<O>(window, work, at);
    let values = Buffer {
        source: EncodedBuffer::Recording(window.node().node().data + first),
        len: count,
    };
    [offsets, values]
}

/// The offsets of a window's lists, and the elements that the rows have: rows of the child.
pub(crate) fn get_list_array_buffers<'a, O: OffsetSizeTrait>(
    window: &Window<'a>,
    work: &mut [u8],
    at: usize,
) -> (Buffer, Window<'a>)
    requires width { HasElements (numbers_of window.now.node) O.WIDTH }
    requires room { at + (window.now.rows + 1) * wide O.WIDTH ≤ length work.now }
    ensures offsets { Makes (offsets_in (wide O.WIDTH) window.now) at work.old work.new result.0 }
    ensures child { IsPassed window.now (window.now.node.index + 1) result.1 }
    ensures smaller { IsSmaller window.now (window_in result.1) }
{
    let (offsets, _, _) = reencode_offsets::<O>(window, work, at);
    (offsets, window.elements())
}
