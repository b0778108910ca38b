//! A plan of one column, whose body is copied out.
ghost use Rattle.std.specs.Prelude.{◌≡◌, ◌≤◌, length, map};
ghost use Rattle.layout.specs.Messages.{body};
ghost use Rattle.recording.specs.View.{bytes_in};
ghost use Rattle.layout.specs.Lists.{cut};
ghost use Rattle.columns.specs.Telling.{bytes_named};
ghost use Rattle.timing.specs.Planning.{Copies, CopiesColumn, over_start};

use columns::{BufferEntry, BufferRecord, EncodedBuffer, FieldRecord, Memory, Message, plan_batch};
use dictionaries::MetDictionary;
use recording::{Columns, IpcWriteOptions, Recording};

const ALIGNMENT: usize = 64;

pub(crate) const NO_BUFFER: BufferEntry = BufferEntry {
    buffer: BufferRecord {
        offset: 0,
        length: 0,
    },
    source: EncodedBuffer::Work(0),
};

/// Plans a batch of one column, at a node, and copies its body to the start of `out`; answers how long that is, or 0 where the
/// column or a memory is refused or `out` is too short. `bytes` are those of the recording.
// No enum crosses to C, so what is planned stays here.
#[unsafe(no_mangle)]
pub extern "C" fn timing_plan(
    recording: &Recording,
    bytes: &[u8],
    node: usize,
    rows: u64,
    work: &mut [u8],
    metadata: &mut [u8],
    out: &mut [u8],
) -> u64
    ensures { bytes.now ≡ bytes_in recording.now → CopiesColumn recording.now node rows work.old metadata.old out.old out.new result }
{
    match recording.columns(node, 1, rows) {
        Ok(columns) => copy_plan(&columns, bytes, work, metadata, out),
        Err(_) => 0,
    }
}

// Plans a batch without dictionaries, and copies its body.
fn copy_plan(
    columns: &Columns,
    bytes: &[u8],
    work: &mut [u8],
    metadata: &mut [u8],
    out: &mut [u8],
) -> u64
    ensures { bytes.now ≡ bytes_in columns.now.recording → Copies columns.now work.old metadata.old out.old out.new result }
{
    let met: [MetDictionary; 0] = [];
    let mut fields = [FieldRecord::default(); 16];
    let mut buffers = [NO_BUFFER; 32];
    let mut messages = [Message::default(); 1];
    let mut memory = Memory {
        fields: &mut fields,
        buffers: &mut buffers,
        messages: &mut messages,
        work,
        metadata,
    };
    let options = IpcWriteOptions::default();
    if plan_batch(columns, &met, &options, &mut memory).is_err() {
        return 0;
    }
    let message = messages[0];
    let len = message.lengths.1;
    if (out.len() as u64) < len {
        return 0;
    }
    let count = message.buffers.min(buffers.len());
    copy_body(bytes, work, &buffers[..count], out);
    len
}

// Copies buffers, each with zeros up to the alignment, for as long as `out` has room for the next.
fn copy_body(bytes: &[u8], work: &[u8], entries: &[BufferEntry], out: &mut [u8])
    ensures { let b = body 64 (map (bytes_named bytes.now work.now) entries.now) in length b ≤ length out.old → out.new ≡ over_start b out.old }
{
    let [first, rest @ ..] = entries else {
        return;
    };
    let named = bytes_named(bytes, work, first);
    let padded = named.len().next_multiple_of(ALIGNMENT);
    if out.len() < padded {
        return;
    }
    let (buffer, after) = out.split_at_mut(padded);
    let (start, padding) = buffer.split_at_mut(named.len());
    start.copy_from_slice(named);
    padding.fill(0);
    copy_body(bytes, work, rest, after);
}

// The bytes of a buffer.
fn bytes_named<'a>(bytes: &'a [u8], work: &'a [u8], entry: &BufferEntry) -> &'a [u8]
    ensures { result.now ≡ bytes_named bytes.now work.now entry.now }
{
    let len = entry.buffer.length.max(0) as usize;
    match entry.source {
        EncodedBuffer::Recording(place) => cut(bytes, place as usize, len),
        EncodedBuffer::Work(place) => cut(work, place as usize, len),
    }
}

// So many bytes from a place on, as far as there are that many.
fn cut(bytes: &[u8], place: usize, len: usize) -> &[u8]
    ensures { result.now ≡ cut place len bytes.now }
{
    let start = place.min(bytes.len());
    let rest = &bytes[start..];
    &rest[..len.min(rest.len())]
}
