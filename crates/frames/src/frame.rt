//! A frame: the prefix, the metadata and the buffers, each with the zeros that fill it up.
ghost use Rattle.std.specs.Prelude.{◌≡◌, ◌≤◌, ◌<◌, true, length, ◌∷◌, [], ◌++◌};
ghost use Rattle.layout.specs.Lists.{lengths};
ghost use Rattle.layout.specs.Messages.{body};
ghost use Rattle.frames.specs.Frames.{zeros, signed_prefix, end_mark, header, header_length, header_pieces, body_pieces, named, IsLayout};
ghost use Rattle.frames.specs.Sinks.{SinkAnswer, has_room, piece_unless_empty, AllTaken};

use crate::sink::IpcMessageSink;
use columns::{BufferEntry, Sources, pad_to_alignment};
use layout::Fault;

/// As many zeros as the greatest alignment.
const PADDING: [u8; 64] = [0; 64];

/// How long metadata is with its padding, and with the prefix before it.
#[derive(Clone, Copy, Debug, PartialEq, Eq, Hash)]
pub(crate) struct MetadataLayout {
    pub padded_header_len: usize,
    pub padded_metadata_len: usize,
    pub metadata_padding: usize,
}

impl MetadataLayout {
    pub(crate) fn new(metadata_len: usize, alignment: usize) -> MetadataLayout
        requires some { 0 < alignment }
        requires few { alignment ≤ 64 }
        requires small { metadata_len ≤ 65536 }
        ensures { IsLayout alignment metadata_len result }
    {
        let prefix_size = 8;
        let unpadded = metadata_len + prefix_size;
        let metadata_padding = pad_to_alignment(alignment, unpadded as u64) as usize;
        let padded_header_len = unpadded + metadata_padding;
        MetadataLayout {
            padded_header_len,
            padded_metadata_len: padded_header_len - prefix_size,
            metadata_padding,
        }
    }
}

// So many zeros.
fn zeroed(len: usize) -> &'static [u8]
    requires { len ≤ 64 }
    ensures { result.now ≡ zeros len }
{
    &PADDING[..len]
}

/// Zeros, as many as fill a piece up.
pub(crate) fn write_padding<S: IpcMessageSink>(sink: &mut S, len: usize) -> Result<(), Fault>
    requires { len ≤ 64 }
    ensures answer { SinkAnswer S.cost (zeros len) (piece_unless_empty len) (S.meaning sink.old) (S.meaning sink.new) result }
    ensures memories { S.memories sink.new ≡ S.memories sink.old }
{
    sink.write_slice(zeroed(len))
}

// The prefix that tells a length.
fn prefix_of(metadata_len: i32) -> [u8; 8]
    ensures { result ≡ signed_prefix metadata_len }
{
    let [a, b, c, d] = metadata_len.to_le_bytes();
    [0xff, 0xff, 0xff, 0xff, a, b, c, d]
}

/// The prefix of metadata that is so long with its padding.
pub(crate) fn write_continuation<S: IpcMessageSink>(
    sink: &mut S,
    metadata_len: i32,
) -> Result<(), Fault>
    ensures answer { SinkAnswer S.cost (signed_prefix metadata_len) (8 ∷ []) (S.meaning sink.old) (S.meaning sink.new) result }
    ensures memories { S.memories sink.new ≡ S.memories sink.old }
{
    sink.write_slice(&prefix_of(metadata_len))
}

/// The end mark of a stream.
pub fn write_eos<S: IpcMessageSink>(sink: &mut S) -> Result<(), Fault>
    ensures answer { SinkAnswer S.cost end_mark (8 ∷ []) (S.meaning sink.old) (S.meaning sink.new) result }
    ensures memories { S.memories sink.new ≡ S.memories sink.old }
{
    write_continuation(sink, 0)
}

// Bytes as a piece, unless there are none, and their padding.
fn write_padded<S: IpcMessageSink>(sink: &mut S, bytes: &[u8], padding: usize) -> Result<(), Fault>
    requires few { padding ≤ 64 }
    requires room { has_room S.cost (length (bytes.now ++ zeros padding)) (length (piece_unless_empty (length bytes.now) ++ piece_unless_empty padding)) (S.meaning sink.now) ≡ true }
    ensures taken { AllTaken S.cost (bytes.now ++ zeros padding) (piece_unless_empty (length bytes.now) ++ piece_unless_empty padding) (S.meaning sink.old) (S.meaning sink.new) result tt }
    ensures memories { S.memories sink.new ≡ S.memories sink.old }
{
    sink.write_slice(bytes)?;
    write_padding(sink, padding)
}

// A buffer as a piece, also where it is empty, and its padding.
fn write_buffer<S: IpcMessageSink>(sink: &mut S, bytes: &[u8], padding: usize) -> Result<(), Fault>
    requires few { padding ≤ 64 }
    requires room { has_room S.cost (length (bytes.now ++ zeros padding)) (length (length bytes.now ∷ piece_unless_empty padding)) (S.meaning sink.now) ≡ true }
    ensures taken { AllTaken S.cost (bytes.now ++ zeros padding) (length bytes.now ∷ piece_unless_empty padding) (S.meaning sink.old) (S.meaning sink.new) result tt }
    ensures memories { S.memories sink.new ≡ S.memories sink.old }
{
    sink.write_encoded_buffer(bytes)?;
    write_padding(sink, padding)
}

// The prefix, and the metadata with its padding. It answers how long they are.
fn write_header<S: IpcMessageSink>(
    sink: &mut S,
    metadata: &[u8],
    alignment: usize,
) -> Result<u64, Fault>
    requires aligned { 0 < alignment }
    requires few { alignment ≤ 64 }
    requires small { length metadata.now ≤ 65536 }
    requires room { has_room S.cost (length (header alignment metadata.now)) (length (header_pieces alignment (length metadata.now))) (S.meaning sink.now) ≡ true }
    ensures taken { AllTaken S.cost (header alignment metadata.now) (header_pieces alignment (length metadata.now)) (S.meaning sink.old) (S.meaning sink.new) result (header_length alignment (length metadata.now)) }
    ensures memories { S.memories sink.new ≡ S.memories sink.old }
{
    let layout = MetadataLayout::new(metadata.len(), alignment);
    write_continuation(sink, layout.padded_metadata_len as i32)?;
    write_padded(sink, metadata, layout.metadata_padding)?;
    Ok(layout.padded_header_len as u64)
}

// Buffers, each with its padding.
fn write_buffers<S: IpcMessageSink>(
    sink: &mut S,
    buffers: &[BufferEntry],
    sources: &Sources,
    alignment: usize,
) -> Result<(), Fault>
    requires aligned { 0 < alignment }
    requires few { alignment ≤ 64 }
    requires room { has_room S.cost (length (body alignment (named sources.now buffers.now))) (length (body_pieces alignment (lengths (named sources.now buffers.now)))) (S.meaning sink.now) ≡ true }
    ensures taken { AllTaken S.cost (body alignment (named sources.now buffers.now)) (body_pieces alignment (lengths (named sources.now buffers.now))) (S.meaning sink.old) (S.meaning sink.new) result tt }
    ensures memories { S.memories sink.new ≡ S.memories sink.old }
{
    for entry in buffers {
        let bytes = sources.bytes(entry);
        let padding = pad_to_alignment(alignment, bytes.len() as u64);
        write_buffer(sink, bytes, padding as usize)?;
    }
    Ok(())
}

/// A message: its prefix and its metadata, and its buffers, each with its padding. It answers how long its header and its body
/// are.
pub(crate) fn write_record_batch<S: IpcMessageSink>(
    sink: &mut S,
    metadata: &[u8],
    buffers: &[BufferEntry],
    sources: &Sources,
    body_len: u64,
    alignment: usize,
) -> Result<(u64, u64), Fault>
    requires aligned { 0 < alignment }
    requires few { alignment ≤ 64 }
    requires small { length metadata.now ≤ 65536 }
    requires room { has_room S.cost (length (header alignment metadata.now ++ body alignment (named sources.now buffers.now)))
        (length (header_pieces alignment (length metadata.now) ++ body_pieces alignment (lengths (named sources.now buffers.now)))) (S.meaning sink.now) ≡ true }
    ensures taken { AllTaken S.cost (header alignment metadata.now ++ body alignment (named sources.now buffers.now))
        (header_pieces alignment (length metadata.now) ++ body_pieces alignment (lengths (named sources.now buffers.now)))
        (S.meaning sink.old) (S.meaning sink.new) result (header_length alignment (length metadata.now), body_len) }
    ensures memories { S.memories sink.new ≡ S.memories sink.old }
{
    let header_len = write_header(sink, metadata, alignment)?;
    write_buffers(sink, buffers, sources, alignment)?;
    Ok((header_len, body_len))
}
