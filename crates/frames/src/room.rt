//! What is free in a sink.
ghost use Rattle.std.specs.Prelude.{◌≡◌, ◌+◌, ◌≤◌, length, ◌∷◌, ◌++◌, ◌<◌};
ghost use Rattle.layout.specs.Lists.{lengths};
ghost use Rattle.layout.specs.Messages.{body};
ghost use Rattle.frames.specs.Frames.{named, header_length, header_pieces, body_pieces};
ghost use Rattle.frames.specs.Sinks.{room_after, piece_unless_empty};

use crate::frame::MetadataLayout;
use columns::{BufferEntry, Sources, pad_to_alignment};

/// How many bytes and pieces more a sink takes.
#[derive(Clone, Copy, Debug, PartialEq, Eq, Hash)]
pub struct Room {
    pub bytes: u64,
    pub pieces: u64,
}

impl Room {
    // What is left after so many bytes, in so many pieces that cost so much each; none where there is too little.
    fn after(self, bytes: u64, pieces: u64, cost: u64) -> Option<Room>
        requires { cost ≤ 1 }
        ensures { result ≡ room_after cost bytes pieces self }
    {
        Some(Room {
            bytes: self.bytes.checked_sub(bytes)?,
            pieces: self.pieces.checked_sub(cost * pieces)?,
        })
    }

    // After a buffer and its padding.
    fn after_buffer(self, len: u64, padding: u64, cost: u64) -> Option<Room>
        requires { cost ≤ 1 }
        ensures { result ≡ room_after cost (len + padding) (length (len ∷ piece_unless_empty padding)) self }
    {
        self.after(len, 1, cost)?
            .after(padding, u64::from(padding > 0), cost)
    }
}

// What is left after buffers, each with its padding.
fn room_after_buffers(
    room: Room,
    buffers: &[BufferEntry],
    sources: &Sources,
    alignment: usize,
    cost: u64,
) -> Option<Room>
    requires aligned { 0 < alignment }
    requires small { cost ≤ 1 }
    ensures { result ≡ room_after cost (length (body alignment (named sources.now buffers.now))) (length (body_pieces alignment (lengths (named sources.now buffers.now)))) room }
{
    let mut left = room;
    for entry in buffers {
        let len = sources.bytes(entry).len() as u64;
        left = left.after_buffer(len, pad_to_alignment(alignment, len), cost)?;
    }
    Some(left)
}

/// What is left after a frame; none where it needs more.
pub(crate) fn room_after_frame(
    room: Room,
    metadata_len: usize,
    buffers: &[BufferEntry],
    sources: &Sources,
    alignment: usize,
    cost: u64,
) -> Option<Room>
    requires aligned { 0 < alignment }
    requires few { alignment ≤ 64 }
    requires metadata { metadata_len ≤ 65536 }
    requires small { cost ≤ 1 }
    ensures { result ≡ room_after cost (header_length alignment metadata_len + length (body alignment (named sources.now buffers.now)))
        (length (header_pieces alignment metadata_len ++ body_pieces alignment (lengths (named sources.now buffers.now)))) room }
{
    let layout = MetadataLayout::new(metadata_len, alignment);
    let pieces = 1 + u64::from(metadata_len > 0) + u64::from(layout.metadata_padding > 0);
    let left = room.after(layout.padded_header_len as u64, pieces, cost)?;
    room_after_buffers(left, buffers, sources, alignment, cost)
}
