//! Header forms: what stands before a message's body.
ghost use Rattle.std.specs.Prelude.{◌≡◌, ℕ, List};
ghost use Rattle.layout.specs.Messages.{Message};
ghost use Rattle.frames.specs.Headers.{described, header_of, size_of, over_front};

use columns::{BufferEntry, FieldRecord, MessageKind};

/// A message as a header form is told it: what it is, the id of its dictionary (0 of a batch), its rows, how long its body is,
/// and its records.
#[derive(Clone, Copy)]
pub struct Description<'a> {
    pub kind: MessageKind,
    pub id: u64,
    pub rows: u64,
    pub body_len: u64,
    pub fields: &'a [FieldRecord],
    pub buffers: &'a [BufferEntry],
}

/// What has a header for a message, or none: the same each time for the same ordinal and description. Messages are counted
/// from 0 on along a stream.
pub trait HeaderForm {
    // The bytes that it has for a message. Where they are none, or more than 65,536, it has no header.
    ghost header: { Self → ℕ → Message → List ℕ };

    /// How long the header of a message is.
    fn size(&self, ordinal: u64, message: &Description) -> Option<usize>
        ensures { result ≡ size_of (header self.now ordinal (described message.now)) };

    /// Puts it at the front of memory, where it has room. No other byte changes.
    fn write(&self, ordinal: u64, message: &Description, memory: &mut [u8])
        ensures { memory.new ≡ over_front (header_of (header self.now ordinal (described message.now))) memory.old };
}
