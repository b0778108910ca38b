//! Lent memories, as a reader of their messages takes them.
ghost use Rattle.std.specs.Prelude.{◌≡◌, take, drop};
ghost use Rattle.columns.specs.Telling.{bytes_named};

use crate::message::Message;
use crate::record::{BufferEntry, EncodedBuffer, FieldRecord};

/// The records of messages that come one after another.
#[derive(Clone, Copy)]
pub struct Records<'a> {
    pub fields: &'a [FieldRecord],
    pub buffers: &'a [BufferEntry],
}

impl<'a> Records<'a> {
    /// Those of the message that comes first, and those of the later ones. Where there are fewer than the message has, the
    /// first are all that there are.
    pub fn split(&self, message: &Message) -> (Records<'a>, Records<'a>)
        ensures own_fields { result.0.fields.now ≡ take message.now.fields self.now.fields.now }
        ensures own_buffers { result.0.buffers.now ≡ take message.now.buffers self.now.buffers.now }
        ensures later_fields { result.1.fields.now ≡ drop message.now.fields self.now.fields.now }
        ensures later_buffers { result.1.buffers.now ≡ drop message.now.buffers self.now.buffers.now }
    {
        let (own_fields, fields) = split_front(self.fields, message.fields);
        let (own_buffers, buffers) = split_front(self.buffers, message.buffers);
        let own = Records {
            fields: own_fields,
            buffers: own_buffers,
        };
        (own, Records { fields, buffers })
    }
}

/// The two runs of bytes that the bytes of buffers are in.
#[derive(Clone, Copy)]
pub struct Sources<'a> {
    pub recording: &'a [u8],
    pub work: &'a [u8],
}

impl<'a> Sources<'a> {
    /// The bytes that a buffer's record names: fewer where its run ends before them.
    pub fn bytes(&self, entry: &BufferEntry) -> &'a [u8]
        ensures { result.now ≡ bytes_named self.now.recording.now self.now.work.now entry.now }
    {
        let (run, place) = match entry.source {
            EncodedBuffer::Recording(place) => (self.recording, place),
            EncodedBuffer::Work(place) => (self.work, place),
        };
        let (_, from) = split_front(run, place as usize);
        let (bytes, _) = split_front(from, entry.buffer.length.max(0) as usize);
        bytes
    }
}

// So many items, or all where there are fewer, and those after them.
fn split_front<T>(items: &[T], count: usize) -> (&[T], &[T])
    ensures front { result.0.now ≡ take count items.now }
    ensures rest { result.1.now ≡ drop count items.now }
{
    items.split_at(count.min(items.len()))
}
