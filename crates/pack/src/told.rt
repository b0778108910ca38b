//! Messages, as the lent memories tell them.
ghost use Rattle.std.specs.Prelude.{◌≡◌, ◌<◌, map, Some, IfOk};
ghost use Rattle.layout.specs.Messages.{body};
ghost use Rattle.recording.specs.Alignments.{alignment_number};
ghost use Rattle.recording.specs.View.{bytes_in};
ghost use Rattle.columns.specs.Telling.{bytes_named};
ghost use Rattle.pack.specs.Telling.{AreTold, told_shown};

use crate::body::BodyLine;
use crate::calls::Opened;
use crate::message::{BufferPairs, FieldPairs, MessageLine};
use columns::{BufferEntry, Memory, Records, Sources};
use std::alloc::{AllocError, Global};
use std::fmt;

/// A message, and its body.
#[derive(Drop)]
pub(crate) struct ToldMessage<'a> {
    pub line: MessageLine<'a>,
    pub body: Vec<u8>,
}

// By hand: what it prints is in its contract.
impl fmt::Display for ToldMessage<'_> {
    ghost output = { λ told. Some (told_shown told) };

    fn fmt<W: fmt::Write>(&self, f: &mut fmt::Formatter<W>) -> fmt::Result {
        let line = self.line;
        let body = BodyLine(&self.body);
        write!(f, "{line}\n{body}")
    }
}

/// So many messages at the front of the memories, each with the records and the bytes that are its own.
pub(crate) fn tell_messages<'a>(
    heap: Global,
    opened: &Opened,
    memory: &'a Memory,
    count: usize,
) -> Result<Vec<ToldMessage<'a>>, AllocError>
    ensures { IfOk result (λ told. AreTold (alignment_number opened.now.options.alignment) (bytes_in opened.now.recording) memory.now count told.items) }
{
    let sources = Sources {
        recording: opened.bytes,
        work: memory.work,
    };
    let mut records = Records {
        fields: memory.fields,
        buffers: memory.buffers,
    };
    let messages = &memory.messages[..count.min(memory.messages.len())];
    let mut told = Vec::new(heap);
    for (index, message) in messages.iter().enumerate() {
        let (own, later) = records.split(message);
        let line = MessageLine {
            index,
            message: *message,
            fields: FieldPairs(own.fields),
            buffers: BufferPairs(own.buffers),
        };
        let body = body_of(heap, &sources, own.buffers, opened.options.alignment())?;
        told.push(ToldMessage { line, body })?;
        records = later;
    }
    Ok(told)
}

// The body that buffers make, each with the zeros that fill it up to a multiple of the alignment.
fn body_of(
    heap: Global,
    sources: &Sources,
    buffers: &[BufferEntry],
    alignment: usize,
) -> Result<Vec<u8>, AllocError>
    requires { 0 < alignment }
    ensures { IfOk result (λ made. made.items ≡ body alignment (map (bytes_named sources.now.recording.now sources.now.work.now) buffers.now)) }
{
    let mut made = Vec::new(heap);
    for entry in buffers {
        let bytes = sources.bytes(entry);
        let padding = (alignment - bytes.len() % alignment) % alignment;
        made.extend_from_slice(bytes)?;
        made.extend_from_slice(&vec![in heap; 0; padding]?)?;
    }
    Ok(made)
}
