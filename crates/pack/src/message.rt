//! What is printed of a message that is planned.
ghost use Rattle.std.specs.Prelude.{◌≡◌, Some};
ghost use Rattle.pack.specs.Shown.{kind_name, head_shown, message_shown, framed_shown, fields_shown, buffers_shown};

use columns::{BufferEntry, BufferRecord, FieldRecord, Message, MessageKind};
use std::fmt;

/// The line of a message, with the records that are its own.
#[derive(Clone, Copy)]
pub(crate) struct MessageLine<'a> {
    pub index: usize,
    pub message: Message,
    pub fields: FieldPairs<'a>,
    pub buffers: BufferPairs<'a>,
}

// By hand: what it prints is in its contract.
impl fmt::Display for MessageLine<'_> {
    ghost output = { λ line. Some (message_shown line) };

    fn fmt<W: fmt::Write>(&self, f: &mut fmt::Formatter<W>) -> fmt::Result {
        let head = MessageHead::of(self);
        let fields = self.fields;
        let buffers = self.buffers;
        write!(f, "{head} fields{fields} buffers{buffers}")
    }
}

/// The line of a message whose frame is written, with how long its header and its body are.
#[derive(Clone, Copy)]
pub(crate) struct FramedLine<'a>(pub MessageLine<'a>);

// By hand: what it prints is in its contract.
impl fmt::Display for FramedLine<'_> {
    ghost output = { λ line. Some (framed_shown line.0) };

    fn fmt<W: fmt::Write>(&self, f: &mut fmt::Formatter<W>) -> fmt::Result {
        let head = MessageHead::of(&self.0);
        let (header, body) = self.0.message.lengths;
        let fields = self.0.fields;
        let buffers = self.0.buffers;
        write!(
            f,
            "{head} lengths {header} {body} fields{fields} buffers{buffers}"
        )
    }
}

// What a message's line says before its records.
#[derive(Clone, Copy)]
struct MessageHead {
    index: usize,
    message: Message,
}

impl MessageHead {
    fn of(line: &MessageLine) -> MessageHead
        ensures index { result.index ≡ line.now.index }
        ensures message { result.message ≡ line.now.message }
    {
        MessageHead {
            index: line.index,
            message: line.message,
        }
    }
}

impl fmt::Display for MessageHead {
    ghost output = { λ head. Some (head_shown head.index head.message) };

    fn fmt<W: fmt::Write>(&self, f: &mut fmt::Formatter<W>) -> fmt::Result {
        let index = self.index;
        let Message { id, rows, .. } = self.message;
        let kind = name_of(self.message.kind);
        let (_, body) = self.message.lengths;
        write!(
            f,
            "message {index} kind {kind} id {id} rows {rows} body {body}"
        )
    }
}

fn name_of(kind: MessageKind) -> &'static str
    ensures { result.now ≡ kind_name kind }
{
    match kind {
        MessageKind::Batch => "batch",
        MessageKind::Dictionary => "dictionary",
        MessageKind::Delta => "delta",
    }
}

/// Field records, each as its rows and its nulls.
#[derive(Clone, Copy)]
pub(crate) struct FieldPairs<'a>(pub &'a [FieldRecord]);

impl fmt::Display for FieldPairs<'_> {
    ghost output = { λ pairs. Some (fields_shown pairs.0.now) };

    fn fmt<W: fmt::Write>(&self, f: &mut fmt::Formatter<W>) -> fmt::Result {
        for field in self.0 {
            let FieldRecord { rows, nulls } = *field;
            write!(f, " ({rows},{nulls})")?;
        }
        Ok(())
    }
}

/// Buffer records, each as its offset and its length.
#[derive(Clone, Copy)]
pub(crate) struct BufferPairs<'a>(pub &'a [BufferEntry]);

impl fmt::Display for BufferPairs<'_> {
    ghost output = { λ pairs. Some (buffers_shown pairs.0.now) };

    fn fmt<W: fmt::Write>(&self, f: &mut fmt::Formatter<W>) -> fmt::Result {
        for entry in self.0 {
            let BufferRecord { offset, length } = entry.buffer;
            write!(f, " ({offset},{length})")?;
        }
        Ok(())
    }
}
