//! The frames of planned messages.
ghost use Rattle.std.specs.Prelude.{◌≡◌, ◌+◌, ◌≤◌, ◌<◌, ◌^◌, true, length, take, drop, ◌++◌, MatchResult, OnErr};
ghost use Rattle.layout.specs.Lists.{lengths};
ghost use Rattle.layout.specs.Messages.{body};
ghost use Rattle.recording.specs.Alignments.{alignment_number};
ghost use Rattle.recording.specs.View.{bytes_in};
ghost use Rattle.columns.specs.Plans.{messages_of};
ghost use Rattle.columns.specs.Telling.{told_all, PlanTells};
ghost use Rattle.frames.specs.Batches.{Goes, StaysFor, WriteAnswer};
ghost use Rattle.frames.specs.Frames.{header, header_length, header_pieces, body_pieces, named, has_headers, frames, pieces, framed, with_headers};
ghost use Rattle.frames.specs.Headers.{described, is_header, header_of, over_front};
ghost use Rattle.frames.specs.Sinks.{AllTaken, has_room, then_after};
ghost use Rattle.frames.specs.Writing.{message_frame, message_pieces, description_of, messages_told, IsRoomAfter};

use crate::form::{Description, HeaderForm};
use crate::frame::write_record_batch;
use crate::room::{Room, room_after_frame};
use crate::sink::IpcMessageSink;
use columns::{BufferEntry, FieldRecord, Memory, Message, Records, Sources, plan_batch};
use dictionaries::MetDictionary;
use layout::{Fault, Refusal};
use recording::{Columns, IpcWriteOptions, Recording};

// A message with its own records, as a form is told it.
fn describe<'a>(message: &Message, own: Records<'a>) -> Description<'a>
    ensures { result ≡ description_of message.now own.entry }
{
    Description {
        kind: message.kind,
        id: message.id,
        rows: message.rows,
        body_len: message.lengths.1,
        fields: own.fields,
        buffers: own.buffers,
    }
}

// What is free after the frame of a message too.
fn left_after(
    left: Option<Room>,
    metadata_len: usize,
    message: &Description,
    sources: &Sources,
    alignment: usize,
    cost: u64,
) -> Option<Room>
    requires aligned { 0 < alignment }
    requires few { alignment ≤ 64 }
    requires metadata { metadata_len ≤ 65536 }
    requires small { cost ≤ 1 }
    ensures { result ≡ then_after cost (header_length alignment metadata_len + length (body alignment (named sources.now message.now.buffers.now)))
        (length (header_pieces alignment metadata_len ++ body_pieces alignment (lengths (named sources.now message.now.buffers.now)))) left }
{
    room_after_frame(
        left?,
        metadata_len,
        message.buffers,
        sources,
        alignment,
        cost,
    )
}

/// What is free after the frames of messages, from an ordinal on; none where they need more. A message for which the form has
/// no header is refused.
pub(crate) fn room_after_frames<F: HeaderForm>(
    form: &F,
    ordinal: u64,
    messages: &[Message],
    records: Records,
    sources: &Sources,
    alignment: usize,
    room: Room,
    cost: u64,
) -> Result<Option<Room>, Fault>
    requires aligned { 0 < alignment }
    requires few { alignment ≤ 64 }
    requires small { cost ≤ 1 }
    requires ordinals { ordinal + length messages.now < 2 ^ 64 }
    ensures { IsRoomAfter cost alignment (F.header form.now) ordinal (messages_told sources.now records.entry messages.now) room result }
{
    let mut left = Some(room);
    let mut later = records;
    for j in 0..messages.len() {
        let (own, rest) = later.split(&messages[j]);
        let message = describe(&messages[j], own);
        let size = form
            .size(ordinal + j as u64, &message)
            .ok_or(Refusal::Header)?;
        left = left_after(left, size, &message, sources, alignment, cost);
        later = rest;
    }
    Ok(left)
}

// The frame of a message, for which the form has a header. It answers how long its header and its body are.
fn write_message<F: HeaderForm, S: IpcMessageSink>(
    form: &F,
    ordinal: u64,
    message: &Description,
    sources: &Sources,
    alignment: usize,
    metadata: &mut [u8],
    sink: &mut S,
) -> Result<(u64, u64), Fault>
    requires aligned { 0 < alignment }
    requires few { alignment ≤ 64 }
    requires long { 65536 ≤ length metadata.now }
    requires headed { is_header (F.header form.now ordinal (described message.now)) ≡ true }
    requires room { has_room S.cost (length (message_frame alignment (F.header form.now ordinal (described message.now)) (named sources.now message.now.buffers.now)))
        (length (message_pieces alignment (F.header form.now ordinal (described message.now)) (named sources.now message.now.buffers.now))) (S.meaning sink.now) ≡ true }
    ensures metadata { metadata.new ≡ over_front (header_of (F.header form.now ordinal (described message.now))) metadata.old }
    ensures taken { AllTaken S.cost (message_frame alignment (F.header form.now ordinal (described message.now)) (named sources.now message.now.buffers.now))
        (message_pieces alignment (F.header form.now ordinal (described message.now)) (named sources.now message.now.buffers.now))
        (S.meaning sink.old) (S.meaning sink.new) result (header_length alignment (length (F.header form.now ordinal (described message.now))), message.now.body_len) }
    ensures memories { S.memories sink.new ≡ S.memories sink.old }
{
    form.write(ordinal, message, metadata);
    let size = form.size(ordinal, message).ok_or(Refusal::Header)?;
    write_record_batch(
        sink,
        &metadata[..size],
        message.buffers,
        sources,
        message.body_len,
        alignment,
    )
}

/// The frames of messages, from an ordinal on, for each of which the form has a header; the length of each header goes into its
/// message.
pub(crate) fn write_frames<F: HeaderForm, S: IpcMessageSink>(
    form: &F,
    ordinal: u64,
    messages: &mut [Message],
    records: Records,
    sources: &Sources,
    alignment: usize,
    metadata: &mut [u8],
    sink: &mut S,
) -> Result<(), Fault>
    requires aligned { 0 < alignment }
    requires few { alignment ≤ 64 }
    requires long { 65536 ≤ length metadata.now }
    requires ordinals { ordinal + length messages.now < 2 ^ 64 }
    requires headed { has_headers (F.header form.now) ordinal (messages_told sources.now records messages.now) ≡ true }
    requires room { has_room S.cost (length (frames alignment (F.header form.now) ordinal (messages_told sources.now records messages.now)))
        (length (pieces alignment (F.header form.now) ordinal (messages_told sources.now records messages.now))) (S.meaning sink.now) ≡ true }
    ensures messages { messages.new ≡ framed alignment (F.header form.now) ordinal (messages_told sources.now records.entry messages.old) messages.old }
    ensures metadata { metadata.new ≡ with_headers (F.header form.now) ordinal (messages_told sources.now records.entry messages.old) metadata.old }
    ensures taken { AllTaken S.cost (frames alignment (F.header form.now) ordinal (messages_told sources.now records.entry messages.old))
        (pieces alignment (F.header form.now) ordinal (messages_told sources.now records.entry messages.old)) (S.meaning sink.old) (S.meaning sink.new) result tt }
    ensures memories { S.memories sink.new ≡ S.memories sink.old }
{
    let mut later = records;
    for j in 0..messages.len() {
        let (own, rest) = later.split(&messages[j]);
        let message = describe(&messages[j], own);
        messages[j].lengths = write_message(
            form,
            ordinal + j as u64,
            &message,
            sources,
            alignment,
            metadata,
            sink,
        )?;
        later = rest;
    }
    Ok(())
}

// Whether the form has a header for each message, and the sink room for their frames.
fn check_frames<F: HeaderForm, S: IpcMessageSink>(
    form: &F,
    ordinal: u64,
    messages: &[Message],
    records: Records,
    sources: &Sources,
    alignment: usize,
    sink: &S,
) -> Result<(), Fault>
    requires aligned { 0 < alignment }
    requires few { alignment ≤ 64 }
    requires ordinals { ordinal + length messages.now < 2 ^ 64 }
    ensures { MatchResult result
        (λ u. (has_headers (F.header form.now) ordinal (messages_told sources.now records.entry messages.now) ≡ true)
        × (has_room S.cost (length (frames alignment (F.header form.now) ordinal (messages_told sources.now records.entry messages.now)))
        (length (pieces alignment (F.header form.now) ordinal (messages_told sources.now records.entry messages.now))) (S.meaning sink.now) ≡ true))
        (StaysFor S.cost alignment (F.header form.now) ordinal (messages_told sources.now records.entry messages.now) (S.meaning sink.now)) }
{
    match room_after_frames(
        form,
        ordinal,
        messages,
        records,
        sources,
        alignment,
        sink.free(),
        S::price(),
    )? {
        Some(_) => Ok(()),
        None => Err(Refusal::Sink.into()),
    }
}

// Writes the frames of messages, or says why not: then nothing changes.
fn send<F: HeaderForm, S: IpcMessageSink>(
    form: &F,
    ordinal: u64,
    messages: &mut [Message],
    records: Records,
    sources: &Sources,
    alignment: usize,
    metadata: &mut [u8],
    sink: &mut S,
) -> Result<(), Fault>
    requires aligned { 0 < alignment }
    requires few { alignment ≤ 64 }
    requires long { 65536 ≤ length metadata.now }
    requires ordinals { ordinal + length messages.now < 2 ^ 64 }
    ensures answer { MatchResult result (λ _. Goes S.cost alignment (F.header form.now) ordinal (messages_told sources.now records.entry messages.old) messages.old messages.new metadata.old metadata.new
        (S.meaning sink.old) (S.meaning sink.new))
        (λ f. StaysFor S.cost alignment (F.header form.now) ordinal (messages_told sources.now records.entry messages.old) (S.meaning sink.old) f
        × (messages.new ≡ messages.old) × (metadata.new ≡ metadata.old) × (sink.new ≡ sink.old)) }
    ensures memories { S.memories sink.new ≡ S.memories sink.old }
{
    check_frames(form, ordinal, messages, records, sources, alignment, sink)?;
    write_frames(
        form, ordinal, messages, records, sources, alignment, metadata, sink,
    )
}

// Writes the frames of the messages that are planned in memory, so many, or says why not.
fn send_planned<F: HeaderForm, S: IpcMessageSink>(
    form: &F,
    ordinal: u64,
    count: usize,
    recording: &Recording,
    alignment: usize,
    fields: &mut [FieldRecord],
    buffers: &mut [BufferEntry],
    messages: &mut [Message],
    work: &mut [u8],
    metadata: &mut [u8],
    sink: &mut S,
) -> Result<(), Fault>
    requires aligned { 0 < alignment }
    requires few { alignment ≤ 64 }
    requires long { 65536 ≤ length metadata.now }
    requires within { count ≤ length messages.now }
    requires ordinals { ordinal + count < 2 ^ 64 }
    ensures fields { fields.new ≡ fields.old }
    ensures buffers { buffers.new ≡ buffers.old }
    ensures work { work.new ≡ work.old }
    ensures rest { drop count messages.new ≡ drop count messages.old }
    ensures answer { MatchResult result (λ _. Goes S.cost alignment (F.header form.now) ordinal (told_all (bytes_in recording.now) work.old fields.old buffers.old (take count messages.old))
        (take count messages.old) (take count messages.new) metadata.old metadata.new (S.meaning sink.old) (S.meaning sink.new))
        (λ f. StaysFor S.cost alignment (F.header form.now) ordinal (told_all (bytes_in recording.now) work.old fields.old buffers.old (take count messages.old)) (S.meaning sink.old) f
        × (messages.new ≡ messages.old) × (metadata.new ≡ metadata.old) × (sink.new ≡ sink.old)) }
    ensures memories { S.memories sink.new ≡ S.memories sink.old }
{
    let sources = Sources {
        recording: recording.bytes(),
        work,
    };
    let records = Records { fields, buffers };
    send(
        form,
        ordinal,
        &mut messages[..count],
        records,
        &sources,
        alignment,
        metadata,
        sink,
    )
}

/// Plans a batch with the dictionaries that it meets, and writes the frames of their messages: those of the dictionaries in the
/// order met, the j-th under the j-th id, and then the batch's own. The first message has the ordinal. It answers how many
/// messages they are. What is refused leaves the sink as it was; with no header for a message, or too little room in the sink,
/// the plan stays in memory.
pub fn write_to_sink<F: HeaderForm, S: IpcMessageSink>(
    columns: &Columns,
    met: &[MetDictionary],
    options: &IpcWriteOptions,
    form: &F,
    ordinal: u32,
    sink: &mut S,
    memory: &mut Memory,
) -> Result<usize, Fault>
    ensures answer { WriteAnswer S.cost (alignment_number options.now.alignment) (F.header form.now) ordinal (messages_of columns.now met.now) memory.old memory.new (S.meaning sink.old) (S.meaning sink.new) result }
    ensures told { PlanTells (alignment_number options.now.alignment) (bytes_in columns.now.recording) (messages_of columns.now met.now) memory.new result }
    ensures unsent { OnErr result (sink.new ≡ sink.old) }
    ensures memories { S.memories sink.new ≡ S.memories sink.old }
{
    let count = plan_batch(columns, met, options, memory)?;
    send_planned(
        form,
        u64::from(ordinal),
        count,
        &columns.recording(),
        options.alignment(),
        memory.fields,
        memory.buffers,
        memory.messages,
        memory.work,
        memory.metadata,
        sink,
    )?;
    Ok(count)
}
