//! The messages of a batch.
ghost use Rattle.std.specs.Prelude.{◌≡◌, ◌<◌, ◌≤◌, ◌∷◌, [], map, length};
ghost use Rattle.recording.specs.Alignments.{alignment_number};
ghost use Rattle.dictionaries.specs.Batches.{column_windows};
ghost use Rattle.columns.specs.BatchNeeds.{CountsMessages};
ghost use Rattle.columns.specs.Needs.{Counts};
ghost use Rattle.columns.specs.Lists.{over, lent};
ghost use Rattle.columns.specs.Pieces.{fields_side, pieces_side, work_of};
ghost use Rattle.recording.specs.View.{bytes_in};
ghost use Rattle.columns.specs.Telling.{PlanTells};
ghost use Rattle.columns.specs.Memories.{short_by, ChecksMemory, PlanAnswer};
ghost use Rattle.columns.specs.Plans.{IsSent, MessagesSent, RoomForMessages, message_as, batch_message, dictionary_kind, all_sent, messages_of, all_fields, all_pieces, all_entries, message_entry};

use crate::list::LentList;
use crate::memory::Memory;
use crate::message::{Message, MessageKind};
use crate::needs::{NOTHING, Needs, count_array_data};
use crate::record::{BufferEntry, FieldRecord};
use crate::writer::IpcMessageWriter;
use dictionaries::{DictionaryToEncode, MetDictionary};
use layout::{Fault, Refusal};
use recording::{Columns, IpcWriteOptions, Recording, Window};

/// So many bytes of metadata a call may need.
const METADATA_BYTES: usize = 65_536;

/// What the messages of a batch need of the lent memories.
#[derive(Clone, Copy)]
struct BatchNeeds {
    needs: Needs,
    messages: u64,
}

impl BatchNeeds {
    // The first of the lent memories that is too short for them.
    fn first_short(&self, memory: &Memory) -> Option<u64>
        ensures { result ≡ short_by self.now.needs.fields self.now.needs.buffers self.now.messages self.now.needs.work memory.now }
    {
        if (memory.fields.len() as u64) < self.needs.fields {
            return Some(0);
        }
        if (memory.buffers.len() as u64) < self.needs.buffers {
            return Some(1);
        }
        if (memory.messages.len() as u64) < self.messages {
            return Some(2);
        }
        if (memory.work.len() as u64) < self.needs.work {
            return Some(3);
        }
        if memory.metadata.len() < METADATA_BYTES {
            return Some(4);
        }
        None
    }

    // A refusal that names it, if there is one.
    fn check(&self, memory: &Memory) -> Result<(), Fault>
        ensures { ChecksMemory (short_by self.now.needs.fields self.now.needs.buffers self.now.messages self.now.needs.work memory.now) result }
    {
        match self.first_short(memory) {
            Some(column) => Err(Fault::new(Refusal::Memory, column, 0)),
            None => Ok(()),
        }
    }
}

/// Plans the messages of a batch in lent memory: those of the dictionaries that are met, in their order, the j-th under the
/// j-th id, and then the batch's own. It answers how many they are. The first memory that is too short is refused, by its
/// number, before anything is written.
pub fn plan_batch(
    columns: &Columns,
    met: &[MetDictionary],
    options: &IpcWriteOptions,
    memory: &mut Memory,
) -> Result<usize, Fault>
    ensures planned { PlanAnswer (alignment_number options.now.alignment) (messages_of columns.now met.now) memory.old memory.new result }
    ensures told { PlanTells (alignment_number options.now.alignment) (bytes_in columns.now.recording) (messages_of columns.now met.now) memory.new result }
{
    let needs = count_batch(columns, met);
    needs.check(memory)?;
    write_messages(
        columns,
        met,
        options.alignment(),
        memory.fields,
        memory.buffers,
        memory.messages,
        memory.work,
    );
    Ok(needs.messages as usize)
}

// The messages of a batch, from the first place of each memory on.
fn write_messages(
    columns: &Columns,
    met: &[MetDictionary],
    alignment: usize,
    fields: &mut [FieldRecord],
    buffers: &mut [BufferEntry],
    messages: &mut [Message],
    work: &mut [u8],
)
    requires some { 0 < alignment }
    requires few { alignment ≤ 64 }
    requires fields { length (all_fields (messages_of columns.now met.now)) ≤ length fields.now }
    requires buffers { length (all_pieces (messages_of columns.now met.now)) ≤ length buffers.now }
    requires messages { length (messages_of columns.now met.now) ≤ length messages.now }
    requires work { length (work_of (all_pieces (messages_of columns.now met.now))) ≤ length work.now }
    ensures fields { fields.new ≡ over fields.old 0 (all_fields (messages_of columns.now met.now)) }
    ensures buffers { buffers.new ≡ over buffers.old 0 (all_entries alignment 0 (messages_of columns.now met.now)) }
    ensures messages { messages.new ≡ over messages.old 0 (map (message_entry alignment) (messages_of columns.now met.now)) }
    ensures work { work.new ≡ over work.old 0 (work_of (all_pieces (messages_of columns.now met.now))) }
{
    let mut writer = IpcMessageWriter {
        fields,
        field_count: 0,
        buffers,
        buffer_count: 0,
        work,
        work_len: 0,
        offset: 0,
        alignment,
    };
    let mut list = LentList {
        memory: messages,
        len: 0,
    };
    write_dictionaries(&mut writer, &mut list, &columns.recording(), met);
    write_batch(&mut writer, &mut list, columns);
}

/// What is sent of a dictionary, and the rows that it sends.
#[derive(Clone, Copy)]
struct DictionaryMessage<'a> {
    sent: DictionaryToEncode,
    window: Window<'a>,
}

// What is sent of a dictionary under an id, if anything is that the recording has.
fn dictionary_sent<'a>(
    recording: &Recording<'a>,
    met: &MetDictionary,
    id: u64,
) -> Option<DictionaryMessage<'a>>
    ensures { IsSent recording.now id met.now result }
{
    let sent = met.to_encode(id)?;
    let window = recording.window(sent.node, sent.first, sent.rows)?;
    Some(DictionaryMessage { sent, window })
}

// The message of a dictionary.
fn write_dictionary(
    writer: &mut IpcMessageWriter,
    messages: &mut LentList<Message>,
    message: &DictionaryMessage,
)
    requires { RoomForMessages (message_as message.now ∷ []) writer.now (lent messages.now) }
    ensures { MessagesSent (message_as message.now ∷ []) writer.old writer.new (lent messages.old) (lent messages.new) }
{
    writer.offset = 0;
    let (fields, buffers) = (writer.field_count, writer.buffer_count);
    writer.write_array_data(&message.window);
    messages.push(Message {
        kind: dictionary_kind(&message.sent),
        id: message.sent.id,
        rows: message.sent.rows,
        fields: writer.field_count - fields,
        buffers: writer.buffer_count - buffers,
        lengths: (0, writer.offset),
    });
}

fn dictionary_kind(sent: &DictionaryToEncode) -> MessageKind
    ensures { result ≡ dictionary_kind sent.now }
{
    if sent.is_delta {
        MessageKind::Delta
    } else {
        MessageKind::Dictionary
    }
}

// The message of a batch.
fn write_batch(writer: &mut IpcMessageWriter, messages: &mut LentList<Message>, columns: &Columns)
    requires { RoomForMessages (batch_message columns.now ∷ []) writer.now (lent messages.now) }
    ensures same_fields { writer.new.fields.ghost_name ≡ writer.old.fields.ghost_name }
    ensures same_buffers { writer.new.buffers.ghost_name ≡ writer.old.buffers.ghost_name }
    ensures same_work { writer.new.work.ghost_name ≡ writer.old.work.ghost_name }
    ensures same_messages { messages.new.memory.ghost_name ≡ messages.old.memory.ghost_name }
    ensures sent { MessagesSent (batch_message columns.now ∷ []) writer.old writer.new (lent messages.old) (lent messages.new) }
{
    writer.offset = 0;
    let (fields, buffers) = (writer.field_count, writer.buffer_count);
    writer.write_columns(columns);
    messages.push(Message {
        kind: MessageKind::Batch,
        id: 0,
        rows: columns.rows(),
        fields: writer.field_count - fields,
        buffers: writer.buffer_count - buffers,
        lengths: (0, writer.offset),
    });
}

// The messages of dictionaries, the j-th under the j-th id.
fn write_dictionaries(
    writer: &mut IpcMessageWriter,
    messages: &mut LentList<Message>,
    recording: &Recording,
    met: &[MetDictionary],
)
    requires { RoomForMessages (all_sent recording.now 0 met.now) writer.now (lent messages.now) }
    ensures same_fields { writer.new.fields.ghost_name ≡ writer.old.fields.ghost_name }
    ensures same_buffers { writer.new.buffers.ghost_name ≡ writer.old.buffers.ghost_name }
    ensures same_work { writer.new.work.ghost_name ≡ writer.old.work.ghost_name }
    ensures same_messages { messages.new.memory.ghost_name ≡ messages.old.memory.ghost_name }
    ensures sent { MessagesSent (all_sent recording.now 0 met.now) writer.old writer.new (lent messages.old) (lent messages.new) }
{
    for id in 0..met.len() {
        if let Some(message) = dictionary_sent(recording, &met[id], id as u64) {
            write_dictionary(writer, messages, &message);
        }
    }
}

// What the messages of dictionaries need.
fn count_dictionaries(recording: &Recording, met: &[MetDictionary]) -> BatchNeeds
    ensures value { CountsMessages (all_sent recording.now 0 met.now) result }
    ensures few { result.messages ≤ length met.now }
{
    let mut needs = NOTHING;
    let mut messages = 0;
    for id in 0..met.len() {
        if let Some(message) = dictionary_sent(recording, &met[id], id as u64) {
            needs = needs.plus(count_array_data(&message.window));
            messages += 1;
        }
    }
    BatchNeeds { needs, messages }
}

// What columns need.
fn count_columns(columns: &Columns) -> Needs
    ensures { Counts (fields_side (column_windows columns.now)) (pieces_side (column_windows columns.now)) result }
{
    let mut needs = NOTHING;
    for window in columns.windows() {
        needs = needs.plus(count_array_data(&window));
    }
    needs
}

// What the messages of a batch need.
fn count_batch(columns: &Columns, met: &[MetDictionary]) -> BatchNeeds
    ensures { CountsMessages (messages_of columns.now met.now) result }
{
    let dictionaries = count_dictionaries(&columns.recording(), met);
    BatchNeeds {
        needs: dictionaries.needs.plus(count_columns(columns)),
        messages: dictionaries.messages + 1,
    }
}
