//! Plans of batches, line by line of the table: by the memory that they need, and by what nothing else counts for.
use crate::plans::{ALIGNED, DICTIONARIES, KINDS, NESTED, STARTED};
use crate::refusals::{bytes, nodes, numbers};
use columns::{
    BufferEntry, BufferRecord, EncodedBuffer, FieldRecord, Memory, Message, MessageKind, plan_batch,
};
use dictionaries::{DictionaryTracker, MetDictionaries};
use layout::{Fault, Refusal};
use recording::{Columns, DictionaryHandling, IpcWriteOptions, Recording};
use std::alloc::Global;
use std::process::Abort;
use std::test::Fail;

/// So many bytes of metadata a call needs.
const METADATA_BYTES: usize = 65_536;

// What the memories hold before a plan.
const FIELD: FieldRecord = FieldRecord {
    rows: -1,
    nulls: -2,
};

const BUFFER: BufferEntry = BufferEntry {
    buffer: BufferRecord {
        offset: -3,
        length: -4,
    },
    source: EncodedBuffer::Recording(5),
};

const MESSAGE: Message = Message {
    kind: MessageKind::Delta,
    id: 6,
    rows: 7,
    fields: 8,
    buffers: 9,
    lengths: (10, 11),
};

const WORK: u8 = 0xa5;

const METADATA: u8 = 0x5a;

/// How long the five memories are.
#[derive(Clone, Copy)]
pub(crate) struct Lengths {
    fields: usize,
    buffers: usize,
    messages: usize,
    work: usize,
    metadata: usize,
}

impl Lengths {
    // The needs of a line.
    pub(crate) fn parse(heap: Global, text: &str) -> Result<Lengths, Fail> {
        match numbers(heap, text)?.as_slice() {
            [fields, buffers, messages, work] => Ok(Lengths {
                fields: *fields as usize,
                buffers: *buffers as usize,
                messages: *messages as usize,
                work: *work as usize,
                metadata: METADATA_BYTES,
            }),
            _ => Err(Fail::from("the needs are four numbers")),
        }
    }

    // The same with one of them shorter by one, where it is not 0.
    pub(crate) fn shorter(self, column: u64) -> Option<Lengths> {
        let mut lengths = self;
        match column {
            0 => lengths.fields = lengths.fields.checked_sub(1)?,
            1 => lengths.buffers = lengths.buffers.checked_sub(1)?,
            2 => lengths.messages = lengths.messages.checked_sub(1)?,
            3 => lengths.work = lengths.work.checked_sub(1)?,
            _ => lengths.metadata = lengths.metadata.checked_sub(1)?,
        }
        Some(lengths)
    }

    // The same with some more of each.
    pub(crate) fn longer(self) -> Lengths {
        Lengths {
            fields: self.fields.saturating_add(3),
            buffers: self.buffers.saturating_add(2),
            messages: self.messages.saturating_add(1),
            work: self.work.saturating_add(5),
            metadata: self.metadata.saturating_add(1),
        }
    }
}

// Whether all items after so many are this one.
fn is_left<T: PartialEq + Copy>(items: &[T], used: usize, before: T) -> bool {
    for item in items.iter().skip(used) {
        if *item != before {
            return false;
        }
    }
    true
}

/// The five memories.
#[derive(Drop, PartialEq)]
pub(crate) struct Lent {
    fields: Vec<FieldRecord>,
    buffers: Vec<BufferEntry>,
    pub messages: Vec<Message>,
    work: Vec<u8>,
    pub metadata: Vec<u8>,
}

impl Lent {
    pub(crate) fn new(heap: Global, lengths: Lengths) -> Result<Lent, Fail> {
        Ok(Lent {
            fields: vec![in heap; FIELD; lengths.fields]?,
            buffers: vec![in heap; BUFFER; lengths.buffers]?,
            messages: vec![in heap; MESSAGE; lengths.messages]?,
            work: vec![in heap; WORK; lengths.work]?,
            metadata: vec![in heap; METADATA; lengths.metadata]?,
        })
    }

    pub(crate) fn memory(&mut self) -> Memory<'_> {
        Memory {
            fields: self.fields.as_mut_slice(),
            buffers: self.buffers.as_mut_slice(),
            messages: self.messages.as_mut_slice(),
            work: self.work.as_mut_slice(),
            metadata: self.metadata.as_mut_slice(),
        }
    }

    // Whether what is after so many of each is as it was, and all of the metadata.
    fn is_left_after(&self, used: Lengths) -> bool {
        is_left(self.fields.as_slice(), used.fields, FIELD)
            && is_left(self.buffers.as_slice(), used.buffers, BUFFER)
            && is_left(self.messages.as_slice(), used.messages, MESSAGE)
            && is_left(self.work.as_slice(), used.work, WORK)
            && is_left(self.metadata.as_slice(), 0, METADATA)
    }

    // The first so many messages, with the bytes of a recording.
    fn told(&self, heap: Global, run: &[u8], count: usize) -> Result<Vec<Told>, Fail> {
        let mut all = Vec::new(heap);
        let mut fields = self.fields.iter();
        let mut buffers = self.buffers.iter();
        for message in self.messages.iter().take(count) {
            let mut told = Told::new(heap, message)?;
            for _ in 0..message.fields {
                told.add_field(fields.next().ok_or("a field is missing")?)?;
            }
            for _ in 0..message.buffers {
                let entry = buffers.next().ok_or("a buffer is missing")?;
                told.add_buffer(entry, run, self.work.as_slice())?;
            }
            all.push(told)?;
        }
        Ok(all)
    }
}

/// What is told of a message: its kind, id, rows and the length of its body; its field records; its buffer records with their
/// sources; and its body.
#[derive(Debug, Drop, PartialEq)]
struct Told {
    head: Vec<u64>,
    fields: Vec<u64>,
    buffers: Vec<u64>,
    body: Vec<u8>,
}

// The numbers of records.
fn records(heap: Global, text: &str) -> Result<Vec<u64>, Fail> {
    let mut all = Vec::new(heap);
    for record in text.split(',') {
        all.extend_from_slice(numbers(heap, record)?.as_slice())?;
    }
    Ok(all)
}

impl Told {
    fn parse(heap: Global, text: &str) -> Result<Told, Fail> {
        let (head, text) = text.split_once(';').ok_or("no fields")?;
        let (fields, text) = text.split_once(';').ok_or("no buffers")?;
        let (buffers, body) = text.split_once(';').ok_or("no body")?;
        Ok(Told {
            head: numbers(heap, head)?,
            fields: records(heap, fields)?,
            buffers: records(heap, buffers)?,
            body: bytes(heap, body)?,
        })
    }

    // A message without its records, whose body is as many zeros.
    fn new(heap: Global, message: &Message) -> Result<Told, Fail> {
        let kind = match message.kind {
            MessageKind::Batch => 0,
            MessageKind::Dictionary => 1,
            MessageKind::Delta => 2,
        };
        let (header, body) = message.lengths;
        if header != 0 {
            return Err(Fail::from("no header is planned"));
        }
        Ok(Told {
            head: [kind, message.id, message.rows, body].to_vec(heap)?,
            fields: Vec::new(heap),
            buffers: Vec::new(heap),
            body: vec![in heap; 0; body as usize]?,
        })
    }

    fn add_field(&mut self, field: &FieldRecord) -> Result<(), Fail> {
        self.fields.push(u64::try_from(field.rows)?)?;
        self.fields.push(u64::try_from(field.nulls)?)?;
        Ok(())
    }

    // A buffer, whose bytes go to their place in the body.
    fn add_buffer(&mut self, entry: &BufferEntry, run: &[u8], work: &[u8]) -> Result<(), Fail> {
        let offset = u64::try_from(entry.buffer.offset)?;
        let length = u64::try_from(entry.buffer.length)?;
        let (source, number, place) = match entry.source {
            EncodedBuffer::Recording(place) => (run, 0, place),
            EncodedBuffer::Work(place) => (work, 1, place),
        };
        self.buffers
            .extend_from_slice(&[offset, length, number, place])?;
        let bytes = source.iter().skip(place as usize).take(length as usize);
        for (byte, planned) in self.body.iter_mut().skip(offset as usize).zip(bytes) {
            *byte = *planned;
        }
        Ok(())
    }
}

/// A batch: its first node, how many columns it has, and its rows.
#[derive(Clone, Copy)]
pub(crate) struct Batch {
    first: usize,
    columns: u64,
    rows: u64,
}

impl Batch {
    fn parse(heap: Global, text: &str) -> Result<Batch, Fail> {
        match numbers(heap, text)?.as_slice() {
            [first, columns, rows] => Ok(Batch {
                first: *first as usize,
                columns: *columns,
                rows: *rows,
            }),
            _ => Err(Fail::from("a batch has three numbers")),
        }
    }

    pub(crate) fn parse_all(heap: Global, text: &str) -> Result<Vec<Batch>, Fail> {
        let mut batches = Vec::new(heap);
        for batch in text.split(',') {
            batches.push(Batch::parse(heap, batch)?)?;
        }
        Ok(batches)
    }
}

pub(crate) fn options(alignment: usize) -> Result<IpcWriteOptions, Fail> {
    Ok(IpcWriteOptions::try_new(alignment)?.with_dictionary_handling(DictionaryHandling::Delta))
}

// The columns of the last of these batches, and the dictionaries that it meets after those before it are kept.
pub(crate) fn last_batch<'a>(
    recording: &Recording<'a>,
    batches: &[Batch],
    options: &IpcWriteOptions,
) -> Result<(Columns<'a>, MetDictionaries), Fail> {
    let mut tracker = DictionaryTracker::new();
    for _ in 0..64 {
        let _id = tracker.next_dict_id()?;
    }
    let mut last = None;
    for batch in batches {
        let columns = recording.columns(batch.first, batch.columns, batch.rows)?;
        let met = tracker.collect_all_dicts(&columns, options)?;
        tracker.keep(&met);
        last = Some((columns, met));
    }
    Ok(last.ok_or("no batch")?)
}

/// A line of the table.
#[derive(Drop)]
struct Plan<'a> {
    line: &'a str,
    alignment: usize,
    batches: Vec<Batch>,
    nodes: Vec<u8>,
    run: Vec<u8>,
    // The bytes with all changed that no batch shows.
    other: Vec<u8>,
    needs: Lengths,
    messages: Vec<Told>,
}

impl<'x> Plan<'x> {
    fn parse(heap: Global, line: &'x str) -> Result<Plan<'x>, Fail> {
        let whole = line;
        let (alignment, line) = line.split_once('|').ok_or("no batches")?;
        let (batches, line) = line.split_once('|').ok_or("no nodes")?;
        let (table, line) = line.split_once('|').ok_or("no bytes")?;
        let (run, line) = line.split_once('|').ok_or("no other bytes")?;
        let (other, line) = line.split_once('|').ok_or("no needs")?;
        let (needs, line) = line.split_once('|').ok_or("no messages")?;
        let mut messages = Vec::new(heap);
        for message in line.split('/') {
            messages.push(Told::parse(heap, message)?)?;
        }
        Ok(Plan {
            line: whole,
            alignment: alignment.trim().parse::<usize>()?,
            batches: Batch::parse_all(heap, batches)?,
            nodes: nodes(heap, table)?,
            run: bytes(heap, run)?,
            other: bytes(heap, other)?,
            needs: Lengths::parse(heap, needs)?,
            messages,
        })
    }

    // What the last batch answers in this memory.
    fn answer(&self, recording: &Recording, lent: &mut Lent) -> Result<Result<usize, Fault>, Fail> {
        let options = options(self.alignment)?;
        let (columns, met) = last_batch(recording, self.batches.as_slice(), &options)?;
        Ok(plan_batch(&columns, &met, &options, &mut lent.memory()))
    }

    // The messages are as the line says.
    fn plans(
        &self,
        rt: &impl Abort,
        heap: Global,
        recording: &Recording,
        run: &[u8],
        lent: &mut Lent,
    ) -> Result<(), Fail> {
        let count = self.answer(recording, lent)??;
        let told = lent.told(heap, run, count)?;
        assert_eq!(rt; told.as_slice(), self.messages.as_slice(), "{}", self.line);
        Ok(())
    }

    // So are they in so much memory, and what of it is not needed is as it was.
    fn plans_in(
        &self,
        rt: &impl Abort,
        heap: Global,
        recording: &Recording,
        run: &[u8],
        lengths: Lengths,
    ) -> Result<(), Fail> {
        let mut lent = Lent::new(heap, lengths)?;
        self.plans(rt, heap, recording, run, &mut lent)?;
        assert!(rt; lent.is_left_after(self.needs), "{}", self.line);
        Ok(())
    }

    // A memory that is shorter by one is refused, and all memory is as it was.
    fn refuses(&self, rt: &impl Abort, heap: Global, recording: &Recording) -> Result<(), Fail> {
        for column in 0..5u64 {
            if let Some(lengths) = self.needs.shorter(column) {
                let mut lent = Lent::new(heap, lengths)?;
                let answer = self.answer(recording, &mut lent)?;
                assert_eq!(rt;
                    answer,
                    Err(Fault::new(Refusal::Memory, column, 0)),
                    "{}",
                    self.line
                );
                assert!(rt; lent == Lent::new(heap, lengths)?, "{}", self.line);
            }
        }
        Ok(())
    }

    // The bytes with one of them as in the others, where they differ there.
    fn changed(&self, heap: Global, at: usize) -> Result<Option<Vec<u8>>, Fail> {
        if self.run.get(at) == self.other.get(at) {
            return Ok(None);
        }
        let mut bytes = Vec::new(heap);
        for (i, (byte, other)) in self.run.iter().zip(self.other.iter()).enumerate() {
            bytes.push(if i == at { *other } else { *byte })?;
        }
        Ok(Some(bytes))
    }
}

// A line of the table holds: in just the memory that it needs and in more, and whatever is not shown.
fn line_holds(rt: &impl Abort, heap: Global, line: &str) -> Result<(), Fail> {
    let plan = Plan::parse(heap, line)?;
    let run = plan.run.as_slice();
    let recording = Recording::try_new(plan.nodes.as_slice(), run)?;
    plan.plans_in(rt, heap, &recording, run, plan.needs)?;
    plan.plans_in(rt, heap, &recording, run, plan.needs.longer())?;
    plan.refuses(rt, heap, &recording)?;
    nothing_else_counts(rt, heap, &plan)
}

// What is not shown is changed, first all of it and then byte by byte.
fn nothing_else_counts(rt: &impl Abort, heap: Global, plan: &Plan) -> Result<(), Fail> {
    let mut lent = Lent::new(heap, plan.needs)?;
    let run = plan.other.as_slice();
    let recording = Recording::try_new(plan.nodes.as_slice(), run)?;
    plan.plans(rt, heap, &recording, run, &mut lent)?;
    for at in 0..plan.run.len() {
        if let Some(bytes) = plan.changed(heap, at)? {
            let run = bytes.as_slice();
            // Some bytes open only together with others.
            if let Ok(recording) = Recording::try_new(plan.nodes.as_slice(), run) {
                plan.plans(rt, heap, &recording, run, &mut lent)?;
            }
        }
    }
    Ok(())
}

#[test]
fn plans(rt: HostRuntime) -> Result<(), Fail> {
    for table in [KINDS, NESTED, ALIGNED, STARTED, DICTIONARIES] {
        for line in table.lines() {
            if let Err(fail) = line_holds(&rt, rt.alloc(), line) {
                let _ = eprintln!(rt; "{line}");
                return Err(fail);
            }
        }
    }
    Ok(())
}
