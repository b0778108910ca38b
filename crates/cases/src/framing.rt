//! Frames of batches, line by line of the tables: in sinks with just enough room, with more, and with too little.
use crate::frames_table::{ALIGNED, DICTIONARIES, HEADERLESS, LONGEST, WORKED};
use crate::planning::{Batch, Lengths, Lent, last_batch, options};
use crate::refusals::{nodes, numbers};
use columns::plan_batch;
use frames::{
    Buffers, ByteSink, IpcMessageSink, Numbers, Room, Supplied, write_eos, write_to_sink,
};
use layout::{Fault, Refusal};
use recording::Recording;
use std::alloc::Global;
use std::process::Abort;
use std::test::Fail;

// What the memory of a sink holds after what it holds at first, and its table of pieces.
const FREE: u8 = 0xc3;

const NO_PIECE: usize = 77_777;

// A text, and how often it stands where it is.
fn counted(text: &str) -> Result<(&str, usize), Fail> {
    match text.split_once('*') {
        Some((text, count)) => Ok((text, count.trim().parse::<usize>()?)),
        None => Ok((text, 1)),
    }
}

fn bytes(heap: Global, text: &str) -> Result<Vec<u8>, Fail> {
    let mut all = Vec::new(heap);
    for word in text.split_whitespace() {
        let (pair, count) = counted(word)?;
        let byte = u8::from_str_radix(pair, 16)?;
        all.extend_from_slice(vec![in heap; byte; count]?.as_slice())?;
    }
    Ok(all)
}

fn piece_lengths(heap: Global, text: &str) -> Result<Vec<usize>, Fail> {
    let mut all = Vec::new(heap);
    for word in text.split_whitespace() {
        let (number, count) = counted(word)?;
        let length = number.parse::<usize>()?;
        all.extend_from_slice(vec![in heap; length; count]?.as_slice())?;
    }
    Ok(all)
}

fn node_bytes(heap: Global, text: &str) -> Result<Vec<u8>, Fail> {
    let mut all = Vec::new(heap);
    for part in text.split(',') {
        let (node, count) = counted(part)?;
        let node = nodes(heap, node)?;
        for _ in 0..count {
            all.extend_from_slice(node.as_slice())?;
        }
    }
    Ok(all)
}

// The headers that are supplied; none where the form is `Numbers`.
fn headers(heap: Global, text: &str) -> Result<Option<Vec<Vec<u8>>>, Fail> {
    if text.trim() == "numbers" {
        return Ok(None);
    }
    let mut all = Vec::new(heap);
    for header in text.split(',') {
        all.push(bytes(heap, header)?)?;
    }
    Ok(Some(all))
}

// The lengths of header and body of each message.
fn messages(heap: Global, text: &str) -> Result<Vec<(u64, u64)>, Fail> {
    let mut all = Vec::new(heap);
    for message in text.split(',') {
        match numbers(heap, message)?.as_slice() {
            [header, body] => all.push((*header, *body))?,
            [] => {}
            _ => return Err(Fail::from("a message has two lengths")),
        }
    }
    Ok(all)
}

/// What is free in a sink, and how often each make of it takes a batch.
#[derive(Clone, Copy)]
struct Trial {
    bytes: usize,
    pieces: usize,
    by_bytes: usize,
    by_pieces: usize,
}

impl Trial {
    fn parse(heap: Global, text: &str) -> Result<Trial, Fail> {
        match piece_lengths(heap, text)?.as_slice() {
            [bytes, pieces, by_bytes, by_pieces] => Ok(Trial {
                bytes: *bytes,
                pieces: *pieces,
                by_bytes: *by_bytes,
                by_pieces: *by_pieces,
            }),
            _ => Err(Fail::from("a trial has four numbers")),
        }
    }

    fn parse_all(heap: Global, text: &str) -> Result<Vec<Trial>, Fail> {
        let mut trials = Vec::new(heap);
        for trial in text.split(',') {
            trials.push(Trial::parse(heap, trial)?)?;
        }
        Ok(trials)
    }
}

// The parts of a line.
fn parts(heap: Global, text: &str) -> Result<Vec<&str>, Fail> {
    let mut all = Vec::new(heap);
    for part in text.split('|') {
        all.push(part)?;
    }
    Ok(all)
}

/// A call, and what the sink holds before it.
#[derive(Drop)]
struct Call {
    alignment: usize,
    ordinal: u32,
    batches: Vec<Batch>,
    nodes: Vec<u8>,
    run: Vec<u8>,
    needs: Lengths,
    headers: Option<Vec<Vec<u8>>>,
    before: Vec<u8>,
}

impl Call {
    fn parse(heap: Global, text: &str) -> Result<Call, Fail> {
        match parts(heap, text)?.as_slice() {
            [
                alignment,
                ordinal,
                batches,
                table,
                run,
                needs,
                strings,
                before,
            ] => Ok(Call {
                alignment: alignment.trim().parse::<usize>()?,
                ordinal: ordinal.trim().parse::<u32>()?,
                batches: Batch::parse_all(heap, batches)?,
                nodes: node_bytes(heap, table)?,
                run: bytes(heap, run)?,
                needs: Lengths::parse(heap, needs)?,
                headers: headers(heap, strings)?,
                before: bytes(heap, before)?,
            }),
            _ => Err(Fail::from("a call has eight parts")),
        }
    }

    // What it answers with a sink and this memory.
    fn answer<S: IpcMessageSink>(
        &self,
        heap: Global,
        recording: &Recording,
        sink: &mut S,
        lent: &mut Lent,
    ) -> Result<Result<usize, Fault>, Fail> {
        let options = options(self.alignment)?;
        let (columns, met) = last_batch(recording, self.batches.as_slice(), &options)?;
        let memory = &mut lent.memory();
        let Some(strings) = &self.headers else {
            return Ok(write_to_sink(
                &columns,
                &met,
                &options,
                &Numbers,
                self.ordinal,
                sink,
                memory,
            ));
        };
        let mut headers = Vec::new(heap);
        for string in strings.iter() {
            headers.push(string.as_slice())?;
        }
        let form = Supplied {
            headers: headers.as_slice(),
        };
        Ok(write_to_sink(&columns, &met, &options, &form, self.ordinal, sink, memory))
    }

    // The memory once the batch is planned.
    fn planned(&self, heap: Global, recording: &Recording, lengths: Lengths) -> Result<Lent, Fail> {
        let mut lent = Lent::new(heap, lengths)?;
        let options = options(self.alignment)?;
        let (columns, met) = last_batch(recording, self.batches.as_slice(), &options)?;
        let _count = plan_batch(&columns, &met, &options, &mut lent.memory())?;
        Ok(lent)
    }
}

/// A line of a table.
#[derive(Drop)]
struct Case<'a> {
    line: &'a str,
    call: Call,
    messages: Vec<(u64, u64)>,
    metadata: Vec<u8>,
    pieces: Vec<usize>,
    frames: Vec<u8>,
    refusal: u32,
    trials: Vec<Trial>,
}

impl<'x> Case<'x> {
    fn parse(heap: Global, line: &'x str) -> Result<Case<'x>, Fail> {
        let (call, answer) = line.split_once('=').ok_or("no answer")?;
        match parts(heap, answer)?.as_slice() {
            [lengths, metadata, pieces, frames, refusal, trials] => Ok(Case {
                line,
                call: Call::parse(heap, call)?,
                messages: messages(heap, lengths)?,
                metadata: bytes(heap, metadata)?,
                pieces: piece_lengths(heap, pieces)?,
                frames: bytes(heap, frames)?,
                refusal: refusal.trim().parse::<u32>()?,
                trials: Trial::parse_all(heap, trials)?,
            }),
            _ => Err(Fail::from("an answer has six parts")),
        }
    }

    // The memory once the frames are written: as it was planned, with the lengths and the metadata.
    fn written(&self, heap: Global, recording: &Recording, lengths: Lengths) -> Result<Lent, Fail> {
        let mut lent = self.call.planned(heap, recording, lengths)?;
        for (message, told) in lent.messages.iter_mut().zip(self.messages.iter()) {
            message.lengths = *told;
        }
        for (byte, put) in lent.metadata.iter_mut().zip(self.metadata.iter()) {
            *byte = *put;
        }
        Ok(lent)
    }

    // What is free of a trial's room after so many batches.
    fn room<S: IpcMessageSink>(&self, trial: &Trial, times: usize) -> Room {
        let bytes = self.frames.len().saturating_mul(times);
        let pieces = self.pieces.len().saturating_mul(times);
        // One whose pieces cost nothing has none free.
        let left = trial.pieces.saturating_sub(pieces) as u64;
        Room {
            bytes: trial.bytes.saturating_sub(bytes) as u64,
            pieces: left.saturating_mul(S::price()),
        }
    }

    // A sink takes the batch so often, and then refuses it. Of the memory only what the answer says is changed.
    fn goes<S: IpcMessageSink>(
        &self,
        rt: &impl Abort,
        heap: Global,
        recording: &Recording,
        lengths: Lengths,
        sink: &mut S,
        times: usize,
    ) -> Result<(), Fail> {
        let line = self.line;
        for _ in 0..times {
            let mut lent = Lent::new(heap, lengths)?;
            let answer = self.call.answer(heap, recording, sink, &mut lent)?;
            assert_eq!(rt; answer, Ok(self.messages.len()), "{line}");
            assert!(rt; lent == self.written(heap, recording, lengths)?, "{line}");
        }
        let mut lent = Lent::new(heap, lengths)?;
        let answer = self.call.answer(heap, recording, sink, &mut lent)?;
        let told = answer.map_err(|fault| (fault.number(), fault.column, fault.node));
        assert_eq!(rt; told, Err((self.refusal, 0, 0)), "{line}");
        assert!(rt;
            lent == self.call.planned(heap, recording, lengths)?,
            "{line}"
        );
        Ok(())
    }

    // The memory of a sink with so many bytes free at first, after so many batches.
    fn memory(&self, heap: Global, free: usize, times: usize) -> Result<Vec<u8>, Fail> {
        let mut memory = Vec::new(heap);
        memory.extend_from_slice(self.call.before.as_slice())?;
        for _ in 0..times {
            memory.extend_from_slice(self.frames.as_slice())?;
        }
        let len = self.call.before.len().saturating_add(free);
        memory.resize(len, FREE)?;
        Ok(memory)
    }

    // The table of pieces of a sink with so many free at first, after so many batches.
    fn table(&self, heap: Global, free: usize, times: usize) -> Result<Vec<usize>, Fail> {
        let mut table = Vec::new(heap);
        for _ in 0..times {
            table.extend_from_slice(self.pieces.as_slice())?;
        }
        table.resize(free, NO_PIECE)?;
        Ok(table)
    }

    fn goes_to_bytes(
        &self,
        rt: &impl Abort,
        heap: Global,
        recording: &Recording,
        lengths: Lengths,
        trial: &Trial,
    ) -> Result<(), Fail> {
        let (line, times) = (self.line, trial.by_bytes);
        let before = self.call.before.len();
        let mut memory = self.memory(heap, trial.bytes, 0)?;
        let mut sink = ByteSink::new(memory.as_mut_slice(), before);
        self.goes(rt, heap, recording, lengths, &mut sink, times)?;
        assert_eq!(rt; sink.free(), self.room::<ByteSink>(trial, times), "{line}");
        let written = self.frames.len().saturating_mul(times);
        assert_eq!(rt; sink.held().len(), before.saturating_add(written), "{line}");
        assert!(rt; memory == self.memory(heap, trial.bytes, times)?, "{line}");
        Ok(())
    }

    fn goes_to_buffers(
        &self,
        rt: &impl Abort,
        heap: Global,
        recording: &Recording,
        lengths: Lengths,
        trial: &Trial,
    ) -> Result<(), Fail> {
        let (line, times) = (self.line, trial.by_pieces);
        let before = self.call.before.len();
        let mut memory = self.memory(heap, trial.bytes, 0)?;
        let mut table = self.table(heap, trial.pieces, 0)?;
        let mut sink = Buffers::new(memory.as_mut_slice(), before, table.as_mut_slice());
        self.goes(rt, heap, recording, lengths, &mut sink, times)?;
        assert_eq!(rt; sink.free(), self.room::<Buffers>(trial, times), "{line}");
        let written = self.frames.len().saturating_mul(times);
        assert_eq!(rt; sink.held().len(), before.saturating_add(written), "{line}");
        let pieces = self.pieces.len().saturating_mul(times);
        assert_eq!(rt; sink.lengths().len(), pieces, "{line}");
        assert!(rt; memory == self.memory(heap, trial.bytes, times)?, "{line}");
        assert!(rt; table == self.table(heap, trial.pieces, times)?, "{line}");
        Ok(())
    }

    // A memory that is shorter by one is refused first, whatever the headers and the room are; and all is as it was.
    fn refuses_memory(
        &self,
        rt: &impl Abort,
        heap: Global,
        recording: &Recording,
    ) -> Result<(), Fail> {
        let line = self.line;
        for column in 0..5u64 {
            if let Some(lengths) = self.call.needs.shorter(column) {
                let mut memory = self.memory(heap, 0, 0)?;
                let mut sink = ByteSink::new(memory.as_mut_slice(), self.call.before.len());
                let mut lent = Lent::new(heap, lengths)?;
                let answer = self.call.answer(heap, recording, &mut sink, &mut lent)?;
                assert_eq!(rt;
                    answer,
                    Err(Fault::new(Refusal::Memory, column, 0)),
                    "{line}"
                );
                assert!(rt; lent == Lent::new(heap, lengths)?, "{line}");
                assert!(rt; memory == self.memory(heap, 0, 0)?, "{line}");
            }
        }
        Ok(())
    }
}

// A line of a table holds: for each of its trials, in just the memory that it needs and in more; and in less memory.
fn line_holds(rt: &impl Abort, heap: Global, line: &str) -> Result<(), Fail> {
    let case = Case::parse(heap, line)?;
    let recording = Recording::try_new(case.call.nodes.as_slice(), case.call.run.as_slice())?;
    for lengths in [case.call.needs, case.call.needs.longer()] {
        for trial in case.trials.iter() {
            case.goes_to_bytes(rt, heap, &recording, lengths, trial)?;
            case.goes_to_buffers(rt, heap, &recording, lengths, trial)?;
        }
    }
    case.refuses_memory(rt, heap, &recording)
}

#[test]
fn framed(rt: HostRuntime) -> Result<(), Fail> {
    for table in [WORKED, ALIGNED, DICTIONARIES, LONGEST, HEADERLESS] {
        for line in table.lines() {
            if let Err(fail) = line_holds(&rt, rt.alloc(), line) {
                let _ = eprintln!(rt; "{line}");
                return Err(fail);
            }
        }
    }
    Ok(())
}

// What a sink holds before an end mark.
const HELD: [u8; 3] = [0xb0, 0xb1, 0xb2];

const END_MARK: [u8; 8] = [0xff, 0xff, 0xff, 0xff, 0, 0, 0, 0];

// How many bytes and pieces are free, and whether each make of sink takes an end mark.
const ENDS: [(usize, usize, bool, bool); 5] = [
    (8, 1, true, true),
    (7, 1, false, false),
    (8, 0, true, false),
    (7, 0, false, false),
    (9, 2, true, true),
];

// The memory of a sink with so many bytes free at first, after an end mark or before.
fn ended(heap: Global, free: usize, ends: bool) -> Result<Vec<u8>, Fail> {
    let mut memory = HELD.to_vec(heap)?;
    if ends {
        memory.extend_from_slice(&END_MARK)?;
    }
    memory.resize(HELD.len().saturating_add(free), FREE)?;
    Ok(memory)
}

// A sink takes the end mark, or refuses it.
fn end<S: IpcMessageSink>(rt: &impl Abort, sink: &mut S, takes: bool) {
    let free = sink.free().bytes;
    let (answer, used) = if takes {
        (Ok(()), 8)
    } else {
        (Err(Fault::from(Refusal::Sink)), 0)
    };
    assert_eq!(rt; write_eos(sink), answer, "{free} bytes free");
    assert_eq!(rt;
        sink.free().bytes,
        free.saturating_sub(used),
        "{free} bytes free"
    );
}

#[test]
fn end_marks(rt: HostRuntime) -> Result<(), Fail> {
    let heap = rt.alloc();
    for (bytes, pieces, by_bytes, by_pieces) in ENDS {
        let mut memory = ended(heap, bytes, false)?;
        let mut sink = ByteSink::new(memory.as_mut_slice(), HELD.len());
        end(&rt, &mut sink, by_bytes);
        assert_eq!(rt; memory, ended(heap, bytes, by_bytes)?);
        let mut memory = ended(heap, bytes, false)?;
        let mut table = vec![in heap; NO_PIECE; pieces]?;
        let mut sink = Buffers::new(memory.as_mut_slice(), HELD.len(), table.as_mut_slice());
        end(&rt, &mut sink, by_pieces);
        let lengths: &[usize] = if by_pieces { &[8] } else { &[] };
        assert_eq!(rt;
            sink.lengths(),
            lengths,
            "{bytes} bytes and {pieces} pieces free"
        );
        assert_eq!(rt; memory, ended(heap, bytes, by_pieces)?);
    }
    Ok(())
}
