//! The frames of a batch, and what is printed of them.
ghost use Rattle.std.specs.Prelude.{◌≡◌, option_copied, MatchResult, OnErr};
ghost use Rattle.pack.specs.Framed.{IsFramed, IsUnframed, ordinal_after, pieces_in};

use crate::body::{AppendedLine, BodyLine, PiecesLine};
use crate::calls::{Opened, show_fault, show_met};
use crate::memory::Memories;
use crate::message::FramedLine;
use crate::sink::{CaseSink, since};
use crate::told::tell_messages;
use columns::Memory;
use dictionaries::{DictionaryTracker, MetDictionaries};
use frames::{HeaderForm, write_to_sink};
use layout::Fault;
use orders::{Batch, MemorySizes};
use recording::{IpcWriteOptions, Recording};
use std::io;

/// A batch whose frames are written: the dictionaries that it meets, how many messages it has, and how many bytes and pieces
/// the sink held before.
#[derive(Drop)]
struct FramedBatch {
    met: MetDictionaries,
    messages: usize,
    held: usize,
    pieces: usize,
}

/// Prints the updates of a batch, its messages and what the sink was sent, or why it is not framed.
pub(crate) fn show_frame<F: HeaderForm, S: CaseSink>(
    rt: &(impl Print + AllocGlobal),
    opened: &Opened,
    batch: Batch,
    sizes: &MemorySizes,
    tracker: &mut DictionaryTracker,
    form: &F,
    ordinal: &mut u32,
    sink: &mut S,
) -> io::Result<()> {
    let mut memories = Memories::new(rt.alloc(), sizes)?;
    let mut memory = memories.lend();
    match frame(
        &opened.recording,
        &opened.options,
        batch,
        tracker,
        form,
        ordinal,
        sink,
        &mut memory,
    ) {
        Ok(framed) => {
            show_met(rt, &framed.met)?;
            show_messages(rt, opened, &memory, framed.messages)?;
            show_sent(rt, sink, &framed)
        }
        Err(fault) => show_fault(rt, fault),
    }
}

// The messages of a batch, planned in lent memory, whose frames are written to a sink: then their dictionaries' new values are
// kept, and the next message has the ordinal after theirs. Or why they are not: then what is kept stays, and the sink.
fn frame<F: HeaderForm, S: CaseSink>(
    recording: &Recording,
    options: &IpcWriteOptions,
    batch: Batch,
    tracker: &mut DictionaryTracker,
    form: &F,
    ordinal: &mut u32,
    sink: &mut S,
    memory: &mut Memory,
) -> Result<FramedBatch, Fault>
    ensures answer { MatchResult result
        (λ framed. IsFramed S.cost (F.header form.now) recording.now options.now batch tracker.old tracker.new ordinal.old ordinal.new memory.old memory.new
        (S.meaning sink.old) (S.meaning sink.new) framed)
        (IsUnframed S.cost (F.header form.now) recording.now options.now batch tracker.old tracker.new ordinal.old ordinal.new memory.old memory.new (S.meaning sink.old)) }
    ensures unsent { OnErr result (sink.new ≡ sink.old) }
{
    let Batch {
        first,
        columns,
        rows,
    } = batch;
    let held = sink.bytes().len();
    let pieces = count_of(sink.pieces());
    let columns = recording.columns(first as usize, columns, rows)?;
    let met = tracker.collect_all_dicts(&columns, options)?;
    let messages = write_to_sink(&columns, &met, options, form, *ordinal, sink, memory)?;
    tracker.keep(&met);
    *ordinal = next_ordinal(*ordinal, messages);
    Ok(FramedBatch {
        met,
        messages,
        held,
        pieces,
    })
}

// How many pieces a sink has, where it keeps them.
fn count_of(lengths: Option<&[usize]>) -> usize
    ensures { result ≡ pieces_in (option_copied lengths.entry) }
{
    match lengths {
        Some(lengths) => lengths.len(),
        None => 0,
    }
}

// The ordinal after so many messages. A case's sink is full long before the last.
fn next_ordinal(ordinal: u32, messages: usize) -> u32
    ensures { result ≡ ordinal_after ordinal messages }
{
    let next = u64::from(ordinal).saturating_add(messages as u64);
    next.min(u64::from(u32::MAX)) as u32
}

// Prints the messages that stand at the front of the memories, each with the lengths of its header and its body.
fn show_messages(
    rt: &(impl Print + AllocGlobal),
    opened: &Opened,
    memory: &Memory,
    count: usize,
) -> io::Result<()> {
    for told in tell_messages(rt.alloc(), opened, memory, count)?.iter() {
        println!(rt; "{}", FramedLine(told.line))?;
        println!(rt; "{}", BodyLine(&told.body))?;
    }
    Ok(())
}

// Prints what a sink was sent of a batch.
fn show_sent(rt: &impl Print, sink: &impl CaseSink, framed: &FramedBatch) -> io::Result<()> {
    if let Some(lengths) = sink.pieces() {
        println!(rt; "{}", PiecesLine(since(lengths, framed.pieces)))?;
    }
    println!(rt; "{}", AppendedLine(since(sink.bytes(), framed.held)))
}
