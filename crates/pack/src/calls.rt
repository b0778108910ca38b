//! What is printed of the calls of a case.
ghost use Rattle.std.specs.Prelude.{◌≡◌, MatchResult};
ghost use Rattle.recording.specs.View.{bytes_in};
ghost use Rattle.pack.specs.Collected.{IsCollected, IsRefused};

use crate::frame::show_frame;
use crate::memory::MOST;
use crate::plan::show_plan;
use crate::sink::CaseSink;
use crate::update::line_of;
use crate::value::RowText;
use dictionaries::{DictionaryTracker, MetDictionaries, MetDictionary};
use frames::HeaderForm;
use layout::{Fault, Node};
use orders::{Batch, Call};
use recording::{Columns, IpcWriteOptions, Recording};
use std::io;

/// A case that is opened: its recording, the bytes that this reads, and its options.
#[derive(Clone, Copy)]
pub(crate) struct Opened<'a> {
    pub recording: Recording<'a>,
    pub bytes: &'a [u8],
    pub options: IpcWriteOptions,
    ghost same: { bytes_in recording ≡ bytes.now },
}

/// Makes the calls of a case in their order, and prints what each answers.
pub(crate) fn show_calls<F: HeaderForm, S: CaseSink>(
    rt: &(impl Print + AllocGlobal),
    opened: &Opened,
    calls: &[Call],
    form: &F,
    sink: &mut S,
) -> io::Result<()> {
    let mut tracker = DictionaryTracker::new();
    let mut sizes = MOST;
    let mut ordinal = 0;
    for call in calls {
        match *call {
            Call::Show(batch) => show_columns(rt, &opened.recording, batch)?,
            Call::Id => show_id(rt, &mut tracker)?,
            Call::Collect(batch) => show_updates(rt, opened, batch, &mut tracker)?,
            Call::Lend(lent) => sizes = lent,
            Call::Plan(batch) => show_plan(rt, opened, batch, &sizes, &mut tracker)?,
            Call::Frame(batch) => show_frame(
                rt,
                opened,
                batch,
                &sizes,
                &mut tracker,
                form,
                &mut ordinal,
                sink,
            )?,
        }
    }
    Ok(())
}

/// Prints what was refused, and why.
pub(crate) fn show_fault_of(rt: &impl Print, what: &str, fault: Fault) -> io::Result<()> {
    // One write, so that nothing comes between its halves.
    println!(rt; "{what} {fault}")?;
    println!(rt; "{}", fault.refusal)
}

/// Prints a fault, and its rule in words.
pub(crate) fn show_fault(rt: &impl Print, fault: Fault) -> io::Result<()> {
    println!(rt; "{fault}")?;
    println!(rt; "{}", fault.refusal)
}

// Prints the next id, or why there is none.
fn show_id(rt: &impl Print, tracker: &mut DictionaryTracker) -> io::Result<()> {
    match tracker.next_dict_id() {
        Ok(id) => println!(rt; "id {id}"),
        Err(fault) => show_fault(rt, fault),
    }
}

// Prints a line for each dictionary that a batch meets, or why they are not collected.
fn show_updates(
    rt: &impl Print,
    opened: &Opened,
    batch: Batch,
    tracker: &mut DictionaryTracker,
) -> io::Result<()> {
    match collect(&opened.recording, &opened.options, batch, tracker) {
        Ok(met) => show_met(rt, &met),
        Err(fault) => show_fault(rt, fault),
    }
}

/// Prints a line for each dictionary that is met.
pub(crate) fn show_met(rt: &impl Print, met: &[MetDictionary]) -> io::Result<()> {
    // The j-th dictionary has the j-th id.
    for (id, dictionary) in met.iter().enumerate() {
        println!(rt; "{}", line_of(id as u64, dictionary))?;
    }
    Ok(())
}

// The dictionaries that a batch meets, whose new values are kept, or why they are not collected: then what is kept stays.
fn collect(
    recording: &Recording,
    options: &IpcWriteOptions,
    batch: Batch,
    tracker: &mut DictionaryTracker,
) -> Result<MetDictionaries, Fault>
    ensures { MatchResult result
        (λ met. IsCollected recording.now options.now batch tracker.old tracker.new met.items)
        (IsRefused recording.now options.now batch tracker.old tracker.new) }
{
    let Batch {
        first,
        columns,
        rows,
    } = batch;
    let columns = recording.columns(first as usize, columns, rows)?;
    let met = tracker.collect_all_dicts(&columns, options)?;
    tracker.keep(&met);
    Ok(met)
}

// Prints the rows of the columns of a batch, or why they are none.
fn show_columns(rt: &impl Print, recording: &Recording, batch: Batch) -> io::Result<()> {
    let Batch {
        first,
        columns,
        rows,
    } = batch;
    match recording.columns(first as usize, columns, rows) {
        Ok(found) => {
            println!(rt; "show ok first {first} columns {columns} rows {rows}")?;
            show_kinds(rt, &found)?;
            show_rows(rt, &found)
        }
        Err(fault) => show_fault_of(rt, "show", fault),
    }
}

// A line with the kind and the mark of each column.
fn show_kinds(rt: &impl Print, columns: &Columns) -> io::Result<()> {
    print!(rt; "columns")?;
    for column in columns.nodes() {
        let Node { kind, mark, .. } = column.node();
        print!(rt; " | kind {kind} mark {mark}")?;
    }
    println!(rt; "")
}

// For each row a line with what the columns have in it.
fn show_rows(rt: &impl Print, columns: &Columns) -> io::Result<()> {
    for r in 0..columns.rows() {
        print!(rt; "row {r}")?;
        for row in columns.row(r) {
            print!(rt; " | {}", RowText(row))?;
        }
        println!(rt; "")?;
    }
    Ok(())
}
