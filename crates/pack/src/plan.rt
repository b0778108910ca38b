//! The messages of a batch, and what is printed of them.
ghost use Rattle.std.specs.Prelude.{MatchResult};
ghost use Rattle.pack.specs.Planned.{IsPlanned, IsUnplanned};

use crate::calls::{Opened, show_fault, show_met};
use crate::memory::Memories;
use crate::told::tell_messages;
use columns::{Memory, plan_batch};
use dictionaries::{DictionaryTracker, MetDictionaries};
use layout::Fault;
use orders::{Batch, MemorySizes};
use recording::{IpcWriteOptions, Recording};
use std::io;

/// A batch that is planned: the dictionaries that it meets, and how many messages it has.
#[derive(Drop)]
struct PlannedBatch {
    met: MetDictionaries,
    messages: usize,
}

/// Prints the updates of a batch and its messages, or why they are not planned.
pub(crate) fn show_plan(
    rt: &(impl Print + AllocGlobal),
    opened: &Opened,
    batch: Batch,
    sizes: &MemorySizes,
    tracker: &mut DictionaryTracker,
) -> io::Result<()> {
    let mut memories = Memories::new(rt.alloc(), sizes)?;
    let mut memory = memories.lend();
    match plan(
        &opened.recording,
        &opened.options,
        batch,
        tracker,
        &mut memory,
    ) {
        Ok(planned) => {
            show_met(rt, &planned.met)?;
            show_messages(rt, opened, &memory, planned.messages)
        }
        Err(fault) => show_fault(rt, fault),
    }
}

// The messages of a batch, planned in lent memory, whose dictionaries' new values are kept; or why it is not planned: then
// what is kept stays, and what the memory holds.
fn plan(
    recording: &Recording,
    options: &IpcWriteOptions,
    batch: Batch,
    tracker: &mut DictionaryTracker,
    memory: &mut Memory,
) -> Result<PlannedBatch, Fault>
    ensures { MatchResult result
        (λ planned. IsPlanned recording.now options.now batch tracker.old tracker.new memory.old memory.new planned)
        (IsUnplanned recording.now options.now batch tracker.old tracker.new memory.old memory.new) }
{
    let Batch {
        first,
        columns,
        rows,
    } = batch;
    let columns = recording.columns(first as usize, columns, rows)?;
    let met = tracker.collect_all_dicts(&columns, options)?;
    let messages = plan_batch(&columns, &met, options, memory)?;
    tracker.keep(&met);
    Ok(PlannedBatch { met, messages })
}

// Prints the messages that stand at the front of the memories.
fn show_messages(
    rt: &(impl Print + AllocGlobal),
    opened: &Opened,
    memory: &Memory,
    count: usize,
) -> io::Result<()> {
    for told in tell_messages(rt.alloc(), opened, memory, count)?.iter() {
        println!(rt; "{told}")?;
    }
    Ok(())
}
