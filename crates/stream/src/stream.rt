//! A stream, and its calls.
ghost use Rattle.std.specs.Prelude.{◌≡◌, ◌≤◌, length};
ghost use Rattle.dictionaries.specs.Walking.{updates_in};
ghost use Rattle.columns.specs.Lists.{over};
ghost use Rattle.frames.specs.Sinks.{SinkMeaning};
ghost use Rattle.runs.specs.Calls.{Call};
ghost use Rattle.runs.specs.Layers.{recorded, lent_by};
ghost use Rattle.runs.specs.Turns.{turn, new_stream};
ghost use Rattle.dictionaries.specs.Tracking.{kept_windows};
ghost use Rattle.stream.specs.Batches.{BatchTook, Placed};
ghost use Rattle.stream.specs.Streams.{setting_of, recorded_in, state_of, Same, Took, id_answer, clear_answer, finish_answer};

use columns::Memory;
use dictionaries::{DictionaryTracker, DictionaryUpdate, MOST_IDS, MetDictionary};
use frames::{HeaderForm, IpcMessageSink, write_eos, write_to_sink};
use layout::{Fault, Refusal};
use recording::{IpcWriteOptions, Recording};

/// A batch is refused once so many messages went.
const MOST_MESSAGES: u32 = 4_000_000_000;

/// Messages over one recording to one sink, with one header form. The three are its own: no call exchanges them.
#[derive(Drop)]
pub struct Stream<'a, F, S> {
    recording: Recording<'a>,
    options: IpcWriteOptions,
    form: F,
    sink: S,
    tracker: DictionaryTracker,
    messages: u32,
    ended: bool,
}

/// The columns of a batch: so many nodes side by side, from a node on, which have so many rows.
#[derive(Clone, Copy, Debug, PartialEq, Eq, Hash)]
pub struct Batch {
    pub first: usize,
    pub columns: u64,
    pub rows: u64,
}

/// How many dictionaries a batch met, and how many messages it sent.
#[derive(Clone, Copy, Debug, PartialEq, Eq, Hash)]
pub struct Accepted {
    pub updates: usize,
    pub messages: usize,
}

impl<'a, F: HeaderForm + Drop, S: IpcMessageSink + Drop> Stream<'a, F, S> {
    /// A stream with no id, nothing kept and no message.
    pub fn new(
        recording: Recording<'a>,
        options: IpcWriteOptions,
        form: F,
        sink: S,
    ) -> Stream<'a, F, S>
        ensures recording { result.recording ≡ recording.entry }
        ensures options { result.options ≡ options }
        ensures form { result.form ≡ form }
        ensures sink { result.sink ≡ sink }
        ensures state { state_of S.meaning result ≡ new_stream (S.meaning sink) }
    {
        Stream {
            recording,
            options,
            form,
            sink,
            tracker: DictionaryTracker::new(),
            messages: 0,
            ended: false,
        }
    }

    /// The next id: 0, and then the last plus one; refused once the stream has ended, and where 64 are given out.
    pub fn next_dict_id(&mut self) -> Result<u64, Fault>
        ensures took { Took (turn (setting_of F.header S.cost self.old) (recorded_in self.old) Call.next_id (state_of S.meaning self.old)) (id_answer result) (state_of S.meaning self.new) }
        ensures same { Same self.old self.new }
        ensures memories { S.memories self.new.sink ≡ S.memories self.old.sink }
    {
        if self.ended {
            return Err(Refusal::Ended.into());
        }
        self.tracker.next_dict_id()
    }

    /// Takes back all ids, and with them what is kept; refused once the stream has ended.
    pub fn clear(&mut self) -> Result<(), Fault>
        ensures took { Took (turn (setting_of F.header S.cost self.old) (recorded_in self.old) Call.clear (state_of S.meaning self.old)) (clear_answer result) (state_of S.meaning self.new) }
        ensures same { Same self.old self.new }
        ensures memories { S.memories self.new.sink ≡ S.memories self.old.sink }
    {
        if self.ended {
            return Err(Refusal::Ended.into());
        }
        self.tracker.clear();
        Ok(())
    }

    /// The frames of a batch and of the dictionaries that it meets. Refused once the stream has ended, and after 4,000,000,000
    /// messages; then as `Recording::columns`, `DictionaryTracker::collect_all_dicts` and `write_to_sink` refuse.
    pub fn batch(
        &mut self,
        batch: Batch,
        memory: &mut Memory,
        updates: &mut [DictionaryUpdate; MOST_IDS],
    ) -> Result<Accepted, Fault>
        ensures took { BatchTook (turn (setting_of F.header S.cost self.old) (recorded_in self.old) (Call.batch batch.first batch.columns batch.rows (lent_by memory.old)) (state_of S.meaning self.old))
            result (state_of S.meaning self.new) memory.old memory.new updates.old updates.new }
        ensures placed { Placed self.old.recording self.old.options (kept_windows self.old.tracker) batch.first batch.columns batch.rows memory.old memory.new result }
        ensures same { Same self.old self.new }
        ensures memories { S.memories self.new.sink ≡ S.memories self.old.sink }
    {
        if self.ended || self.messages >= MOST_MESSAGES {
            return Err(Refusal::Ended.into());
        }
        let columns = self
            .recording
            .columns(batch.first, batch.columns, batch.rows)?;
        let met = self.tracker.collect_all_dicts(&columns, &self.options)?;
        let messages = write_to_sink(
            &columns,
            met.as_slice(),
            &self.options,
            &self.form,
            self.messages,
            &mut self.sink,
            memory,
        )?;
        self.tracker.keep(met.as_slice());
        self.messages += messages as u32;
        write_updates(met.as_slice(), updates);
        Ok(Accepted {
            updates: met.len(),
            messages,
        })
    }

    /// Writes the end mark; refused once the stream has ended, and where the sink has no room for it. After it every call is
    /// refused.
    pub fn finish(&mut self) -> Result<(), Fault>
        ensures took { Took (turn (setting_of F.header S.cost self.old) (recorded_in self.old) Call.finish (state_of S.meaning self.old)) (finish_answer result) (state_of S.meaning self.new) }
        ensures same { Same self.old self.new }
        ensures memories { S.memories self.new.sink ≡ S.memories self.old.sink }
    {
        if self.ended {
            return Err(Refusal::Ended.into());
        }
        write_eos(&mut self.sink)?;
        self.ended = true;
        Ok(())
    }
}

// The updates of dictionaries, from the first place on.
fn write_updates(met: &[MetDictionary], updates: &mut [DictionaryUpdate; MOST_IDS])
    requires { length met.now ≤ 64 }
    ensures { updates.new ≡ over updates.old 0 (updates_in met.now) }
{
    for id in 0..met.len() {
        updates[id] = met[id].update;
    }
}
