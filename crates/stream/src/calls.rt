//! Lists of calls.
ghost use Rattle.std.specs.Prelude.{◌≡◌};
ghost use Rattle.runs.specs.Layers.{recorded};
ghost use Rattle.runs.specs.Turns.{turn};
ghost use Rattle.stream.specs.Running.{call_of, CallTook, calls_made, run_of, Ran};
ghost use Rattle.stream.specs.Streams.{setting_of, recorded_in, state_of, Same};

use crate::stream::{Accepted, Batch, Stream};
use columns::Memory;
use dictionaries::{DictionaryUpdate, MOST_IDS};
use frames::{HeaderForm, IpcMessageSink};
use layout::Fault;
use recording::{IpcWriteOptions, Recording};

/// A call of a stream.
#[derive(Clone, Copy, Debug, PartialEq, Eq, Hash)]
pub enum Call {
    NextDictId,
    Batch(Batch),
    Clear,
    Finish,
}

/// What a call answers.
#[derive(Clone, Copy, Debug, PartialEq, Eq, Hash)]
pub enum Answer {
    Refused(Fault),
    Given(u64),
    Accepted(Accepted),
    Cleared,
    Finished,
}

impl<'a, F: HeaderForm + Drop, S: IpcMessageSink + Drop> Stream<'a, F, S> {
    /// Makes a call. Only a batch writes to the memory and the places for updates.
    pub fn call(
        &mut self,
        call: Call,
        memory: &mut Memory,
        updates: &mut [DictionaryUpdate; MOST_IDS],
    ) -> Answer
        ensures took { CallTook (turn (setting_of F.header S.cost self.old) (recorded_in self.old) (call_of call memory.old) (state_of S.meaning self.old))
            result (state_of S.meaning self.new) memory.old memory.new updates.old updates.new }
        ensures same { Same self.old self.new }
        ensures memories { S.memories self.new.sink ≡ S.memories self.old.sink }
    {
        match call {
            Call::NextDictId => match self.next_dict_id() {
                Ok(id) => Answer::Given(id),
                Err(fault) => Answer::Refused(fault),
            },
            Call::Batch(batch) => match self.batch(batch, memory, updates) {
                Ok(accepted) => Answer::Accepted(accepted),
                Err(fault) => Answer::Refused(fault),
            },
            Call::Clear => match self.clear() {
                Ok(()) => Answer::Cleared,
                Err(fault) => Answer::Refused(fault),
            },
            Call::Finish => match self.finish() {
                Ok(()) => Answer::Finished,
                Err(fault) => Answer::Refused(fault),
            },
        }
    }
}

/// Makes calls to a new stream over a recording, one after another, and answers each; it gives the stream back. A call is made
/// where there is a memory, and places for its updates and its answer.
pub fn run<'a, 'm, F: HeaderForm + Drop, S: IpcMessageSink + Drop>(
    recording: Recording<'a>,
    options: IpcWriteOptions,
    form: F,
    sink: S,
    calls: &[Call],
    memories: &mut [Memory<'m>],
    updates: &mut [[DictionaryUpdate; MOST_IDS]],
    answers: &mut [Answer],
) -> Stream<'a, F, S>
    ensures ran { Ran (run_of (record { options = options; form = F.header form; cost = S.cost }) (recorded recording.entry) calls.now memories.old (calls_made calls.now memories.old updates.old answers.old) (S.meaning sink))
        (state_of S.meaning result) answers.old answers.new memories.old memories.new updates.old updates.new }
    ensures same_recording { result.recording ≡ recording.entry }
    ensures same_options { result.options ≡ options }
    ensures same_form { result.form ≡ form }
    ensures memories { S.memories result.sink ≡ S.memories sink }
{
    let mut stream = Stream::new(recording, options, form, sink);
    let count = calls
        .len()
        .min(memories.len())
        .min(updates.len())
        .min(answers.len());
    for i in 0..count {
        answers[i] = stream.call(calls[i], &mut memories[i], &mut updates[i]);
    }
    stream
}
