//! The dictionaries that batches meet, and what is sent of each.
use crate::refusals::{bytes, nodes};
use dictionaries::DictionaryUpdate::{Delta, New, Replaced};
use dictionaries::{DictionaryTracker, DictionaryUpdate, DictionaryValues, MetDictionaries};
use layout::{Fault, Refusal};
use recording::{DictionaryHandling, IpcWriteOptions, Recording};
use std::alloc::Global;
use std::test::Fail;

/// An update, and how many rows are sent.
type Sent = (DictionaryUpdate, u64);

// Of a dictionary that is what was kept.
const NOTHING: Sent = (DictionaryUpdate::None, 0);

/// The two runs of a recording.
#[derive(Drop)]
struct Runs {
    nodes: Vec<u8>,
    bytes: Vec<u8>,
}

impl Runs {
    fn new(heap: Global, table: &str, run: &str) -> Result<Runs, Fail> {
        Ok(Runs {
            nodes: nodes(heap, table)?,
            bytes: bytes(heap, run)?,
        })
    }

    fn open(&self) -> Result<Recording<'_>, Fail> {
        Ok(Recording::try_new(self.nodes.as_slice(), self.bytes.as_slice())?)
    }
}

/// What a stream's batches are collected by.
#[derive(Drop)]
struct Stream<'a> {
    recording: Recording<'a>,
    options: IpcWriteOptions,
    tracker: DictionaryTracker,
}

impl<'a> Stream<'a> {
    // One with so many ids.
    fn new(
        recording: Recording<'a>,
        handling: DictionaryHandling,
        refuses: bool,
        ids: u64,
    ) -> Result<Stream<'a>, Fail> {
        let mut tracker = DictionaryTracker::new();
        for _ in 0..ids {
            let _id = tracker.next_dict_id()?;
        }
        Ok(Stream {
            recording,
            options: IpcWriteOptions::default()
                .with_dictionary_handling(handling)
                .with_error_on_replacement(refuses),
            tracker,
        })
    }

    // Collects so many columns without rows, whose dictionaries are met whole all the same, and keeps what is sent.
    fn collect(&mut self, first: usize, columns: u64) -> Result<MetDictionaries, Fault> {
        let columns = self.recording.columns(first, columns, 0)?;
        let met = self.tracker.collect_all_dicts(&columns, &self.options)?;
        self.tracker.keep(&met);
        Ok(met)
    }

    // What is sent of each dictionary that is collected.
    fn updates<const N: usize>(&mut self, first: usize, columns: u64) -> Result<[Sent; N], Fail> {
        let met = self.collect(first, columns)?;
        if met.len() != N {
            return Err(Fail::from("more dictionaries are met, or fewer"));
        }
        let mut updates = [NOTHING; N];
        for (update, dictionary) in updates.iter_mut().zip(met.iter()) {
            *update = (
                dictionary.update,
                dictionary.to_encode(0).map_or(0, |sent| sent.rows),
            );
        }
        Ok(updates)
    }

    // The number of the refusal, and the column and the node that it names.
    fn refusal(&mut self, first: usize, columns: u64) -> Result<(u32, u64, u64), Fail> {
        match self.collect(first, columns) {
            Ok(_) => Err(Fail::from("nothing is refused")),
            Err(fault) => Ok((fault.number(), fault.column, fault.node)),
        }
    }
}

// Dictionaries of byte strings, one after another; below, each by its node.
const STRINGS: &str =
    "8 0 1 0 0 0 0 0 0 2, 3 0 0 2 0 0 0 16 2 1, 8 0 1 0 0 0 0 0 0 2, 3 0 0 2 0 0 0 19 2 1, \
     8 0 1 0 0 0 0 0 0 2, 3 0 0 2 0 0 0 21 2 1, 8 0 1 0 0 0 0 0 0 2, 3 0 0 3 0 0 0 16 3 1, \
     8 0 1 0 0 0 0 0 0 2, 3 0 0 3 0 0 0 21 3 1, 8 0 1 0 0 0 0 0 0 2, 3 0 0 1 0 0 0 16 1 1, \
     8 0 1 0 0 0 0 0 0 2, 3 0 0 0 0 0 0 16 0 1, 8 0 1 0 0 0 0 0 0 2, 3 9 0 0 0 0 0 16 0 1";

const STRING_BYTES: &str =
    "00 00 00 00 01 00 00 00 02 00 00 00 03 00 00 00 61 62 63 61 62 61 63 64";

const AB: usize = 0;

const AB_AGAIN: usize = 2;

const AC: usize = 4;

const ABC: usize = 6;

const ACD: usize = 8;

const A: usize = 10;

const EMPTY: usize = 12;
// With another mark.
const EMPTY_MARKED: usize = 14;

// What was kept, what is new, and what is sent of it, under Resend and under Delta handling.
const UPDATES: [(usize, usize, Sent, Sent); 9] = [
    (AB, AB, NOTHING, NOTHING),
    (AB, AB_AGAIN, NOTHING, NOTHING),
    (AB, AC, (Replaced, 2), (Replaced, 2)),
    (AB, ABC, (Replaced, 3), (Delta(2), 1)),
    (AB, ACD, (Replaced, 3), (Replaced, 3)),
    (AB, A, (Replaced, 1), (Replaced, 1)),
    (EMPTY, A, (Replaced, 1), (Delta(0), 1)),
    (EMPTY, AB, (Replaced, 2), (Delta(0), 2)),
    (EMPTY, EMPTY_MARKED, (Replaced, 0), (Replaced, 0)),
];

// A stream with one id, under which a dictionary is kept.
fn keeping<'a>(
    recording: Recording<'a>,
    handling: DictionaryHandling,
    refuses: bool,
    kept: usize,
) -> Result<Stream<'a>, Fail> {
    let mut stream = Stream::new(recording, handling, refuses, 1)?;
    let _met = stream.collect(kept, 1)?;
    Ok(stream)
}

#[test]
fn updates(rt: HostRuntime) -> Result<(), Fail> {
    let runs = Runs::new(rt.alloc(), STRINGS, STRING_BYTES)?;
    let recording = runs.open()?;
    for (kept, new, resent, grown) in UPDATES {
        let resend = DictionaryHandling::Resend;
        for (handling, sent) in [(resend, resent), (DictionaryHandling::Delta, grown)] {
            let mut stream = keeping(recording, handling, false, kept)?;
            let mut strict = keeping(recording, handling, true, kept)?;
            assert_eq!(rt;
                stream.updates(new, 1)?,
                [sent],
                "{handling:?}: {kept}, then {new}"
            );
            // Where replacements are refused, no other update is.
            if sent.0 == Replaced {
                assert_eq!(rt; strict.refusal(new, 1)?, (13, 0, 0), "{kept}, then {new}");
            } else {
                assert_eq!(rt; strict.updates(new, 1)?, [sent], "{kept}, then {new}");
            }
        }
    }
    Ok(())
}

#[test]
fn nothing_kept(rt: HostRuntime) -> Result<(), Fail> {
    let runs = Runs::new(rt.alloc(), STRINGS, STRING_BYTES)?;
    for handling in [DictionaryHandling::Resend, DictionaryHandling::Delta] {
        for refuses in [false, true] {
            let mut stream = Stream::new(runs.open()?, handling, refuses, 2)?;
            assert_eq!(rt; stream.updates(AB, 1)?, [(New, 2)]);
            // What is kept under one id says nothing of another.
            assert_eq!(rt; stream.updates(AB, 2)?, [NOTHING, (New, 2)]);
            // No rows are a dictionary too.
            let mut stream = Stream::new(runs.open()?, handling, refuses, 1)?;
            assert_eq!(rt; stream.updates(EMPTY, 1)?, [(New, 0)]);
            assert_eq!(rt; stream.updates(EMPTY, 1)?, [NOTHING]);
        }
    }
    Ok(())
}

// Lists, the first of them null over two elements, over one, and then the same one where it is not null.
const LISTS: &str =
    "8 0 1 0 0 0 0 0 0 3, 5 0 0 2 0 1 1 0 0 2, 2 0 1 3 0 0 25 0 0 1, 8 0 1 0 0 0 0 0 0 3, 5 0 0 2 0 1 13 0 0 2, \
     2 0 1 2 0 0 28 0 0 1, 8 0 1 0 0 0 0 0 0 3, 5 0 0 2 0 0 13 0 0 2, 2 0 1 2 0 0 28 0 0 1";

const LIST_BYTES: &str =
    "02 00 00 00 00 02 00 00 00 03 00 00 00 00 00 00 00 01 00 00 00 02 00 00 00 01 02 07 09 07";

#[test]
fn what_a_null_hides(rt: HostRuntime) -> Result<(), Fail> {
    let runs = Runs::new(rt.alloc(), LISTS, LIST_BYTES)?;
    let mut stream = Stream::new(runs.open()?, DictionaryHandling::Resend, false, 1)?;
    assert_eq!(rt; stream.updates(0, 1)?, [(New, 2)]);
    assert_eq!(rt; stream.updates(3, 1)?, [NOTHING]);
    assert_eq!(rt; stream.updates(6, 1)?, [(Replaced, 2)]);
    Ok(())
}

// Two dictionaries of Structs of nulls, with all the rows that a node may have.
const MANY_ROWS: &str =
    "8 0 1 0 0 0 0 0 0 3, 7 0 0 2147483647 0 0 0 0 0 2, 0 0 0 2147483647 0 0 0 0 0 1, \
     8 0 1 0 0 0 0 0 0 3, 7 0 0 2147483647 0 0 0 0 0 2, 0 0 0 2147483647 0 0 0 0 0 1";

// It would not end in time if the rows were compared one by one.
#[test]
fn many_rows(rt: HostRuntime) -> Result<(), Fail> {
    let runs = Runs::new(rt.alloc(), MANY_ROWS, "")?;
    let mut stream = Stream::new(runs.open()?, DictionaryHandling::Resend, false, 1)?;
    assert_eq!(rt; stream.updates(0, 1)?, [(New, 2_147_483_647)]);
    assert_eq!(rt; stream.updates(3, 1)?, [NOTHING]);
    Ok(())
}

// Dictionaries with one row and with two; and a dictionary above one.
const ABOVE: &str =
    "8 0 1 0 0 0 0 0 0 2, 0 0 0 1 0 0 0 0 0 1, 8 0 1 0 0 0 0 0 0 2, 0 0 0 2 0 0 0 0 0 1, \
     8 0 1 0 0 0 0 0 0 3, 8 0 1 0 0 0 0 0 0 2, 0 0 0 0 0 0 0 0 0 1";

#[test]
fn the_first_refusal(rt: HostRuntime) -> Result<(), Fail> {
    let runs = Runs::new(rt.alloc(), ABOVE, "")?;
    let mut stream = Stream::new(runs.open()?, DictionaryHandling::Resend, true, 1)?;
    assert_eq!(rt; stream.updates(0, 1)?, [(New, 1)]);
    assert_eq!(rt; stream.refusal(2, 2)?, (13, 0, 0));
    // Without it there is the other, for which an id is not asked.
    let mut stream = Stream::new(runs.open()?, DictionaryHandling::Resend, false, 1)?;
    assert_eq!(rt; stream.updates(0, 1)?, [(New, 1)]);
    assert_eq!(rt; stream.refusal(2, 2)?, (11, 1, 0));
    Ok(())
}

// A column of nulls; then a Struct of nulls and a dictionary of lists of Structs with a dictionary.
const DEEP: &str =
    "0 0 0 0 0 0 0 0 0 1, 7 0 0 0 0 0 0 0 0 8, 0 0 0 0 0 0 0 0 0 1, 8 0 1 0 0 0 0 0 0 6, 5 0 0 0 0 0 0 0 0 5, \
     7 0 0 0 0 0 0 0 0 4, 0 0 0 0 0 0 0 0 0 1, 8 0 1 0 0 0 0 0 0 2, 0 0 0 0 0 0 0 0 0 1";

#[test]
fn a_dictionary_above_a_dictionary(rt: HostRuntime) -> Result<(), Fail> {
    let runs = Runs::new(rt.alloc(), DEEP, "00 00 00 00")?;
    for ids in [0u64, 1, 2] {
        let mut stream = Stream::new(runs.open()?, DictionaryHandling::Resend, false, ids)?;
        assert_eq!(rt; stream.refusal(0, 2)?, (11, 1, 2), "{ids} ids");
        assert_eq!(rt; stream.refusal(1, 1)?, (11, 0, 2), "{ids} ids");
    }
    // The lower one alone is none above another.
    let mut stream = Stream::new(runs.open()?, DictionaryHandling::Resend, false, 0)?;
    assert_eq!(rt; stream.refusal(5, 1)?, (12, 0, 2));
    Ok(())
}

// A List without rows over a dictionary of two rows.
const BELOW_A_LIST: &str = "5 0 0 0 0 0 0 0 0 3, 8 0 1 1 0 0 4 0 0 2, 0 0 0 2 0 0 0 0 0 1";

#[test]
fn a_dictionary_below_no_rows(rt: HostRuntime) -> Result<(), Fail> {
    let runs = Runs::new(rt.alloc(), BELOW_A_LIST, "00 00 00 00 01")?;
    let mut stream = Stream::new(runs.open()?, DictionaryHandling::Resend, false, 1)?;
    assert_eq!(rt; stream.updates(0, 1)?, [(New, 2)]);
    assert_eq!(rt; stream.updates(0, 1)?, [NOTHING]);
    Ok(())
}

#[test]
fn ids(rt: HostRuntime) -> Result<(), Fail> {
    let runs = Runs::new(rt.alloc(), STRINGS, STRING_BYTES)?;
    let mut stream = Stream::new(runs.open()?, DictionaryHandling::Resend, false, 0)?;
    for id in 0..64 {
        assert_eq!(rt; stream.tracker.next_dict_id(), Ok(id));
    }
    assert_eq!(rt;
        stream.tracker.next_dict_id(),
        Err(Fault::new(Refusal::Ids, 0, 0))
    );
    assert_eq!(rt; stream.updates(AB, 1)?, [(New, 2)]);
    assert_eq!(rt;
        stream.tracker.kept(0),
        Some(DictionaryValues {
            node: AB + 1,
            rows: 2
        })
    );
    stream.tracker.clear();
    assert_eq!(rt; stream.refusal(AB, 1)?, (12, 0, 0));
    assert_eq!(rt; stream.tracker.next_dict_id(), Ok(0));
    assert_eq!(rt; stream.tracker.kept(0), None);
    assert_eq!(rt; stream.updates(AB, 1)?, [(New, 2)]);
    Ok(())
}

#[test]
fn a_refusal_keeps_what_was_kept(rt: HostRuntime) -> Result<(), Fail> {
    let runs = Runs::new(rt.alloc(), STRINGS, STRING_BYTES)?;
    let mut stream = Stream::new(runs.open()?, DictionaryHandling::Delta, true, 1)?;
    // The first of the two has an id, and is new both times.
    assert_eq!(rt; stream.refusal(AB, 2)?, (12, 1, 0));
    assert_eq!(rt; stream.updates(AB, 1)?, [(New, 2)]);
    let _id = stream.tracker.next_dict_id()?;
    assert_eq!(rt; stream.updates(AB, 2)?, [NOTHING, (New, 2)]);
    // The first of the two is grown both times.
    assert_eq!(rt; stream.refusal(ABC, 2)?, (13, 1, 0));
    assert_eq!(rt; stream.updates(ABC, 1)?, [(Delta(2), 1)]);
    Ok(())
}

#[test]
fn a_recording_that_lacks_what_is_kept(rt: HostRuntime) -> Result<(), Fail> {
    let heap = rt.alloc();
    let runs = Runs::new(heap, STRINGS, STRING_BYTES)?;
    let smaller = Runs::new(
        heap,
        "8 0 1 0 0 0 0 0 0 2, 3 0 0 1 0 0 0 16 1 1",
        STRING_BYTES,
    )?;
    // It has no such node, and of the other fewer rows.
    for kept in [ACD, AB] {
        let before = keeping(runs.open()?, DictionaryHandling::Delta, false, kept)?;
        // No stream comes to this: its recording is not exchanged.
        let mut stream = Stream {
            recording: smaller.open()?,
            options: before.options,
            tracker: before.tracker,
        };
        assert_eq!(rt; stream.updates(0, 1)?, [(Replaced, 1)], "kept {kept}");
    }
    Ok(())
}
