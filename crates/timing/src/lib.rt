//! What `bench/` calls from C to time an opening, a count of bits, a comparison of dictionaries, a plan and a frame beside plain C.
#![tactic(auto)]

mod frame;
mod plan;

ghost use Rattle.std.specs.Prelude.{◌≡◌, Ok, Err, MatchResult};
ghost use Rattle.recording.specs.View.{bytes_in};
ghost use Rattle.timing.specs.Told.{Told};
ghost use Rattle.timing.specs.Updates.{AreRecollected, TellsUpdate, update_number};
ghost use Rattle.timing.specs.Zeros.{zeros_from};

use dictionaries::{DictionaryTracker, DictionaryUpdate, MetDictionaries};
use layout::{BitSlice, Fault, bytes_for};
use recording::{IpcWriteOptions, Recording};

/// Opens node bytes and bytes; answers the number of the refusal, or 0.
// No `Result` crosses to C.
#[unsafe(no_mangle)]
pub extern "C" fn timing_open<'a>(nodes: &'a [u8], bytes: &'a [u8]) -> u32
    ensures { Told nodes.now bytes.now result }
{
    match Recording::try_new(nodes, bytes) {
        Ok(_) => 0,
        Err(fault) => fault.number(),
    }
}

/// How many of n bits, from bit `first` of the bytes on, are 0; 0 if the bytes end before them.
// No `Option` crosses to C.
#[unsafe(no_mangle)]
pub extern "C" fn timing_count_zeros(bytes: &[u8], first: u32, n: u32) -> u64
    ensures { result ≡ zeros_from bytes.now first n }
{
    let (first, len) = (u64::from(first), u64::from(n));
    if bytes_for(first + len) <= bytes.len() as u64 {
        BitSlice { bytes, first, len }.count_zeros()
    } else {
        0
    }
}

/// Opens node bytes and bytes into a recording; answers the number of the refusal, or 0.
#[unsafe(no_mangle)]
pub extern "C" fn timing_open_into<'a>(
    recording: &mut Recording<'a>,
    nodes: &'a [u8],
    bytes: &'a [u8],
) -> u32
    ensures told { Told nodes.now bytes.now result }
    ensures held { result ≡ 0 → (recording.new.nodes.now ≡ nodes.now) × (bytes_in recording.new ≡ bytes.now) }
{
    match recording.open(nodes, bytes) {
        Ok(()) => 0,
        Err(fault) => fault.number(),
    }
}

/// The number of the update of a dictionary after another was kept; 4 where there is none. Each is a column of one row, at a node.
// No enum crosses to C.
#[unsafe(no_mangle)]
pub extern "C" fn timing_update(recording: &Recording, kept: usize, new: usize) -> u32
    ensures { TellsUpdate recording.now kept new result }
{
    match recollect(recording, kept, new) {
        Ok(met) => met
            .first()
            .map_or(4, |dictionary| update_number(dictionary.update)),
        Err(_) => 4,
    }
}

// The dictionaries that one column meets after those of another were kept under the one id of a new tracker.
fn recollect(recording: &Recording, kept: usize, new: usize) -> Result<MetDictionaries, Fault>
    ensures { MatchResult result
        (λ met. AreRecollected recording.now kept new (Ok met.items))
        (λ fault. AreRecollected recording.now kept new (Err fault)) }
{
    let options = IpcWriteOptions::default();
    let mut tracker = DictionaryTracker::new();
    tracker.next_dict_id()?;
    let met = tracker.collect_all_dicts(&recording.columns(kept, 1, 1)?, &options)?;
    tracker.keep(&met);
    tracker.collect_all_dicts(&recording.columns(new, 1, 1)?, &options)
}

fn update_number(update: DictionaryUpdate) -> u32
    ensures { result ≡ update_number update }
{
    match update {
        DictionaryUpdate::None => 0,
        DictionaryUpdate::New => 1,
        DictionaryUpdate::Replaced => 2,
        DictionaryUpdate::Delta(_) => 3,
    }
}
