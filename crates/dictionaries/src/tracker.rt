//! The ids of a stream's dictionaries.
ghost use Rattle.std.specs.Prelude.{◌≡◌, ◌≤◌};

use crate::collect::{MetDictionaries, collect_columns};
use crate::update::{DictionaryUpdate, DictionaryValues, MetDictionary};
use crate::written::{MOST_IDS, Written};
use layout::{Fault, Refusal};
use recording::{Columns, IpcWriteOptions};

/// What is kept, lent while a batch's dictionaries are collected: its end puts everything back, on every way out.
struct Lent<'a> {
    written: &'a mut Written,
    saved: Written,
}

impl Drop for Lent<'_> {
    fn drop(self)
        ensures { self.exit.0.now ≡ self.entry.saved }
    {
        *self.written = self.saved;
        let Lent {
            written: _,
            saved: _,
        } = self;
    }
}

/// The ids that are given out, each with the values that were sent last, if any were.
#[derive(Debug, Drop)]
pub struct DictionaryTracker {
    pub(crate) written: Written,
    pub(crate) dict_ids: usize,
    ghost few: { dict_ids ≤ 64 },
}

impl DictionaryTracker {
    ghost use Rattle.std.specs.Prelude.{[], ◌∷◌, ◌++◌, length, slice_index_or, None, Ok, Err, MatchResult};
    ghost use Rattle.layout.specs.declared.fault.Refusal.TheVariants as refused;
    ghost use Rattle.layout.specs.Faults.{fault_of};
    ghost use Rattle.dictionaries.specs.Batches.{AreMet, updates_of_batch, kept_after};
    ghost use Rattle.dictionaries.specs.Tracking.{kept_windows};

    /// No id, as a new stream has.
    pub fn new() -> DictionaryTracker
        ensures { kept_windows result ≡ [] }
    {
        DictionaryTracker {
            written: Written::new(),
            dict_ids: 0,
        }
    }

    /// How many ids are given out: 0, 1, and so on.
    pub fn dict_ids(&self) -> usize
        ensures value { result ≡ length (kept_windows self.now) }
        ensures few { result ≤ 64 }
    {
        self.dict_ids
    }

    /// The next id, 0 or the last plus one; under it nothing is kept.
    pub fn next_dict_id(&mut self) -> Result<u64, Fault>
        ensures { MatchResult result
            (λ id. (id ≡ length (kept_windows self.old)) × (kept_windows self.new ≡ kept_windows self.old ++ None ∷ []))
            (λ f. (f ≡ fault_of refused.Ids 0 0) × (length (kept_windows self.old) ≡ 64) × (self.new ≡ self.old)) }
    {
        let id = self.dict_ids;
        if id == MOST_IDS {
            return Err(Fault::from(Refusal::Ids));
        }
        self.written.remove(id);
        self.dict_ids = id + 1;
        Ok(id as u64)
    }

    /// What is kept of an id: none where nothing was sent under it, or it is not given out.
    pub fn kept(&self, id: usize) -> Option<DictionaryValues>
        ensures { result ≡ slice_index_or (kept_windows self.now) id None }
    {
        if id < self.dict_ids {
            self.written.get(id)
        } else {
            None
        }
    }

    /// Takes back all ids, and with them what is kept.
    pub fn clear(&mut self)
        ensures { kept_windows self.new ≡ [] }
    {
        *self = DictionaryTracker::new();
    }

    /// The dictionaries that the columns of a batch meet, each with its update, or the first refusal. What is kept stays as it
    /// was: `keep` keeps the new values.
    pub fn collect_all_dicts(
        &mut self,
        columns: &Columns,
        options: &IpcWriteOptions,
    ) -> Result<MetDictionaries, Fault>
        ensures met { MatchResult result
            (λ met. AreMet options.now (kept_windows self.old) columns.now met.items)
            (λ fault. updates_of_batch options.now (kept_windows self.old) columns.now ≡ Err fault) }
        ensures kept { self.new ≡ self.old }
    {
        let ids = self.dict_ids;
        let saved = self.written;
        let lent = Lent {
            written: &mut self.written,
            saved,
        };
        // Each dictionary sees what those before it entered.
        let met = collect_columns(columns, options, ids, lent.written)?;
        Ok(met)
    }

    /// Keeps the values of each dictionary met whose update is not None, the j-th under the j-th id.
    pub fn keep(&mut self, met: &[MetDictionary])
        ensures { kept_windows self.new ≡ kept_after (kept_windows self.old) met.now }
    {
        for (id, dictionary) in met.iter().enumerate() {
            // A batch meets no more dictionaries than there are ids.
            if id < self.dict_ids && dictionary.update != DictionaryUpdate::None {
                self.written.insert(id, dictionary.values);
            }
        }
    }
}
