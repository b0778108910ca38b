//! What is kept of each id of a stream's dictionaries.
ghost use Rattle.std.specs.Prelude.{◌≡◌, ◌<◌, ◌≤◌, [], Some};
ghost use Rattle.layout.specs.Windows.{met_in, tree_in, shown_in};
ghost use Rattle.recording.specs.NodeRefs.{table_of, run_of};
ghost use Rattle.recording.specs.Windows.{window_in};
ghost use Rattle.dictionaries.specs.Collecting.{compared_with, update_by, allowed, update_of};
ghost use Rattle.dictionaries.specs.Tracking.{kept_shown};

use crate::comparison::{DictionaryComparison, compare_dictionaries};
use crate::update::{DictionaryUpdate, DictionaryValues};
use layout::Refusal;
use recording::{DictionaryHandling, IpcWriteOptions, Window};

/// So many ids a tracker gives out.
pub const MOST_IDS: usize = 64;

/// What is kept of an id.
#[derive(Clone, Copy, Debug, PartialEq, Eq, Hash)]
pub(crate) struct Entry {
    pub kept: Option<DictionaryValues>,
}

const NOTHING_KEPT: Entry = Entry { kept: None };

/// What is kept of each id.
#[derive(Clone, Copy, Debug, PartialEq, Eq, Hash)]
pub(crate) struct Written {
    pub entries: [Entry; MOST_IDS],
}

impl Written {
    ghost use Rattle.std.specs.Prelude.{replicate, slice_set};
    ghost use Rattle.dictionaries.specs.Tracking.{nothing_kept, entry_of, kept_at, entered, values_of};

    /// Nothing is kept.
    pub(crate) fn new() -> Written
        ensures { result.entries ≡ replicate 64 nothing_kept }
    {
        Written {
            entries: [NOTHING_KEPT; MOST_IDS],
        }
    }

    /// What is kept of an id, if anything is.
    pub(crate) fn get(&self, id: usize) -> Option<DictionaryValues>
        ensures { result ≡ kept_at self.now.entries id }
    {
        self.entries.get(id)?.kept
    }

    /// Keeps values under an id, and changes no other entry.
    pub(crate) fn insert(&mut self, id: usize, values: DictionaryValues)
        requires { id < 64 }
        ensures { self.new.entries ≡ slice_set self.old.entries id (entry_of values) }
    {
        self.entries[id].kept = Some(values);
    }

    /// What is sent of a dictionary under an id, whose values are all rows of a node, with no dictionary below. They are kept
    /// from then on, unless they equal what was kept, or would replace it where that is refused.
    pub(crate) fn insert_column(
        &mut self,
        dict_id: usize,
        new: &Window,
        options: &IpcWriteOptions,
    ) -> Result<DictionaryUpdate, Refusal>
        requires id { dict_id < 64 }
        requires whole { new.now.first ≡ 0 }
        requires plain { met_in (tree_in (window_in new.now)) ≡ [] }
        ensures update { result ≡ update_of options.now (kept_shown (table_of new.now.node) (run_of new.now.node) (kept_at self.old.entries dict_id)) (shown_in (window_in new.now)) }
        ensures entries { self.new.entries ≡ entered dict_id (values_of new.now) result self.old.entries }
    {
        let values = DictionaryValues {
            node: new.node().index(),
            rows: new.rows(),
        };
        let Some(old) = self.get(dict_id) else {
            self.insert(dict_id, values);
            return Ok(DictionaryUpdate::New);
        };
        // The same node and rows are equal without looking.
        if old == values {
            return Ok(DictionaryUpdate::None);
        }
        let update = update_from(old, new, options.dictionary_handling());
        let update = allow(update, options.error_on_replacement())?;
        if update != DictionaryUpdate::None {
            self.insert(dict_id, values);
        }
        Ok(update)
    }

    /// Keeps nothing under an id.
    pub(crate) fn remove(&mut self, id: usize)
        requires { id < 64 }
        ensures { self.new.entries ≡ slice_set self.old.entries id nothing_kept }
    {
        self.entries[id] = NOTHING_KEPT;
    }
}

// An update, or the refusal of a replacement where that is asked.
fn allow(update: DictionaryUpdate, refuses: bool) -> Result<DictionaryUpdate, Refusal>
    ensures { result ≡ allowed refuses update }
{
    if refuses && update == DictionaryUpdate::Replaced {
        return Err(Refusal::Replacement);
    }
    Ok(update)
}

// What is sent of a dictionary in which no dictionary is met, by what was kept.
fn update_from(
    old: DictionaryValues,
    new: &Window,
    handling: DictionaryHandling,
) -> DictionaryUpdate
    requires { met_in (tree_in (window_in new.now)) ≡ [] }
    ensures { result ≡ update_by handling old.rows (compared_with (kept_shown (table_of new.now.node) (run_of new.now.node) (Some old)) (shown_in (window_in new.now))) }
{
    match compare_kept(old, new) {
        DictionaryComparison::Equal => DictionaryUpdate::None,
        DictionaryComparison::NotEqual => DictionaryUpdate::Replaced,
        DictionaryComparison::Delta => match handling {
            DictionaryHandling::Resend => DictionaryUpdate::Replaced,
            DictionaryHandling::Delta => DictionaryUpdate::Delta(old.rows),
        },
    }
}

// How it compares with what was kept.
fn compare_kept(old: DictionaryValues, new: &Window) -> DictionaryComparison
    requires { met_in (tree_in (window_in new.now)) ≡ [] }
    ensures { result ≡ compared_with (kept_shown (table_of new.now.node) (run_of new.now.node) (Some old)) (shown_in (window_in new.now)) }
{
    match new.node().recording().window(old.node, 0, old.rows) {
        Some(old) => compare_dictionaries(&old, new),
        // The recording lacks it.
        None => DictionaryComparison::NotEqual,
    }
}
