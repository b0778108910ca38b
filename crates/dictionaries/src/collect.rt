//! The dictionaries that a batch meets, and what is sent of each.
ghost use Rattle.std.specs.Prelude.{◌≡◌, ◌+◌, ◌≤◌, [], ◌∷◌, None, Err, MatchResult};
ghost use Rattle.layout.specs.Faults.{fault_of};
ghost use Rattle.layout.specs.Windows.{met_in, tree_in, shown_in};
ghost use Rattle.recording.specs.NodeRefs.{numbers_of};
ghost use Rattle.recording.specs.Windows.{window_in};
ghost use Rattle.dictionaries.specs.Batches.{AreMet, updates_of_batch};
ghost use Rattle.dictionaries.specs.Tracking.{kept_of_entries};
ghost use Rattle.dictionaries.specs.Walking.{placed, Told, met_in_window};
ghost use Rattle.dictionaries.specs.Walks.{walk_of, state_of, below_window};

use crate::update::{DictionaryUpdate, DictionaryValues, MetDictionary};
use crate::written::{MOST_IDS, Written};
use arrayvec::ArrayVec;
use layout::{Fault, Kind, Refusal};
use recording::{Columns, IpcWriteOptions, Window};

/// The dictionaries met, in their order; the j-th has the j-th id.
pub type MetDictionaries = ArrayVec<MetDictionary, MOST_IDS>;

/// A walk over a column of a batch.
#[derive(Clone, Copy)]
pub(crate) struct Walk<'a> {
    pub options: &'a IpcWriteOptions,
    /// How many ids there are.
    pub ids: usize,
    /// The column, and its first node.
    pub column: u64,
    pub first: usize,
}

impl Walk<'_> {
    // A fault of the column, at one of its nodes.
    fn fault(&self, refusal: Refusal, node: u64) -> Fault
        ensures { result ≡ fault_of refusal self.now.column node }
    {
        Fault::new(refusal, self.column, node)
    }

    // An update, or the fault of a refusal at a node.
    fn placed(
        &self,
        update: Result<DictionaryUpdate, Refusal>,
        node: u64,
    ) -> Result<DictionaryUpdate, Fault>
        ensures { result ≡ placed self.now.column node update }
    {
        // With `map_err`, what is known of a closure that borrows self does not tell the answer.
        match update {
            Ok(update) => Ok(update),
            Err(refusal) => Err(self.fault(refusal, node)),
        }
    }
}

/// Collects the dictionaries of a window, its node before its children; `above` is the node of the dictionary above, if there is one.
#[cycle(walk)]
pub(crate) fn collect_dict_updates(
    walk: &Walk,
    window: &Window,
    above: Option<u64>,
    written: &mut Written,
    met: &mut MetDictionaries,
) -> Result<(), Fault>
    requires ids { walk.now.ids ≤ 64 }
    requires within { walk.now.first ≤ window.now.node.index }
    ensures { Told (walk_of walk.now window.now above) (met_in_window walk.now.column walk.now.first (window_in window.now))
        (state_of written.old met.old.items) (state_of written.new met.new.items) result }
{
    if window.node().kind() != Kind::Dictionary {
        return _collect_dict_updates(walk, window, above, written, met);
    }
    if let Some(upper) = above {
        return Err(walk.fault(Refusal::DictionaryAboveDictionary, upper));
    }
    let node = (window.node().index() - walk.first) as u64;
    // It is refused where one stands below.
    _collect_dict_updates(walk, window, Some(node), written, met)?;
    collect_dictionary(walk, node, &window.values(), written, met)
}

/// Collects the dictionaries of what a window passes to the children of its node.
#[cycle(walk)]
fn _collect_dict_updates(
    walk: &Walk,
    window: &Window,
    above: Option<u64>,
    written: &mut Written,
    met: &mut MetDictionaries,
) -> Result<(), Fault>
    requires ids { walk.now.ids ≤ 64 }
    requires within { walk.now.first ≤ window.now.node.index }
    ensures { Told (walk_of walk.now window.now above) (below_window walk.now.column walk.now.first (window_in window.now))
        (state_of written.old met.old.items) (state_of written.new met.new.items) result }
{
    for child in window.children() {
        collect_dict_updates(walk, &child, above, written, met)?;
    }
    Ok(())
}

// Gives the next id to a dictionary with these values, in which no dictionary is met.
fn collect_dictionary(
    walk: &Walk,
    node: u64,
    values: &Window,
    written: &mut Written,
    met: &mut MetDictionaries,
) -> Result<(), Fault>
    requires ids { walk.now.ids ≤ 64 }
    requires node { values.now.node.index ≡ walk.now.first + node + 1 }
    requires whole { (values.now.first ≡ 0) × (values.now.rows ≡ (numbers_of values.now.node).rows) }
    requires plain { met_in (tree_in (window_in values.now)) ≡ [] }
    ensures { Told (walk_of walk.now values.now None) (record { column = walk.now.column; node = node; values = shown_in (window_in values.now) } ∷ [])
        (state_of written.old met.old.items) (state_of written.new met.new.items) result }
{
    let id = met.len();
    if id >= walk.ids {
        return Err(walk.fault(Refusal::NoId, node));
    }
    let update = walk.placed(written.insert_column(id, values, walk.options), node)?;
    met.push(MetDictionary {
        column: walk.column,
        node,
        values: DictionaryValues {
            node: values.node().index(),
            rows: values.rows(),
        },
        update,
    });
    Ok(())
}

/// Collects the dictionaries of columns, column by column, of a tracker with so many ids.
pub(crate) fn collect_columns(
    columns: &Columns,
    options: &IpcWriteOptions,
    ids: usize,
    written: &mut Written,
) -> Result<MetDictionaries, Fault>
    requires { ids ≤ 64 }
    ensures { MatchResult result
        (λ met. AreMet options.now (kept_of_entries ids written.old.entries) columns.now met.items)
        (λ fault. updates_of_batch options.now (kept_of_entries ids written.old.entries) columns.now ≡ Err fault) }
{
    let mut met = MetDictionaries::new();
    let mut column = 0;
    for window in columns.windows() {
        let walk = Walk {
            options,
            ids,
            column,
            first: window.node().index(),
        };
        collect_dict_updates(&walk, &window, None, written, &mut met)?;
        column += 1;
    }
    Ok(met)
}
