//! What is printed of a dictionary that a batch meets.
ghost use Rattle.std.specs.Prelude.{◌≡◌, Some};
ghost use Rattle.dictionaries.specs.Sending.{encoded_by};
ghost use Rattle.pack.specs.Shown.{update_shown, rows_in};

use dictionaries::{DictionaryUpdate, MetDictionary};
use std::fmt;

/// The line of a dictionary met.
#[derive(Clone, Copy)]
pub(crate) struct UpdateLine {
    id: u64,
    column: u64,
    node: u64,
    update: DictionaryUpdate,
    rows: u64,
}

// By hand: what it prints is in its contract.
impl fmt::Display for UpdateLine {
    ghost output = { λ line. Some (update_shown line) };

    fn fmt<W: fmt::Write>(&self, f: &mut fmt::Formatter<W>) -> fmt::Result {
        let UpdateLine {
            id,
            column,
            node,
            update,
            rows,
        } = *self;
        write!(
            f,
            "update {id} id {id} column {column} node {node} {update} rows {rows}"
        )
    }
}

/// The line of a dictionary met under an id, which is also its place among those met.
pub(crate) fn line_of(id: u64, dictionary: &MetDictionary) -> UpdateLine
    ensures id { result.id ≡ id }
    ensures column { result.column ≡ dictionary.now.column }
    ensures node { result.node ≡ dictionary.now.node }
    ensures update { result.update ≡ dictionary.now.update }
    ensures rows { result.rows ≡ rows_in (encoded_by id dictionary.now dictionary.now.update) }
{
    let MetDictionary {
        column,
        node,
        update,
        ..
    } = *dictionary;
    // None sends no rows.
    let rows = dictionary.to_encode(id).map_or(0, |sent| sent.rows);
    UpdateLine {
        id,
        column,
        node,
        update,
        rows,
    }
}
