//! What is sent of a dictionary.
ghost use Rattle.std.specs.Prelude.{◌≡◌, Some};
ghost use Rattle.dictionaries.specs.Sending.{update_name, Encodes};

use std::fmt;

/// What is sent of a dictionary that a batch meets.
#[derive(Clone, Copy, Debug, Default, PartialEq, Eq, Hash)]
pub enum DictionaryUpdate {
    /// Nothing: it is what was sent before.
    #[default]
    None,
    /// The whole: nothing was kept under its id.
    New,
    /// The whole, in place of what was kept.
    Replaced,
    /// The rows after the first ones, as many as were kept.
    Delta(u64),
}

/// Its name.
impl fmt::Display for DictionaryUpdate {
    ghost output = { λ update. Some (update_name update) };

    fn fmt<W: fmt::Write>(&self, f: &mut fmt::Formatter<W>) -> fmt::Result {
        f.write_str(match self {
            DictionaryUpdate::None => "None",
            DictionaryUpdate::New => "New",
            DictionaryUpdate::Replaced => "Replaced",
            DictionaryUpdate::Delta(_) => "Delta",
        })
    }
}

/// The values of a dictionary: so many rows of a node of a recording, from its first on.
// Plain numbers: what is kept outlives the call that showed it.
#[derive(Clone, Copy, Debug, Default, PartialEq, Eq, Hash)]
pub struct DictionaryValues {
    pub node: usize,
    pub rows: u64,
}

/// A dictionary that a batch met, and its update.
#[derive(Clone, Copy, Debug, Default, PartialEq, Eq, Hash)]
pub struct MetDictionary {
    /// The column that it is in.
    pub column: u64,
    /// Its node within the column.
    pub node: u64,
    pub values: DictionaryValues,
    pub update: DictionaryUpdate,
}

/// What a dictionary's message sends: so many rows of a node, from a row on, which set the values of an id or, as a delta, follow them.
#[derive(Clone, Copy, Debug, PartialEq, Eq, Hash)]
pub struct DictionaryToEncode {
    pub id: u64,
    pub node: usize,
    pub first: u64,
    pub rows: u64,
    pub is_delta: bool,
}

impl MetDictionary {
    /// What is sent of it under an id, if anything is.
    pub fn to_encode(&self, id: u64) -> Option<DictionaryToEncode>
        ensures { Encodes id self.now result }
    {
        let (first, is_delta) = match self.update {
            DictionaryUpdate::None => return None,
            DictionaryUpdate::New | DictionaryUpdate::Replaced => (0, false),
            DictionaryUpdate::Delta(kept) => (kept, true),
        };
        Some(DictionaryToEncode {
            id,
            node: self.values.node,
            first,
            rows: self.values.rows.saturating_sub(first),
            is_delta,
        })
    }
}
