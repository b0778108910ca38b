//! Rows that are valid, or null, one after another.

/// So many rows that are all valid, or all null.
#[derive(Clone, Copy, Debug, PartialEq, Eq, Hash)]
pub struct Run {
    pub valid: bool,
    pub rows: u64,
}
