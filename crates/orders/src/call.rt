//! What a case asks for.

/// A batch by its first node, how many columns, and how many rows they have.
#[derive(Clone, Copy, Debug, PartialEq, Eq, Hash)]
pub struct Batch {
    pub first: u64,
    pub columns: u64,
    pub rows: u64,
}

/// How long the memories are that a call is lent: entries of the first three, and bytes of the others.
#[derive(Clone, Copy, Debug, PartialEq, Eq, Hash)]
pub struct MemorySizes {
    pub fields: u64,
    pub buffers: u64,
    pub messages: u64,
    pub work: u64,
    pub metadata: u64,
}

/// What a line of a case asks for.
#[derive(Clone, Copy, Debug, PartialEq, Eq, Hash)]
pub enum Call {
    /// To show the rows of a batch.
    Show(Batch),
    /// The next id.
    Id,
    /// To collect the dictionaries of a batch.
    Collect(Batch),
    /// To lend the calls after it memories of these sizes.
    Lend(MemorySizes),
    /// To plan the messages of a batch.
    Plan(Batch),
    /// To plan a batch and write its frames.
    Frame(Batch),
}
