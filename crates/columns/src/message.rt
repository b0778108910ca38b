//! What is told of a message.

/// What a message is.
#[derive(Clone, Copy, Debug, Default, PartialEq, Eq, Hash)]
pub enum MessageKind {
    /// The columns of a batch.
    #[default]
    Batch,
    /// The values of a dictionary.
    Dictionary,
    /// Values that follow those of a dictionary.
    Delta,
}

/// A message: what it is, the id of its dictionary (0 of a batch), its rows, how many field records and buffer records it has,
/// and the lengths of its header and its body.
#[derive(Clone, Copy, Debug, Default, PartialEq, Eq, Hash)]
pub struct Message {
    pub kind: MessageKind,
    pub id: u64,
    pub rows: u64,
    pub fields: usize,
    pub buffers: usize,
    pub lengths: (u64, u64),
}
