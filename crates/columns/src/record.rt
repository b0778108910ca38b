//! The records of a message.

/// A field of a message: how many rows it has, and how many of them are null.
#[derive(Clone, Copy, Debug, Default, PartialEq, Eq, Hash)]
pub struct FieldRecord {
    pub rows: i64,
    pub nulls: i64,
}

/// A buffer of a message: where it stands in the body, and how long it is, without its padding.
#[derive(Clone, Copy, Debug, Default, PartialEq, Eq, Hash)]
pub struct BufferRecord {
    pub offset: i64,
    pub length: i64,
}

/// Where the bytes of a buffer are: from a place on in the recording, or in the work memory.
#[derive(Clone, Copy, Debug, PartialEq, Eq, Hash)]
pub enum EncodedBuffer {
    Recording(u64),
    Work(u64),
}

/// A buffer's record, and where its bytes are.
#[derive(Clone, Copy, Debug, PartialEq, Eq, Hash)]
pub struct BufferEntry {
    pub buffer: BufferRecord,
    pub source: EncodedBuffer,
}
