//! Columns of a recording as the records of messages.
#![tactic(auto)]

mod bits;
mod buffer;
mod law;
mod list;
mod memory;
mod message;
mod needs;
mod offsets;
mod plan;
mod reader;
mod record;
mod writer;

pub use law::nothing_else_counts_stands;
pub use memory::Memory;
pub use message::{Message, MessageKind};
pub use plan::plan_batch;
pub use reader::{Records, Sources};
pub use record::{BufferEntry, BufferRecord, EncodedBuffer, FieldRecord};
pub use writer::pad_to_alignment;
