//! A recording: a table of nodes over a run of bytes, both borrowed, checked once when it is opened.
//!
//! What an opened recording keeps is the ghost fact `opened` of `Recording`; its readers, and the
//! crates above, look at nothing again. A `NodeRef` is a node that a recording has, a `Row` is a row
//! that a node has, and a `Window` rows that it has.
#![tactic(auto)]

mod alignment;
mod columns;
mod node;
mod offsets;
mod options;
mod recording;
mod row;
mod rows;
mod runs;
mod trees;
mod value;
mod window;
mod windows;

pub use alignment::Alignment;
pub use columns::Columns;
pub use node::NodeRef;
pub use offsets::Offsets;
pub use options::{DictionaryHandling, IpcWriteOptions};
pub use recording::Recording;
pub use row::Row;
pub use rows::{Parts, Rows};
pub use runs::Run;
pub use trees::Trees;
pub use value::RowValue;
pub use window::Window;
pub use windows::Windows;
