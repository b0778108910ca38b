//! What goes out of planned messages: headers, frames, and the sinks that take them.
#![tactic(auto)]

mod buffers;
mod byte_sink;
mod form;
mod frame;
mod law;
mod lent;
mod numbers;
mod room;
mod sink;
mod supplied;
mod writer;

pub use buffers::Buffers;
pub use byte_sink::ByteSink;
pub use form::{Description, HeaderForm};
pub use frame::write_eos;
pub use law::{description_is_spellable, numbers_tell_stands};
pub use numbers::Numbers;
pub use room::Room;
pub use sink::IpcMessageSink;
pub use supplied::Supplied;
pub use writer::write_to_sink;
