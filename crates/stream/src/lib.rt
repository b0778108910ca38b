//! A stream of messages over one recording.
#![tactic(auto)]

mod calls;
mod stream;

pub use calls::{Answer, Call, run};
pub use stream::{Accepted, Batch, Stream};
