//! What a recording is made of: nodes and their kinds, numbers and bits in bytes, and the refusals.
//!
//! `specs/` has the definitions that every crate shares, and `proofs/` their laws.
#![tactic(auto)]

mod bit;
mod fault;
mod kind;
mod node;
mod number;

pub use bit::{BitSlice, WholeBytes, bytes_for, read_bit};
pub use fault::{Fault, Refusal};
pub use kind::Kind;
pub use node::{MOST_ROWS, NODE_BYTES, NODE_NUMBERS, Node, lies_within};
pub use number::{Number, Width, read, write};
