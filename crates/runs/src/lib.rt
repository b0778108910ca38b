//! Runs of a stream's calls, as they are defined: what each call answers, writes, sends and leaves, and what holds of every run.
#![tactic(auto)]

mod law;

pub use law::{layers_agree_stands, promise_stands};
