//! Whether node bytes and bytes are a recording: the rules of an opening, checked node by node.
#![tactic(auto)]

mod ancestors;
mod check;
mod children;
mod keys;
mod placed;
mod slots;
mod subject;
mod verdict;

pub use verdict::judge;
