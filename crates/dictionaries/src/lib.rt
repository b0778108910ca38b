//! What each batch sends of its dictionaries.
#![tactic(auto)]

mod collect;
mod comparison;
mod law;
mod tracker;
mod update;
mod written;

pub use collect::MetDictionaries;
pub use comparison::DictionaryComparison;
pub use law::{kept_shown_stands, nothing_else_counts_stands, tests_stand};
pub use tracker::DictionaryTracker;
pub use update::{DictionaryToEncode, DictionaryUpdate, DictionaryValues, MetDictionary};
pub use written::MOST_IDS;
