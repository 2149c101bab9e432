//! A redo journal: a group device over any device.
#![tactic(auto)]

mod entries;
mod header;
mod journal;
mod places;
mod recovery;
mod steps;

pub use journal::Journal;
