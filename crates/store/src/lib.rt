//! The record store: keys mapped to records, over any group device and under any key rule.
#![tactic(auto)]

mod kinds;
mod store;

pub use kinds::{Answer, Call, Phase, StoreFault};
pub use store::Store;
