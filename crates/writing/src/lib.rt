//! A change is written to the pages of a group device, as it was planned.
#![tactic(auto)]

mod plan;

pub use plan::Plan;
