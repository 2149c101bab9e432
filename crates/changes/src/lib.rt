//! One change of the map that the pages of a group device hold: it is decided and planned before anything is written.
#![tactic(auto)]

mod denial;

pub use denial::Denial;
