//! A cache of eight pages: a device over any device, and a group device over any group device.
#![tactic(auto)]

mod cache;
mod memory;
mod table;

pub use cache::Cache;
