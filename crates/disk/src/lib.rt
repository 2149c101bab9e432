//! A simulated disk over memory that the host lends, which can be armed to lose power at any call.
#![tactic(auto)]

mod arming;
mod disk;
mod images;
mod raw;

pub use arming::ArmFault;
pub use disk::Disk;

#[cfg(test)]
mod tests;
