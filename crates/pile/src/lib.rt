//! Piles: a device, or a layer over a pile. Every pile that stands on a disk has that disk at its bottom, where it can be armed.
#![tactic(auto)]

ghost use Rattle.device.specs.Promises.{Same};
ghost use Rattle.disk.specs.Held.{Held, held, Arms};

use cache::Cache;
use device::Device;
use disk::{ArmFault, Disk};
use journal::Journal;

/// A pile with a disk at its bottom.
pub trait Armed: Device {
    // what the disk at the bottom holds
    ghost bottom: { Self → Held };

    /// Arms the disk at the bottom of the pile (`Disk::arm`). The pile means what it did, and agrees as it did.
    fn arm_disk(&mut self, n: u32, letters: &[u8], t: usize) -> Result<(), ArmFault>
        ensures arms { Arms n letters.now t (bottom self.old) result (bottom self.new) }
        ensures agrees { Self.Device.agrees self.old → Self.Device.agrees self.new }
        ensures same { Same (Self.Device.meaning self.old) (Self.Device.meaning self.new) };
}

impl<'a> Armed for Disk<'a> {
    ghost bottom = { held };

    fn arm_disk(&mut self, n: u32, letters: &[u8], t: usize) -> Result<(), ArmFault> {
        self.arm(n, letters, t)
    }
}

// An implementation for each layer: what a layer means by the device below it, and when it agrees with it, is its own.
impl<D: Armed> Armed for Cache<D> {
    ghost bottom = { λ c. D.Armed.bottom c.below };

    fn arm_disk(&mut self, n: u32, letters: &[u8], t: usize) -> Result<(), ArmFault> {
        self.below_mut().arm_disk(n, letters, t)
    }
}

impl<D: Armed> Armed for Journal<D> {
    ghost bottom = { λ j. D.Armed.bottom j.below };

    fn arm_disk(&mut self, n: u32, letters: &[u8], t: usize) -> Result<(), ArmFault> {
        self.below_mut().arm_disk(n, letters, t)
    }
}
