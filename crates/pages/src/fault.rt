//! Why a check answers no numbers of page 0.
ghost use Rattle.std.specs.Prelude.{◌≡◌};
ghost use Rattle.pages.specs.declared.fault.CheckFault.TheVariants.{Broken, Device};

use crate::root::Condition;
use device::DeviceFault;

/// The lowest condition of a well-formed image that is broken, or the refusal of the device.
#[derive(Clone, Copy, Debug, PartialEq, Eq)]
pub enum CheckFault {
    Broken(Condition),
    Device(DeviceFault),
}

impl From<Condition> for CheckFault {
    ghost from_gives = { λ condition fault. fault ≡ Broken condition };

    fn from(condition: Condition) -> CheckFault {
        CheckFault::Broken(condition)
    }
}

impl From<DeviceFault> for CheckFault {
    ghost from_gives = { λ refusal fault. fault ≡ Device refusal };

    fn from(refusal: DeviceFault) -> CheckFault {
        CheckFault::Device(refusal)
    }
}
