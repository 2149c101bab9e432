//! The calls of a store, its answers, and its refusals.
ghost use Rattle.std.specs.Prelude.{◌≡◌, ◌==◌};
ghost use Rattle.store.specs.declared.kinds.StoreFault.TheVariants.{Device};
ghost use Rattle.store.specs.Replies.{refusal, broken, condition_number, refused_check};

use access::Found;
use device::DeviceFault;
use pages::{CheckFault, Condition};

/// A store is stopped, idle, or open: a transaction is going on.
#[derive(Clone, Copy, Debug, PartialEq, Eq)]
pub enum Phase {
    Stopped,
    Idle,
    Open,
}

/// Why a call of a store is refused.
#[derive(Clone, Copy, Debug, PartialEq, Eq)]
pub enum StoreFault {
    /// The bytes are no key under the rule.
    KeyNotValid,
    /// The buffer of a get has fewer than 120 bytes.
    ShortBuffer,
    /// The store is stopped: it wants a format or a recover.
    NotRunning,
    /// The map has no such key.
    KeyAbsent,
    /// The device has fewer than six pages.
    TooFewPages,
    /// What stands is no well-formed image; this is the lowest condition that it breaks.
    NotWellFormed(Condition),
    /// The device refused, as when power was lost.
    Device(DeviceFault),
}

impl StoreFault {
    /// The number by which a refusal is known. A `u8::from` would not say what its number is.
    pub fn number(self) -> u8
        ensures { result ≡ refusal self }
    {
        match self {
            StoreFault::KeyNotValid => 3,
            StoreFault::ShortBuffer => 5,
            StoreFault::NotRunning => 12,
            StoreFault::KeyAbsent => 16,
            StoreFault::TooFewPages => 20,
            StoreFault::NotWellFormed(_) => 21,
            StoreFault::Device(fault) => fault.number(),
        }
    }

    /// The broken condition, where what stands is not well formed.
    pub fn condition(self) -> Option<Condition>
        ensures { condition_number result ≡ broken self }
    {
        match self {
            StoreFault::NotWellFormed(condition) => Some(condition),
            _ => None,
        }
    }

    /// Whether power was lost.
    pub(crate) fn is_loss(self) -> bool
        ensures { result ≡ (refusal self == 11) }
    {
        matches!(self, StoreFault::Device(DeviceFault::PowerLost))
    }
}

impl From<DeviceFault> for StoreFault {
    ghost from_gives = { λ f r. r ≡ Device f };

    fn from(fault: DeviceFault) -> StoreFault {
        StoreFault::Device(fault)
    }
}

impl From<CheckFault> for StoreFault {
    ghost from_gives = { λ f r. r ≡ refused_check f };

    fn from(fault: CheckFault) -> StoreFault {
        match fault {
            CheckFault::Broken(condition) => StoreFault::NotWellFormed(condition),
            CheckFault::Device(fault) => StoreFault::Device(fault),
        }
    }
}

/// A call of a store.
#[derive(Clone, Copy, Debug, PartialEq, Eq)]
pub enum Call<'a> {
    Get(&'a [u8]),
    Recover,
}

/// What an accepted call answers.
#[derive(Clone, Copy, Debug, PartialEq, Eq)]
pub enum Answer {
    Done,
    Got(Found),
}
