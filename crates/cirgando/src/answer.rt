// The answers of a transcript.
use crate::command::Wrong;
use access::Found;
use device::DeviceFault;
use disk::ArmFault;
use std::alloc::AllocError;
use std::fmt;
use store::StoreFault;

/// The answer to a command that was accepted.
#[derive(Drop)]
pub(crate) enum Answer {
    Done,
    Count(usize),
    Bytes(Vec<u8>),
    Hash(u32),
    /// What is told of a record, and its value.
    Got(Found, Vec<u8>),
}

/// Why a command was not accepted.
#[derive(Clone, Copy, Debug, PartialEq, Eq)]
pub(crate) enum Denial {
    /// The disk refused to be armed.
    Arm(ArmFault),
    /// A device refused a call.
    Device(DeviceFault),
    /// A store refused a call, or a key is not valid under its rule.
    Store(StoreFault),
    /// The line is no command that can be played.
    Wrong(Wrong),
    /// There was no memory for it, which ends the program.
    NoMemory(AllocError),
}

impl From<ArmFault> for Denial {
    fn from(fault: ArmFault) -> Denial {
        Denial::Arm(fault)
    }
}

impl From<DeviceFault> for Denial {
    fn from(fault: DeviceFault) -> Denial {
        Denial::Device(fault)
    }
}

impl From<StoreFault> for Denial {
    fn from(fault: StoreFault) -> Denial {
        Denial::Store(fault)
    }
}

impl From<Wrong> for Denial {
    fn from(wrong: Wrong) -> Denial {
        Denial::Wrong(wrong)
    }
}

impl From<AllocError> for Denial {
    fn from(error: AllocError) -> Denial {
        Denial::NoMemory(error)
    }
}

impl fmt::Display for Answer {
    fn fmt<W: fmt::Write>(&self, f: &mut fmt::Formatter<W>) -> fmt::Result {
        match self {
            Answer::Done => write!(f, "ok"),
            Answer::Count(n) => write!(f, "ok {n}"),
            Answer::Bytes(bytes) => {
                write!(f, "ok 0x")?;
                hex(bytes.as_slice(), f)
            }
            Answer::Hash(hash) => {
                let first = hash >> 24;
                write!(f, "ok 0x{hash:08x} {first:08b}")
            }
            Answer::Got(found, value) => {
                let letter = char::from(found.letter);
                write!(f, "ok {letter} {} {} 0x", found.last_day, found.length)?;
                hex(value.as_slice(), f)
            }
        }
    }
}

impl fmt::Display for Denial {
    fn fmt<W: fmt::Write>(&self, f: &mut fmt::Formatter<W>) -> fmt::Result {
        match self {
            Denial::Arm(fault) => write!(f, "refused {}", fault.number()),
            Denial::Device(fault) => write!(f, "refused {}", fault.number()),
            Denial::Store(fault) => {
                write!(f, "refused {}", fault.number())?;
                match fault.condition() {
                    Some(condition) => write!(f, " W{}", condition.number()),
                    None => Ok(()),
                }
            }
            Denial::Wrong(wrong) => write!(f, "error: {wrong}"),
            Denial::NoMemory(error) => write!(f, "error: {error}"),
        }
    }
}

// Two lowercase hex digits for each byte.
fn hex<W: fmt::Write>(bytes: &[u8], f: &mut fmt::Formatter<W>) -> fmt::Result {
    for b in bytes {
        write!(f, "{b:02x}")?;
    }
    Ok(())
}
