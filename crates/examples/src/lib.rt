//! Worked examples of the definitions that contracts cite, proved as one list.
#![tactic(auto)]

ghost use Rattle.std.specs.Prelude.{◌≡◌, codes};
ghost use Rattle.crc.specs.Crc32.{crc_of};
ghost use Rattle.examples.specs.Examples.{Examples};

/// The CRC-32 of "123456789", by which implementations are compared. The contract asks for the proof of the whole list as well.
pub fn check_value() -> u32
    ensures value { result ≡ crc_of (codes "123456789") }
    ensures examples { Examples }
{
    check_of_digits()
}

/// The CRC-32 of the nine digits, worked out.
fn check_of_digits() -> u32
    ensures { result ≡ crc_of (codes "123456789") }
{
    crc::crc32(b"123456789")
}
