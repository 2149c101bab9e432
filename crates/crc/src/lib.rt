//! CRC-32 of IEEE 802.3, by eight bytes at a time ("slicing by 8").
#![tactic(auto)]

ghost use Rattle.std.specs.Prelude.{◌≡◌, ℕ, ◌-◌, ◌%◌, List, ◌++◌, bit_xor};
ghost use Rattle.crc.specs.Crc32.{After, byte_in, crc_of, register, zeros_in};

mod tables;

use tables::look;

/// The register at the start of a message.
pub const START: u32 = 0xffff_ffff;

// What the low byte of the register and a byte that enters it make of the register.
fn low_in(state: u32, byte: u8) -> u32
    ensures { result ≡ zeros_in 8 (bit_xor state byte % 256) }
{
    look(0, state ^ byte as u32)
}

/// One byte enters the register.
pub fn byte_in(state: u32, byte: u8) -> u32
    ensures { result ≡ byte_in state byte }
{
    (state >> 8) ^ low_in(state, byte)
}

// Bytes enter the register one by one.
fn bytes_in(state: u32, bytes: &[u8]) -> u32
    ensures { result ≡ register state bytes.now }
{
    bytes.iter().fold(state, |now, b| byte_in(now, *b))
}

// Eight bytes enter the register.
fn eight_in(state: u32, b: &[u8; 8]) -> u32
    ensures { result ≡ register state b.now }
{
    look(7, state ^ b[0] as u32)
        ^ look(6, (state >> 8) ^ b[1] as u32)
        ^ look(5, (state >> 16) ^ b[2] as u32)
        ^ look(4, (state >> 24) ^ b[3] as u32)
        ^ look(3, b[4] as u32)
        ^ look(2, b[5] as u32)
        ^ look(1, b[6] as u32)
        ^ look(0, b[7] as u32)
}

// Bytes enter the register, eight by eight.
fn enter(state: u32, bytes: &[u8]) -> u32
    ensures { result ≡ register state bytes.now }
{
    let mut now = state;
    let mut rest = bytes;
    while let Some((eight, tail)) = rest.split_first_chunk::<8>() {
        now = eight_in(now, eight);
        rest = tail;
    }
    bytes_in(now, rest)
}

/// The register after some more bytes of a message that comes in parts: from `START`, through each part, to `finish`.
pub fn update(state: u32, bytes: &[u8]) -> u32
    ensures value { result ≡ register state bytes.now }
    ensures parts { (xs : List ℕ) → After xs state → After (xs ++ bytes.now) result }
{
    enter(state, bytes)
}

/// The CRC-32 of a message after whose last part the register is `state`.
pub fn finish(state: u32) -> u32
    ensures { result ≡ 0xFFFF_FFFF - state }
{
    !state
}

/// The CRC-32 of a message.
pub fn crc32(bytes: &[u8]) -> u32
    ensures { result ≡ crc_of bytes.now }
{
    finish(update(START, bytes))
}

#[cfg(test)]
mod tests {
    use super::*;

    #[test]
    fn published_checks(rt: HostRuntime) {
        assert_eq!(rt; crc32(b""), 0);
        assert_eq!(rt; crc32(b"a"), 0xe8b7_be43);
        assert_eq!(rt; crc32(b"abc"), 0x3524_41c2);
        assert_eq!(rt; crc32(b"123456789"), 0xcbf4_3926);
        assert_eq!(rt; crc32(&[0; 32]), 0x190a_55ad);
        assert_eq!(rt; crc32(&[0xff; 32]), 0xff6c_ab0b);
    }

    #[test]
    fn in_parts(rt: HostRuntime) {
        assert_eq!(rt;
            finish(update(update(START, b"1234"), b"56789")),
            crc32(b"123456789")
        );
    }
}
