//! What the pages of a store must hold: classes of records, maps of records, and the tree of buckets that a map gives.
//! The definitions stand in specs; each function here gives a number or an answer of the tree, and its contract asks for the laws that go with it.
#![tactic(auto)]

ghost use Rattle.std.specs.Prelude.{◌≡◌};
ghost use Rattle.tree.specs.Prefix.{pre, sib};

mod classes;
mod laws;

pub use classes::{Class, ClassRow, NotListed};
pub use laws::{
    bucket_bits, bucket_room, buckets_stand, changes_stand, directories_stand, loads_stand,
    steps_stand,
};

/// The first `n` bits of a hash, or the whole hash where `n` is 32 or more.
pub fn prefix(hash: u32, n: u32) -> u32
    ensures { result ≡ pre 32 hash n }
{
    match n {
        0 => 0,
        1..=31 => hash >> (32 - n),
        _ => hash,
    }
}

/// The sibling of a prefix: it differs in the last bit alone.
pub fn sibling(prefix: u32) -> u32
    ensures { result ≡ sib prefix }
{
    if prefix % 2 == 0 {
        prefix + 1
    } else {
        prefix - 1
    }
}

#[cfg(test)]
mod tests {
    use super::*;

    #[test]
    fn prefixes(rt: HostRuntime) {
        assert_eq!(rt; prefix(0xe8b7_be43, 0), 0);
        assert_eq!(rt; prefix(0xe8b7_be43, 6), 0b111010);
        assert_eq!(rt; prefix(0xe8b7_be43, 32), 0xe8b7_be43);
        assert_eq!(rt; prefix(0xe8b7_be43, 40), 0xe8b7_be43);
        assert_eq!(rt; sibling(0b111010), 0b111011);
    }

    #[test]
    fn classes(rt: HostRuntime) {
        assert_eq!(rt; Class::try_from('s'), Ok(Class::Scan));
        assert_eq!(rt; Class::Scan.row().last_day(99_999), 100_729);
        assert_eq!(rt; Class::Scan.row().last_day(u32::MAX), u32::MAX);
        assert_eq!(rt; Class::try_from(2u8), Ok(Class::Mark));
        assert_eq!(rt; Class::Mark.row().letter, b'm');
        assert_eq!(rt; Class::try_from('S'), Err(NotListed));
        assert_eq!(rt; Class::try_from(0u8), Err(NotListed));
    }
}
