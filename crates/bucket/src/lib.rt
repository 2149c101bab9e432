//! What a change of a key leaves in the buckets of its hash: their loads, their pages, and how many bits they have.
#![tactic(auto)]

mod change;
mod laws;
mod page;
mod target;

pub use change::KeyChange;
pub use laws::{merges_stand, splits_stand};
pub use page::joined_page;

#[cfg(test)]
mod tests {
    use super::*;
    use keys::TextKeys;
    use std::test::Fail;

    // The bytes of a record of the key `a`, whose hash begins with 1.
    const RECORD: [u8; 11] = [0, 11, 2, 0, 0, 14, 66, 1, b'a', b'h', b'i'];

    #[test]
    fn other_spelling_removed(rt: HostRuntime) {
        let own = KeyChange {
            records: &RECORD,
            key: b"A",
        };
        let other = KeyChange {
            records: &RECORD,
            key: b"b",
        };
        assert!(rt; own.has_key::<TextKeys>());
        assert_eq!(rt; own.load_of::<TextKeys>(0, 0), 0);
        assert_eq!(rt; other.load_of::<TextKeys>(1, 1), 11);
        assert_eq!(rt; other.load_of::<TextKeys>(1, 0), 0);
    }

    #[test]
    fn one_bit_more(rt: HostRuntime) {
        let hash = 0x71be_eff9;
        let change = KeyChange {
            records: &RECORD,
            key: b"b",
        };
        assert_eq!(rt; change.target_bits::<TextKeys>(hash, 0, 237), Some(0));
        assert_eq!(rt; change.target_bits::<TextKeys>(hash, 0, 238), Some(1));
        assert_eq!(rt; change.target_bits::<TextKeys>(hash, 0, 249), None);
    }

    #[test]
    fn split_pages(rt: HostRuntime) -> Result<(), Fail> {
        let change = KeyChange {
            records: &RECORD,
            key: b"b",
        };
        let sibling = change.sibling_page::<TextKeys>(1, 0x71be_eff9);
        assert_eq!(rt; sibling[2], 12);
        let own = change
            .own_page::<TextKeys>(1, 0x71be_eff9, None)
            .map_err(|_| "no room")?;
        assert_eq!(rt; own[2], 1);
        Ok(())
    }
}
