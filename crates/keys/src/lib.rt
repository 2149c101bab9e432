//! Key rules: which bytes are a key, which two keys are the same, and the hash by which a key is filed.
#![tactic(auto)]

ghost use Rattle.std.specs.Prelude.{◌≡◌};
ghost use Rattle.std.specs.List.{list_all};
ghost use Rattle.crc.specs.Crc32.{byte_in};
ghost use Rattle.keys.specs.Integers.{integers};
ghost use Rattle.keys.specs.Rule.{Lawful, Rule};
ghost use Rattle.keys.specs.Text.{graphic, lowered, texts};
ghost use Rattle.keys.specs.Laws.{integers_lawful, texts_lawful};

/// A rule on keys. It is a type: no value of it is needed, and what it says never changes. Every call takes any bytes.
pub trait KeyRule {
    ghost rule: { Rule };

    /// Whether the bytes are a key.
    fn is_valid(key: &[u8]) -> bool
        ensures { result ≡ rule.valid key.now };

    /// Whether two keys are the same.
    fn is_same(a: &[u8], b: &[u8]) -> bool
        ensures { result ≡ rule.same a.now b.now };

    /// The key's hash.
    fn hash(key: &[u8]) -> u32
        ensures { result ≡ rule.hash key.now };

    /// The byte that names the rule in what is stored. Any rule may have its own, so the rules are no enum.
    fn kind() -> u8
        ensures { result ≡ rule.kind };

    ghost lawful: { Lawful rule };
}

/// Keys of exactly 8 bytes.
#[derive(Clone, Copy)]
pub struct IntegerKeys;

impl KeyRule for IntegerKeys {
    ghost rule = { integers };

    ghost lawful = { integers_lawful };

    fn is_valid(key: &[u8]) -> bool {
        key.len() == 8
    }

    fn is_same(a: &[u8], b: &[u8]) -> bool {
        a == b
    }

    fn hash(key: &[u8]) -> u32 {
        crc::crc32(key)
    }

    fn kind() -> u8 {
        1
    }
}

/// Keys of 1 to 32 printed ASCII characters other than the space, in small or capital letters alike.
#[derive(Clone, Copy)]
pub struct TextKeys;

impl KeyRule for TextKeys {
    ghost rule = { texts };

    ghost lawful = { texts_lawful };

    fn is_valid(key: &[u8]) -> bool {
        (1..=32).contains(&key.len()) && is_all_graphic(key)
    }

    fn is_same(a: &[u8], b: &[u8]) -> bool {
        a.eq_ignore_ascii_case(b)
    }

    fn hash(key: &[u8]) -> u32 {
        crc::finish(key.iter().fold(crc::START, |state, b| letter_in(state, *b)))
    }

    fn kind() -> u8 {
        2
    }
}

/// Whether a text key may hold the byte.
fn is_graphic(byte: u8) -> bool
    ensures { result ≡ graphic byte }
{
    matches!(byte, 0x21..=0x7e)
}

/// Whether a text key may hold each of the bytes.
fn is_all_graphic(bytes: &[u8]) -> bool
    ensures { result ≡ list_all graphic bytes.now }
{
    bytes.iter().all(|b| is_graphic(*b))
}

/// A byte of a text key enters the hash, a capital letter as a small one.
fn letter_in(state: u32, byte: u8) -> u32
    ensures { result ≡ byte_in state (lowered byte) }
{
    crc::byte_in(state, byte.to_ascii_lowercase())
}

#[cfg(test)]
mod tests {
    use super::*;

    #[test]
    fn text(rt: HostRuntime) {
        assert!(rt; TextKeys::is_same(b"Ab9~", b"aB9~"));
        assert!(rt; !TextKeys::is_same(b"a", b"b"));
        assert!(rt; !TextKeys::is_same(b"[", b"{"));
        assert!(rt; TextKeys::is_valid(b"!~"));
        assert!(rt; !TextKeys::is_valid(b"a b"));
        assert!(rt; !TextKeys::is_valid(b""));
        assert_eq!(rt; TextKeys::hash(b"A"), 0xe8b7_be43);
        assert_eq!(rt; TextKeys::hash(b"b"), 0x71be_eff9);
        assert_eq!(rt; TextKeys::kind(), 2);
    }

    #[test]
    fn integers(rt: HostRuntime) {
        assert!(rt; IntegerKeys::is_valid(&[0; 8]));
        assert!(rt; !IntegerKeys::is_valid(&[0; 7]));
        assert!(rt; IntegerKeys::is_same(b"01234567", b"01234567"));
        assert!(rt; !IntegerKeys::is_same(b"01234567", b"01234568"));
        assert_eq!(rt; IntegerKeys::hash(&[0; 8]), 0x6522_df69);
        assert_eq!(rt; IntegerKeys::kind(), 1);
    }
}
