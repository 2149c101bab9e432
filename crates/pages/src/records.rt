//! Records, one after the other in the bytes of a bucket.
ghost use Rattle.std.specs.Prelude.{◌≡◌, ℕ, ◌+◌, ◌<◌, ◌≤◌, true, false, List, ◌++◌, length, MatchBool, MatchOption, ◌≢◌};
ghost use Rattle.std.specs.Iterator.{at_most};
ghost use Rattle.std.specs.List.{AllByRecursion};
ghost use Rattle.tree.specs.Maps.{Rec};
ghost use Rattle.pages.specs.Tells.{Tells};
ghost use Rattle.pages.specs.Records.{record_bytes, records, viewed, fine, Fine, Walked, FoundAt};

use keys::KeyRule;
use tree::Class;

/// A record in a page.
#[derive(Clone, Copy, Debug, PartialEq, Eq)]
pub struct Record<'a> {
    // a number: a page may hold one that no class has
    pub class: u8,
    pub day: u32,
    pub key: &'a [u8],
    pub value: &'a [u8],
}

/// The first record of these bytes and the bytes after it, or none where they do not begin with a record.
pub fn next_record<'a>(bytes: &'a [u8]) -> Option<(Record<'a>, &'a [u8])>
    ensures { MatchOption result ((x : Rec) (rest : List ℕ) → bytes.now ≢ record_bytes x ++ rest) (λ p. bytes.now ≡ record_bytes (viewed p.0) ++ p.1.now) }
{
    let [l1, l0, class, d3, d2, d1, d0, k, rest @ ..] = bytes else {
        return None;
    };
    let whole = usize::from(u16::from_be_bytes([*l1, *l0]));
    if !has_record(bytes.len(), whole, *k) {
        return None;
    }
    let key_len = usize::from(*k);
    let day = u32::from_be_bytes([*d3, *d2, *d1, *d0]);
    let key = &rest[0..key_len];
    let value = &rest[key_len..whole - 8];
    let after = &bytes[whole..];
    Some((
        Record {
            class: *class,
            day,
            key,
            value,
        },
        after,
    ))
}

/// Whether `len` bytes have room for a record of `whole` bytes, and that for its head and a key of `k` bytes.
fn has_record(len: usize, whole: usize, k: u8) -> bool
    ensures { Tells result ((8 + k ≤ whole) × (whole ≤ len)) }
{
    8 + usize::from(k) <= whole && whole <= len
}

/// Whether a record may stand in a page.
fn is_fine<K: KeyRule>(stored: Record<'_>) -> bool
    ensures { result ≡ fine K.KeyRule.rule.valid (viewed stored.entry) }
{
    match Class::try_from(stored.class) {
        Ok(class) => stored.value.len() <= class.row().longest
            && stored.day <= 199_999
            && K::is_valid(stored.key),
        Err(_) => false,
    }
}

/// The records at the front of some bytes, each with the byte where it begins.
#[derive(Clone, Copy)]
pub struct Records<'a> {
    pub bytes: &'a [u8],
    pub left: &'a [u8],
    ghost inside: { length left.now ≤ length bytes.now },
}

impl<'a> Records<'a> {
    /// Those at the front of these bytes.
    pub fn new(bytes: &'a [u8]) -> Records<'a>
        ensures all { result.bytes.now ≡ bytes.entry.now }
        ensures left { result.left.now ≡ bytes.entry.now }
    {
        Records { bytes, left: bytes }
    }
}

impl<'a> Iterator for Records<'a> {
    type Item = (usize, Record<'a>);

    ghost next_gives = { λ s r t. Walked s.bytes.now s.left.now r t.bytes.now t.left.now };

    ghost remaining = { λ s. at_most (length s.left.now) };

    fn next(&mut self) -> Option<(usize, Record<'a>)> {
        let start = self.bytes.len() - self.left.len();
        let (record, after) = next_record(self.left)?;
        self.left = after;
        Some((start, record))
    }
}

/// Whether these bytes are records that may stand in a page.
pub(crate) fn records_ok<K: KeyRule>(bytes: &[u8]) -> bool
    ensures { MatchBool result ((rs : List Rec) × (bytes.now ≡ records rs) × AllByRecursion (Fine K.KeyRule.rule.valid) rs) ((rs : List Rec) → bytes.now ≡ records rs → AllByRecursion (Fine K.KeyRule.rule.valid) rs → ⊥) }
{
    let mut rest = Records::new(bytes);
    rest.all(|(_, record)| is_fine::<K>(record)) && rest.left.is_empty()
}

/// How many records these bytes are.
pub(crate) fn count_records(bytes: &[u8]) -> usize
    ensures { (rs : List Rec) → bytes.now ≡ records rs → result ≡ length rs }
{
    Records::new(bytes).count()
}

/// The record of a key, and where it begins, or none.
pub fn find<'a, K: KeyRule>(bytes: &'a [u8], key: &[u8]) -> Option<(usize, Record<'a>)>
    ensures { (rs : List Rec) → bytes.now ≡ records rs → MatchOption result (AllByRecursion (λ x. K.KeyRule.rule.same key.now x.key ≡ false) rs) (λ p. FoundAt K.KeyRule.rule.same key.now rs p.0 (viewed p.1)) }
{
    Records::new(bytes).find(|(_, record)| K::is_same(key, record.key))
}
