//! The records of a bucket, and a key of which a change is made.
ghost use Rattle.std.specs.Prelude.{◌≡◌, List, MatchBool};
ghost use Rattle.tree.specs.Maps.{Rec};
ghost use Rattle.pages.specs.Records.{records, viewed};
ghost use Rattle.bucket.specs.Sifts.{HasKey, LacksKey, stays, sifted};

use keys::KeyRule;
use pages::Record;

/// A change of a key in a bucket: the bytes of the bucket's records, and the key that is put or deleted.
#[derive(Clone, Copy, Debug, PartialEq, Eq)]
pub struct KeyChange<'a> {
    pub records: &'a [u8],
    pub key: &'a [u8],
}

impl<'a> KeyChange<'a> {
    /// Whether it leaves the record in the bucket of the first `bits` bits `prefix`.
    pub(crate) fn is_kept<K: KeyRule>(self, stored: Record<'_>, bits: u32, prefix: u32) -> bool
        ensures { result ≡ stays K.KeyRule.rule self.entry.key.now bits prefix (viewed stored.entry) }
    {
        tree::prefix(K::hash(stored.key), bits) == prefix && !K::is_same(self.key, stored.key)
    }

    /// Whether some record has a key that is the same as the changed one.
    pub fn has_key<K: KeyRule>(self) -> bool
        ensures { (rs : List Rec) → self.entry.records.now ≡ records rs → MatchBool result (HasKey K.KeyRule.rule self.entry.key.now rs) (LacksKey K.KeyRule.rule self.entry.key.now rs) }
    {
        pages::find::<K>(self.records, self.key).is_some()
    }

    /// The bytes of the records that it leaves in the bucket of the first `bits` bits `prefix`.
    pub fn load_of<K: KeyRule>(self, bits: u32, prefix: u32) -> usize
        ensures { (rs : List Rec) → self.entry.records.now ≡ records rs → result ≡ sifted K.KeyRule.rule self.entry.key.now bits prefix rs }
    {
        // by the bytes: the size of a record is what it takes of them
        let mut left = self.records;
        let mut load: usize = 0;
        while let Some((record, after)) = pages::next_record(left) {
            if self.is_kept::<K>(record, bits, prefix) {
                load += left.len() - after.len();
            }
            left = after;
        }
        load
    }
}
