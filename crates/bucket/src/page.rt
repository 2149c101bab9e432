//! The pages of the buckets that a change of a key leaves.
ghost use Rattle.std.specs.Prelude.{◌≡◌, ◌+◌, ◌<◌, ◌≤◌, List, [], ◌++◌, length, sum_by, MatchResult};
ghost use Rattle.tree.specs.Maps.{Rec, size};
ghost use Rattle.tree.specs.Prefix.{pre, sib};
ghost use Rattle.tree.specs.Trees.{room};
ghost use Rattle.pages.specs.Records.{records, BucketIs};
ghost use Rattle.bucket.specs.Sifts.{sift, sifted, new_in};

use crate::change::KeyChange;
use device::Page;
use keys::KeyRule;
use layout::NoRoom;
use pages::Record;

/// The page of a bucket with no records.
fn empty_bucket(bits: u8) -> Page
    ensures { BucketIs result bits [] }
{
    pages::bucket_page(bits, &[], &[]).unwrap()
}

impl<'a> KeyChange<'a> {
    /// The page of the bucket of the first `bits` bits `prefix`, with the records that the change leaves there.
    pub fn sifted_page<K: KeyRule>(self, bits: u8, prefix: u32) -> Page
        ensures { (rs : List Rec) → self.entry.records.now ≡ records rs → length self.entry.records.now ≤ room → BucketIs result bits (sift K.KeyRule.rule self.entry.key.now bits prefix rs) }
    {
        let mut page = empty_bucket(bits);
        for (_, record) in pages::Records::new(self.records) {
            if self.is_kept::<K>(record, bits as u32, prefix) {
                // of a bucket's records none is refused: they had room in one page
                let _ = pages::add_record(&mut page, record);
            }
        }
        page
    }

    /// The page of the sibling of the first `bits` bits of the key's hash, with the records that the change leaves there.
    pub fn sibling_page<K: KeyRule>(self, bits: u8, hash: u32) -> Page
        ensures { (rs : List Rec) → self.entry.records.now ≡ records rs → length self.entry.records.now ≤ room → BucketIs result bits (sift K.KeyRule.rule self.entry.key.now bits (sib (pre 32 hash bits)) rs) }
    {
        let own = tree::prefix(hash, bits as u32);
        self.sifted_page::<K>(bits, tree::sibling(own))
    }

    /// The page of the bucket of the first `bits` bits of the key's own hash: the records that the change leaves there, and behind them the new one, if any, which may have no room.
    pub fn own_page<K: KeyRule>(
        self,
        bits: u8,
        hash: u32,
        new: Option<Record<'_>>,
    ) -> Result<Page, NoRoom>
        ensures { (rs : List Rec) → self.entry.records.now ≡ records rs → length self.entry.records.now ≤ room → MatchResult result (λ p. BucketIs p bits (sift K.KeyRule.rule self.entry.key.now bits (pre 32 hash bits) rs ++ new_in new.entry)) (λ _. room < sifted K.KeyRule.rule self.entry.key.now bits (pre 32 hash bits) rs + sum_by size (new_in new.entry)) }
    {
        let mut page = self.sifted_page::<K>(bits, tree::prefix(hash, bits as u32));
        if let Some(record) = new {
            pages::add_record(&mut page, record)?;
        }
        Ok(page)
    }
}

/// The page of a bucket with the records of two siblings, one behind the other, which may have no room.
pub fn joined_page(bits: u8, front: &[u8], back: &[u8]) -> Result<Page, NoRoom>
    ensures { (xs ys : List Rec) → front.now ≡ records xs → back.now ≡ records ys → MatchResult result (λ p. BucketIs p bits (xs ++ ys)) (λ _. room < sum_by size xs + sum_by size ys) }
{
    pages::bucket_page(bits, front, back)
}
