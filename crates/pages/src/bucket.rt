//! Buckets: a page with a local depth and records.
ghost use Rattle.std.specs.Prelude.{◌≡◌, ℕ, ◌+◌, ◌<◌, ◌≤◌, ◌⊎◌, List, [], ◌∷◌, ◌++◌, length, take, drop, MatchOption, MatchResult};
ghost use Rattle.tree.specs.Maps.{Rec, size};
ghost use Rattle.layout.specs.Envelope.{Enveloped, Extended};
ghost use Rattle.pages.specs.Records.{record_bytes, records, viewed, BucketIs, BucketRead, NoBucket};

use crate::records::Record;
use crate::{page, records};
use device::Page;
use keys::KeyRule;
use layout::NoRoom;

/// The most bytes of a key or of a value that a body has room for.
const PART: usize = 241;

/// A bucket in a page: its local depth, and the bytes of its records.
#[derive(Clone, Copy, Debug, PartialEq, Eq)]
pub struct BucketView<'a> {
    pub depth: u8,
    pub records: &'a [u8],
}

/// The bucket in a page that is one by layout, whose records may stand in a page.
pub fn read_bucket<K: KeyRule>(page: &[u8]) -> Option<BucketView<'_>>
    ensures { MatchOption result (NoBucket K.KeyRule.rule.valid page.now) (λ b. BucketRead K.KeyRule.rule.valid page.now b.depth b.records.now) }
{
    let body = layout::body_of(page)?;
    let [depth, records @ ..] = body else {
        return None;
    };
    if !records::records_ok::<K>(records) {
        return None;
    }
    Some(BucketView {
        depth: *depth,
        records,
    })
}

/// A bucket's page, from its local depth and the bytes of its records in two parts, which may have no room.
pub fn bucket_page(depth: u8, front: &[u8], back: &[u8]) -> Result<Page, NoRoom>
    ensures { MatchResult result (λ p. Enveloped p (depth ∷ (front.now ++ back.now))) (λ _. 248 < length front.now + length back.now) }
{
    let mut page = layout::empty_page();
    layout::extend(&mut page, &[depth])?;
    layout::extend(&mut page, front)?;
    layout::extend(&mut page, back)?;
    Ok(page)
}

/// Adds a record to the body of a page; no change where it has no room.
pub fn add_record(page: &mut Page, stored: Record<'_>) -> Result<(), NoRoom>
    ensures { (body : List ℕ) → Enveloped page.old body → Extended page.new body (record_bytes (viewed stored.entry)) result }
{
    let key_len = stored.key.len();
    let value_len = stored.value.len();
    if key_len > PART || value_len > PART {
        return Err(NoRoom);
    }
    let whole = 8 + key_len + value_len;
    page::need_room(page, whole)?;
    let [l1, l0] = (whole as u16).to_be_bytes();
    let [d3, d2, d1, d0] = stored.day.to_be_bytes();
    let head = [l1, l0, stored.class, d3, d2, d1, d0, key_len as u8];
    layout::extend(page, &head)?;
    layout::extend(page, stored.key)?;
    layout::extend(page, stored.value)
}

/// A bucket's page with one record more, behind the others, which may have no room.
pub fn appended(depth: u8, bytes: &[u8], stored: Record<'_>) -> Result<Page, NoRoom>
    ensures bytes { MatchResult result (λ p. Enveloped p (depth ∷ (bytes.now ++ record_bytes (viewed stored.entry)))) (λ _. 248 < length bytes.now + size (viewed stored.entry)) }
    ensures records { (rs : List Rec) → bytes.now ≡ records rs → MatchResult result (λ p. BucketIs p depth (rs ++ viewed stored.entry ∷ [])) (λ _. 248 < length (records rs) + size (viewed stored.entry)) }
{
    let mut page = bucket_page(depth, bytes, &[])?;
    add_record(&mut page, stored)?;
    Ok(page)
}

/// A bucket's page without the record of `len` bytes that begins at `start`; none where there are not so many bytes, or the others have no room: for
/// two reasons, so that it is no `NoRoom`.
pub fn removed(depth: u8, bytes: &[u8], start: usize, len: usize) -> Option<Page>
    ensures bytes { MatchOption result ((length bytes.now < start + len) ⊎ (248 + len < length bytes.now)) (λ p. Enveloped p (depth ∷ (take start bytes.now ++ drop (start + len) bytes.now))) }
    ensures records { (before : List Rec) (x : Rec) (after : List Rec) → bytes.now ≡ records (before ++ x ∷ after) → length bytes.now ≤ 248 → start ≡ length (records before) → len ≡ size x → MatchOption result ⊥ (λ p. BucketIs p depth (before ++ after)) }
{
    let front = bytes.get(..start)?;
    let back = bytes.get(start..)?.get(len..)?;
    bucket_page(depth, front, back).ok()
}
