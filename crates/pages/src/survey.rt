//! The tests of a check on what was gathered of the used entries.
ghost use Rattle.std.specs.Prelude.{◌≡◌, ℕ, ◌+◌, ◌-◌, ◌*◌, ◌^◌, ◌<◌, ◌≤◌, List, length, take, MatchOption};
ghost use Rattle.tree.specs.Maps.{Rec};
ghost use Rattle.pages.specs.Records.{records};
ghost use Rattle.pages.specs.Surveys.{at, bucket_at, depth_at, bytes_at, count_at, Narrow, AllPlaced, EntryPlaced, EntriesPlaced, PairFull, SiblingFull, SiblingsFull, DepthUsed, counted, RecordsPlaced, NumberRight, TreeTested};
ghost use Rattle.pages.specs.Tells.{Tells};

use crate::check::Layout;
use crate::records;
use crate::root::Root;
use keys::KeyRule;

/// What a check gathers of a bucket: its local depth, the bytes and the number of its records, and whether they stand behind the right entry.
#[derive(Clone, Copy)]
pub(crate) struct Bucket {
    pub depth: u8,
    pub bytes: u16,
    pub count: u16,
    pub placed: bool,
}

/// The numbers of page 0, the used entries, and what was gathered of the bucket that each names. No bucket has more bits than the directory.
#[derive(Clone, Copy)]
pub(crate) struct Survey<'a> {
    root: Root,
    entries: &'a [u16],
    buckets: &'a [Bucket],
    ghost deep: { root.depth ≤ 8 },
    ghost entries_wide: { length entries.now ≡ 2 ^ root.depth },
    ghost buckets_wide: { length buckets.now ≡ 2 ^ root.depth },
    ghost narrow: { Narrow buckets.now root.depth },
}

impl<'a> Survey<'a> {
    /// The survey of the buckets that used entries name, where the records of each stand behind the right entry, and none has more bits than the directory.
    pub fn new(layout: &'a Layout, buckets: &'a [Bucket; 256]) -> Option<Survey<'a>>
        ensures { let w = layout.entry.now.root.depth in let bs = take (2 ^ w) buckets.entry.now in MatchOption result (AllPlaced bs w → ⊥) (λ s. AllPlaced bs w × (s.root ≡ layout.entry.now.root) × (s.entries.now ≡ take (2 ^ w) layout.entry.now.entries) × (s.buckets.now ≡ bs)) }
    {
        let entries = layout.used();
        let buckets = &buckets[..entries.len()];
        let depth = layout.root.depth;
        if !buckets
            .iter()
            .all(|bucket| bucket.placed && bucket.depth <= depth)
        {
            return None;
        }
        Some(Survey {
            root: layout.root,
            entries,
            buckets,
        })
    }

    /// Whether the page of entry i is named by the entries that begin with its prefix, and no others.
    fn entry_placed(&self, i: usize) -> bool
        requires { i < 2 ^ self.now.root.depth }
        ensures { Tells result (EntryPlaced (at self.now.entries.now) (depth_at self.now.buckets.now) self.now.root.depth i) }
    {
        let page = self.entries[i];
        let shift = self.root.depth - self.buckets[i].depth;
        self.entries.iter().enumerate().all(|(j, entry)| (*entry == page)
            == (j >> shift == i >> shift))
    }

    /// The same of all entries.
    pub fn entries_placed(&self) -> bool
        ensures { Tells result (EntriesPlaced (at self.now.entries.now) (depth_at self.now.buckets.now) self.now.root.depth) }
    {
        (0..self.entries.len()).all(|i| self.entry_placed(i))
    }

    /// Whether two pages are no siblings, or would not fit together.
    fn pair_full(&self, i: usize, j: usize) -> bool
        requires first { i < 2 ^ self.now.root.depth }
        requires second { j < 2 ^ self.now.root.depth }
        ensures { Tells result (PairFull (depth_at self.now.buckets.now) (bytes_at self.now.buckets.now) self.now.root.depth i j) }
    {
        let a = self.buckets[i];
        let b = self.buckets[j];
        if a.depth != b.depth || a.depth == 0 {
            return true;
        }
        let shift = self.root.depth - a.depth;
        if (j >> shift) as u32 != tree::sibling((i >> shift) as u32) {
            return true;
        }
        usize::from(a.bytes) + usize::from(b.bytes) > tree::bucket_room()
    }

    /// Whether the page of entry i would fit together with no sibling.
    fn sibling_full(&self, i: usize) -> bool
        requires { i < 2 ^ self.now.root.depth }
        ensures { Tells result (SiblingFull (depth_at self.now.buckets.now) (bytes_at self.now.buckets.now) self.now.root.depth i) }
    {
        (0..self.buckets.len()).all(|j| self.pair_full(i, j))
    }

    /// The same of all entries.
    fn siblings_full(&self) -> bool
        ensures { Tells result (SiblingsFull (depth_at self.now.buckets.now) (bytes_at self.now.buckets.now) self.now.root.depth) }
    {
        (0..self.buckets.len()).all(|i| self.sibling_full(i))
    }

    /// How many entries name the bucket of entry i.
    fn width(&self, i: usize) -> usize
        requires { i < 2 ^ self.now.root.depth }
        ensures { result ≡ 2 ^ (self.now.root.depth - depth_at self.now.buckets.now i) }
    {
        1usize << (self.root.depth - self.buckets[i].depth)
    }

    /// How many pages the entries name, where they are the buckets of a tree.
    fn count_pages(&self) -> u32
        ensures { NumberRight (depth_at self.now.buckets.now) self.now.root.depth result }
    {
        // from the first entry of each bucket to that of the next, in steps that differ
        let mut i: usize = 0;
        let mut n: u32 = 0;
        while i < self.buckets.len() {
            i += self.width(i);
            n += 1;
        }
        n
    }

    /// How many records the pages have.
    fn count_records(&self) -> u32
        ensures { result ≡ counted (depth_at self.now.buckets.now) (count_at self.now.buckets.now) self.now.root.depth (2 ^ self.now.root.depth) }
    {
        let mut n: u32 = 0;
        for (i, bucket) in self.buckets.iter().enumerate() {
            if i % self.width(i) == 0 {
                n += u32::from(bucket.count);
            }
        }
        n
    }

    /// Whether some page has all the directory's bits.
    fn depth_used(&self) -> bool
        ensures { Tells result (DepthUsed (depth_at self.now.buckets.now) self.now.root.depth) }
    {
        let depth = self.root.depth;
        depth == 0 || self.buckets.iter().any(|bucket| bucket.depth == depth)
    }

    /// Whether the buckets are a tree's, and the numbers of page 0 are right.
    pub(crate) fn is_tree(&self) -> bool
        ensures { (n : ℕ) × NumberRight (depth_at self.now.buckets.now) self.now.root.depth n × Tells result (TreeTested (depth_at self.now.buckets.now) (bytes_at self.now.buckets.now) (count_at self.now.buckets.now) self.now.root n) }
    {
        u32::from(self.root.used) == self.count_pages()
            && self.root.records == self.count_records()
            && self.depth_used()
            && self.siblings_full()
    }
}

/// Whether the hashes of records begin with a prefix, and no two keys are the same.
pub(crate) fn records_placed<K: KeyRule>(bytes: &[u8], depth: u32, prefix: u32) -> bool
    requires deep { depth ≤ 32 }
    ensures { (rs : List Rec) → bytes.now ≡ records rs → Tells result (RecordsPlaced K.KeyRule.rule depth prefix rs) }
{
    // by the bytes, since each record is sought among those after it
    let mut left = bytes;
    while let Some((record, after)) = records::next_record(left) {
        if tree::prefix(K::hash(record.key), depth) != prefix {
            return false;
        }
        if records::find::<K>(after, record.key).is_some() {
            return false;
        }
        left = after;
    }
    true
}
