//! The laws of what a change leaves in buckets, under any key rule. Each function answers a number of the tree, and its contract asks for the proofs of the laws that go with it.
ghost use Rattle.std.specs.Prelude.{◌≡◌};
ghost use Rattle.tree.specs.Trees.{deepest, room};
ghost use Rattle.bucket.specs.Laws.{AbsentThere, BesideKept, CountedThere, EntrySplit, MergedUp, OwnFound, OwnLeft, SiblingLeft, SiblingsJoined, StillApart, StillFine, TargetFalls};

use keys::KeyRule;

/// The laws of a bucket that a change splits, or leaves as long as it was. Answers how many siblings a split leaves at most.
pub fn splits_stand<K: KeyRule>() -> u32
    ensures most { result ≡ deepest }
    ensures found { OwnFound K.KeyRule.rule }
    ensures sibling { SiblingLeft K.KeyRule.rule }
    ensures own { OwnLeft K.KeyRule.rule }
    ensures apart { StillApart K.KeyRule.rule }
    ensures fine { StillFine K.KeyRule.rule }
    ensures entry { EntrySplit K.KeyRule.rule }
    ensures target { TargetFalls K.KeyRule.rule }
    ensures absent { AbsentThere K.KeyRule.rule }
    ensures counted { CountedThere K.KeyRule.rule }
{
    siblings_left()
}

/// The laws of buckets that a change merges. Answers the most bytes of records that two siblings have that are merged.
pub fn merges_stand<K: KeyRule>() -> usize
    ensures most { result ≡ room }
    ensures beside { BesideKept K.KeyRule.rule }
    ensures joined { SiblingsJoined K.KeyRule.rule }
    ensures up { MergedUp K.KeyRule.rule }
{
    merged_bytes()
}

/// The most siblings that a split leaves: one for each bit.
fn siblings_left() -> u32
    ensures { result ≡ deepest }
{
    tree::bucket_bits()
}

/// The most bytes of records of two siblings that are merged.
fn merged_bytes() -> usize
    ensures { result ≡ room }
{
    tree::bucket_room()
}
