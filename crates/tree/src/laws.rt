//! The laws of the tree, under any key rule. Each function answers a number of the tree, and its contract asks for the proofs of the laws that go with it.
ghost use Rattle.std.specs.Prelude.{◌≡◌, ◌+◌, ◌^◌};
ghost use Rattle.tree.specs.Laws.{AllAlong, AllListed, BucketTells, DeleteMerges, DepthTold, EightAtMost, EitherOrder, EntryNamed, EqualMaps, FoundByHash, LaterAlone, LoadsFall, LoadsSplit, MergeHolds, Narrowed, OneBitUp, OneBucket, OneFree, OnlyAlong, Parted, PutMerges, PutSplits, RecoverTest, RoomTested, SiblingTest, SplitHolds, StillMap, StopsThere, Widened};
ghost use Rattle.tree.specs.Trees.{deepest, room};

use keys::KeyRule;

/// The most bytes of records that a bucket has room for.
pub fn bucket_room() -> usize
    ensures { result ≡ room }
{
    248
}

/// The most bits of a bucket.
pub fn bucket_bits() -> u32
    ensures { result ≡ deepest }
{
    8
}

/// The laws of loads. Answers the load that a bucket has room for.
pub fn loads_stand<K: KeyRule>() -> usize
    ensures room { result ≡ room }
    ensures splits { LoadsSplit K.KeyRule.rule }
    ensures falls { LoadsFall K.KeyRule.rule }
{
    bucket_room()
}

/// The laws of the buckets of a map. Answers the most bits of a bucket.
pub fn buckets_stand<K: KeyRule>() -> u32
    ensures bits { result ≡ deepest }
    ensures one { OneBucket K.KeyRule.rule }
    ensures named { EntryNamed K.KeyRule.rule }
    ensures listed { AllListed K.KeyRule.rule }
    ensures equal { EqualMaps K.KeyRule.rule }
{
    bucket_bits()
}

/// The laws of changes. Answers how many buckets one change adds or takes away at most.
pub fn changes_stand<K: KeyRule>() -> u32
    ensures most { result ≡ deepest }
    ensures still { StillMap K.KeyRule.rule }
    ensures only { OnlyAlong K.KeyRule.rule }
    ensures along { AllAlong K.KeyRule.rule }
    ensures tested { RoomTested K.KeyRule.rule }
    ensures splits { PutSplits K.KeyRule.rule }
    ensures shortens { PutMerges K.KeyRule.rule }
    ensures merges { DeleteMerges K.KeyRule.rule }
    ensures near { EightAtMost K.KeyRule.rule }
    ensures order { EitherOrder K.KeyRule.rule }
    ensures later { LaterAlone K.KeyRule.rule }
{
    bucket_bits()
}

/// The laws of directories. Answers how many entries one has at most.
pub fn directories_stand<K: KeyRule>() -> usize
    ensures entries { result ≡ 2 ^ deepest }
    ensures siblings { SiblingTest K.KeyRule.rule }
    ensures recovers { RecoverTest K.KeyRule.rule }
    ensures parted { Parted K.KeyRule.rule }
    ensures deep { DepthTold K.KeyRule.rule }
    ensures found { FoundByHash K.KeyRule.rule }
    ensures widened { Widened K.KeyRule.rule }
    ensures narrowed { Narrowed K.KeyRule.rule }
{
    directory_entries()
}

/// The laws of the steps of a change. Answers how many buckets one change writes at most: the siblings along a path, and the record's own.
pub fn steps_stand<K: KeyRule>() -> u32
    ensures most { result ≡ deepest + 1 }
    ensures split { SplitHolds K.KeyRule.rule }
    ensures merged { MergeHolds K.KeyRule.rule }
    ensures tells { BucketTells K.KeyRule.rule }
    ensures stops { StopsThere K.KeyRule.rule }
    ensures up { OneBitUp K.KeyRule.rule }
    ensures free { OneFree }
{
    buckets_written()
}

/// The most buckets that one change writes.
fn buckets_written() -> u32
    ensures { result ≡ deepest + 1 }
{
    bucket_bits() + 1
}

/// The most entries of a directory.
fn directory_entries() -> usize
    ensures { result ≡ 2 ^ deepest }
{
    256
}
