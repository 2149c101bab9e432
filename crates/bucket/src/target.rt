//! How many bits the bucket of a changed key has.
ghost use Rattle.std.specs.Prelude.{◌≡◌, ◌+◌, ◌≤◌, List};
ghost use Rattle.tree.specs.Maps.{Rec};
ghost use Rattle.tree.specs.Trees.{room};
ghost use Rattle.pages.specs.Records.{records};
ghost use Rattle.pages.specs.Tells.{Tells};
ghost use Rattle.bucket.specs.Sifts.{own_load, FirstRoom};

use crate::change::KeyChange;
use keys::KeyRule;

/// The most bits of a bucket.
const DEEPEST: u8 = 8;

/// Whether a bucket has room for so many bytes and so many more.
fn is_room(load: usize, more: usize) -> bool
    ensures { Tells result (load + more ≤ room) }
{
    let most = tree::bucket_room();
    load <= most && more <= most - load
}

impl<'a> KeyChange<'a> {
    /// Whether a bucket of the first `bits` bits of the key's hash has room for what the change leaves there and `more` bytes.
    fn has_room<K: KeyRule>(self, hash: u32, bits: u32, more: usize) -> bool
        ensures { (rs : List Rec) → self.entry.records.now ≡ records rs → Tells result (own_load K.KeyRule.rule self.entry.key.now hash more rs bits ≤ room) }
    {
        let load = self.load_of::<K>(bits, tree::prefix(hash, bits));
        is_room(load, more)
    }

    /// How many bits the key's own bucket has at least once the change has brought `more` bytes: the first number from `bits` to 8 under which they and the records that it leaves have room; none where there is no such number.
    pub fn target_bits<K: KeyRule>(self, hash: u32, bits: u8, more: usize) -> Option<u8>
        ensures { (rs : List Rec) → self.entry.records.now ≡ records rs → FirstRoom (own_load K.KeyRule.rule self.entry.key.now hash more rs) bits result }
    {
        (bits..DEEPEST + 1).find(|n| self.has_room::<K>(hash, *n as u32, more))
    }
}
