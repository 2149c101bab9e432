//! The entries of a store's directory, and what a change does to them.
#![tactic(auto)]

ghost use Rattle.std.specs.Prelude.{◌≡◌, ℕ, ◌≤◌, None, IsErr, OnErr, MatchBool, MatchOption, MatchResult};
ghost use Rattle.directory.specs.Names.{at};
ghost use Rattle.directory.specs.Laws.{PagesTaken};
ghost use Rattle.directory.specs.Changes.{MergeFits, Merged, Merging, NarrowedTo, Narrowest, Split, SplitFits, SplitTo, Splitting, TooFew, WidenedTo};

mod entries;

pub use entries::Directory;

/// There are not enough free pages.
#[derive(Clone, Copy, Debug, PartialEq, Eq)]
pub struct TooFewPages;

impl Directory {
    /// After the bucket of `hash`, of `bits` bits, was split down to `target` bits; no change where there are not enough free pages.
    pub fn split(&mut self, limit: u16, hash: u32, bits: u8, target: u8) -> Result<(), TooFewPages>
        ensures split { (d : ℕ → ℕ) → Splitting self.old.depth limit hash bits target (at self.old.entries) d → MatchResult result (λ _. Split self.old.depth self.new.depth limit hash bits target (at self.old.entries) d (at self.new.entries)) (λ _. TooFew self.old.depth limit bits target (at self.old.entries)) }
        ensures unfit { (SplitFits self.old.depth limit bits target → ⊥) → IsErr result }
        ensures kept { OnErr result (self.new ≡ self.old) }
    {
        if !self.split_fits(limit, bits, target) {
            return Err(TooFewPages);
        }
        let mut after = *self;
        after.widen(self.depth.max(target));
        after.split_path(limit, hash, bits, target)?;
        *self = after;
        Ok(())
    }

    /// Whether the numbers of a split are in range.
    fn split_fits(&self, limit: u16, bits: u8, target: u8) -> bool
        ensures { MatchBool result (SplitFits self.now.depth limit bits target) (SplitFits self.now.depth limit bits target → ⊥) }
    {
        limit <= 256 && bits <= self.depth && bits <= target && target <= 8
    }

    /// Gives each sibling along the path of `hash`, from `bits` to `target` bits, a free page.
    fn split_path(&mut self, limit: u16, hash: u32, bits: u8, target: u8) -> Result<(), TooFewPages>
        requires most { limit ≤ 256 }
        requires within { target ≤ self.old.depth }
        ensures depth { self.new.depth ≡ self.old.depth }
        ensures split { (w : ℕ) (E d : ℕ → ℕ) → Splitting w limit hash bits target E d → WidenedTo w self.old.depth E (at self.old.entries) → MatchResult result (λ _. (ds : ℕ → ℕ) × SplitTo w self.old.depth limit hash bits target E d (at self.new.entries) ds) (λ _. TooFew w limit bits target E) }
    {
        for j in bits..target {
            let Some(page) = self.free_page(limit) else {
                return Err(TooFewPages);
            };
            let sibling = tree::sibling(tree::prefix(hash, j as u32 + 1));
            self.assign(j + 1, sibling, page);
        }
        Ok(())
    }

    /// After all buckets below the first `bits` bits of `hash` were merged into `page`.
    pub fn merge(&mut self, hash: u32, bits: u8, page: u16)
        ensures merged { (d : ℕ → ℕ) → Merging self.old.depth hash bits page (at self.old.entries) d → Merged self.old.depth self.new.depth hash bits page (at self.old.entries) d (at self.new.entries) }
        ensures unfit { (MergeFits self.old.depth bits → ⊥) → self.new ≡ self.old }
    {
        if bits > self.depth {
            return;
        }
        self.assign(bits, tree::prefix(hash, bits as u32), page);
        self.narrow();
        self.clear_unused();
    }

    /// Narrows the directory as long as no page has all its bits.
    fn narrow(&mut self)
        ensures narrowed { NarrowedTo self.old.depth self.new.depth (at self.old.entries) (at self.new.entries) }
        ensures least { Narrowest self.new.depth (at self.new.entries) }
    {
        for bits in (0..self.depth).rev() {
            let pairs = 1usize << bits;
            if !entries::pairs_agree(&self.entries, pairs) {
                return;
            }
            entries::halve(&mut self.entries, pairs);
            self.depth = bits;
        }
    }
}

// Over entries and a depth as a caller holds them: these answer for every depth, where a `Directory` has at most 8 bits.

/// The entries after the bucket of `hash`, of `bits` bits, was split down to `target` bits: the new depth; none, and no change, where there are not enough free pages or the numbers are out of range.
pub fn split(
    entries: &mut [u16; 256],
    depth: u8,
    limit: u16,
    hash: u32,
    bits: u8,
    target: u8,
) -> Option<u8>
    ensures split { (d : ℕ → ℕ) → Splitting depth limit hash bits target (at entries.old) d → MatchOption result (TooFew depth limit bits target (at entries.old)) (λ v. Split depth v limit hash bits target (at entries.old) d (at entries.new)) }
    ensures unfit { (SplitFits depth limit bits target → ⊥) → (result ≡ None) × (entries.new ≡ entries.old) }
    ensures kept { (result ≡ None) → entries.new ≡ entries.old }
{
    let mut after = Directory::new(*entries, depth)?;
    after.split(limit, hash, bits, target).ok()?;
    *entries = after.entries;
    Some(after.depth)
}

/// The entries after all buckets below the first `bits` bits of `hash` were merged into `page`: the new depth; the old one, and no change, where the numbers are out of range.
pub fn merge(entries: &mut [u16; 256], depth: u8, hash: u32, bits: u8, page: u16) -> u8
    ensures merged { (d : ℕ → ℕ) → Merging depth hash bits page (at entries.old) d → Merged depth result hash bits page (at entries.old) d (at entries.new) }
    ensures unfit { (MergeFits depth bits → ⊥) → (result ≡ depth) × (entries.new ≡ entries.old) }
{
    let Some(mut directory) = Directory::new(*entries, depth) else {
        return depth;
    };
    directory.merge(hash, bits, page);
    *entries = directory.entries;
    directory.depth
}

/// The law of the pages that a directory names. Answers the lowest page that may be a bucket.
pub fn pages_taken() -> u16
    ensures first { result ≡ 5 }
    ensures taken { PagesTaken }
{
    entries::first_page()
}

#[cfg(test)]
mod tests {
    use super::*;
    use std::test::Fail;

    fn one_bucket() -> Option<Directory> {
        let mut entries = [0; 256];
        entries[0] = 5;
        Directory::new(entries, 0)
    }

    #[test]
    fn split_and_merge(rt: HostRuntime) -> Result<(), Fail> {
        let mut directory = one_bucket().ok_or("too deep")?;
        assert_eq!(rt; directory.split(3, 0x8000_0000, 0, 2), Ok(()));
        assert_eq!(rt; directory.depth, 2);
        let entries = directory.entries;
        assert_eq!(rt; entries[0], 6);
        assert_eq!(rt; entries[1], 6);
        assert_eq!(rt; entries[2], 5);
        assert_eq!(rt; entries[3], 7);
        directory.merge(0x8000_0000, 1, 5);
        assert_eq!(rt; directory.depth, 1);
        let entries = directory.entries;
        assert_eq!(rt; entries[1], 5);
        assert_eq!(rt; entries[2], 0);
        Ok(())
    }

    #[test]
    fn too_few_pages(rt: HostRuntime) -> Result<(), Fail> {
        let mut directory = one_bucket().ok_or("too deep")?;
        assert_eq!(rt; directory.split(2, 0, 0, 2), Err(TooFewPages));
        Ok(())
    }
}
