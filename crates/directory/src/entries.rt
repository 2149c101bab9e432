//! The directory of a store, and the steps of a change to its entries.
ghost use Rattle.std.specs.Prelude.{◌≡◌, ℕ, ◌+◌, ◌*◌, ◌^◌, ◌<◌, ◌≤◌, MatchBool, MatchOption};
ghost use Rattle.directory.specs.Names.{assigned, at, Beyond, Differ, FirstFree, Free, Named, NoneFree, Unused, widened};

/// The most bits of a directory.
const DEEPEST: u8 = 8;

/// A directory of `depth` bits: of its 256 entries the first 2 ^ `depth` are used, each of which names a page.
#[derive(Clone, Copy, Debug, PartialEq, Eq)]
pub struct Directory {
    pub entries: [u16; 256],
    pub depth: u8,
    ghost deep: { depth ≤ 8 },
}

/// The lowest page that may be a bucket.
pub(crate) fn first_page() -> u16
    ensures { result ≡ 5 }
{
    5
}

impl Directory {
    /// A directory of so many bits; none where there are more than 8.
    pub fn new(entries: [u16; 256], depth: u8) -> Option<Directory>
        ensures { MatchOption result (8 < depth) (λ d. (d.entries ≡ entries) × (d.depth ≡ depth)) }
    {
        if depth > DEEPEST {
            return None;
        }
        Some(Directory { entries, depth })
    }

    /// How many entries are used.
    fn used(&self) -> usize
        ensures width { result ≡ 2 ^ self.now.depth }
        ensures most { result ≤ 256 }
    {
        1usize << self.depth
    }

    /// Lets every used entry that begins with `prefix`, of `bits` bits, name `page`.
    pub(crate) fn assign(&mut self, bits: u8, prefix: u32, page: u16)
        requires { bits ≤ self.old.depth }
        ensures depth { self.new.depth ≡ self.old.depth }
        ensures used { (i : ℕ) → i < 2 ^ self.old.depth → at self.new.entries i ≡ assigned self.old.depth bits prefix page (at self.old.entries) i }
        ensures rest { Beyond self.old.depth (at self.old.entries) (at self.new.entries) }
    {
        assign_used(&mut self.entries, self.depth, bits, prefix, page);
    }

    /// Widens the directory to `depth` bits: each entry names the page that its first bits named.
    pub(crate) fn widen(&mut self, depth: u8)
        requires deep { depth ≤ 8 }
        requires wider { self.old.depth ≤ depth }
        ensures depth { self.new.depth ≡ depth }
        ensures used { (i : ℕ) → i < 2 ^ depth → at self.new.entries i ≡ widened self.old.depth depth (at self.old.entries) i }
        ensures rest { Beyond depth (at self.old.entries) (at self.new.entries) }
    {
        let shift = depth - self.depth;
        self.depth = depth;
        // In place, from the last to the first: an entry takes what another one has, and no iterator lends both.
        for i in (0..self.used()).rev() {
            self.entries[i] = self.entries[i >> shift];
        }
    }

    /// Whether some used entry names the page.
    fn is_named(&self, page: u16) -> bool
        ensures { MatchBool result (Named self.now.depth (at self.now.entries) page) (Free self.now.depth (at self.now.entries) page) }
    {
        self.entries[..self.used()].contains(&page)
    }

    /// The lowest page from 5 to 4 + `limit` that no used entry names, if there is one.
    pub(crate) fn free_page(&self, limit: u16) -> Option<u16>
        requires { limit ≤ 256 }
        ensures { MatchOption result (NoneFree self.now.depth limit (at self.now.entries)) (FirstFree self.now.depth limit (at self.now.entries)) }
    {
        let first = first_page();
        (first..first + limit).find(|page| !self.is_named(*page))
    }
}

// These take the entries alone, since no part of an array is lent while a struct with an invariant holds it.

/// Lets each of the used entries of a directory of `depth` bits that begins with `prefix`, of `bits` bits, name `page`.
fn assign_used(entries: &mut [u16; 256], depth: u8, bits: u8, prefix: u32, page: u16)
    requires deep { depth ≤ 8 }
    requires short { bits ≤ depth }
    ensures used { (i : ℕ) → i < 2 ^ depth → at entries.new i ≡ assigned depth bits prefix page (at entries.old) i }
    ensures rest { Beyond depth (at entries.old) (at entries.new) }
{
    let shift = depth - bits;
    let used = &mut entries[..1usize << depth];
    for (i, entry) in used.iter_mut().enumerate() {
        if i >> shift == prefix as usize {
            *entry = page;
        }
    }
}

/// Whether both entries of each pair that differs in the last bit name one page.
pub(crate) fn pairs_agree(entries: &[u16; 256], pairs: usize) -> bool
    requires { pairs ≤ 128 }
    ensures { MatchBool result ((i : ℕ) → i < pairs → at entries.now (2 * i) ≡ at entries.now (2 * i + 1)) ((i : ℕ) × (i < pairs) × Differ (at entries.now) i) }
{
    (0..pairs).all(|i| entries[2 * i] == entries[2 * i + 1])
}

/// Moves one entry of each pair to the front.
pub(crate) fn halve(entries: &mut [u16; 256], pairs: usize)
    requires { pairs ≤ 128 }
    ensures used { (i : ℕ) → i < pairs → at entries.new i ≡ at entries.old (2 * i) }
    ensures rest { (i : ℕ) → pairs ≤ i → at entries.new i ≡ at entries.old i }
{
    // In place: an entry takes what another one has, and no iterator lends both.
    for pair in 0..pairs {
        entries[pair] = entries[2 * pair];
    }
}

impl Directory {
    /// Makes the unused entries 0.
    pub(crate) fn clear_unused(&mut self)
        ensures depth { self.new.depth ≡ self.old.depth }
        ensures used { (i : ℕ) → i < 2 ^ self.old.depth → at self.new.entries i ≡ at self.old.entries i }
        ensures rest { Unused self.old.depth (at self.new.entries) }
    {
        let used = self.used();
        self.entries[used..].fill(0);
    }
}
