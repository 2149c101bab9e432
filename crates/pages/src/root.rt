//! Page 0, and the conditions of a well-formed image.
ghost use Rattle.std.specs.Prelude.{◌≡◌, MatchOption, ◌≢◌};
ghost use Rattle.layout.specs.Envelope.{envelope};
ghost use Rattle.pages.specs.Bytes.{root_body};
ghost use Rattle.pages.specs.Images.{number_of};

use crate::page;
use device::Page;

/// The numbers of page 0: the kind of keys, the directory's depth, how many buckets there may be and are, and how many records.
#[derive(Clone, Copy, Debug, PartialEq, Eq)]
pub struct Root {
    // a number: a page may hold one that no rule has
    pub kind: u8,
    pub depth: u8,
    pub limit: u16,
    pub used: u16,
    pub records: u32,
}

/// The conditions of a well-formed image, in the order in which they are tested.
#[derive(Clone, Copy, Debug, PartialEq, Eq)]
pub enum Condition {
    /// Page 0 is by layout, and its numbers fit the key rule and the count of pages.
    RootPage,
    /// Pages 1 to 4 are by layout.
    DirectoryPages,
    /// Used entries name pages that may be buckets.
    UsedEntries,
    /// Pages named are buckets by layout, whose records may stand in a page.
    BucketPages,
    /// Each bucket stands behind the entries that begin with its prefix, and its records' hashes begin so; no two of its keys are the same.
    Placement,
    /// The buckets are the tree's, and the numbers of page 0 are right.
    Tree,
}

impl Condition {
    /// The number by which a condition is known. A `u8::from` would not say what its number is.
    pub fn number(self) -> u8
        ensures { result ≡ number_of self }
    {
        match self {
            Condition::RootPage => 1,
            Condition::DirectoryPages => 2,
            Condition::UsedEntries => 3,
            Condition::BucketPages => 4,
            Condition::Placement => 5,
            Condition::Tree => 6,
        }
    }
}

/// The numbers of page 0, where it is by layout.
pub fn read_root(page: &[u8]) -> Option<Root>
    ensures { MatchOption result ((x : Root) → page.now ≢ envelope (root_body x)) (λ x. page.now ≡ envelope (root_body x)) }
{
    let body = layout::body_of(page)?;
    let [kind, depth, l1, l0, u1, u0, r3, r2, r1, r0] = body else {
        return None;
    };
    let limit = u16::from_be_bytes([*l1, *l0]);
    let used = u16::from_be_bytes([*u1, *u0]);
    let records = u32::from_be_bytes([*r3, *r2, *r1, *r0]);
    Some(Root {
        kind: *kind,
        depth: *depth,
        limit,
        used,
        records,
    })
}

/// Page 0 with these numbers.
pub fn root_page(root: Root) -> Page
    ensures { result ≡ envelope (root_body root) }
{
    let [l1, l0] = root.limit.to_be_bytes();
    let [u1, u0] = root.used.to_be_bytes();
    let [r3, r2, r1, r0] = root.records.to_be_bytes();
    page::page_of(&[root.kind, root.depth, l1, l0, u1, u0, r3, r2, r1, r0])
}
