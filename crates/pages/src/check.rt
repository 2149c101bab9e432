//! Whether the pages that a device shows are a well-formed image.
ghost use Rattle.std.specs.Prelude.{◌≡◌, ℕ, ◌+◌, ◌^◌, ◌<◌, ◌≤◌, List, length, take, drop, IfSome, IfOk, MatchOption, MatchResult};
ghost use Rattle.tree.specs.Maps.{Rec};
ghost use Rattle.pages.specs.Bytes.{Directory};
ghost use Rattle.pages.specs.Checks.{RootFits, DirectoriesRead, Unused, InRange, LaidOut, decision, Decided};
ghost use Rattle.pages.specs.Gathered.{Paged, AllPaged, AllBuckets};
ghost use Rattle.pages.specs.Images.{W1, shows, root, Lowest};
ghost use Rattle.pages.specs.Reads.{Looks, Seen};
ghost use Rattle.pages.specs.Records.{records, NoBucket};
ghost use Rattle.pages.specs.Surveys.{at, StandsBehind};
ghost use Rattle.pages.specs.Tells.{Tells};

use crate::bucket::BucketView;
use crate::fault::CheckFault;
use crate::reading::read_page;
use crate::root::{Condition, Root};
use crate::survey::{Bucket, Survey};
use crate::{bucket, directory, records, root, survey};
use device::{Device, DeviceFault, GroupDevice, PAGE_SIZE};
use keys::KeyRule;
use std::array;

/// Whether the numbers of page 0 fit a rule and a count of pages.
fn root_fits(x: Root, kind: u8, count: usize) -> bool
    ensures { Tells result (RootFits x kind count) }
{
    x.kind == kind
        && x.depth <= 8
        && x.limit >= 1
        && x.limit <= 256
        && usize::from(x.limit) + 5 <= count
}

/// The numbers of page 0, where the first condition holds.
fn check_root<D: GroupDevice, K: KeyRule>(device: &mut D) -> Result<Option<Root>, DeviceFault>
    ensures looks { 5 < (D.Device.meaning device.old).count → Looks D.Device.agrees D.Device.meaning D.GroupDevice.grouped 1 device.old result device.new (λ n f o. MatchOption o (W1 K.KeyRule.rule n f → ⊥) (λ x. W1 K.KeyRule.rule n f × (root f ≡ x))) }
    ensures deep { IfOk result (λ o. IfSome o (λ x. x.depth ≤ 8)) }
{
    let count = device.page_count();
    let Some(page) = &read_page(device, 0)? else {
        return Ok(None);
    };
    let Some(found) = root::read_root(page) else {
        return Ok(None);
    };
    if !root_fits(found, K::kind(), count) {
        return Ok(None);
    }
    Ok(Some(found))
}

/// The numbers of page 0, and the entries of the directory, of which the format has 256.
#[derive(Clone, Copy)]
pub(crate) struct Layout {
    pub root: Root,
    pub entries: [u16; 256],
    ghost deep: { root.depth ≤ 8 },
}

impl Layout {
    /// The used entries.
    pub fn used(&self) -> &[u16]
        ensures first { result.now ≡ take (2 ^ self.now.root.depth) self.now.entries }
        ensures wide { length result.now ≡ 2 ^ self.now.root.depth }
    {
        &self.entries[..1usize << self.root.depth]
    }

    /// The others.
    fn unused(&self) -> &[u16]
        ensures { result.now ≡ drop (2 ^ self.now.root.depth) self.now.entries }
    {
        &self.entries[1usize << self.root.depth..]
    }

    /// Whether the unused entries are 0.
    fn unused_zero(&self) -> bool
        ensures { Tells result (Unused (at self.now.entries) self.now.root.depth) }
    {
        self.unused().iter().all(|entry| *entry == 0)
    }

    /// Whether the used entries name pages that may be buckets.
    fn in_range(&self) -> bool
        ensures { Tells result (InRange (at self.now.entries) self.now.root.depth self.now.root.limit) }
    {
        let limit = self.root.limit;
        self.used().iter().all(|entry| *entry >= 5 && u32::from(*entry) <= 4 + u32::from(limit))
    }
}

/// The entries of the directory; none where some directory page is not by layout.
fn read_directory<D: GroupDevice>(device: &mut D) -> Result<Option<[u16; 256]>, DeviceFault>
    ensures { 5 < (D.Device.meaning device.old).count → Looks D.Device.agrees D.Device.meaning D.GroupDevice.grouped 4 device.old result device.new (λ n f o. MatchOption o (((j : ℕ) → j < 4 → Directory (shows (f (1 + j)))) → ⊥) (λ entries. DirectoriesRead f 4 entries)) }
{
    let mut pages = [[0u8; PAGE_SIZE]; 4];
    for (j, slot) in pages.iter_mut().enumerate() {
        let Some(page) = &read_page(device, 1 + j)? else {
            return Ok(None);
        };
        if !directory::is_directory(page) {
            return Ok(None);
        }
        *slot = *page;
    }
    Ok(Some(array::from_fn(|i| { directory::entry_at(&pages[i / 64], i % 64) })))
}

/// Whether the records of a bucket stand rightly behind entry i.
fn bucket_placed<K: KeyRule>(layout: &Layout, i: usize, bucket: BucketView<'_>) -> bool
    requires { i < 2 ^ layout.now.root.depth }
    ensures { (rs : List Rec) → bucket.entry.records.now ≡ records rs → Tells result (StandsBehind K.KeyRule.rule bucket.entry.depth i layout.now.root.depth rs) }
{
    let depth = layout.root.depth;
    if bucket.depth > depth {
        return false;
    }
    let prefix = (i >> (depth - bucket.depth)) as u32;
    survey::records_placed::<K>(bucket.records, u32::from(bucket.depth), prefix)
}

/// What is gathered of the bucket that entry i names; none where its page is not a bucket by layout whose records may stand in a page.
fn read_named<D: GroupDevice, K: KeyRule>(
    device: &mut D,
    layout: &Layout,
    i: usize,
) -> Result<Option<Bucket>, DeviceFault>
    requires { i < 2 ^ layout.now.root.depth }
    ensures { at layout.now.entries i < (D.Device.meaning device.old).count → Looks D.Device.agrees D.Device.meaning D.GroupDevice.grouped 1 device.old result device.new (λ n f o. MatchOption o (NoBucket K.KeyRule.rule.valid (shows (f (at layout.now.entries i)))) (λ b. Paged K.KeyRule.rule (shows (f (at layout.now.entries i))) layout.now.root.depth i b)) }
{
    let Some(page) = &read_page(device, usize::from(layout.entries[i]))? else {
        return Ok(None);
    };
    let Some(found) = bucket::read_bucket::<K>(page) else {
        return Ok(None);
    };
    let count = records::count_records(found.records);
    let placed = bucket_placed::<K>(layout, i, found);
    Ok(Some(Bucket {
        depth: found.depth,
        bytes: found.records.len() as u16,
        count: count as u16,
        placed,
    }))
}

/// What is gathered of the buckets that the used entries name, each at its entry's place; none where some page is not a bucket by layout whose records may
/// stand in a page.
fn read_buckets<D: GroupDevice, K: KeyRule>(
    device: &mut D,
    layout: &Layout,
) -> Result<Option<[Bucket; 256]>, DeviceFault>
    ensures { ((i : ℕ) → i < 2 ^ layout.now.root.depth → at layout.now.entries i < (D.Device.meaning device.old).count) → Looks D.Device.agrees D.Device.meaning D.GroupDevice.grouped (2 ^ layout.now.root.depth) device.old result device.new (λ n f o. MatchOption o (AllBuckets K.KeyRule.rule (λ i. shows (f (at layout.now.entries i))) (2 ^ layout.now.root.depth) → ⊥) (λ buckets. AllPaged K.KeyRule.rule (λ i. shows (f (at layout.now.entries i))) layout.now.root.depth buckets (2 ^ layout.now.root.depth))) }
{
    let mut buckets = [Bucket {
        depth: 0,
        bytes: 0,
        count: 0,
        placed: false,
    }; 256];
    let used = &mut buckets[..layout.used().len()];
    for (i, slot) in used.iter_mut().enumerate() {
        let Some(found) = read_named::<D, K>(device, layout, i)? else {
            return Ok(None);
        };
        *slot = found;
    }
    Ok(Some(buckets))
}

/// Page 0 and the directory; else the lowest of the first three conditions that is broken.
fn check_layout<D: GroupDevice, K: KeyRule>(device: &mut D) -> Result<Layout, CheckFault>
    ensures { 5 < (D.Device.meaning device.old).count → Looks D.Device.agrees D.Device.meaning D.GroupDevice.grouped 5 device.old (decision result) device.new (λ n f c. MatchResult c (λ l. LaidOut K.KeyRule.rule n f l.root (at l.entries)) (λ b. Lowest K.KeyRule.rule n f b)) }
{
    let root = check_root::<D, K>(device)?.ok_or(Condition::RootPage)?;
    let entries = read_directory(device)?.ok_or(Condition::DirectoryPages)?;
    let layout = Layout { root, entries };
    if !layout.unused_zero() {
        return Err(CheckFault::Broken(Condition::DirectoryPages));
    }
    if !layout.in_range() {
        return Err(CheckFault::Broken(Condition::UsedEntries));
    }
    Ok(layout)
}

/// Tests the other three conditions, where the first three hold: the numbers of page 0, or the lowest condition that is broken.
fn check_buckets<D: GroupDevice, K: KeyRule>(
    device: &mut D,
    layout: &Layout,
) -> Result<Root, CheckFault>
    ensures { Seen (D.Device.meaning device.old) (λ n f. LaidOut K.KeyRule.rule n f layout.now.root (at layout.now.entries)) → Looks D.Device.agrees D.Device.meaning D.GroupDevice.grouped 256 device.old (decision result) device.new (λ n f c. Decided K.KeyRule.rule n f c) }
{
    let buckets = read_buckets::<D, K>(device, layout)?.ok_or(Condition::BucketPages)?;
    let survey = Survey::new(layout, &buckets).ok_or(Condition::Placement)?;
    if !survey.entries_placed() {
        return Err(CheckFault::Broken(Condition::Placement));
    }
    if !survey.is_tree() {
        return Err(CheckFault::Broken(Condition::Tree));
    }
    Ok(layout.root)
}

/// Whether the pages that a device shows are a well-formed image: the numbers of page 0, or the lowest condition that is broken.
/// Each page is read at most once for each entry that names it, 261 reads in all at most.
pub fn check_image<D: GroupDevice, K: KeyRule>(device: &mut D) -> Result<Root, CheckFault>
    ensures { Looks D.Device.agrees D.Device.meaning D.GroupDevice.grouped 261 device.old (decision result) device.new (λ n f c. Decided K.KeyRule.rule n f c) }
{
    if device.page_count() < 6 {
        return Err(CheckFault::Broken(Condition::RootPage));
    }
    let layout = check_layout::<D, K>(device)?;
    check_buckets::<D, K>(device, &layout)
}
