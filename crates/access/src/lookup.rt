//! A key, looked up in the pages that a device shows.
ghost use Rattle.std.specs.Prelude.{◌≡◌, ℕ, ◌<◌, ◌≤◌, min, true, false, List, length, Some, MatchOption, OnErr};
ghost use Rattle.std.specs.List.{AllByRecursion};
ghost use Rattle.tree.specs.Maps.{Rec};
ghost use Rattle.tree.specs.Members.{In};
ghost use Rattle.tree.specs.Prefix.{pre};
ghost use Rattle.layout.specs.Envelope.{envelope};
ghost use Rattle.pages.specs.declared.root.Root.{Root};
ghost use Rattle.pages.specs.Bytes.{root_body};
ghost use Rattle.pages.specs.Images.{root, entry, AllMet, WellFormed};
ghost use Rattle.pages.specs.Reads.{Looks};
ghost use Rattle.pages.specs.Records.{BucketIs, Fine};
ghost use Rattle.access.specs.Seek.{seek, told, filled, found_of};

use device::{DeviceFault, GroupDevice, Page};
use keys::KeyRule;
use pages::read_page;
use tree::Class;

/// What is told of a record: the letter of its class, as the byte that a get answers, its last day, and the length of its value.
#[derive(Clone, Copy, Debug, PartialEq, Eq)]
pub struct Found {
    pub letter: u8,
    pub last_day: u32,
    pub length: usize,
}

/// The page that the directory names for a hash; none where a page that tells it is spoiled, or page 0 by no layout.
fn home_page<D: GroupDevice, K: KeyRule>(
    device: &mut D,
    hash: u32,
) -> Result<Option<usize>, DeviceFault>
    ensures { 5 < (D.Device.meaning device.old).count → Looks D.Device.agrees D.Device.meaning D.GroupDevice.grouped 2 device.old result device.new (λ n f o. AllMet K.KeyRule.rule n f → o ≡ Some (entry f (pre 32 hash (root f).depth))) }
{
    let Some(page) = &read_page(device, 0)? else {
        return Ok(None);
    };
    let Some(root) = pages::read_root(page) else {
        return Ok(None);
    };
    let i = tree::prefix(hash, u32::from(root.depth.min(8)));
    let Some(entries) = &read_page(device, 1 + (i / 64) as usize)? else {
        return Ok(None);
    };
    Ok(Some(usize::from(pages::entry_of(entries, i as u8))))
}

/// Looks a key up in a bucket's page, and puts the value of its record at the front of the buffer.
fn copy_found<K: KeyRule>(page: &Page, key: &[u8], buf: &mut [u8]) -> Option<Found>
    ensures { (d : ℕ) (rs : List Rec) → BucketIs page.now d rs → AllByRecursion (Fine K.KeyRule.rule.valid) rs → 120 ≤ length buf.old → MatchOption result (AllByRecursion (λ x. K.KeyRule.rule.same key.now x.key ≡ false) rs × (buf.new ≡ buf.old)) (λ f. (x : Rec) × In x rs × (K.KeyRule.rule.same key.now x.key ≡ true) × (f ≡ found_of x) × (buf.new ≡ filled (Some x) buf.old)) }
{
    let bucket = pages::read_bucket::<K>(page)?;
    let (_, stored) = pages::find::<K>(bucket.records, key)?;
    let Ok(class) = Class::try_from(stored.class) else {
        return None;
    };
    let n = stored.value.len();
    if n > buf.len() {
        return None;
    }
    buf[..n].copy_from_slice(stored.value);
    Some(Found {
        letter: class.row().letter,
        last_day: stored.day,
        length: n,
    })
}

/// Looks a valid key up in the well-formed image that a device shows: what is told of its record, with the value at the front of the buffer, which has
/// at least 120 bytes. Where the map has no such key, and where power is lost, the buffer is as it was.
pub fn look_up<D: GroupDevice, K: KeyRule>(
    device: &mut D,
    key: &[u8],
    buf: &mut [u8],
) -> Result<Option<Found>, DeviceFault>
    ensures looks { K.KeyRule.rule.valid key.now ≡ true → 120 ≤ length buf.old → (m : List Rec) → WellFormed K.KeyRule.rule (D.Device.meaning device.old).count (D.Device.meaning device.old).shown m → Looks D.Device.agrees D.Device.meaning D.GroupDevice.grouped 3 device.old result device.new (λ n f o. (o ≡ told (seek K.KeyRule.rule key.now m)) × (buf.new ≡ filled (seek K.KeyRule.rule key.now m) buf.old)) }
    ensures untouched { OnErr result (buf.new ≡ buf.old) }
{
    let Some(home) = home_page::<D, K>(device, K::hash(key))? else {
        return Ok(None);
    };
    let Some(page) = &read_page(device, home)? else {
        return Ok(None);
    };
    Ok(copy_found::<K>(page, key, buf))
}
