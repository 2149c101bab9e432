//! An empty store.
ghost use Rattle.std.specs.Prelude.{◌≡◌, ◌+◌, ◌<◌, ◌≤◌, [], length, MatchResult};
ghost use Rattle.device.specs.Numbers.{number};
ghost use Rattle.pages.specs.Formats.{Empty};
ghost use Rattle.access.specs.Moves.{Moves, Made, Broken};

use crate::writing::write_page;
use device::{DeviceFault, GroupDevice};
use keys::KeyRule;

/// Writes the pages of an empty store of at most `limit` buckets.
fn write_empty_pages<D: GroupDevice, K: KeyRule>(
    device: &mut D,
    limit: u16,
) -> Result<(), DeviceFault>
    ensures { 6 ≤ (D.Device.meaning device.old).count → length (D.Device.meaning device.old).waits + 6 ≤ 64 → Moves D.Device.agrees D.Device.meaning D.GroupDevice.grouped 6 (λ i. i < 6) device.old result device.new (λ _. Empty K.KeyRule.rule.kind limit (D.Device.meaning device.new).shown) }
{
    for i in 0..6usize {
        let page = pages::empty_store_page::<K>(limit, i);
        write_page(device, i, &page)?;
    }
    Ok(())
}

/// Restarts a device of at least six pages, writes an empty store of at most `limit` buckets, and syncs.
pub fn make_empty_store<D: GroupDevice, K: KeyRule>(
    device: &mut D,
    limit: u16,
) -> Result<(), DeviceFault>
    ensures { 6 ≤ (D.Device.meaning device.old).count → D.Device.agrees device.old → MatchResult result (λ _. Made D.Device.agrees D.Device.meaning D.GroupDevice.grouped K.KeyRule.rule.kind limit device.old device.new) (λ f. (number f ≡ 11) × Broken D.Device.agrees D.Device.meaning D.GroupDevice.grouped device.old device.new) }
{
    GroupDevice::restart(device)?;
    write_empty_pages::<D, K>(device, limit)?;
    GroupDevice::sync(device)
}
