//! Pages, read from a group device.
ghost use Rattle.std.specs.Prelude.{◌<◌};
ghost use Rattle.pages.specs.Reads.{Looks, PageRead};

use device::{DeviceFault, GroupDevice, PAGE_SIZE, Page, shown_page};

/// The page at a number; none where it is spoiled. Below the count it is refused only where power is lost.
// Inlined, and borrowed by its callers as `&read_page(..)?`: through a call, and by value, the page is copied at each step.
#[inline(always)]
pub fn read_page<D: GroupDevice>(device: &mut D, page: usize) -> Result<Option<Page>, DeviceFault>
    ensures { page < (D.Device.meaning device.old).count → Looks D.Device.agrees D.Device.meaning D.GroupDevice.grouped 1 device.old result device.new (λ n f o. PageRead page f o) }
{
    let mut bytes = [0u8; PAGE_SIZE];
    let answer = GroupDevice::read(device, page, &mut bytes);
    shown_page(answer, bytes)
}
