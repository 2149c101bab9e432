//! Pages, written to a group device.
ghost use Rattle.std.specs.Prelude.{◌≡◌, ◌<◌};
ghost use Rattle.device.specs.Meaning.{bytes};
ghost use Rattle.access.specs.Moves.{Room, Moves};

use device::{DeviceFault, GroupDevice, Page};

/// Writes a page. On a page below the count, for which there is room among the pages that wait, it is refused only where power is lost.
pub fn write_page<D: GroupDevice>(
    device: &mut D,
    page: usize,
    buf: &Page,
) -> Result<(), DeviceFault>
    ensures { page < (D.Device.meaning device.old).count → Room page (D.Device.meaning device.old) → Moves D.Device.agrees D.Device.meaning D.GroupDevice.grouped 1 (λ i. i ≡ page) device.old result device.new (λ _. (D.Device.meaning device.new).shown page ≡ bytes buf.now) }
{
    GroupDevice::write(device, page, buf)
}
