// A restart: the group that stands below is laid over the home pages.
ghost use Rattle.std.specs.Prelude.{◌≡◌, ◌<◌, true, []};
ghost use Rattle.journal.specs.Waiting.{waiting};
ghost use Rattle.journal.specs.Header.{targets};
ghost use Rattle.journal.specs.Sending.{bare, Makes};
ghost use Rattle.journal.specs.Over.{reader};
ghost use Rattle.journal.specs.Order.{Restarting};
ghost use Rattle.journal.specs.Recovery.{Awake, Looked, Loaded, HeaderRead, Found, Recovered};

use crate::entries::Pending;
use crate::header::{Targets, parse_header};
use crate::places::{HEADER, body_page, pages_above};
use crate::steps::{clear, finish};
use device::{Device, DeviceFault, PAGE_SIZE, Page, shown_page};

// The bytes that the page shows; none where it is spoiled.
fn look<D: Device>(below: &mut D, page: usize) -> Result<Option<Page>, DeviceFault>
    ensures agrees { D.Device.agrees below.old → D.Device.agrees below.new }
    ensures makes { D.Device.agrees below.old → (D.Device.meaning below.old).runs ≡ true → Makes D.Device.meaning [] (bare result) below.old below.new }
    ensures looked { D.Device.agrees below.old → page < (D.Device.meaning below.old).count → Looked (D.Device.meaning below.old) page result (D.Device.meaning below.new) }
{
    let mut bytes = [0; PAGE_SIZE];
    let r = below.read(page, &mut bytes);
    shown_page(r, bytes)
}

// Leaves in `group` the entries of these targets, each with its body; none where a body is spoiled.
fn load<D: Device>(below: &mut D, named: &Targets, group: &mut Pending) -> Result<(), DeviceFault>
    ensures agrees { D.Device.agrees below.old → D.Device.agrees below.new }
    ensures makes { D.Device.agrees below.old → (D.Device.meaning below.old).runs ≡ true → Makes D.Device.meaning [] result below.old below.new }
    ensures loaded { D.Device.agrees below.old → Awake (D.Device.meaning below.old) → Loaded named.now.items (D.Device.meaning below.old) result (waiting group.new) (D.Device.meaning below.new) }
{
    group.clear();
    for (j, page) in named.iter().enumerate() {
        let Some(bytes) = look(below, body_page(j))? else {
            group.clear();
            return Ok(());
        };
        group.push(*page, &bytes);
    }
    Ok(())
}

// The targets that the header names; none where it is spoiled, or names none, which is one case for a restart.
fn read_header<D: Device>(below: &mut D, count: usize) -> Result<Targets, DeviceFault>
    ensures agrees { D.Device.agrees below.old → D.Device.agrees below.new }
    ensures makes { D.Device.agrees below.old → (D.Device.meaning below.old).runs ≡ true → Makes D.Device.meaning [] (bare result) below.old below.new }
    ensures header { D.Device.agrees below.old → Awake (D.Device.meaning below.old) → HeaderRead (targets count) (D.Device.meaning below.old) result (D.Device.meaning below.new) }
{
    match look(below, HEADER)? {
        Some(page) => Ok(parse_header(&page, count)),
        None => Ok(Targets::new()),
    }
}

// Leaves in `group` the entries of the group that stands; none where none does.
fn load_group<D: Device>(
    below: &mut D,
    count: usize,
    group: &mut Pending,
) -> Result<(), DeviceFault>
    ensures agrees { D.Device.agrees below.old → D.Device.agrees below.new }
    ensures makes { D.Device.agrees below.old → (D.Device.meaning below.old).runs ≡ true → Makes D.Device.meaning [] result below.old below.new }
    ensures found { D.Device.agrees below.old → Awake (D.Device.meaning below.old) → Found (targets count) (D.Device.meaning below.old) result (waiting group.new) (D.Device.meaning below.new) }
{
    let named = read_header(below, count)?;
    load(below, &named, group)
}

// Restarts the device below; then lays the group that stands, or else clears the header alone. The group is read into memory that the
// caller lends: by value it would be moved, and its room made anew, in each function on the way.
pub(crate) fn recover<D: Device>(below: &mut D, group: &mut Pending) -> Result<(), DeviceFault>
    ensures agrees { D.Device.agrees below.old → D.Device.agrees below.new }
    ensures makes { D.Device.agrees below.old → Restarting D.Device.meaning below.old result below.new }
    ensures recovered { D.Device.agrees below.old → Recovered (reader (D.Device.meaning below.old)) (D.Device.meaning below.old) result (D.Device.meaning below.new) }
{
    below.restart()?;
    let count = pages_above(below.page_count());
    if count == 0 {
        return Ok(());
    }
    load_group(below, count, group)?;
    if group.is_empty() {
        return clear(below);
    }
    finish(below, group)
}
