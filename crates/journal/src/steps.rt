// The steps of a sync, on the device below.
ghost use Rattle.std.specs.Prelude.{◌≡◌, ℕ, true, List, [], ◌++◌};
ghost use Rattle.device.specs.Meaning.{State};
ghost use Rattle.journal.specs.Waiting.{waiting};
ghost use Rattle.journal.specs.Header.{header};
ghost use Rattle.journal.specs.Sending.{Makes, placed, settling, heading, step1, step2, step3, step4};
ghost use Rattle.journal.specs.Writing.{Ready, WroteAll, SettledAll, HeadReady, HeadSet};
ghost use Rattle.journal.specs.Steps.{LayReady, Finished, CommitReady, Committed};

use crate::entries::Pending;
use crate::header::header_of;
use crate::places::{Area, HEADER};
use device::{Device, DeviceFault, Page};
use layout::empty_page;

// Writes the entries to their pages.
fn write_entries<D: Device>(below: &mut D, entries: &Pending, area: Area) -> Result<(), DeviceFault>
    ensures agrees { D.Device.agrees below.old → D.Device.agrees below.new }
    ensures makes { D.Device.agrees below.old → (D.Device.meaning below.old).runs ≡ true → Makes D.Device.meaning (placed area 0 (waiting entries.now)) result below.old below.new }
    ensures wrote { D.Device.agrees below.old → Ready area (waiting entries.now) (D.Device.meaning below.old) → WroteAll area (waiting entries.now) (D.Device.meaning below.old) result (D.Device.meaning below.new) }
{
    for (j, page) in entries.pages().iter().enumerate() {
        below.write(area.page(j, *page), entries.bytes_at(j))?;
    }
    Ok(())
}

// The entries at their pages, and a sync.
fn settle_entries<D: Device>(
    below: &mut D,
    entries: &Pending,
    area: Area,
) -> Result<(), DeviceFault>
    ensures agrees { D.Device.agrees below.old → D.Device.agrees below.new }
    ensures makes { D.Device.agrees below.old → (D.Device.meaning below.old).runs ≡ true → Makes D.Device.meaning (settling area (waiting entries.now)) result below.old below.new }
    ensures settled { D.Device.agrees below.old → Ready area (waiting entries.now) (D.Device.meaning below.old) → SettledAll D.Device.agrees D.Device.meaning area (waiting entries.now) below.old result below.new }
{
    write_entries(below, entries, area)?;
    below.sync()
}

// The header, and a sync.
fn set_header<D: Device>(below: &mut D, page: &Page) -> Result<(), DeviceFault>
    ensures agrees { D.Device.agrees below.old → D.Device.agrees below.new }
    ensures makes { D.Device.agrees below.old → (D.Device.meaning below.old).runs ≡ true → Makes D.Device.meaning (heading page.now) result below.old below.new }
    ensures set { D.Device.agrees below.old → HeadReady (D.Device.meaning below.old) → HeadSet D.Device.agrees D.Device.meaning page.now below.old result below.new }
{
    below.write(HEADER, page)?;
    below.sync()
}

// Step 4: a header that names none, and a sync.
pub(crate) fn clear<D: Device>(below: &mut D) -> Result<(), DeviceFault>
    ensures agrees { D.Device.agrees below.old → D.Device.agrees below.new }
    ensures makes { D.Device.agrees below.old → (D.Device.meaning below.old).runs ≡ true → Makes D.Device.meaning step4 result below.old below.new }
    ensures set { D.Device.agrees below.old → HeadReady (D.Device.meaning below.old) → HeadSet D.Device.agrees D.Device.meaning (header []) below.old result below.new }
{
    set_header(below, &empty_page())
}

// Steps 3 and 4: the home pages, then a header that names none, each synced.
pub(crate) fn finish<D: Device>(below: &mut D, entries: &Pending) -> Result<(), DeviceFault>
    ensures agrees { D.Device.agrees below.old → D.Device.agrees below.new }
    ensures makes { D.Device.agrees below.old → (D.Device.meaning below.old).runs ≡ true → Makes D.Device.meaning (step3 (waiting entries.now) ++ step4) result below.old below.new }
    ensures finished { D.Device.agrees below.old → (T : State → List ℕ) (base : ℕ → State) → LayReady T (waiting entries.now) base (D.Device.meaning below.old) → Finished T (waiting entries.now) base (D.Device.meaning below.old) result (D.Device.meaning below.new) }
{
    settle_entries(below, entries, Area::Home)?;
    clear(below)
}

// The four steps: the bodies, the header that names them, the home pages, and a header that names none, each synced.
pub(crate) fn commit<D: Device>(below: &mut D, entries: &Pending) -> Result<(), DeviceFault>
    ensures agrees { D.Device.agrees below.old → D.Device.agrees below.new }
    ensures makes { D.Device.agrees below.old → (D.Device.meaning below.old).runs ≡ true → Makes D.Device.meaning (step1 (waiting entries.now) ++ (step2 (waiting entries.now) ++ (step3 (waiting entries.now) ++ step4))) result below.old below.new }
    ensures committed { D.Device.agrees below.old → (T : State → List ℕ) (base : ℕ → State) → CommitReady T (waiting entries.now) base (D.Device.meaning below.old) → Committed T (waiting entries.now) base (D.Device.meaning below.old) result (D.Device.meaning below.new) }
{
    settle_entries(below, entries, Area::Body)?;
    set_header(below, &header_of(entries))?;
    finish(below, entries)
}
