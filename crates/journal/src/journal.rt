// A journal: a group device over any device.
ghost use Rattle.std.specs.Prelude.{◌≡◌, true, false, [], MatchResult};
ghost use Rattle.std.specs.Borrow.{sem, follows};
ghost use Rattle.device.specs.declared.DeviceFault.TheVariants.{PowerLost};
ghost use Rattle.device.specs.Calls.{reads, writes, syncs, restarts, discards};
ghost use Rattle.device.specs.Meaning.{SoundGroup};
ghost use Rattle.journal.specs.contracts.journal.Journal.{the_row};
ghost use Rattle.journal.specs.Waiting.{waiting, Heard, Revived};
ghost use Rattle.journal.specs.Standing.{above};
ghost use Rattle.journal.specs.Over.{journaled, grouping, Agreeing, Doing, GroupDoing, Calling};
ghost use Rattle.journal.specs.Order.{Sending};
ghost use Rattle.journal.specs.Sound.{journal_sound};

use crate::entries::Pending;
use crate::places::{home_page, pages_above};
use crate::recovery::recover;
use crate::steps::commit;
use device::{Device, DeviceFault, GroupDevice, gate};

/// A journal over the device `below`. Below, page 0 is the header, pages 1 to 64 are bodies, and page i above is page 65 + i. It is down
/// until it is itself restarted.
#[derive(Drop)]
pub struct Journal<D> {
    below: D,
    // No Option of what waits: each read and write would then ask twice, in `gate` and for the entries, whether the journal runs.
    up: bool,
    pending: Pending,
}

impl<D> Journal<D> {
    /// The device below, for what only it has. The journal then stands over what is left there.
    pub fn below_mut(&mut self) -> &mut D
        ensures value { result.now ≡ self.old.below }
        ensures* follows { sem 𝓛 (follows (the_row D.row) D.row self.entry.ghost_name result.ghost_name (λ w. record { below = w; up = self.old.up; pending = self.old.pending })) }
    {
        &mut self.below
    }

    // Refuses a call of a journal that is down.
    fn running(&self) -> Result<(), DeviceFault>
        ensures { MatchResult result (λ _. self.now.up ≡ true) (λ e. (self.now.up ≡ false) × (e ≡ PowerLost)) }
    {
        device::running(self.up)
    }

    // Power was lost below.
    fn lose(&mut self)
        ensures below { self.new.below ≡ self.old.below }
        ensures down { self.new.up ≡ false }
        ensures none { waiting self.new.pending ≡ [] }
    {
        self.up = false;
        self.pending.clear();
    }

    // The journal is down, and nothing waits, where power was lost below.
    fn hear(&mut self, r: Result<(), DeviceFault>) -> Result<(), DeviceFault>
        ensures same { result ≡ r }
        ensures below { self.new.below ≡ self.old.below }
        ensures after { Heard self.old.up self.old.pending r self.new.up self.new.pending }
    {
        if let Err(DeviceFault::PowerLost) = r {
            self.lose();
        }
        r
    }

    // Nothing waits after a restart, and the journal runs where it was accepted.
    fn revive(&mut self, r: Result<(), DeviceFault>) -> Result<(), DeviceFault>
        ensures same { result ≡ r }
        ensures below { self.new.below ≡ self.old.below }
        ensures none { waiting self.new.pending ≡ [] }
        ensures up { Revived r self.new.up }
    {
        self.lose();
        self.up = r.is_ok();
        r
    }
}

impl<D: Device> Journal<D> {
    /// A journal over `below`.
    pub fn new(below: D) -> Journal<D>
        ensures below { result.below ≡ below }
        ensures down { (journaled D.Device.meaning result).runs ≡ false }
        ensures none { (journaled D.Device.meaning result).waits ≡ [] }
        ensures agrees { D.Device.agrees below → Agreeing D.Device.agrees D.Device.meaning result }
        ensures sound { D.Device.agrees below → SoundGroup (journaled D.Device.meaning result) (grouping D.Device.meaning result) }
    {
        Journal {
            below,
            up: false,
            pending: Pending::new(),
        }
    }

    /// The device below, when the journal is no longer wanted.
    pub fn into_below(self) -> D
        ensures { result ≡ self.below }
    {
        let Journal {
            below,
            up: _,
            pending: _,
        } = self;
        below
    }

    // How many pages there are above.
    fn count(&self) -> usize
        ensures { result ≡ above (D.Device.meaning self.now.below).count }
    {
        pages_above(self.below.page_count())
    }

    // A page that waits is read from memory, any other from its home page.
    fn read_page(&mut self, page: usize, buf: &mut [u8]) -> Result<(), DeviceFault>
        ensures does { GroupDoing D.Device.agrees D.Device.meaning (reads page buf.old buf.new) self.old result self.new }
        ensures calls { Calling D.Device.agrees D.Device.meaning (reads page buf.old buf.new) self.old result self.new }
        ensures sends { Sending D.Device.agrees D.Device.meaning (reads page buf.old buf.new) self.old result self.new }
    {
        gate(self.count(), page, buf.len(), self.up)?;
        if let Some(bytes) = self.pending.get(page) {
            buf.copy_from_slice(bytes);
            return Ok(());
        }
        let r = self.below.read(home_page(page), buf);
        self.hear(r)
    }

    // A written page waits in memory.
    fn write_page(&mut self, page: usize, buf: &[u8]) -> Result<(), DeviceFault>
        ensures does { GroupDoing D.Device.agrees D.Device.meaning (writes page buf.now) self.old result self.new }
        ensures calls { Calling D.Device.agrees D.Device.meaning (writes page buf.now) self.old result self.new }
        ensures sends { Sending D.Device.agrees D.Device.meaning (writes page buf.now) self.old result self.new }
    {
        gate(self.count(), page, buf.len(), self.up)?;
        self.pending.put(page as u16, buf)
    }

    // The four steps for what waits; nothing where nothing does.
    fn sync_pending(&mut self) -> Result<(), DeviceFault>
        ensures does { GroupDoing D.Device.agrees D.Device.meaning syncs self.old result self.new }
        ensures calls { Calling D.Device.agrees D.Device.meaning syncs self.old result self.new }
        ensures sends { Sending D.Device.agrees D.Device.meaning syncs self.old result self.new }
    {
        self.running()?;
        if self.pending.is_empty() {
            return Ok(());
        }
        let r = commit(&mut self.below, &self.pending);
        self.pending.clear();
        self.hear(r)
    }

    // The device below is restarted, and a group that stands there is laid over the home pages.
    fn restart_below(&mut self) -> Result<(), DeviceFault>
        ensures does { GroupDoing D.Device.agrees D.Device.meaning restarts self.old result self.new }
        ensures calls { Calling D.Device.agrees D.Device.meaning restarts self.old result self.new }
        ensures sends { Sending D.Device.agrees D.Device.meaning restarts self.old result self.new }
    {
        let r = recover(&mut self.below, &mut self.pending);
        self.revive(r)
    }

    // What waits is dropped.
    fn discard_pending(&mut self) -> Result<(), DeviceFault>
        ensures does { GroupDoing D.Device.agrees D.Device.meaning discards self.old result self.new }
        ensures calls { Calling D.Device.agrees D.Device.meaning discards self.old result self.new }
        ensures sends { Sending D.Device.agrees D.Device.meaning discards self.old result self.new }
    {
        self.running()?;
        self.pending.clear();
        Ok(())
    }
}

impl<D: Device> Device for Journal<D> {
    ghost meaning = { journaled D.Device.meaning };

    ghost agrees = { Agreeing D.Device.agrees D.Device.meaning };

    ghost sound = { λ j a. journal_sound D.Device.agrees D.Device.meaning D.Device.sound j a };

    fn page_count(&self) -> usize {
        self.count()
    }

    fn read(&mut self, page: usize, buf: &mut [u8]) -> Result<(), DeviceFault>
        ensures does { Doing D.Device.agrees D.Device.meaning (reads page buf.old buf.new) self.old result self.new }
        ensures calls { Calling D.Device.agrees D.Device.meaning (reads page buf.old buf.new) self.old result self.new }
        ensures sends { Sending D.Device.agrees D.Device.meaning (reads page buf.old buf.new) self.old result self.new }
    {
        self.read_page(page, buf)
    }

    fn write(&mut self, page: usize, buf: &[u8]) -> Result<(), DeviceFault>
        ensures does { Doing D.Device.agrees D.Device.meaning (writes page buf.now) self.old result self.new }
        ensures calls { Calling D.Device.agrees D.Device.meaning (writes page buf.now) self.old result self.new }
        ensures sends { Sending D.Device.agrees D.Device.meaning (writes page buf.now) self.old result self.new }
    {
        self.write_page(page, buf)
    }

    fn sync(&mut self) -> Result<(), DeviceFault>
        ensures does { Doing D.Device.agrees D.Device.meaning syncs self.old result self.new }
        ensures calls { Calling D.Device.agrees D.Device.meaning syncs self.old result self.new }
        ensures sends { Sending D.Device.agrees D.Device.meaning syncs self.old result self.new }
    {
        self.sync_pending()
    }

    fn restart(&mut self) -> Result<(), DeviceFault>
        ensures does { Doing D.Device.agrees D.Device.meaning restarts self.old result self.new }
        ensures calls { Calling D.Device.agrees D.Device.meaning restarts self.old result self.new }
        ensures sends { Sending D.Device.agrees D.Device.meaning restarts self.old result self.new }
    {
        self.restart_below()
    }
}

// The same methods serve both traits: only the contracts of the calls differ.
impl<D: Device> GroupDevice for Journal<D> {
    ghost grouped = { grouping D.Device.meaning };

    fn read(&mut self, page: usize, buf: &mut [u8]) -> Result<(), DeviceFault>
        ensures does { GroupDoing D.Device.agrees D.Device.meaning (reads page buf.old buf.new) self.old result self.new }
        ensures calls { Calling D.Device.agrees D.Device.meaning (reads page buf.old buf.new) self.old result self.new }
        ensures sends { Sending D.Device.agrees D.Device.meaning (reads page buf.old buf.new) self.old result self.new }
    {
        self.read_page(page, buf)
    }

    fn write(&mut self, page: usize, buf: &[u8]) -> Result<(), DeviceFault>
        ensures does { GroupDoing D.Device.agrees D.Device.meaning (writes page buf.now) self.old result self.new }
        ensures calls { Calling D.Device.agrees D.Device.meaning (writes page buf.now) self.old result self.new }
        ensures sends { Sending D.Device.agrees D.Device.meaning (writes page buf.now) self.old result self.new }
    {
        self.write_page(page, buf)
    }

    fn sync(&mut self) -> Result<(), DeviceFault>
        ensures does { GroupDoing D.Device.agrees D.Device.meaning syncs self.old result self.new }
        ensures calls { Calling D.Device.agrees D.Device.meaning syncs self.old result self.new }
        ensures sends { Sending D.Device.agrees D.Device.meaning syncs self.old result self.new }
    {
        self.sync_pending()
    }

    fn restart(&mut self) -> Result<(), DeviceFault>
        ensures does { GroupDoing D.Device.agrees D.Device.meaning restarts self.old result self.new }
        ensures calls { Calling D.Device.agrees D.Device.meaning restarts self.old result self.new }
        ensures sends { Sending D.Device.agrees D.Device.meaning restarts self.old result self.new }
    {
        self.restart_below()
    }

    fn discard(&mut self) -> Result<(), DeviceFault>
        ensures does { GroupDoing D.Device.agrees D.Device.meaning discards self.old result self.new }
        ensures calls { Calling D.Device.agrees D.Device.meaning discards self.old result self.new }
        ensures sends { Sending D.Device.agrees D.Device.meaning discards self.old result self.new }
    {
        self.discard_pending()
    }
}
