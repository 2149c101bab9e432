//! The interface of a page device and of a group device. What each call does is said by a ghost meaning alone, so that whatever stands on
//! a device is proved once, for every device.
#![tactic(auto)]

ghost use Rattle.std.specs.Prelude.{◌≡◌, true, false, MatchResult};
ghost use Rattle.device.specs.declared.DeviceFault.TheVariants.{PowerLost};
ghost use Rattle.device.specs.Calls.{reads, writes, syncs, restarts, discards, shown_page};
ghost use Rattle.device.specs.Clauses.{Does, GroupDoes};
ghost use Rattle.device.specs.Gate.{Gate};
ghost use Rattle.device.specs.Meaning.{Meaning, Sound, Grouped};
ghost use Rattle.device.specs.Numbers.{number};

/// The bytes of a page.
pub const PAGE_SIZE: usize = 252;

/// A page.
pub type Page = [u8; PAGE_SIZE];

/// Why a call of a device is refused.
#[derive(Clone, Copy, Debug, PartialEq, Eq)]
pub enum DeviceFault {
    /// The page number is not below the count.
    NoSuchPage,
    /// The buffer has not the size of a page.
    BufferSize,
    /// Power was lost: the device is down.
    PowerLost,
    /// A read of a page that shows no bytes.
    PageSpoiled,
    /// A write to a page that does not wait, while 64 others do.
    TooManyWaiting,
}

impl DeviceFault {
    /// The number by which a refusal is known. A `u8::from` would not say what its number is.
    pub fn number(self) -> u8
        ensures { result ≡ number self }
    {
        match self {
            DeviceFault::NoSuchPage => 6,
            DeviceFault::BufferSize => 7,
            DeviceFault::PowerLost => 11,
            DeviceFault::PageSpoiled => 22,
            DeviceFault::TooManyWaiting => 23,
        }
    }
}

/// Refuses a call of a device that is down.
pub fn running(runs: bool) -> Result<(), DeviceFault>
    ensures { MatchResult result (λ _. runs ≡ true) (λ e. (runs ≡ false) × (e ≡ PowerLost)) }
{
    if !runs {
        return Err(DeviceFault::PowerLost);
    }
    Ok(())
}

/// The checks that come before any work of a read or a write, by a device of `count` pages: of the page number, of the buffer's length, and
/// that the device runs.
pub fn gate(count: usize, page: usize, len: usize, runs: bool) -> Result<(), DeviceFault>
    ensures { Gate count page len runs result }
{
    if page >= count {
        return Err(DeviceFault::NoSuchPage);
    }
    if len != PAGE_SIZE {
        return Err(DeviceFault::BufferSize);
    }
    running(runs)
}

/// The page that a read brought, by its answer and what its buffer then holds; none where the page is spoiled, which is no refusal here.
pub fn shown_page(answer: Result<(), DeviceFault>, page: Page) -> Result<Option<Page>, DeviceFault>
    ensures { result ≡ shown_page answer page }
{
    match answer {
        Ok(()) => Ok(Some(page)),
        Err(DeviceFault::PageSpoiled) => Ok(None),
        Err(fault) => Err(fault),
    }
}

/// A page device: a fixed count of pages, which a loss of power may leave in one of several states.
pub trait Device {
    // what the device means at this moment
    ghost meaning: { Self → Meaning };

    // the device agrees with whatever stands below it
    ghost agrees: { Self → Type 0 };

    // what is then known of its meaning: a proof, which each implementation gives
    ghost sound: { (d : Self) → agrees d → Sound (meaning d) };

    /// How many pages it has.
    fn page_count(&self) -> usize
        ensures { result ≡ (meaning self.now).count };

    /// Fills `buf` with a page.
    fn read(&mut self, page: usize, buf: &mut [u8]) -> Result<(), DeviceFault>
        ensures does { Does agrees meaning (reads page buf.old buf.new) self.old result self.new };

    /// Writes a page. A cut may undo it, or leave it torn, until a sync is done.
    fn write(&mut self, page: usize, buf: &[u8]) -> Result<(), DeviceFault>
        ensures does { Does agrees meaning (writes page buf.now) self.old result self.new };

    /// Makes what was written last through a cut.
    fn sync(&mut self) -> Result<(), DeviceFault>
        ensures does { Does agrees meaning syncs self.old result self.new };

    /// Begins again, after a cut or without one: what a cut may leave is settled.
    fn restart(&mut self) -> Result<(), DeviceFault>
        ensures does { Does agrees meaning restarts self.old result self.new };
}

/// A group device is a page device with a base, and with ends: the whole images that may stand after a loss of power.
/// Its calls are declared anew, since no clause of a device's calls can speak of base and ends.
pub trait GroupDevice: Device {
    // the base and the ends at this moment
    ghost grouped: { Self → Grouped };

    /// Fills `buf` with a page.
    fn read(&mut self, page: usize, buf: &mut [u8]) -> Result<(), DeviceFault>
        ensures does { GroupDoes Self.Device.agrees Self.Device.meaning grouped (reads page buf.old buf.new) self.old result self.new };

    /// Writes a page, which a cut undoes until a sync is done.
    fn write(&mut self, page: usize, buf: &[u8]) -> Result<(), DeviceFault>
        ensures does { GroupDoes Self.Device.agrees Self.Device.meaning grouped (writes page buf.now) self.old result self.new };

    /// Makes all that was written last as a whole: a cut leaves all of it, or nothing.
    fn sync(&mut self) -> Result<(), DeviceFault>
        ensures does { GroupDoes Self.Device.agrees Self.Device.meaning grouped syncs self.old result self.new };

    /// Begins again, after a cut or without one, on one whole image.
    fn restart(&mut self) -> Result<(), DeviceFault>
        ensures does { GroupDoes Self.Device.agrees Self.Device.meaning grouped restarts self.old result self.new };

    /// Takes back what was written since the last sync or restart.
    fn discard(&mut self) -> Result<(), DeviceFault>
        ensures does { GroupDoes Self.Device.agrees Self.Device.meaning grouped discards self.old result self.new };
}
