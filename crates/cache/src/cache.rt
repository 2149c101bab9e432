// A cache of eight pages over any device.
ghost use Rattle.std.specs.Prelude.{◌≡◌};
ghost use Rattle.std.specs.Borrow.{sem, follows};
ghost use Rattle.cache.specs.contracts.cache.Cache.{the_row};
ghost use Rattle.device.specs.Calls.{reads, writes, syncs, restarts, discards};
ghost use Rattle.cache.specs.Keeping.{up, Fresh, under_sound};
ghost use Rattle.cache.specs.Over.{cached, Agreeing, Doing, GroupDoing, Calling, GroupCalling, Keeping, Resting};

use crate::memory::Memory;
use device::{Device, DeviceFault, GroupDevice, gate};

/// A cache of eight pages over the device `below`. It is down until it is itself restarted.
#[derive(Drop)]
pub struct Cache<D> {
    below: D,
    memory: Memory,
}

impl<D: Device> Cache<D> {
    /// A cache over the device, down, with no page kept.
    pub fn new(below: D) -> Cache<D>
        ensures below { result.below ≡ below }
        ensures fresh { Fresh result.memory }
        ensures agrees { D.Device.agrees below → Agreeing D.Device.agrees D.Device.meaning result }
    {
        Cache {
            below,
            memory: Memory::new(),
        }
    }

    /// The device below, when the cache is no longer wanted.
    pub fn into_below(self) -> D
        ensures { result ≡ self.below }
    {
        let Cache { below, memory: _ } = self;
        below
    }
}

impl<D> Cache<D> {
    /// The device below, for what only it has. The cache then stands over what is left there.
    pub fn below_mut(&mut self) -> &mut D
        ensures value { result.now ≡ self.old.below }
        ensures* follows { sem 𝓛 (follows (the_row D.row) D.row self.entry.ghost_name result.ghost_name (λ w. record { below = w; memory = self.old.memory })) }
    {
        &mut self.below
    }
}

impl<D: Device> Device for Cache<D> {
    ghost meaning = { cached D.Device.meaning };

    ghost agrees = { Agreeing D.Device.agrees D.Device.meaning };

    ghost sound = { λ c a. under_sound (up c.memory) (D.Device.meaning c.below) a.1.below (D.Device.sound c.below a.0) };

    fn page_count(&self) -> usize {
        self.below.page_count()
    }

    fn read(&mut self, page: usize, buf: &mut [u8]) -> Result<(), DeviceFault>
        ensures does { Doing D.Device.agrees D.Device.meaning (reads page buf.old buf.new) self.old result self.new }
        ensures calls { Calling D.Device.agrees D.Device.meaning (reads page buf.old buf.new) self.old result self.new }
        ensures kept { Keeping D.Device.agrees D.Device.meaning (reads page buf.old buf.new) self.old result self.new }
        ensures still { Resting D.Device.agrees D.Device.meaning page self.old self.new }
    {
        gate(self.below.page_count(), page, buf.len(), self.memory.up())?;
        if let Some(bytes) = self.memory.get(page) {
            buf.copy_from_slice(bytes);
            return Ok(());
        }
        let r = self.below.read(page, buf);
        self.memory.note(page, buf, r)
    }

    fn write(&mut self, page: usize, buf: &[u8]) -> Result<(), DeviceFault>
        ensures does { Doing D.Device.agrees D.Device.meaning (writes page buf.now) self.old result self.new }
        ensures calls { Calling D.Device.agrees D.Device.meaning (writes page buf.now) self.old result self.new }
        ensures kept { Keeping D.Device.agrees D.Device.meaning (writes page buf.now) self.old result self.new }
    {
        gate(self.below.page_count(), page, buf.len(), self.memory.up())?;
        let r = self.below.write(page, buf);
        self.memory.note(page, buf, r)
    }

    fn sync(&mut self) -> Result<(), DeviceFault>
        ensures does { Doing D.Device.agrees D.Device.meaning syncs self.old result self.new }
        ensures calls { Calling D.Device.agrees D.Device.meaning syncs self.old result self.new }
        ensures kept { Keeping D.Device.agrees D.Device.meaning syncs self.old result self.new }
    {
        self.memory.running()?;
        let r = self.below.sync();
        self.memory.hear(r)
    }

    fn restart(&mut self) -> Result<(), DeviceFault>
        ensures does { Doing D.Device.agrees D.Device.meaning restarts self.old result self.new }
        ensures calls { Calling D.Device.agrees D.Device.meaning restarts self.old result self.new }
        ensures kept { Keeping D.Device.agrees D.Device.meaning restarts self.old result self.new }
    {
        let r = self.below.restart();
        self.memory.revive(r)
    }
}

// The calls go below as a group's. Bodies shared by a closure with those of the plain device would need contracts longer than themselves.
impl<D: GroupDevice> GroupDevice for Cache<D> {
    ghost grouped = { λ c. D.GroupDevice.grouped c.below };

    fn read(&mut self, page: usize, buf: &mut [u8]) -> Result<(), DeviceFault>
        ensures does { GroupDoing D.Device.agrees D.Device.meaning D.GroupDevice.grouped (reads page buf.old buf.new) self.old result self.new }
        ensures calls { GroupCalling D.Device.agrees D.Device.meaning D.GroupDevice.grouped (reads page buf.old buf.new) self.old result self.new }
        ensures kept { Keeping D.Device.agrees D.Device.meaning (reads page buf.old buf.new) self.old result self.new }
        ensures still { Resting D.Device.agrees D.Device.meaning page self.old self.new }
    {
        gate(self.below.page_count(), page, buf.len(), self.memory.up())?;
        if let Some(bytes) = self.memory.get(page) {
            buf.copy_from_slice(bytes);
            return Ok(());
        }
        let r = GroupDevice::read(&mut self.below, page, buf);
        self.memory.note(page, buf, r)
    }

    fn write(&mut self, page: usize, buf: &[u8]) -> Result<(), DeviceFault>
        ensures does { GroupDoing D.Device.agrees D.Device.meaning D.GroupDevice.grouped (writes page buf.now) self.old result self.new }
        ensures calls { GroupCalling D.Device.agrees D.Device.meaning D.GroupDevice.grouped (writes page buf.now) self.old result self.new }
        ensures kept { Keeping D.Device.agrees D.Device.meaning (writes page buf.now) self.old result self.new }
    {
        gate(self.below.page_count(), page, buf.len(), self.memory.up())?;
        let r = GroupDevice::write(&mut self.below, page, buf);
        self.memory.note(page, buf, r)
    }

    fn sync(&mut self) -> Result<(), DeviceFault>
        ensures does { GroupDoing D.Device.agrees D.Device.meaning D.GroupDevice.grouped syncs self.old result self.new }
        ensures calls { GroupCalling D.Device.agrees D.Device.meaning D.GroupDevice.grouped syncs self.old result self.new }
        ensures kept { Keeping D.Device.agrees D.Device.meaning syncs self.old result self.new }
    {
        self.memory.running()?;
        let r = GroupDevice::sync(&mut self.below);
        self.memory.hear(r)
    }

    fn restart(&mut self) -> Result<(), DeviceFault>
        ensures does { GroupDoing D.Device.agrees D.Device.meaning D.GroupDevice.grouped restarts self.old result self.new }
        ensures calls { GroupCalling D.Device.agrees D.Device.meaning D.GroupDevice.grouped restarts self.old result self.new }
        ensures kept { Keeping D.Device.agrees D.Device.meaning restarts self.old result self.new }
    {
        let r = GroupDevice::restart(&mut self.below);
        self.memory.revive(r)
    }

    fn discard(&mut self) -> Result<(), DeviceFault>
        ensures does { GroupDoing D.Device.agrees D.Device.meaning D.GroupDevice.grouped discards self.old result self.new }
        ensures calls { GroupCalling D.Device.agrees D.Device.meaning D.GroupDevice.grouped discards self.old result self.new }
        ensures kept { Keeping D.Device.agrees D.Device.meaning discards self.old result self.new }
    {
        self.memory.running()?;
        let r = self.below.discard();
        self.memory.forget(r)
    }
}
