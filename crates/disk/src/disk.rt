// A disk over memory that the host lends.
ghost use Rattle.std.specs.Prelude.{◌≡◌};
ghost use Rattle.disk.specs.Held.{held, meant, Agrees, Fresh, Arms, Counts};
ghost use Rattle.disk.specs.HeldSound.{held_sound};
ghost use Rattle.disk.specs.Exact.{ReadTo, WriteTo, SyncTo, RestartTo};
ghost use Rattle.device.specs.Calls.{reads, writes, syncs, restarts};
ghost use Rattle.device.specs.Clauses.{Does};
ghost use Rattle.device.specs.Promises.{Same};

use crate::arming::{ArmFault, Arming, Letter};
use crate::images::Images;
use device::{Device, DeviceFault, gate};

/// A disk over memory that the host lends: a settled image, a written image and a mark byte for each page.
#[derive(Drop)]
pub struct Disk<'a> {
    images: Images<'a>,
    running: bool,
    arming: Option<Arming>,
}

impl<'a> Disk<'a> {
    /// A new disk is down, not armed, and clears its marks.
    pub fn new(settled: &'a mut [u8], written: &'a mut [u8], marks: &'a mut [u8]) -> Disk<'a>
        ensures fresh { Fresh settled.old written.old marks.old (held result) }
        ensures agrees { Agrees result }
    {
        Disk {
            images: Images::new(settled, written, marks),
            running: false,
            arming: None,
        }
    }

    /// Arms the disk anew, with one to eight letters of o, n and t and a length from 1 to 255: the `n`-th counted call from now on loses power,
    /// 0 for never. Power is then lost by the letters: o leaves the old page, n the new one, and t the first `t` bytes of the new one.
    pub fn arm(&mut self, n: u32, letters: &[u8], t: usize) -> Result<(), ArmFault>
        ensures arms { Arms n letters.now t (held self.old) result (held self.new) }
        ensures same { Same (meant self.old) (meant self.new) }
    {
        self.arming = Some(Arming::new(n, letters, t)?);
        Ok(())
    }

    // Counts a call. In the last one until the cut power is lost, and the arming ends.
    fn count_call(&mut self) -> Result<(), DeviceFault>
        ensures { Counts (held self.old) result (held self.new) }
    {
        if let Some(arming) = self.arming.take_if(Arming::tick) {
            self.images.settle(&arming.letters, arming.kept);
            self.running = false;
            return Err(DeviceFault::PowerLost);
        }
        Ok(())
    }
}

impl<'a> Device for Disk<'a> {
    ghost meaning = { meant };

    ghost agrees = { Agrees };

    ghost sound = { λ d _. held_sound (held d) };

    fn page_count(&self) -> usize {
        self.images.count()
    }

    fn read(&mut self, page: usize, buf: &mut [u8]) -> Result<(), DeviceFault>
        ensures does { Does Agrees meant (reads page buf.old buf.new) self.old result self.new }
        ensures exact { ReadTo (held self.old) page buf.old result (held self.new) }
    {
        gate(self.images.count(), page, buf.len(), self.running)?;
        self.count_call()?;
        let shown = self.images.page(page).ok_or(DeviceFault::PageSpoiled)?;
        buf.copy_from_slice(shown);
        Ok(())
    }

    fn write(&mut self, page: usize, buf: &[u8]) -> Result<(), DeviceFault>
        ensures does { Does Agrees meant (writes page buf.now) self.old result self.new }
        ensures exact { WriteTo (held self.old) page buf.now result (held self.new) }
    {
        gate(self.images.count(), page, buf.len(), self.running)?;
        self.images.store(page, buf);
        self.count_call()
    }

    fn sync(&mut self) -> Result<(), DeviceFault>
        ensures does { Does Agrees meant syncs self.old result self.new }
        ensures exact { SyncTo (held self.old) result (held self.new) }
    {
        device::running(self.running)?;
        self.count_call()?;
        self.images.settle(&[Letter::New], 0);
        Ok(())
    }

    fn restart(&mut self) -> Result<(), DeviceFault>
        ensures does { Does Agrees meant restarts self.old result self.new }
        ensures exact { RestartTo (held self.old) result (held self.new) }
    {
        self.count_call()?;
        self.images.clear();
        self.running = true;
        Ok(())
    }
}
