// What a cache itself holds, beside the device below it, and what the answers from there make of it.
ghost use Rattle.std.specs.Prelude.{◌≡◌, ℕ, true, false, length, MatchOption, MatchResult};
ghost use Rattle.device.specs.Numbers.{number};
ghost use Rattle.cache.specs.Slots.{At, Absent};
ghost use Rattle.cache.specs.Keeping.{up, table_of, Fresh, Heard, Noted, Revived, Forgot};

use crate::table::Table;
use device::{DeviceFault, Page};

/// The pages that a cache keeps while it runs; there is no table while it is down.
#[derive(Drop)]
pub(crate) struct Memory {
    table: Option<Table>,
}

impl Memory {
    /// Down, with no page kept.
    pub(crate) fn new() -> Memory
        ensures { Fresh result }
    {
        Memory { table: None }
    }

    /// Whether the cache runs.
    pub(crate) fn up(&self) -> bool
        ensures { result ≡ up self.now }
    {
        self.table.is_some()
    }

    /// Refuses a call of a cache that is down.
    pub(crate) fn running(&self) -> Result<(), DeviceFault>
        ensures { MatchResult result (λ _. up self.now ≡ true) (λ e. (up self.now ≡ false) × (number e ≡ 11)) }
    {
        device::running(self.up())
    }

    /// The bytes of a page that is kept.
    pub(crate) fn get(&self, page: usize) -> Option<&Page>
        ensures { MatchOption result (Absent (table_of self.now).slots.items page) (λ b. (i : ℕ) × At (table_of self.now).slots.items i page b.now) }
    {
        self.table.as_ref()?.get(page)
    }

    /// After a call below: where it was answered that power was lost, the cache is down and keeps nothing.
    pub(crate) fn hear(&mut self, r: Result<(), DeviceFault>) -> Result<(), DeviceFault>
        ensures heard { Heard self.old r self.new }
        ensures same { result ≡ r }
    {
        if r == Err(DeviceFault::PowerLost) {
            self.table = None;
        }
        r
    }

    /// After a read or a write below: keeps the page where it was accepted.
    pub(crate) fn note(
        &mut self,
        page: usize,
        buf: &[u8],
        r: Result<(), DeviceFault>,
    ) -> Result<(), DeviceFault>
        requires up { up self.old ≡ true }
        requires size { length buf.now ≡ 252 }
        ensures noted { Noted page buf.now self.old r self.new }
        ensures same { result ≡ r }
    {
        self.hear(r)?;
        if let Some(table) = &mut self.table {
            table.keep(page, buf);
        }
        Ok(())
    }

    /// After a restart below: the cache keeps nothing, and runs where it was accepted.
    pub(crate) fn revive(&mut self, r: Result<(), DeviceFault>) -> Result<(), DeviceFault>
        ensures revived { Revived r self.new }
        ensures same { result ≡ r }
    {
        self.table = r.is_ok().then(Table::new);
        r
    }

    /// After a discard below: the cache keeps nothing.
    pub(crate) fn forget(&mut self, r: Result<(), DeviceFault>) -> Result<(), DeviceFault>
        ensures forgot { Forgot self.old r self.new }
        ensures same { result ≡ r }
    {
        if let Some(table) = &mut self.table {
            table.clear();
        }
        self.hear(r)
    }
}
