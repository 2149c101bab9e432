// Eight pages kept in memory. The slots fill up in their order, and are then given up in a circle.
ghost use Rattle.std.specs.Prelude.{◌≡◌, ℕ, ◌+◌, ◌%◌, length, MatchOption};
ghost use Rattle.std.specs.List.{position};
ghost use Rattle.cache.specs.Slots.{keeps_page, At, Absent, Empty, Keeps};

use arrayvec::ArrayVec;
use device::{PAGE_SIZE, Page};

/// How many pages are kept.
const SLOTS: usize = 8;

/// A page that is kept.
#[derive(Clone, Copy, Default)]
pub(crate) struct Kept {
    page: usize,
    bytes: Page,
}

/// The slots in use, and the one that is given up next.
#[derive(Drop)]
pub(crate) struct Table {
    slots: ArrayVec<Kept, SLOTS>,
    next: usize,
}

impl Table {
    pub(crate) fn new() -> Table
        ensures { Empty result }
    {
        Table {
            slots: ArrayVec::new(),
            next: 0,
        }
    }

    // The slot that keeps the page.
    fn find(&self, page: usize) -> Option<usize>
        ensures { result ≡ position (keeps_page page) self.now.slots.items }
    {
        self.slots.iter().position(|kept| kept.page == page)
    }

    // The slot that is given up for a ninth page: the next in the circle, which moves on by one.
    fn give_up(&mut self) -> usize
        ensures slot { result ≡ self.old.next % 8 }
        ensures next { self.new.next ≡ (result + 1) % 8 }
        ensures slots { self.new.slots ≡ self.old.slots }
    {
        let i = self.next % SLOTS;
        self.next = (i + 1) % SLOTS;
        i
    }

    /// Keeps the page with these bytes: in its own slot, in a further one, or in the one that is given up.
    pub(crate) fn keep(&mut self, page: usize, buf: &[u8])
        requires { length buf.now ≡ 252 }
        ensures { Keeps self.old page buf.now self.new }
    {
        let mut bytes = [0; PAGE_SIZE];
        bytes.copy_from_slice(buf);
        let kept = Kept { page, bytes };
        if let Some(i) = self.find(page) {
            self.slots[i] = kept;
        } else if !self.slots.is_full() {
            self.slots.push(kept);
        } else {
            let i = self.give_up();
            self.slots[i] = kept;
        }
    }

    /// Forgets all pages.
    pub(crate) fn clear(&mut self)
        ensures { Empty self.new }
    {
        *self = Table::new();
    }

    /// The bytes of the page, if it is kept.
    pub(crate) fn get(&self, page: usize) -> Option<&Page>
        ensures { MatchOption result (Absent self.now.slots.items page) (λ b. (i : ℕ) × At self.now.slots.items i page b.now) }
    {
        let i = self.find(page)?;
        Some(&self.slots[i].bytes)
    }
}

#[cfg(test)]
mod tests {
    use super::Table;

    #[test]
    fn the_oldest_leaves_for_a_ninth(rt: HostRuntime) {
        let mut t = Table::new();
        for p in 0..8 {
            t.keep(p, &[1; 252]);
        }
        t.keep(0, &[2; 252]);
        t.keep(8, &[3; 252]);
        assert!(rt; t.get(0).is_none());
        assert!(rt; t.get(1).is_some());
        let bytes = t.get(8).expect(&rt, "page 8 is kept");
        assert_eq!(rt; bytes[251], 3);
    }
}
