// The written pages that wait in memory, at most 64.
ghost use Rattle.std.specs.Prelude.{◌≡◌, ◌+◌, ◌<◌, ◌≤◌, [], ◌∷◌, ◌++◌, length, ◌==◌, option_map, slice_index_or};
ghost use Rattle.std.specs.List.{position};
ghost use Rattle.journal.specs.Waiting.{waiting, blank, pages, place, look_up, Put};

use arrayvec::ArrayVec;
use device::{DeviceFault, PAGE_SIZE, Page};

/// How many pages may wait.
const ROOM: usize = 64;

/// The numbers above of the pages that wait, and at the same places their bytes.
// The bytes are no part of the vector: it blanks each place that it gives up, which is cheap for a number, and not for a page.
#[derive(Drop)]
pub struct Pending {
    pub pages: ArrayVec<u16, ROOM>,
    pub bytes: [Page; ROOM],
}

// The first place of a page among some. Not inlined, so that the search is a loop of its own: where the copy of a page follows it, its
// turns carry the addresses of the copy along.
#[inline(never)]
fn first_place(pages: &[u16], page: usize) -> Option<usize>
    ensures { result ≡ position (λ p. p == page) pages.now }
{
    pages.iter().position(|p| usize::from(*p) == page)
}

impl Pending {
    pub(crate) fn new() -> Pending
        ensures { waiting result ≡ [] }
    {
        Pending {
            pages: ArrayVec::new(),
            bytes: [[0; PAGE_SIZE]; ROOM],
        }
    }

    pub(crate) fn clear(&mut self)
        ensures { waiting self.new ≡ [] }
    {
        self.pages = ArrayVec::new();
    }

    // Whether none waits.
    pub(crate) fn is_empty(&self) -> bool
        ensures { result ≡ (length (waiting self.now) == 0) }
    {
        self.pages.is_empty()
    }

    // The pages that wait.
    pub(crate) fn pages(&self) -> &[u16]
        ensures items { result.now ≡ pages (waiting self.now) }
        ensures few { length result.now ≤ 64 }
    {
        self.pages.as_slice()
    }

    // The bytes at a place.
    pub(crate) fn bytes_at(&self, at: usize) -> &Page
        requires { at < length (waiting self.now) }
        ensures { result.now ≡ (slice_index_or (waiting self.now) at blank).bytes }
    {
        &self.bytes[at]
    }

    // The bytes of a page that waits.
    pub(crate) fn get(&self, page: usize) -> Option<&Page>
        ensures { option_map (λ b. b.now) result ≡ look_up (waiting self.now) page }
    {
        let at = self.place_of(page)?;
        Some(self.bytes_at(at))
    }

    // The place of a page that waits.
    fn place_of(&self, page: usize) -> Option<usize>
        ensures { result ≡ place (waiting self.now) page }
    {
        first_place(&self.pages, page)
    }

    // Keeps the page in its old place or behind the others, unless 64 others wait.
    pub(crate) fn put(&mut self, page: u16, buf: &[u8]) -> Result<(), DeviceFault>
        requires { length buf.now ≡ 252 }
        ensures { Put (waiting self.old) page buf.now result (waiting self.new) }
    {
        match self.place_of(usize::from(page)) {
            Some(at) => {
                self.bytes[at].copy_from_slice(buf);
                Ok(())
            }
            None if self.pages.is_full() => Err(DeviceFault::TooManyWaiting),
            None => {
                self.push(page, buf);
                Ok(())
            }
        }
    }

    // Adds a page behind the others.
    pub(crate) fn push(&mut self, page: u16, buf: &[u8])
        requires room { length (waiting self.old) < 64 }
        requires size { length buf.now ≡ 252 }
        ensures { waiting self.new ≡ waiting self.old ++ record { page = page; bytes = buf.now } ∷ [] }
    {
        self.bytes[self.pages.len()].copy_from_slice(buf);
        self.pages.push(page);
    }
}
