// The images of a disk, and what becomes of the pages that are not settled.
#![tactic(auto, unfolding(crate::specs::Image::count_of))]

ghost use Rattle.std.specs.Prelude.{◌≡◌, ◌<◌, length, slice_set, MatchOption};
ghost use Rattle.device.specs.Meaning.{bytes, spoiled};
ghost use Rattle.disk.specs.Arm.{byte_of, bytes_of};
ghost use Rattle.disk.specs.Raw.{chosen, decode, put_raw, raw, sealed};
ghost use Rattle.disk.specs.Image.{count_of, pages, current, cleared, CutTo};

use crate::arming::Letter;
use crate::raw::{RAW_SIZE, good, page_of, seal, torn};
use device::PAGE_SIZE;

/// The most pages that a disk has.
const MAX_PAGES: usize = 131_072;

/// An image of raw pages as they are settled, one with what was written since, and a mark byte for each page: three slices, since so the host lends them.
#[derive(Drop)]
pub(crate) struct Images<'a> {
    settled: &'a mut [u8],
    written: &'a mut [u8],
    marks: &'a mut [u8],
}

impl<'a> Images<'a> {
    /// The images that a host lends, with cleared marks.
    pub(crate) fn new(
        settled: &'a mut [u8],
        written: &'a mut [u8],
        marks: &'a mut [u8],
    ) -> Images<'a>
        ensures settled { result.settled.now ≡ settled.old }
        ensures written { result.written.now ≡ written.old }
        ensures marks { result.marks.now ≡ cleared (count_of settled.old written.old marks.old) marks.old }
    {
        let mut images = Images {
            settled,
            written,
            marks,
        };
        images.clear();
        images
    }

    /// How many whole pages there are in all three, at most 131,072.
    pub(crate) fn count(&self) -> usize
        ensures { result ≡ pages self.now }
    {
        let pages = (self.settled.len() / RAW_SIZE).min(self.written.len() / RAW_SIZE);
        pages.min(self.marks.len().min(MAX_PAGES))
    }

    /// Clears the marks: what was written and not settled is dropped.
    pub(crate) fn clear(&mut self)
        ensures settled { self.new.settled.now ≡ self.old.settled.now }
        ensures written { self.new.written.now ≡ self.old.written.now }
        ensures marks { self.new.marks.now ≡ cleared (pages self.old) self.old.marks.now }
    {
        let n = self.count();
        self.marks[0..n].fill(0);
    }

    /// The page that page `i` shows; none where it is spoiled.
    pub(crate) fn page(&self, i: usize) -> Option<&[u8]>
        requires { i < pages self.now }
        ensures { let shown = decode (current self.now.settled.now self.now.written.now self.now.marks.now i) in MatchOption result (shown ≡ spoiled) (λ p. shown ≡ bytes p.now) }
    {
        let raw = if self.marks[i] != 0 {
            page_of(self.written, i)
        } else {
            page_of(self.settled, i)
        };
        good(raw).then_some(&raw[0..PAGE_SIZE])
    }

    /// Writes page `i`, and marks it.
    pub(crate) fn store(&mut self, i: usize, page: &[u8])
        requires within { i < pages self.old }
        requires size { length page.now ≡ 252 }
        ensures settled { self.new.settled.now ≡ self.old.settled.now }
        ensures written { self.new.written.now ≡ put_raw self.old.written.now i (sealed page.now) }
        ensures marks { self.new.marks.now ≡ slice_set self.old.marks.now i 1 }
    {
        let at = i * RAW_SIZE;
        seal(&mut self.written[at..at + RAW_SIZE], page);
        self.marks[i] = 1;
    }

    /// Settles all pages: each unsettled one is left as a letter says, in ascending order, and the letters are repeated.
    pub(crate) fn settle(&mut self, letters: &[Letter], kept: u8)
        requires { 0 < length letters.now }
        ensures pages { CutTo self.old.settled.now self.old.written.now self.old.marks.now (bytes_of letters.now) kept self.new.settled.now self.new.marks.now }
        ensures written { self.new.written.now ≡ self.old.written.now }
    {
        // By index: what an iterator of the images writes is not known to the proof once it ends.
        let mut turn = 0;
        for i in 0..self.count() {
            if self.marks[i] != 0 {
                self.leave(i, letters[turn % letters.len()], kept);
                turn += 1;
            }
        }
    }

    // Settles page `i` as its letter says.
    fn leave(&mut self, i: usize, letter: Letter, kept: u8)
        requires { i < pages self.old }
        ensures settled { self.new.settled.now ≡ put_raw self.old.settled.now i (chosen (byte_of letter) kept (raw self.old.settled.now i) (raw self.old.written.now i)) }
        ensures written { self.new.written.now ≡ self.old.written.now }
        ensures marks { self.new.marks.now ≡ slice_set self.old.marks.now i 0 }
    {
        let left = self.left(i, letter, kept);
        let at = i * RAW_SIZE;
        self.settled[at..at + RAW_SIZE].copy_from_slice(&left);
        self.marks[i] = 0;
    }

    // What is left of page `i` by its letter.
    fn left(&self, i: usize, letter: Letter, kept: u8) -> [u8; RAW_SIZE]
        requires { i < pages self.now }
        ensures { result ≡ chosen (byte_of letter) kept (raw self.now.settled.now i) (raw self.now.written.now i) }
    {
        let old = page_of(self.settled, i);
        let new = page_of(self.written, i);
        match letter {
            Letter::Old => *old,
            Letter::New => *new,
            Letter::Torn => torn(old, new, kept),
        }
    }
}
