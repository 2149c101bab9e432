// The header: the targets that a page names, and the page that names some.
ghost use Rattle.std.specs.Prelude.{◌≡◌, ℕ, List, MatchOption};
ghost use Rattle.device.specs.Meaning.{bytes};
ghost use Rattle.journal.specs.Header.{header, once, targets, Numbers};
ghost use Rattle.journal.specs.Waiting.{waiting, pages};

use crate::entries::Pending;
use arrayvec::ArrayVec;
use device::Page;
use layout::{body_of, empty_page, extend};

/// The pages that a header names.
pub(crate) type Targets = ArrayVec<u16, 64>;

// Every page is below the count, and none is named twice.
fn named_once(pages: &[u16], count: usize) -> bool
    ensures { result ≡ once count pages.now }
{
    pages.iter().enumerate().all(|(i, page)| usize::from(*page) < count
        && !pages[i + 1..].contains(page))
}

// The numbers in a body of two bytes each, where there are at most 64.
fn targets_in(body: &[u8]) -> Option<Targets>
    ensures { MatchOption result ((ts : List ℕ) → Numbers body.now ts → ⊥) (λ t. Numbers body.now t.items) }
{
    let (pairs, []) = body.as_chunks() else {
        return None;
    };
    let mut found = Targets::new();
    for pair in pairs {
        found.try_push(u16::from_be_bytes(*pair)).ok()?;
    }
    Some(found)
}

// The targets of a header by layout that names distinct pages below the count, and none of any other page.
pub(crate) fn parse_header(page: &Page, count: usize) -> Targets
    ensures { result.items ≡ targets count (bytes page.now) }
{
    match body_of(page).and_then(targets_in) {
        Some(found) if named_once(&found, count) => found,
        _ => Targets::new(),
    }
}

// The header that names the pages of the entries.
pub(crate) fn header_of(entries: &Pending) -> Page
    ensures { result ≡ header (pages (waiting entries.now)) }
{
    let mut page = empty_page();
    for target in entries.pages() {
        extend(&mut page, &target.to_be_bytes()).unwrap();
    }
    page
}
