//! Pages by the layout that all pages share.
ghost use Rattle.std.specs.Prelude.{◌≡◌, ℕ, ◌+◌, ◌<◌, ◌≤◌, List, length, MatchResult};
ghost use Rattle.layout.specs.Envelope.{envelope, Enveloped};

use device::Page;
use layout::{NoRoom, empty_page, extend};

/// The most bytes of a body.
const BODY: usize = 249;

/// Refuses so many bytes more where the body of a page has no room for them.
pub(crate) fn need_room(page: &Page, more: usize) -> Result<(), NoRoom>
    ensures { (body : List ℕ) → Enveloped page.now body → MatchResult result (λ _. length body + more ≤ 249) (λ _. 249 < length body + more) }
{
    let n = usize::from(u16::from_be_bytes([page[1], page[2]]));
    if more > BODY.saturating_sub(n) {
        return Err(NoRoom);
    }
    Ok(())
}

/// The page of a body that has room in it.
pub(crate) fn page_of(body: &[u8]) -> Page
    ensures { length body.now ≤ 249 → result ≡ envelope body.now }
{
    let mut page = empty_page();
    // refused only without room, and then the page stays empty
    let _ = extend(&mut page, body);
    page
}
