//! The layout of a page: a version byte 1, two bytes of body length, the body, then zeros.
#![tactic(auto)]

ghost use Rattle.std.specs.Prelude.{◌≡◌, ℕ, ◌+◌, ◌*◌, List, [], ◌∷◌, length, replicate, MatchBool, MatchOption, ◌≢◌};
ghost use Rattle.layout.specs.Envelope.{envelope, Enveloped, Extended};

use device::{PAGE_SIZE, Page};

// The most bytes that a body has.
const BODY_SIZE: usize = 249;

/// The body of a page has no room for so many bytes more.
#[derive(Clone, Copy, Debug, PartialEq, Eq)]
pub struct NoRoom;

// Whether all bytes are 0.
fn all_zero(bytes: &[u8]) -> bool
    ensures { MatchBool result (bytes.now ≡ replicate (length bytes.now) 0) (bytes.now ≢ replicate (length bytes.now) 0) }
{
    bytes.iter().all(|b| *b == 0)
}

// The length that two bytes of a page say.
fn length_of(hi: u8, lo: u8) -> usize
    ensures { result ≡ hi * 256 + lo }
{
    usize::from(u16::from_be_bytes([hi, lo]))
}

/// The body of a page, where the page is by layout.
pub fn body_of(page: &[u8]) -> Option<&[u8]>
    ensures { MatchOption result ((body : List ℕ) → Enveloped page.now body → ⊥) (λ b. Enveloped page.now b.now) }
{
    let [version, hi, lo, rest @ ..] = page else {
        return None;
    };
    let n = length_of(*hi, *lo);
    if *version != 1 || page.len() != PAGE_SIZE || n > BODY_SIZE {
        return None;
    }
    let (body, tail) = rest.split_at(n);
    if all_zero(tail) { Some(body) } else { None }
}

/// A page with no body.
#[tactic(auto, unfolding(crate::specs::Envelope::envelope))]
pub fn empty_page() -> Page
    ensures { result ≡ envelope [] }
{
    let mut page = [0; PAGE_SIZE];
    page[0] = 1;
    page
}

/// Adds bytes to a page's body, or changes nothing where they have no room.
pub fn extend(page: &mut Page, more: &[u8]) -> Result<(), NoRoom>
    ensures { (body : List ℕ) → Enveloped page.old body → Extended page.new body more.now result }
{
    let n = length_of(page[1], page[2]);
    if n > BODY_SIZE || more.len() > BODY_SIZE - n {
        return Err(NoRoom);
    }
    let total = n + more.len();
    page[3 + n..3 + total].copy_from_slice(more);
    let [hi, lo] = (total as u16).to_be_bytes();
    page[1] = hi;
    page[2] = lo;
    Ok(())
}
