//! The pages of an empty store.
ghost use Rattle.std.specs.Prelude.{◌≡◌};
ghost use Rattle.layout.specs.Envelope.{envelope};
ghost use Rattle.pages.specs.Formats.{empty_body};

use crate::root::Root;
use crate::{page, root};
use device::Page;
use keys::KeyRule;

/// Page `i` of an empty store of at most `limit` buckets. Its six pages are 0 to 5.
pub fn empty_store_page<K: KeyRule>(limit: u16, i: usize) -> Page
    ensures { result ≡ envelope (empty_body K.KeyRule.rule.kind limit i) }
{
    // by the page's number, to which the format gives its meaning
    match i {
        0 => root::root_page(Root {
            kind: K::kind(),
            depth: 0,
            limit,
            used: 1,
            records: 0,
        }),
        1 => {
            let mut entries = [0u8; 128];
            entries[1] = 5;
            page::page_of(&entries)
        }
        5 => page::page_of(&[0]),
        _ => page::page_of(&[0u8; 128]),
    }
}
