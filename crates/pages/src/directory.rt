//! The pages of the directory: 64 entries each.
ghost use Rattle.std.specs.Prelude.{◌≡◌, ◌%◌, ◌<◌};
ghost use Rattle.pages.specs.Bytes.{entry_at, Directory, EntrySet};
ghost use Rattle.pages.specs.Tells.{Tells};

use device::Page;

/// Whether a page is a directory page by layout.
pub(crate) fn is_directory(page: &[u8]) -> bool
    ensures { Tells result (Directory page.now) }
{
    layout::body_of(page).is_some_and(|body| body.len() == 128)
}

/// Entry `k` of a directory page.
pub(crate) fn entry_at(page: &Page, k: usize) -> u16
    requires { k < 64 }
    ensures { result ≡ entry_at page.now k }
{
    u16::from_be_bytes([page[3 + 2 * k], page[4 + 2 * k]])
}

/// Where entry `i` of the directory stands in the directory page that has it, page `1 + i / 64`.
fn place(i: u8) -> usize
    ensures { result ≡ i % 64 }
{
    usize::from(i % 64)
}

/// Entry `i` of the directory, from the directory page that has it, page `1 + i / 64`.
pub fn entry_of(page: &Page, i: u8) -> u16
    ensures { result ≡ entry_at page.now (i % 64) }
{
    entry_at(page, place(i))
}

/// Sets entry `i` of the directory, in the directory page that has it.
pub fn set_entry(page: &mut Page, i: u8, value: u16)
    ensures { EntrySet page.old page.new (i % 64) value }
{
    let k = place(i);
    let [hi, lo] = value.to_be_bytes();
    page[3 + 2 * k] = hi;
    page[4 + 2 * k] = lo;
}
