//! What a change is to write.
use device::Page;
use pages::Root;

/// What a change is to write: page 0's numbers, the entries of the directory, and the page of the bucket that the key's hash begins with, at its old place `home`. Where that bucket
/// has more bits than before, from `from` to `to`, each sibling on the way is written too, to the page that the entries name for it.
#[derive(Clone, Copy, Debug, PartialEq, Eq)]
pub struct Plan {
    pub root: Root,
    pub hash: u32,
    pub home: u16,
    pub from: u8,
    pub to: u8,
    pub own: Page,
    pub entries: [u16; 256],
}
