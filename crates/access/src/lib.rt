//! What a store does with the pages of a group device: it writes a page, makes an empty store, and looks a key up.
#![tactic(auto)]

mod format;
mod lookup;
mod writing;

pub use format::make_empty_store;
pub use lookup::{Found, look_up};
pub use writing::write_page;
