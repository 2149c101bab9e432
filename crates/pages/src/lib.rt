//! The pages of a store over a group device: their bytes, read and written, and when they are a well-formed image.
#![tactic(auto)]

mod bucket;
mod check;
mod directory;
mod fault;
mod format;
mod laws;
mod page;
mod reading;
mod records;
mod root;
mod survey;

pub use bucket::{BucketView, add_record, appended, bucket_page, read_bucket, removed};
pub use check::check_image;
pub use directory::{entry_of, set_entry};
pub use fault::CheckFault;
pub use format::empty_store_page;
pub use laws::{first_bucket, images_stand, pages_stand};
pub use reading::read_page;
pub use records::{Record, Records, find, next_record};
pub use root::{Condition, Root, read_root, root_page};

#[cfg(test)]
mod tests {
    use super::*;
    use keys::TextKeys;
    use std::test::Fail;

    #[test]
    fn record_reads_back(rt: HostRuntime) -> Result<(), Fail> {
        let stored = Record {
            class: 2,
            day: 3650,
            key: b"a",
            value: b"hi",
        };
        let page = appended(0, &[], stored).map_err(|_| "no room")?;
        assert_eq!(rt; page[2], 12);
        assert_eq!(rt; page[5], 11);
        let bucket = read_bucket::<TextKeys>(&page).ok_or("no bucket")?;
        let (place, found) = find::<TextKeys>(bucket.records, b"A").ok_or("not found")?;
        assert_eq!(rt; Records::new(bucket.records).count(), 1);
        assert_eq!(rt; place, 0);
        assert_eq!(rt; found.day, 3650);
        Ok(())
    }

    #[test]
    fn empty_store(rt: HostRuntime) -> Result<(), Fail> {
        let root = read_root(&empty_store_page::<TextKeys>(7, 0)).ok_or("no page 0")?;
        assert_eq!(rt; root.kind, 2);
        assert_eq!(rt; root.limit, 7);
        assert_eq!(rt; entry_of(&empty_store_page::<TextKeys>(7, 1), 0), 5);
        Ok(())
    }
}
