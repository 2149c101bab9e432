//! Why a change is not made.
use pages::Condition;

/// Why a change is not made.
#[derive(Clone, Copy, Debug, PartialEq, Eq)]
pub enum Denial {
    /// A delete of a key that the map does not have.
    KeyAbsent,
    /// With the put, the records under the first eight bits of the hash have more bytes than a bucket.
    BucketFull,
    /// With the put, there are more buckets than the store may have.
    StoreFull,
    /// The pages are not a well-formed image.
    NotWellFormed(Condition),
}
