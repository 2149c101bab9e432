//! The laws of images, under any key rule. Each function answers a number of the pages' layout, and its contract asks for the proofs of the laws that go with it.
ghost use Rattle.std.specs.Prelude.{◌≡◌};
ghost use Rattle.pages.specs.Laws.{AnyOrder, EmptyFormed, EntryWritten, FormedFrom, FormedTo, OneHeld, OnlyPages, PageWritten, SomeHeld};

use keys::KeyRule;

/// The first page that may be a bucket: page 0 and the four pages of the directory stand before it.
pub fn first_bucket() -> usize
    ensures { result ≡ 5 }
{
    5
}

/// The laws of the map that an image holds. Answers the first page that may be a bucket.
pub fn images_stand<K: KeyRule>() -> usize
    ensures first { result ≡ 5 }
    ensures some { SomeHeld K.KeyRule.rule }
    ensures one { OneHeld K.KeyRule.rule }
    ensures any { AnyOrder K.KeyRule.rule }
    ensures only { OnlyPages K.KeyRule.rule }
{
    first_bucket()
}

/// The laws of what pages say and what they hold. Answers the first page that may be a bucket.
pub fn pages_stand<K: KeyRule>() -> usize
    ensures first { result ≡ 5 }
    ensures from { FormedFrom K.KeyRule.rule }
    ensures to { FormedTo K.KeyRule.rule }
    ensures empty { EmptyFormed K.KeyRule.rule }
    ensures page { PageWritten }
    ensures entry { EntryWritten }
{
    first_bucket()
}
