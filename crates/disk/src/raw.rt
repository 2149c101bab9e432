// Raw pages: the bytes of a page, then its CRC-32, the highest byte first.
ghost use Rattle.std.specs.Prelude.{◌≡◌, ◌+◌, ◌*◌, ◌≤◌, length};
ghost use Rattle.disk.specs.Raw.{holds, raw, sealed, torn};

use crc::crc32;
use device::PAGE_SIZE;

/// The bytes of a raw page.
pub(crate) const RAW_SIZE: usize = 256;

/// Raw page `i` of an image.
pub(crate) fn page_of(image: &[u8], i: usize) -> &[u8; RAW_SIZE]
    requires { i * 256 + 256 ≤ length image.now }
    ensures { result.now ≡ raw image.now i }
{
    let (pages, _) = image.as_chunks();
    &pages[i]
}

/// Whether a raw page carries the right check.
#[tactic(auto, unfolding(crate::specs::Raw::holds, crate::specs::Raw::check_of))]
pub(crate) fn good(raw: &[u8; RAW_SIZE]) -> bool
    ensures { result ≡ holds raw.now }
{
    let stored = u32::from_be_bytes([raw[252], raw[253], raw[254], raw[255]]);
    stored == crc32(&raw[0..PAGE_SIZE])
}

/// Makes `raw` the raw page of a page.
pub(crate) fn seal(raw: &mut [u8], page: &[u8])
    requires raw { length raw.old ≡ 256 }
    requires page { length page.now ≡ 252 }
    ensures { raw.new ≡ sealed page.now }
{
    raw[0..PAGE_SIZE].copy_from_slice(page);
    raw[PAGE_SIZE..RAW_SIZE].copy_from_slice(&crc32(page).to_be_bytes());
}

/// The raw page that begins with the first `kept` bytes of the new one; the old one where that mix passes for another whole page.
pub(crate) fn torn(old: &[u8; RAW_SIZE], new: &[u8; RAW_SIZE], kept: u8) -> [u8; RAW_SIZE]
    ensures { result ≡ torn kept old.now new.now }
{
    let kept = kept as usize;
    let mut mixed = *old;
    mixed[0..kept].copy_from_slice(&new[0..kept]);
    if good(&mixed) && mixed != *old && mixed != *new {
        return *old;
    }
    mixed
}
