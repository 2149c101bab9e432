// The words of a command: numbers and bytes.
ghost use Rattle.std.specs.Prelude.{◌≡◌, ◌+◌, ◌*◌, ◌^◌, ◌<◌, true, false, drop, IfOk, MatchOption};
ghost use Rattle.std.specs.Option.{SomeIff};
ghost use Rattle.std.specs.Str.Parse.{IsNumeral, digits_value};
ghost use Rattle.std.specs.Char.{digit_value};
ghost use Rattle.cirgando.specs.Hexes.{Hex, marked, written};

use std::alloc::{AllocError, Global};

/// The number that a word writes: decimal digits alone.
pub(crate) fn number(word: &str) -> Option<u64>
    ensures { SomeIff result (IsNumeral 10 word.now × (digits_value 10 word.now < 2 ^ 64)) (digits_value 10 word.now) }
{
    if let [b'+', ..] = word.as_bytes() {
        return None;
    }
    word.parse::<u64>().ok()
}

// The value of a hex digit, of either case.
fn digit(c: u8) -> Option<u8>
    ensures { SomeIff result (digit_value c < 16) (digit_value c) }
{
    char::from(c).to_digit(16).map(|value| value as u8)
}

// The byte of two hex digits.
fn byte(high: u8, low: u8) -> Option<u8>
    ensures { SomeIff result ((digit_value high < 16) × (digit_value low < 16)) (16 * digit_value high + digit_value low) }
{
    Some(16 * digit(high)? + digit(low)?)
}

// The bytes that hex digits write, two digits a byte.
fn unhex(heap: Global, digits: &[u8]) -> Result<Option<Vec<u8>>, AllocError>
    ensures { IfOk result (λ o. MatchOption o (Hex digits.now → ⊥) (λ v. Hex digits.now × (v.items ≡ written digits.now))) }
{
    let mut out = Vec::new(heap);
    let mut rest = digits;
    while let [high, low, tail @ ..] = rest {
        let Some(b) = byte(*high, *low) else {
            return Ok(None);
        };
        out.push(b)?;
        rest = tail;
    }
    Ok(if rest.is_empty() { Some(out) } else { None })
}

/// The bytes that a word stands for: of `0x` and hex digits those that the digits write, of any other word its own. None where what follows
/// `0x` is not an even number of hex digits.
pub(crate) fn bytes(heap: Global, word: &str) -> Result<Option<Vec<u8>>, AllocError>
    ensures hex { marked word.now ≡ true → IfOk result (λ o. MatchOption o (Hex (drop 2 word.now) → ⊥) (λ v. Hex (drop 2 word.now) × (v.items ≡ written (drop 2 word.now)))) }
    ensures plain { marked word.now ≡ false → IfOk result (λ o. MatchOption o ⊥ (λ v. v.items ≡ word.now)) }
{
    match word.as_bytes() {
        [b'0', b'x', digits @ ..] => unhex(heap, digits),
        own => Ok(Some(own.to_vec(heap)?)),
    }
}
