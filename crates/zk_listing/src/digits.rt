ghost use Rattle.std.specs.Prelude.{◌≡◌, ◌<◌, ◌≤◌, ◌*◌, ℕ, length, true, false, IfOk, IfSome, Some, None, slice_index};
ghost use Rattle.hex.specs.Hex.{IsBytes, encode_lower, lower_digits};
ghost use Rattle.zk_listing.specs.Digits.{IsBad, bytes_of};

use std::alloc::{AllocError, Global};

/// What stands for a byte that is no digit.
const NONE: u8 = 255;

/// The bytes that pairs of lower-case digits encode (RFC 4648, section 8, in lower case); `None` if
/// the text is not of such pairs alone.
pub fn decode_lower(alloc: Global, digits: &[u8]) -> Result<Option<Vec<u8>>, AllocError>
    ensures bytes { IfOk result (λ found. IfSome found (λ bytes. bytes_of digits.now ≡ Some bytes.items)) }
    ensures none { IfOk result (λ found. found ≡ None → bytes_of digits.now ≡ None) }
{
    if digits.len() % 2 != 0 {
        return Ok(None);
    }
    let mut bytes = vec![in alloc; 0u8; digits.len() / 2]?;
    if decode_into(digits, bytes.as_mut_slice()) < 16 {
        Ok(Some(bytes))
    } else {
        Ok(None)
    }
}

/// Writes the bytes that pairs of lower-case digits encode, and returns whether the text is of such
/// pairs alone. If it is not, the bytes are of no meaning.
pub fn decode_lower_to(digits: &[u8], bytes: &mut [u8]) -> bool
    requires { length digits.now ≡ 2 * length bytes.old }
    ensures bytes { result ≡ true → bytes_of digits.now ≡ Some bytes.new }
    ensures none { result ≡ false → bytes_of digits.now ≡ None }
{
    decode_into(digits, bytes) < 16
}

/// Writes the bytes that pairs of digits encode. Returns the greatest value of a digit; if it is not
/// below 16, a byte was no digit.
///
/// It does not stop at such a byte, so that many are read at a time.
fn decode_into(digits: &[u8], bytes: &mut [u8]) -> u8
    requires { length digits.now ≡ 2 * length bytes.old }
    ensures length { length bytes.new ≡ length bytes.old }
    ensures fits { IsBytes bytes.new }
    ensures spelled { result < 16 → encode_lower bytes.new ≡ digits.now }
    ensures bad { 16 ≤ result → (place : ℕ) × (place < length digits.now) × IsBad (slice_index digits.now place) }
{
    let mut greatest = 0;
    'pairs: for at in 0..bytes.len() {
        let (high, low) = (value_of(digits[2 * at]), value_of(digits[2 * at + 1]));
        bytes[at] = high.wrapping_mul(16).wrapping_add(low);
        greatest = greatest.max(high).max(low);
    }
    greatest
}

/// The value of a digit.
fn value_of(digit: u8) -> u8
    ensures digit { result < 16 → slice_index lower_digits result ≡ digit }
    ensures bad { 16 ≤ result → IsBad digit }
{
    match digit {
        b'0'..=b'9' => digit - b'0',
        b'a'..=b'f' => digit - b'a' + 10,
        _ => NONE,
    }
}
