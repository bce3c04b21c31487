ghost use Rattle.std.specs.Prelude.{◌≡◌, IfOk, option_map, replicate};
ghost use Rattle.std.specs.String.{string_bytes};
ghost use Rattle.zk_cli_args.specs.Sessions.{bare_by, widened};
ghost use Rattle.zk_cli_args.specs.Zxids.{digits_in, padded, padded_by};

use std::alloc::Global;
use zk_path::NoMemory;

/// The number of digits of a zxid.
const DIGITS: usize = 16;

/// `0x2a4` as sixteen digits; any other word as it is.
#[tactic(auto, unfolding(crate::specs::Zxids::padded))]
pub(crate) fn padded(alloc: Global, word: &str) -> Result<String, NoMemory>
    ensures { IfOk result (λ plain. string_bytes plain ≡ padded word.now) }
{
    padded_by(alloc, word, digits_in(word))
}

/// `0x2a4`, or `2a4` alone, as sixteen digits; a word of no digit or of more as it is.
#[tactic(auto, unfolding(crate::specs::Sessions::widened))]
pub(crate) fn widened(alloc: Global, word: &str) -> Result<String, NoMemory>
    ensures { IfOk result (λ plain. string_bytes plain ≡ widened word.now) }
{
    padded_by(alloc, word, Some(bare(word)))
}

/// What follows `0x`, or the word itself.
fn bare(word: &str) -> &str
    ensures { result.now ≡ bare_by word.now (digits_in word.now) }
{
    match digits_in(word) {
        Some(digits) => digits,
        None => word,
    }
}

/// What follows `0x`.
fn digits_in(word: &str) -> Option<&str>
    ensures { option_map (λ digits. digits.now) result ≡ digits_in word.now }
{
    word.strip_prefix("0x")
}

fn padded_by(alloc: Global, word: &str, digits: Option<&str>) -> Result<String, NoMemory>
    ensures { IfOk result (λ plain. string_bytes plain ≡ padded_by word.now (option_map (λ digits. digits.now) digits.entry)) }
{
    let Some(digits) = digits else {
        return Ok(String::from_str(alloc, word)?);
    };
    if digits.is_empty() || DIGITS < digits.len() {
        return Ok(String::from_str(alloc, word)?);
    }
    let mut plain = zeros(alloc, DIGITS - digits.len())?;
    plain.push_str(digits)?;
    Ok(plain)
}

#[tactic(auto, using(crate::proofs::ZxidLaws::one_zero, crate::proofs::ZxidLaws::no_zero))]
fn zeros(alloc: Global, count: usize) -> Result<String, NoMemory>
    ensures { IfOk result (λ zeros. string_bytes zeros ≡ replicate count 48) }
{
    let mut zeros = String::new(alloc);
    let mut left = count;
    while left > 0 {
        zeros.push('0')?;
        left -= 1;
    }
    Ok(zeros)
}
