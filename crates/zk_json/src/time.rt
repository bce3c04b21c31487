//! A time of a word.
ghost use Rattle.std.specs.Prelude.{◌≡◌, IfOk};
ghost use Rattle.zk_json.specs.Times.{fits, fits_one, has_form, time_of};

use jiff::Timestamp;
use std::alloc::Global;
use zk_path::NoMemory;

/// The forms of a time: `d` is a decimal digit, and any other byte is itself.
const MINUTES: &str = "dddd-dd-ddTdd:dd";

const SECONDS: &str = "dddd-dd-ddTdd:dd:dd";

const MILLISECONDS: &str = "dddd-dd-ddTdd:dd:dd.ddd";

/// The milliseconds from 1970-01-01T00:00 to a time in UTC: `2026-11-27T14:03`, with seconds, or
/// with milliseconds. `None` for any other word.
#[tactic(auto, unfolding(crate::specs::Times::time_of))]
pub fn read_time(alloc: Global, word: &str) -> Result<Option<i64>, NoMemory>
    ensures { IfOk result (λ time. time ≡ time_of word.now) }
{
    if !has_form(word.as_bytes()) {
        return Ok(None);
    }
    let mut instant = String::from_str(alloc, word)?;
    instant.push_str("Z")?;
    match instant.as_str().parse::<Timestamp>() {
        Ok(instant) => Ok(Some(instant.as_millisecond())),
        Err(_) => Ok(None),
    }
}

/// Whether a word has the form of a time.
fn has_form(word: &[u8]) -> bool
    ensures { result ≡ has_form word.now }
{
    fits(MINUTES.as_bytes(), word)
        || fits(SECONDS.as_bytes(), word)
        || fits(MILLISECONDS.as_bytes(), word)
}

/// Whether a word has a form.
fn fits(form: &[u8], word: &[u8]) -> bool
    ensures { result ≡ fits form.now word.now }
{
    let [sign, form @ ..] = form else {
        return word.is_empty();
    };
    let [byte, word @ ..] = word else {
        return false;
    };
    fits_one(*sign, *byte) && fits(form, word)
}

fn fits_one(sign: u8, byte: u8) -> bool
    ensures { result ≡ fits_one sign byte }
{
    if sign == b'd' {
        byte.is_ascii_digit()
    } else {
        byte == sign
    }
}
