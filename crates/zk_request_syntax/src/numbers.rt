//! Numbers without a sign. After an error the input is after the word.
ghost use Rattle.std.specs.Prelude.{◌≡◌, ◌≢◌, IfErr};
ghost use Rattle.zk_listing.specs.Reading.{Takes};
ghost use Rattle.zk_request_syntax.specs.Reading.{number_from, number_at, begins_plainly};

use crate::words::take_word;
use zk_listing::ListCause;

/// Reads a decimal of 64 bits without a sign: `0`, or digits of which the first is not 0.
#[tactic(auto, unfolding(crate::specs::Reading::number_at))]
pub(crate) fn number(input: &mut &str) -> Result<u64, ListCause>
    ensures taken { Takes result input.new.now (number_at input.old.now) }
    ensures memory { IfErr result (λ cause. cause ≢ ListCause.NoMemory) }
{
    let word = take_word(input);
    number_of(word).ok_or(ListCause::Number)
}

fn number_of(field: &str) -> Option<u64>
    ensures { result ≡ number_from field.now }
{
    if !begins_plainly(field.as_bytes()) {
        return None;
    }
    field.parse().ok()
}

/// Whether a decimal has no sign and no leading zero.
fn begins_plainly(field: &[u8]) -> bool
    ensures { result ≡ begins_plainly field.now }
{
    match field {
        [b'0'] => true,
        [first, ..] => matches!(first, b'1'..=b'9'),
        [] => false,
    }
}
