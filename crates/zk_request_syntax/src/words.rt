//! Words and spaces.
ghost use Rattle.std.specs.Prelude.{◌≡◌, ◌≢◌, IfErr, OnErr};
ghost use Rattle.std.specs.List.{position, position_or_len};
ghost use Rattle.zk_listing.specs.Reading.{TakesUnit, past, is_end, front_of, back_of};
ghost use Rattle.zk_request_syntax.specs.Reading.{flag_at};

use zk_listing::ListCause;

/// Takes a word: up to the next space, the end of the line or of the input.
pub fn take_word<'a>(input: &mut &'a str) -> &'a str
    ensures word { result.now ≡ front_of input.old.now }
    ensures rest { input.new.now ≡ back_of input.old.now }
{
    let (word, rest) = input.split_at(word_len(input.as_bytes()));
    *input = rest;
    word
}

/// Counts the bytes before the first space or newline.
fn word_len(bytes: &[u8]) -> usize
    ensures { result ≡ position_or_len is_end bytes.now }
{
    first_end(bytes).unwrap_or(bytes.len())
}

/// Finds the first space or newline.
fn first_end(bytes: &[u8]) -> Option<usize>
    ensures { result ≡ position is_end bytes.now }
{
    bytes.iter().position(|b| *b == b' ' || *b == b'\n')
}

/// Takes one space.
pub fn take_space(input: &mut &str) -> Result<(), ListCause>
    ensures taken { TakesUnit result input.new.now (past 32 input.old.now) }
    ensures unchanged { OnErr result (input.new.now ≡ input.old.now) }
    ensures memory { IfErr result (λ cause. cause ≢ ListCause.NoMemory) }
{
    match input.strip_prefix(' ') {
        Some(rest) => {
            *input = rest;
            Ok(())
        }
        None => Err(ListCause::Fields),
    }
}

/// Takes a space and a word, if the input begins with them.
#[tactic(auto, unfolding(crate::specs::Reading::flag_at))]
pub(crate) fn flag(input: &mut &str, word: &str) -> bool
    ensures { (result, input.new.now) ≡ flag_at word.now input.old.now }
{
    let Some(mut rest) = input.strip_prefix(' ') else {
        return false;
    };
    let found = take_word(&mut rest) == word;
    if found {
        *input = rest;
    }
    found
}
