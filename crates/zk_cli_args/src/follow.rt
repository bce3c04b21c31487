//! The word `--follow`.
ghost use Rattle.std.specs.Prelude.{◌≡◌, ◌≤◌, IfOk, length, map, option_map};
ghost use Rattle.std.specs.List.{position_or_len};
ghost use Rattle.zk_cli_args.specs.Follows.{after_follow, follow_of, is_mark};

use std::alloc::Global;
use zk_path::NoMemory;

/// The other words of a command line with `--follow` before a `--`; `None` without it.
pub(crate) fn follow_of<'a>(
    alloc: Global,
    words: &[&'a str],
) -> Result<Option<Vec<&'a str>>, NoMemory>
    ensures { IfOk result (λ found. option_map (λ others. map (λ word. word.now) others.items) found
        ≡ follow_of (map (λ word. word.now) words.now)) }
{
    let mark = mark_in(words);
    match after_follow(&words[mark..]) {
        Some(rest) => {
            let mut others = Vec::from_slice(alloc, &words[..mark])?;
            others.extend_from_slice(rest)?;
            Ok(Some(others))
        }
        None => Ok(None),
    }
}

/// The position of the word that decides, or the number of words.
fn mark_in(words: &[&str]) -> usize
    ensures mark { result ≡ position_or_len is_mark (map (λ word. word.now) words.now) }
    ensures within { result ≤ length words.now }
{
    for at in 0..words.len() {
        if is_mark(words[at]) {
            return at;
        }
    }
    words.len()
}

fn is_mark(word: &str) -> bool
    ensures { result ≡ is_mark word.now }
{
    word == "--follow" || word == "--"
}

/// The words after `--follow`, if it is the first.
fn after_follow<'w, 'a>(words: &'w [&'a str]) -> Option<&'w [&'a str]>
    ensures { option_map (λ rest. map (λ word. word.now) rest.now) result ≡ after_follow (map (λ word. word.now) words.now) }
{
    let [word, rest @ ..] = words else {
        return None;
    };
    if *word == "--follow" {
        return Some(rest);
    }
    None
}
