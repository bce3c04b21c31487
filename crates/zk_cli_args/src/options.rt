//! An option that takes a value, and a flag, among the words after a command's name.
ghost use Rattle.std.specs.Prelude.{◌≡◌, ◌++◌, Some, IfOk, map, option_map};
ghost use Rattle.zk_cli_args.specs.Options.{behind, flag_in, option_in, record_of, shown, value_behind, value_in};

use std::alloc::Global;
use zk_path::NoMemory;

/// The value of an option, and the other words.
#[derive(Debug, Drop)]
pub(crate) struct OptionValue<'a> {
    pub value: &'a str,
    pub others: Vec<&'a str>,
}

/// The value in the words `NAME VALUE`, or in one word after `prefix`, and the other words. After a
/// `--` every word is a value.
pub(crate) fn option_in<'a>(
    alloc: Global,
    name: &str,
    prefix: &str,
    words: &[&'a str],
) -> Result<Option<OptionValue<'a>>, NoMemory>
    ensures { IfOk result (λ found. option_map shown found ≡ option_in name.now prefix.now (map (λ word. word.now) words.now)) }
{
    let mut front = Vec::new(alloc);
    let mut rest = words;
    while let [word, back @ ..] = rest {
        if *word == "--" {
            return Ok(None);
        }
        if *word == name {
            return value_behind(front, back);
        }
        if let Some(value) = value_in(prefix, word) {
            return value_with(front, value, back);
        }
        front.push(*word)?;
        rest = back;
    }
    Ok(None)
}

/// The file of `--record`, and the other words.
pub(crate) fn record_of<'a>(
    alloc: Global,
    words: &[&'a str],
) -> Result<Option<OptionValue<'a>>, NoMemory>
    ensures { IfOk result (λ found. option_map shown found ≡ record_of (map (λ word. word.now) words.now)) }
{
    option_in(alloc, "--record", "--record=", words)
}

/// The value after an option's name, and the words before and after these.
fn value_behind<'a>(
    front: Vec<&'a str>,
    rest: &[&'a str],
) -> Result<Option<OptionValue<'a>>, NoMemory>
    ensures { IfOk result (λ found. option_map shown found
        ≡ behind (map (λ word. word.now) front.entry.items) (value_behind (map (λ word. word.now) rest.now))) }
{
    let [value, back @ ..] = rest else {
        return Ok(None);
    };
    value_with(front, value, back)
}

/// A value, and the words before and after it.
fn value_with<'a>(
    mut front: Vec<&'a str>,
    value: &'a str,
    back: &[&'a str],
) -> Result<Option<OptionValue<'a>>, NoMemory>
    ensures { IfOk result (λ found. option_map shown found
        ≡ Some (value.now, map (λ word. word.now) front.entry.items ++ map (λ word. word.now) back.now)) }
{
    front.extend_from_slice(back)?;
    Ok(Some(OptionValue {
        value,
        others: front,
    }))
}

/// The value in a word that begins with `prefix`.
fn value_in<'a>(prefix: &str, word: &'a str) -> Option<&'a str>
    ensures { option_map (λ value. value.now) result ≡ value_in prefix.now word.now }
{
    word.strip_prefix(prefix)
}

/// The other words, if a flag is one of the words before a `--`.
pub(crate) fn flag_in<'a>(
    alloc: Global,
    flag: &str,
    words: &[&'a str],
) -> Result<Option<Vec<&'a str>>, NoMemory>
    ensures { IfOk result (λ found. option_map (λ others. map (λ word. word.now) others.items) found ≡ flag_in flag.now (map (λ word. word.now) words.now)) }
{
    let mut front = Vec::new(alloc);
    let mut rest = words;
    while let [word, back @ ..] = rest {
        if *word == "--" {
            return Ok(None);
        }
        if *word == flag {
            return others_with(front, back);
        }
        front.push(*word)?;
        rest = back;
    }
    Ok(None)
}

/// The words before and after a flag.
fn others_with<'a>(
    mut front: Vec<&'a str>,
    back: &[&'a str],
) -> Result<Option<Vec<&'a str>>, NoMemory>
    ensures { IfOk result (λ found. option_map (λ others. map (λ word. word.now) others.items) found
        ≡ Some (map (λ word. word.now) front.entry.items ++ map (λ word. word.now) back.now)) }
{
    front.extend_from_slice(back)?;
    Ok(Some(front))
}
