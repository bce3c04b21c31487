ghost use Rattle.std.specs.Prelude.{◌≡◌, ◌∷◌, [], true, false, IfOk, map, option_map, codes};
ghost use Rattle.zk_cli_args.specs.Commands.{AreOnly, IsOnly, ReadsBehind, ReadsDebug, ReadsDigits, ReadsGiven, ReadsJob, ReadsJobBy, ReadsMend, ReadsSession, ReadsUpto, is_option, values_of, without_prompt};

use crate::zxids::padded;
use hex::FromHex;
use std::alloc::Global;
use zk_listing::push_digits;
use zk_path::NoMemory;

/// A command of the program.
#[derive(Clone, Copy, Debug, PartialEq, Eq)]
pub enum Order {
    /// Shows the tree of a log after a transaction, or after its last one.
    Show { upto: Option<i64> },
    /// Lists the transactions of a log.
    List,
    /// Writes the log of a listing, with dbid 0.
    Asm,
    /// Converts the log of a 3.5 to 3.8 server to one of 3.4, and reports what changed.
    Mend,
    /// Executes the lines of a debug script over a log.
    Debug,
    /// Executes the lines of standard input over a log, each before it reads the next. A prompt
    /// precedes each line if `prompts`, or if standard input is a terminal.
    Session { prompts: bool },
    /// Executes the lines of a run script: elections, crashes, messages, calls and reads of an
    /// ensemble.
    Run,
}

/// A command with its streams, by their names on the command line.
#[derive(Clone, Copy, Debug)]
pub struct Job<'a> {
    pub order: Order,
    /// The log, the listing of [`Order::Asm`] or the script of [`Order::Run`]: a path, or `@` for
    /// standard input.
    pub input: &'a str,
    /// The script of [`Order::Debug`]: a path, or `@` for standard input. Other commands have none.
    pub script: Option<&'a str>,
    /// The output: a path, or `@` for standard output, which [`Order::Mend`] does not take.
    pub output: &'a str,
}

/// The job that words name.
#[tactic(auto, using(crate::proofs::GivenLaws::named_behind))]
pub(crate) fn job_of<'a>(alloc: Global, words: &[&'a str]) -> Result<Option<Job<'a>>, NoMemory>
    ensures { IfOk result (λ read. ReadsJob (map (λ word. word.now) words.now) read) }
{
    let [_, name, rest @ ..] = words else {
        return Ok(None);
    };
    job_behind(alloc, name, rest)
}

/// The job of a command's name and all words after it.
#[tactic(auto, using(crate::proofs::GivenLaws::plain_behind, crate::proofs::GivenLaws::prompted_behind))]
fn job_behind<'a>(alloc: Global, name: &str, words: &[&'a str]) -> Result<Option<Job<'a>>, NoMemory>
    ensures { IfOk result (λ read. ReadsBehind name.now (map (λ word. word.now) words.now) read) }
{
    match without_prompt(alloc, words)? {
        Some(kept) => prompted_job(alloc, name, kept.as_slice()),
        None => plain_job(alloc, name, words),
    }
}

/// The job of a command's name and the words after it, without `--prompt`.
fn plain_job<'a>(alloc: Global, name: &str, words: &[&'a str]) -> Result<Option<Job<'a>>, NoMemory>
    ensures { IfOk result (λ read. ReadsGiven name.now false (values_of (map (λ word. word.now) words.now)) read) }
{
    match values_of(alloc, words)? {
        Some(values) => job_by(alloc, name, values.as_slice()),
        None => Ok(None),
    }
}

/// The job of a session with `--prompt`, which was removed from the words.
fn prompted_job<'a>(
    alloc: Global,
    name: &str,
    words: &[&'a str],
) -> Result<Option<Job<'a>>, NoMemory>
    ensures { IfOk result (λ read. ReadsGiven name.now true (values_of (map (λ word. word.now) words.now)) read) }
{
    if name != "debug" {
        return Ok(None);
    }
    match values_of(alloc, words)? {
        Some(values) => Ok(only(values.as_slice()).and_then(|input| session_job(input, true))),
        None => Ok(None),
    }
}

/// The job of a command's name and its values.
fn job_by<'a>(alloc: Global, name: &str, values: &[&'a str]) -> Result<Option<Job<'a>>, NoMemory>
    ensures { IfOk result (λ read. ReadsJobBy name.now (map (λ value. value.now) values.now) read) }
{
    if name == "list" {
        return Ok(only(values).map(|input| Job {
            order: Order::List,
            input,
            script: None,
            output: "@",
        }));
    }
    if name == "run" {
        return Ok(only(values).map(|input| Job {
            order: Order::Run,
            input,
            script: None,
            output: "@",
        }));
    }
    if name == "debug" {
        return Ok(debug_by(values));
    }
    let Some((first, second)) = only_two(values) else {
        return Ok(None);
    };
    if name == "asm" {
        return Ok(Some(Job {
            order: Order::Asm,
            input: first,
            script: None,
            output: second,
        }));
    }
    if name == "mend" {
        return Ok(mend_job(first, second));
    }
    if name != "show" {
        return Ok(None);
    }
    show_job(alloc, first, second)
}

/// The job of showing a log up to the transaction of a word.
#[tactic(auto, using(crate::proofs::ShowLaws::named_show, crate::proofs::ShowLaws::not_shown))]
fn show_job<'a>(alloc: Global, input: &'a str, word: &str) -> Result<Option<Job<'a>>, NoMemory>
    ensures { IfOk result (λ read. ReadsJobBy (codes "show") (input.now ∷ word.now ∷ []) read) }
{
    let plain = padded(alloc, word)?;
    match read_upto(alloc, plain.as_str())? {
        Some(upto) => Ok(Some(Job {
            order: Order::Show { upto },
            input,
            script: None,
            output: "@",
        })),
        None => Ok(None),
    }
}

/// The job of converting a log; `None` if the log or the report would be overwritten.
fn mend_job<'a>(input: &'a str, output: &'a str) -> Option<Job<'a>>
    ensures { ReadsMend input.now output.now result }
{
    if output == "@" || input == output {
        return None;
    }
    Some(Job {
        order: Order::Mend,
        input,
        script: None,
        output,
    })
}

/// The job of the values after `debug`: of a script, or of a session without prompts.
fn debug_by<'a>(values: &[&'a str]) -> Option<Job<'a>>
    ensures { ReadsJobBy (codes "debug") (map (λ value. value.now) values.now) result }
{
    match values {
        [input] => session_job(input, false),
        [input, script] => debug_job(input, script),
        _ => None,
    }
}

/// The job of a debug script over a log; `None` if both are standard input.
fn debug_job<'a>(input: &'a str, script: &'a str) -> Option<Job<'a>>
    ensures { ReadsDebug input.now script.now result }
{
    if input == "@" && script == "@" {
        return None;
    }
    Some(Job {
        order: Order::Debug,
        input,
        script: Some(script),
        output: "@",
    })
}

/// The job of a session over a log; `None` if the log is standard input, which has the session's
/// lines.
fn session_job(input: &str, prompts: bool) -> Option<Job<'_>>
    ensures { ReadsSession input.now prompts result }
{
    if input == "@" {
        return None;
    }
    Some(Job {
        order: Order::Session { prompts },
        input,
        script: None,
        output: "@",
    })
}

/// The only element of a list.
pub(crate) fn only<'a>(values: &[&'a str]) -> Option<&'a str>
    ensures { IsOnly (map (λ value. value.now) values.now) (option_map (λ value. value.now) result) }
{
    let [value] = values else {
        return None;
    };
    Some(value)
}

/// The only two elements of a list.
pub(crate) fn only_two<'a>(values: &[&'a str]) -> Option<(&'a str, &'a str)>
    ensures { AreOnly (map (λ value. value.now) values.now)
        (option_map (λ both. (both.0.now, both.1.now)) result) }
{
    let [first, second] = values else {
        return None;
    };
    Some((first, second))
}

/// The words without `--prompt`, if that is the first of them or the second; after a `--` it is a
/// value.
fn without_prompt<'a>(alloc: Global, words: &[&'a str]) -> Result<Option<Vec<&'a str>>, NoMemory>
    ensures { IfOk result (λ kept. option_map (λ kept. map (λ word. word.now) kept.items) kept
        ≡ without_prompt (map (λ word. word.now) words.now)) }
{
    let [first, rest @ ..] = words else {
        return Ok(None);
    };
    if *first == "--prompt" {
        return Ok(Some(Vec::from_slice(alloc, rest)?));
    }
    let [second, rest @ ..] = rest else {
        return Ok(None);
    };
    if *second != "--prompt" || *first == "--" {
        return Ok(None);
    }
    let mut kept = Vec::new(alloc);
    kept.push(*first)?;
    kept.extend_from_slice(rest)?;
    Ok(Some(kept))
}

/// The values among the words after a command's name; `None` if one of them is an option.
pub(crate) fn values_of<'a>(
    alloc: Global,
    words: &[&'a str],
) -> Result<Option<Vec<&'a str>>, NoMemory>
    ensures { IfOk result (λ read. option_map (λ values. map (λ value. value.now) values.items) read
        ≡ values_of (map (λ word. word.now) words.now)) }
{
    let mut values = Vec::new(alloc);
    let mut options_end = false;
    for word in words {
        if options_end {
            values.push(*word)?;
        } else if *word == "--" {
            options_end = true;
        } else if is_option(word) {
            return Ok(None);
        } else {
            values.push(*word)?;
        }
    }
    Ok(Some(values))
}

/// Whether a word is an option, such as `-h` or `--help`; `-` alone is a value.
fn is_option(word: &str) -> bool
    ensures { result ≡ is_option word.now }
{
    matches!(word.as_bytes(), [b'-', _, ..])
}

/// The zxid up to which the tree is shown, `None` for all: the sixteen lower-case hexadecimal
/// digits of its 64 bits, or `last`. Returns `None` for any other word.
pub(crate) fn read_upto(alloc: Global, word: &str) -> Result<Option<Option<i64>>, NoMemory>
    ensures { IfOk result (λ read. ReadsUpto word.now read) }
{
    if word == "last" {
        return Ok(Some(None));
    }
    match read_digits(alloc, word)? {
        Some(bits) => Ok(Some(Some(bits.cast_signed()))),
        None => Ok(None),
    }
}

/// The 64 bits of sixteen lower-case hexadecimal digits. Returns `None` for any other word.
pub(crate) fn read_digits(alloc: Global, word: &str) -> Result<Option<u64>, NoMemory>
    ensures { IfOk result (λ read. ReadsDigits word.now read) }
{
    let Ok(bytes) = <[u8; 8] as FromHex>::from_hex(word) else {
        return Ok(None);
    };
    let bits = u64::from_be_bytes(bytes);
    // Digits of both cases are parsed, so the word is compared with the bits' own digits.
    let mut digits = String::new(alloc);
    push_digits(&mut digits, bits)?;
    if digits.as_str() == word {
        Ok(Some(bits))
    } else {
        Ok(None)
    }
}
