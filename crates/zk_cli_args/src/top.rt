ghost use Rattle.std.specs.Prelude.{◌≡◌, Some, IfOk, map, option_map};
ghost use Rattle.zk_cli_args.specs.Incidents.{ReadsBound, ReadsBy, ReadsNumber, ReadsTop, top_after, top_by, top_of};
ghost use Rattle.zk_cli_args.specs.Tops.{ReadsTopWords, words_of_top};

use crate::command::values_of;
use crate::folders::{Until, read_until};
use crate::parting::part_option;
use crate::serving::number_within;
use std::alloc::Global;
use zk_path::NoMemory;

/// What writes are counted by.
#[derive(Clone, Copy, Debug, PartialEq, Eq)]
pub enum By {
    Path,
    Session,
}

/// The paths or sessions of a data directory with the most writes.
#[derive(Clone, Copy, Debug)]
pub struct TopJob<'a> {
    /// The data directory, or its `version-2`.
    pub folder: &'a str,
    /// The directory of the logs, if it is another.
    pub logs: Option<&'a str>,
    pub by: By,
    /// The first transaction that counts, if not all do.
    pub from: Option<Until>,
    /// The last one.
    pub to: Option<Until>,
    /// The number of lines at most.
    pub number: Option<u32>,
}

/// The words of [`TopJob`].
#[derive(Clone, Copy, Debug)]
pub(crate) struct TopGiven<'a> {
    folder: &'a str,
    logs: Option<&'a str>,
    by: Option<&'a str>,
    from: Option<&'a str>,
    to: Option<&'a str>,
    number: Option<&'a str>,
}

/// The paths or sessions that words ask for.
#[tactic(auto, using(crate::proofs::TopLaws::given_top, crate::proofs::TopLaws::no_top))]
pub(crate) fn top_of<'a>(alloc: Global, words: &[&'a str]) -> Result<Option<TopJob<'a>>, NoMemory>
    ensures { IfOk result (λ read. ReadsTop (map (λ word. word.now) words.now) read) }
{
    match top_words(alloc, words)? {
        Some(given) => top_by(alloc, given),
        None => Ok(None),
    }
}

/// The words of a command line for the paths or sessions with the most writes.
fn top_words<'a>(alloc: Global, words: &[&'a str]) -> Result<Option<TopGiven<'a>>, NoMemory>
    ensures { IfOk result (λ read. option_map words_of_top read ≡ top_of (map (λ word. word.now) words.now)) }
{
    let [_, name, rest @ ..] = words else {
        return Ok(None);
    };
    if *name != "top" {
        return Ok(None);
    }
    top_after(alloc, rest)
}

/// The words after the command's name.
fn top_after<'a>(alloc: Global, words: &[&'a str]) -> Result<Option<TopGiven<'a>>, NoMemory>
    ensures { IfOk result (λ read. option_map words_of_top read ≡ top_after (map (λ word. word.now) words.now)) }
{
    let logs = part_option(alloc, "--logs", "--logs=", words)?;
    let by = part_option(alloc, "--by", "--by=", logs.others.as_slice())?;
    let from = part_option(alloc, "--from", "--from=", by.others.as_slice())?;
    let to = part_option(alloc, "--to", "--to=", from.others.as_slice())?;
    let number = part_option(alloc, "-n", "-n=", to.others.as_slice())?;
    let Some(values) = values_of(alloc, number.others.as_slice())? else {
        return Ok(None);
    };
    Ok(top_with(
        logs.value,
        by.value,
        from.value,
        to.value,
        number.value,
        values.as_slice(),
    ))
}

/// The words of these options and values.
fn top_with<'a>(
    logs: Option<&'a str>,
    by: Option<&'a str>,
    from: Option<&'a str>,
    to: Option<&'a str>,
    number: Option<&'a str>,
    values: &[&'a str],
) -> Option<TopGiven<'a>>
    ensures { option_map words_of_top result ≡ top_by (option_map (λ word. word.now) logs.entry) (option_map (λ word. word.now) by.entry) (option_map (λ word. word.now) from.entry) (option_map (λ word. word.now) to.entry) (option_map (λ word. word.now) number.entry) (Some (map (λ value. value.now) values.now)) }
{
    let [folder] = values else {
        return None;
    };
    Some(TopGiven {
        folder,
        logs,
        by,
        from,
        to,
        number,
    })
}

/// What these words ask for.
#[tactic(auto, using(crate::proofs::TopLaws::whole_top, crate::proofs::TopLaws::no_by, crate::proofs::TopLaws::no_from, crate::proofs::TopLaws::no_to, crate::proofs::TopLaws::no_number))]
fn top_by<'a>(alloc: Global, given: TopGiven<'a>) -> Result<Option<TopJob<'a>>, NoMemory>
    ensures { IfOk result (λ read. ReadsTopWords (words_of_top given.entry) read) }
{
    let Some(by) = by_of(given.by) else {
        return Ok(None);
    };
    let Some(from) = bound_of(alloc, given.from)? else {
        return Ok(None);
    };
    let Some(to) = bound_of(alloc, given.to)? else {
        return Ok(None);
    };
    let Some(number) = number_of(given.number) else {
        return Ok(None);
    };
    Ok(Some(TopJob {
        folder: given.folder,
        logs: given.logs,
        by,
        from,
        to,
        number,
    }))
}

fn by_of(word: Option<&str>) -> Option<By>
    ensures { ReadsBy (option_map (λ word. word.now) word.entry) result }
{
    match word {
        Some("path") => Some(By::Path),
        Some("session") => Some(By::Session),
        _ => None,
    }
}

/// The transaction or time of a word, if there is one.
fn bound_of(alloc: Global, word: Option<&str>) -> Result<Option<Option<Until>>, NoMemory>
    ensures { IfOk result (λ read. ReadsBound (option_map (λ word. word.now) word.entry) read) }
{
    let Some(word) = word else {
        return Ok(Some(None));
    };
    match read_until(alloc, word)? {
        Some(until) => Ok(Some(Some(until))),
        None => Ok(None),
    }
}

/// The number of a word, if there is one.
fn number_of(word: Option<&str>) -> Option<Option<u32>>
    ensures { ReadsNumber (option_map (λ word. word.now) word.entry) result }
{
    let Some(word) = word else {
        return Some(None);
    };
    match number_within(word, 0, u32::MAX) {
        Some(number) => Some(Some(number)),
        None => None,
    }
}
