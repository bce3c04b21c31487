ghost use Rattle.std.specs.Prelude.{◌≡◌, Some, IfOk, map, option_map};
ghost use Rattle.zk_cli_args.specs.Differing.{ReadsDiff, ReadsDiffWords, diff_after, diff_by, diff_words, words_of_diff};

use crate::command::values_of;
use crate::folders::{Until, read_until};
use crate::parting::part_option;
use crate::paths::is_path;
use std::alloc::Global;
use zk_path::NoMemory;

/// Two states of a data directory, to print what differs.
#[derive(Clone, Copy, Debug)]
pub struct DiffJob<'a> {
    /// The data directory, or its `version-2`.
    pub folder: &'a str,
    /// The directory of the logs, if it is another.
    pub logs: Option<&'a str>,
    /// The last transaction of the first state.
    pub from: Until,
    /// That of the second one.
    pub to: Until,
    /// The path of the node at and below which the states are compared.
    pub path: &'a str,
}

/// The words of [`DiffJob`].
#[derive(Clone, Copy, Debug)]
pub(crate) struct DiffGiven<'a> {
    folder: &'a str,
    logs: Option<&'a str>,
    from: &'a str,
    to: &'a str,
    path: &'a str,
}

/// The two states that words name.
#[tactic(auto, using(crate::proofs::DiffLaws::given_diff, crate::proofs::DiffLaws::no_diff))]
pub(crate) fn diff_of<'a>(alloc: Global, words: &[&'a str]) -> Result<Option<DiffJob<'a>>, NoMemory>
    ensures { IfOk result (λ read. ReadsDiff (map (λ word. word.now) words.now) read) }
{
    match diff_words(alloc, words)? {
        Some(given) => states_of(alloc, given),
        None => Ok(None),
    }
}

/// The words of a command line for two states.
fn diff_words<'a>(alloc: Global, words: &[&'a str]) -> Result<Option<DiffGiven<'a>>, NoMemory>
    ensures { IfOk result (λ read. option_map words_of_diff read ≡ diff_words (map (λ word. word.now) words.now)) }
{
    let [_, name, rest @ ..] = words else {
        return Ok(None);
    };
    if *name != "diff" {
        return Ok(None);
    }
    diff_after(alloc, rest)
}

/// The words after the command's name.
fn diff_after<'a>(alloc: Global, words: &[&'a str]) -> Result<Option<DiffGiven<'a>>, NoMemory>
    ensures { IfOk result (λ read. option_map words_of_diff read ≡ diff_after (map (λ word. word.now) words.now)) }
{
    let logs = part_option(alloc, "--logs", "--logs=", words)?;
    let Some(values) = values_of(alloc, logs.others.as_slice())? else {
        return Ok(None);
    };
    diff_by(alloc, logs.value, values.as_slice())
}

/// The words of this option and these values.
fn diff_by<'a>(
    alloc: Global,
    logs: Option<&'a str>,
    values: &[&'a str],
) -> Result<Option<DiffGiven<'a>>, NoMemory>
    ensures { IfOk result (λ read. option_map words_of_diff read ≡ diff_by (option_map (λ logs. logs.now) logs.entry) (Some (map (λ value. value.now) values.now))) }
{
    match values {
        [folder, from, to] => Ok(Some(DiffGiven {
            folder,
            logs,
            from,
            to,
            path: "/",
        })),
        [folder, from, to, path] => {
            if !is_path(alloc, path)? {
                return Ok(None);
            }
            Ok(Some(DiffGiven {
                folder,
                logs,
                from,
                to,
                path,
            }))
        }
        _ => Ok(None),
    }
}

/// The two states that these words name.
#[tactic(auto, using(crate::proofs::DiffLaws::whole_diff, crate::proofs::DiffLaws::no_from, crate::proofs::DiffLaws::no_to))]
fn states_of<'a>(alloc: Global, given: DiffGiven<'a>) -> Result<Option<DiffJob<'a>>, NoMemory>
    ensures { IfOk result (λ read. ReadsDiffWords (words_of_diff given.entry) read) }
{
    let Some(from) = read_until(alloc, given.from)? else {
        return Ok(None);
    };
    let Some(to) = read_until(alloc, given.to)? else {
        return Ok(None);
    };
    Ok(Some(DiffJob {
        folder: given.folder,
        logs: given.logs,
        from,
        to,
        path: given.path,
    }))
}
