ghost use Rattle.std.specs.Prelude.{◌≡◌, Some, IfOk, map, option_map};
ghost use Rattle.zk_cli_args.specs.Restoring.{ReadsRestore, ReadsRestoreWords, restore_after, restore_by, restore_words, words_of_restore};

use crate::command::values_of;
use crate::folders::{Until, read_until};
use crate::parting::part_option;
use crate::paths::is_path;
use std::alloc::Global;
use zk_path::NoMemory;

/// A node of a data directory and those below it, to print the script that restores them.
#[derive(Clone, Copy, Debug)]
pub struct RestoreJob<'a> {
    /// The data directory, or its `version-2`.
    pub folder: &'a str,
    /// The directory of the logs, if it is another.
    pub logs: Option<&'a str>,
    pub path: &'a str,
    /// The last transaction of the state.
    pub at: Until,
}

/// The words of [`RestoreJob`].
#[derive(Clone, Copy, Debug)]
pub(crate) struct RestoreGiven<'a> {
    folder: &'a str,
    logs: Option<&'a str>,
    path: &'a str,
    at: &'a str,
}

/// The nodes that words name.
#[tactic(auto, using(crate::proofs::RestoreLaws::given_restore, crate::proofs::RestoreLaws::no_restore))]
pub(crate) fn restore_of<'a>(
    alloc: Global,
    words: &[&'a str],
) -> Result<Option<RestoreJob<'a>>, NoMemory>
    ensures { IfOk result (λ read. ReadsRestore (map (λ word. word.now) words.now) read) }
{
    match restore_words(alloc, words)? {
        Some(given) => nodes_of(alloc, given),
        None => Ok(None),
    }
}

/// The words of a command line for nodes.
fn restore_words<'a>(alloc: Global, words: &[&'a str]) -> Result<Option<RestoreGiven<'a>>, NoMemory>
    ensures { IfOk result (λ read. option_map words_of_restore read ≡ restore_words (map (λ word. word.now) words.now)) }
{
    let [_, name, rest @ ..] = words else {
        return Ok(None);
    };
    if *name != "restore" {
        return Ok(None);
    }
    restore_after(alloc, rest)
}

/// The words after the command's name.
fn restore_after<'a>(alloc: Global, words: &[&'a str]) -> Result<Option<RestoreGiven<'a>>, NoMemory>
    ensures { IfOk result (λ read. option_map words_of_restore read ≡ restore_after (map (λ word. word.now) words.now)) }
{
    let logs = part_option(alloc, "--logs", "--logs=", words)?;
    let at = part_option(alloc, "--at", "--at=", logs.others.as_slice())?;
    let Some(values) = values_of(alloc, at.others.as_slice())? else {
        return Ok(None);
    };
    restore_by(alloc, logs.value, at.value, values.as_slice())
}

/// The words of these options and values.
fn restore_by<'a>(
    alloc: Global,
    logs: Option<&'a str>,
    at: Option<&'a str>,
    values: &[&'a str],
) -> Result<Option<RestoreGiven<'a>>, NoMemory>
    ensures { IfOk result (λ read. option_map words_of_restore read ≡ restore_by (option_map (λ word. word.now) logs.entry) (option_map (λ word. word.now) at.entry) (Some (map (λ value. value.now) values.now))) }
{
    let [folder, path] = values else {
        return Ok(None);
    };
    if !is_path(alloc, path)? {
        return Ok(None);
    }
    let at = match at {
        Some(at) => at,
        None => "last",
    };
    Ok(Some(RestoreGiven {
        folder,
        logs,
        path,
        at,
    }))
}

/// The nodes that these words name.
#[tactic(auto, using(crate::proofs::RestoreLaws::whole_restore, crate::proofs::RestoreLaws::no_at))]
fn nodes_of<'a>(alloc: Global, given: RestoreGiven<'a>) -> Result<Option<RestoreJob<'a>>, NoMemory>
    ensures { IfOk result (λ read. ReadsRestoreWords (words_of_restore given.entry) read) }
{
    let Some(at) = read_until(alloc, given.at)? else {
        return Ok(None);
    };
    Ok(Some(RestoreJob {
        folder: given.folder,
        logs: given.logs,
        path: given.path,
        at,
    }))
}
