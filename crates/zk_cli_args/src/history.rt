ghost use Rattle.std.specs.Prelude.{◌≡◌, Some, IfOk, map, option_map};
ghost use Rattle.zk_cli_args.specs.Incidents.{history_after, history_by, history_of, words_of_history};

use crate::command::values_of;
use crate::parting::{part_flag, part_option};
use crate::paths::is_path;
use std::alloc::Global;
use zk_path::NoMemory;

/// The history of a node in a data directory.
#[derive(Clone, Copy, Debug)]
pub struct HistoryJob<'a> {
    /// The data directory, or its `version-2`.
    pub folder: &'a str,
    /// The directory of the logs, if it is another.
    pub logs: Option<&'a str>,
    /// The node's path.
    pub path: &'a str,
    /// Whether the nodes below it are meant, too.
    pub below: bool,
}

/// The history that words name.
pub(crate) fn history_of<'a>(
    alloc: Global,
    words: &[&'a str],
) -> Result<Option<HistoryJob<'a>>, NoMemory>
    ensures { IfOk result (λ read. option_map words_of_history read ≡ history_of (map (λ word. word.now) words.now)) }
{
    let [_, name, rest @ ..] = words else {
        return Ok(None);
    };
    if *name != "history" {
        return Ok(None);
    }
    history_after(alloc, rest)
}

/// The history that the words after the command's name name.
fn history_after<'a>(alloc: Global, words: &[&'a str]) -> Result<Option<HistoryJob<'a>>, NoMemory>
    ensures { IfOk result (λ read. option_map words_of_history read ≡ history_after (map (λ word. word.now) words.now)) }
{
    let logs = part_option(alloc, "--logs", "--logs=", words)?;
    let below = part_flag(alloc, "-r", logs.others.as_slice())?;
    let Some(values) = values_of(alloc, below.others.as_slice())? else {
        return Ok(None);
    };
    history_by(alloc, logs.value, below.is_there, values.as_slice())
}

/// The history with these options and values.
fn history_by<'a>(
    alloc: Global,
    logs: Option<&'a str>,
    below: bool,
    values: &[&'a str],
) -> Result<Option<HistoryJob<'a>>, NoMemory>
    ensures { IfOk result (λ read. option_map words_of_history read ≡ history_by (option_map (λ logs. logs.now) logs.entry) below (Some (map (λ value. value.now) values.now))) }
{
    let [folder, path] = values else {
        return Ok(None);
    };
    if !is_path(alloc, path)? {
        return Ok(None);
    }
    Ok(Some(HistoryJob {
        folder,
        logs,
        path,
        below,
    }))
}
