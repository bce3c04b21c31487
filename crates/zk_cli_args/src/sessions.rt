ghost use Rattle.std.specs.Prelude.{◌≡◌, Some, IfOk, map, option_map};
ghost use Rattle.zk_cli_args.specs.Sessions.{sessions_after, sessions_by, sessions_of, words_of_sessions};

use crate::command::values_of;
use crate::parting::part_option;
use std::alloc::Global;
use zk_path::NoMemory;

/// A data directory whose sessions are listed.
#[derive(Clone, Copy, Debug)]
pub struct SessionsJob<'a> {
    /// The data directory, or its `version-2`.
    pub folder: &'a str,
    /// The directory of the logs, if it is another.
    pub logs: Option<&'a str>,
}

/// The directory that words name.
pub(crate) fn sessions_of<'a>(
    alloc: Global,
    words: &[&'a str],
) -> Result<Option<SessionsJob<'a>>, NoMemory>
    ensures { IfOk result (λ read. option_map words_of_sessions read ≡ sessions_of (map (λ word. word.now) words.now)) }
{
    let [_, name, rest @ ..] = words else {
        return Ok(None);
    };
    if *name != "sessions" {
        return Ok(None);
    }
    sessions_after(alloc, rest)
}

/// The directory that the words after the command's name name.
fn sessions_after<'a>(alloc: Global, words: &[&'a str]) -> Result<Option<SessionsJob<'a>>, NoMemory>
    ensures { IfOk result (λ read. option_map words_of_sessions read ≡ sessions_after (map (λ word. word.now) words.now)) }
{
    let logs = part_option(alloc, "--logs", "--logs=", words)?;
    let Some(values) = values_of(alloc, logs.others.as_slice())? else {
        return Ok(None);
    };
    Ok(sessions_by(logs.value, values.as_slice()))
}

/// The directory with this option and these values.
fn sessions_by<'a>(logs: Option<&'a str>, values: &[&'a str]) -> Option<SessionsJob<'a>>
    ensures { option_map words_of_sessions result ≡ sessions_by (option_map (λ logs. logs.now) logs.entry) (Some (map (λ value. value.now) values.now)) }
{
    let [folder] = values else {
        return None;
    };
    Some(SessionsJob { folder, logs })
}
