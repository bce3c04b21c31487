ghost use Rattle.std.specs.Prelude.{◌≡◌, None, is_some, IfOk, IfSome, map, option_map};
ghost use Rattle.zk_cli_args.specs.Commands.{prompts_of, script_of};
ghost use Rattle.zk_cli_args.specs.Debugs.{ReadsDebugAfter, ReadsDebugBehind, ReadsDebugLine, ReadsDebugNamed, ReadsDebugPrompted, ReadsDebugValues, ReadsDebugWith, debug_script_of, debugs};
ghost use Rattle.zk_cli_args.specs.Lines.{ReadsDirectoryDebug, needs_directory};

use crate::command::{Job, Order, values_of};
use crate::folders::{Until, read_until};
use crate::options::{flag_in, option_in};
use std::alloc::Global;
use zk_path::NoMemory;

/// A debugger of a data directory.
#[derive(Clone, Copy, Debug)]
pub struct FolderDebug<'a> {
    /// The data directory, or its `version-2`.
    pub folder: &'a str,
    /// The directory of the logs, if it is another.
    pub logs: Option<&'a str>,
    /// The transaction of place 0, if the words name one.
    pub from: Option<Until>,
    /// The script; `None` for a session.
    pub script: Option<&'a str>,
    /// Whether a session has prompts, even if standard input is no terminal.
    pub prompts: bool,
}

/// The debugger that words name with an option that only a directory has.
#[tactic(auto, using(crate::proofs::DebugLaws::same_need))]
pub(crate) fn directory_debug_of<'a>(
    alloc: Global,
    words: &[&'a str],
) -> Result<Option<FolderDebug<'a>>, NoMemory>
    ensures { IfOk result (λ read. ReadsDirectoryDebug (map (λ word. word.now) words.now) read) }
{
    let Some(debug) = folder_debug_of(alloc, words)? else {
        return Ok(None);
    };
    if !needs_directory(&debug) {
        return Ok(None);
    }
    Ok(Some(debug))
}

fn needs_directory(debug: &FolderDebug) -> bool
    ensures { result ≡ needs_directory debug.now }
{
    debug.logs.is_some() || debug.from.is_some()
}

/// The debugger of a directory, for a job whose input is one; `None` if its command does not debug.
pub fn folder_debug_from<'a>(job: &Job<'a>) -> Option<FolderDebug<'a>>
    ensures debugs { is_some result ≡ debugs job.now.order }
    ensures folder { IfSome result (λ it. (it.folder.now ≡ job.now.input.now) × (it.logs ≡ None) × (it.from ≡ None)) }
    ensures script { IfSome result (λ it. debug_script_of it ≡ script_of job.now) }
    ensures prompts { IfSome result (λ it. it.prompts ≡ prompts_of job.now.order) }
{
    let prompts = match job.order {
        Order::Debug => false,
        Order::Session { prompts } => prompts,
        _ => return None,
    };
    Some(FolderDebug {
        folder: job.input,
        logs: None,
        from: None,
        script: job.script,
        prompts,
    })
}

/// The debugger that words name.
#[tactic(auto, using(crate::proofs::DebugLaws::from_words))]
fn folder_debug_of<'a>(
    alloc: Global,
    words: &[&'a str],
) -> Result<Option<FolderDebug<'a>>, NoMemory>
    ensures { IfOk result (λ read. ReadsDebugLine (map (λ word. word.now) words.now) read) }
{
    let [_, name, rest @ ..] = words else {
        return Ok(None);
    };
    debug_named(alloc, name, rest)
}

/// The debugger that a command's name and the words after it name.
#[tactic(auto, using(crate::proofs::DebugLaws::if_named))]
fn debug_named<'a>(
    alloc: Global,
    name: &str,
    words: &[&'a str],
) -> Result<Option<FolderDebug<'a>>, NoMemory>
    ensures { IfOk result (λ read. ReadsDebugNamed name.now (map (λ word. word.now) words.now) read) }
{
    if name != "debug" {
        return Ok(None);
    }
    debug_behind(alloc, words)
}

/// The debugger that the words after the command's name name.
#[tactic(auto, using(crate::proofs::DebugLaws::unlogged, crate::proofs::DebugLaws::is_logged))]
fn debug_behind<'a>(alloc: Global, words: &[&'a str]) -> Result<Option<FolderDebug<'a>>, NoMemory>
    ensures { IfOk result (λ read. ReadsDebugBehind (map (λ word. word.now) words.now) read) }
{
    match option_in(alloc, "--logs", "--logs=", words)? {
        Some(found) => debug_with(alloc, Some(found.value), found.others.as_slice()),
        None => debug_with(alloc, None, words),
    }
}

/// The debugger with a directory of logs that words without it name.
#[tactic(auto, using(crate::proofs::DebugLaws::from_snapshot, crate::proofs::DebugLaws::is_from, crate::proofs::DebugLaws::has_no_start))]
fn debug_with<'a>(
    alloc: Global,
    logs: Option<&'a str>,
    words: &[&'a str],
) -> Result<Option<FolderDebug<'a>>, NoMemory>
    ensures { IfOk result (λ read. ReadsDebugWith (option_map (λ word. word.now) logs.entry) (map (λ word. word.now) words.now) read) }
{
    let Some(found) = option_in(alloc, "--from", "--from=", words)? else {
        return debug_after(alloc, logs, None, words);
    };
    match read_until(alloc, found.value)? {
        Some(from) => debug_after(alloc, logs, Some(from), found.others.as_slice()),
        None => Ok(None),
    }
}

/// The debugger with a directory of logs and a start that words without these name.
#[tactic(auto, using(crate::proofs::DebugLaws::unprompted, crate::proofs::DebugLaws::is_prompted))]
fn debug_after<'a>(
    alloc: Global,
    logs: Option<&'a str>,
    from: Option<Until>,
    words: &[&'a str],
) -> Result<Option<FolderDebug<'a>>, NoMemory>
    ensures { IfOk result (λ read. ReadsDebugAfter (option_map (λ word. word.now) logs.entry) from (map (λ word. word.now) words.now) read) }
{
    match flag_in(alloc, "--prompt", words)? {
        Some(others) => debug_prompted(alloc, logs, from, true, others.as_slice()),
        None => debug_prompted(alloc, logs, from, false, words),
    }
}

/// The debugger with these options that words without options name.
#[tactic(auto, using(crate::proofs::DebugLaws::of_values, crate::proofs::DebugLaws::has_no_values))]
fn debug_prompted<'a>(
    alloc: Global,
    logs: Option<&'a str>,
    from: Option<Until>,
    prompts: bool,
    words: &[&'a str],
) -> Result<Option<FolderDebug<'a>>, NoMemory>
    ensures { IfOk result (λ read. ReadsDebugPrompted (option_map (λ word. word.now) logs.entry) from prompts (map (λ word. word.now) words.now) read) }
{
    match values_of(alloc, words)? {
        Some(values) => Ok(debug_of_values(logs, from, prompts, values.as_slice())),
        None => Ok(None),
    }
}

/// The debugger with these options and values: a directory, and a script unless there are prompts.
fn debug_of_values<'a>(
    logs: Option<&'a str>,
    from: Option<Until>,
    prompts: bool,
    values: &[&'a str],
) -> Option<FolderDebug<'a>>
    ensures { ReadsDebugValues (option_map (λ word. word.now) logs.entry) from prompts (map (λ value. value.now) values.now) result }
{
    let (folder, script) = match values {
        [folder] => (*folder, None),
        [folder, script] if !prompts => (*folder, Some(*script)),
        _ => return None,
    };
    Some(FolderDebug {
        folder,
        logs,
        from,
        script,
        prompts,
    })
}
