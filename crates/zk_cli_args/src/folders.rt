ghost use Rattle.std.specs.Prelude.{◌≡◌, ◌↔◌, None, IfOk, IfSome, IsTrue, codes, map, option_map};
ghost use Rattle.zk_cli_args.specs.Commands.{values_of};
ghost use Rattle.zk_cli_args.specs.Folders.{IsShownIn, NeedsDirectory, ReadsFolder, ReadsFolderBehind, ReadsFolderBy, ReadsFolderGiven, ReadsPlain, ReadsUntil, folder_order_of, until_of};

use crate::command::{Job, Order, only, only_two, read_upto, values_of};
use crate::moments::read_moment;
use crate::options::option_in;
use crate::zxids::padded;
use std::alloc::Global;
use zk_path::NoMemory;

/// The last transaction of a tree.
#[derive(Clone, Copy, Debug, PartialEq, Eq)]
pub enum Until {
    /// The last one of the logs.
    Last,
    /// The last one up to this zxid.
    Zxid(i64),
    /// The last one, in order of zxid, with this time or an earlier one, in milliseconds since 1970.
    Time(i64),
}

/// A command that reads a data directory.
#[derive(Clone, Copy, Debug, PartialEq, Eq)]
pub enum FolderOrder {
    /// Lists the snapshots and logs.
    Files,
    /// Lists the transactions.
    List,
    /// Shows the tree after a transaction.
    Show { until: Until },
}

/// A command with its directories, by their names on the command line.
#[derive(Clone, Copy, Debug)]
pub struct FolderJob<'a> {
    pub order: FolderOrder,
    /// The data directory, or its `version-2`.
    pub folder: &'a str,
    /// The directory of the logs, if it is another.
    pub logs: Option<&'a str>,
}

/// The job on a data directory that words name.
#[tactic(auto, using(crate::proofs::FolderLaws::named_folder))]
pub(crate) fn folder_job_of<'a>(
    alloc: Global,
    words: &[&'a str],
) -> Result<Option<FolderJob<'a>>, NoMemory>
    ensures { IfOk result (λ read. ReadsFolder (map (λ word. word.now) words.now) read) }
{
    let [_, name, rest @ ..] = words else {
        return Ok(None);
    };
    folder_job_behind(alloc, name, rest)
}

/// The job of a command's name and all words after it.
#[tactic(auto, using(crate::proofs::FolderLaws::plain_folder, crate::proofs::FolderLaws::folder_with_logs))]
fn folder_job_behind<'a>(
    alloc: Global,
    name: &str,
    words: &[&'a str],
) -> Result<Option<FolderJob<'a>>, NoMemory>
    ensures { IfOk result (λ read. ReadsFolderBehind name.now (map (λ word. word.now) words.now) read) }
{
    match option_in(alloc, "--logs", "--logs=", words)? {
        None => folder_job_given(alloc, name, words, None),
        Some(found) => { folder_job_given(alloc, name, found.others.as_slice(), Some(found.value)) }
    }
}

/// The job of a command's name and words without `--logs`, with this directory of logs.
#[tactic(auto, using(crate::proofs::FolderLaws::of_values))]
fn folder_job_given<'a>(
    alloc: Global,
    name: &str,
    words: &[&'a str],
    logs: Option<&'a str>,
) -> Result<Option<FolderJob<'a>>, NoMemory>
    ensures { IfOk result (λ read. ReadsFolderGiven name.now (values_of (map (λ word. word.now) words.now)) (option_map (λ logs. logs.now) logs.entry) read) }
{
    match values_of(alloc, words)? {
        Some(values) => folder_job_by(alloc, name, values.as_slice(), logs),
        None => Ok(None),
    }
}

/// The job of a command's name and its values, with this directory of logs.
fn folder_job_by<'a>(
    alloc: Global,
    name: &str,
    values: &[&'a str],
    logs: Option<&'a str>,
) -> Result<Option<FolderJob<'a>>, NoMemory>
    ensures { IfOk result (λ read. ReadsFolderBy name.now (map (λ value. value.now) values.now) (option_map (λ logs. logs.now) logs.entry) read) }
{
    if name == "files" {
        return Ok(files_job(values, logs));
    }
    if name == "list" {
        return Ok(list_job(values, logs));
    }
    if name != "show" {
        return Ok(None);
    }
    show_job(alloc, values, logs)
}

/// The job of the values after `files`.
#[tactic(auto, using(crate::proofs::UntilLaws::no_files))]
fn files_job<'a>(values: &[&'a str], logs: Option<&'a str>) -> Option<FolderJob<'a>>
    ensures { ReadsFolderBy (codes "files") (map (λ value. value.now) values.now) (option_map (λ logs. logs.now) logs.entry) result }
{
    let folder = only(values)?;
    Some(FolderJob {
        order: FolderOrder::Files,
        folder,
        logs,
    })
}

/// The job of the values after `list`. Without `--logs` the value may name a log.
#[tactic(auto, using(crate::proofs::UntilLaws::no_list, crate::proofs::UntilLaws::no_logs))]
fn list_job<'a>(values: &[&'a str], logs: Option<&'a str>) -> Option<FolderJob<'a>>
    ensures { ReadsFolderBy (codes "list") (map (λ value. value.now) values.now) (option_map (λ logs. logs.now) logs.entry) result }
{
    let folder = only(values)?;
    let logs = logs?;
    Some(FolderJob {
        order: FolderOrder::List,
        folder,
        logs: Some(logs),
    })
}

/// The job of the values after `show`. Without `--logs` and a time the first may name a log.
#[tactic(auto, using(crate::proofs::UntilLaws::no_two, crate::proofs::UntilLaws::no_until, crate::proofs::UntilLaws::shown))]
fn show_job<'a>(
    alloc: Global,
    values: &[&'a str],
    logs: Option<&'a str>,
) -> Result<Option<FolderJob<'a>>, NoMemory>
    ensures { IfOk result (λ read. ReadsFolderBy (codes "show") (map (λ value. value.now) values.now) (option_map (λ logs. logs.now) logs.entry) read) }
{
    let Some((folder, word)) = only_two(values) else {
        return Ok(None);
    };
    let Some(until) = read_until(alloc, word)? else {
        return Ok(None);
    };
    Ok(shown_in(folder, until, logs))
}

/// The job that shows a directory, if it needs one.
fn shown_in<'a>(folder: &'a str, until: Until, logs: Option<&'a str>) -> Option<FolderJob<'a>>
    ensures { IsShownIn folder.now until (option_map (λ logs. logs.now) logs.entry) result }
{
    if !needs_directory(until, logs) {
        return None;
    }
    Some(FolderJob {
        order: FolderOrder::Show { until },
        folder,
        logs,
    })
}

/// Whether only a directory is shown up to this transaction, or with this directory of logs.
fn needs_directory(until: Until, logs: Option<&str>) -> bool
    ensures { IsTrue result ↔ NeedsDirectory until (option_map (λ logs. logs.now) logs.entry) }
{
    match until {
        Until::Time(_) => true,
        Until::Last => logs.is_some(),
        Until::Zxid(_) => logs.is_some(),
    }
}

/// The last transaction of a tree, by a word; `None` for a word that names none.
#[tactic(auto, using(crate::proofs::UntilLaws::reads_padded))]
pub(crate) fn read_until(alloc: Global, word: &str) -> Result<Option<Until>, NoMemory>
    ensures { IfOk result (λ read. ReadsUntil word.now read) }
{
    let plain = padded(alloc, word)?;
    read_plain(alloc, plain.as_str())
}

#[tactic(auto, using(crate::proofs::UntilLaws::reads_upto, crate::proofs::UntilLaws::reads_time, crate::proofs::UntilLaws::reads_none))]
fn read_plain(alloc: Global, word: &str) -> Result<Option<Until>, NoMemory>
    ensures { IfOk result (λ read. ReadsPlain word.now read) }
{
    if let Some(upto) = read_upto(alloc, word)? {
        return Ok(Some(until_of(upto)));
    }
    match read_moment(alloc, word)? {
        Some(time) => Ok(Some(Until::Time(time))),
        None => Ok(None),
    }
}

/// The last transaction of a tree, by the zxid of a job on a log.
fn until_of(upto: Option<i64>) -> Until
    ensures { result ≡ until_of upto }
{
    match upto {
        None => Until::Last,
        Some(zxid) => Until::Zxid(zxid),
    }
}

/// The job on a directory, for a job whose input is one; `None` if its command reads none.
pub fn folder_job_from<'a>(job: &Job<'a>) -> Option<FolderJob<'a>>
    ensures order { option_map (λ it. it.order) result ≡ folder_order_of job.now.order }
    ensures folder { IfSome result (λ it. (it.folder.now ≡ job.now.input.now) × (it.logs ≡ None)) }
{
    let order = folder_order_of(&job.order)?;
    Some(FolderJob {
        order,
        folder: job.input,
        logs: None,
    })
}

fn folder_order_of(order: &Order) -> Option<FolderOrder>
    ensures { result ≡ folder_order_of order.now }
{
    match order {
        Order::Show { upto } => Some(FolderOrder::Show {
            until: until_of(*upto),
        }),
        Order::List => Some(FolderOrder::List),
        _ => None,
    }
}
