ghost use Rattle.std.specs.Prelude.{◌≡◌, Some, IfOk, map, option_map};
ghost use Rattle.zk_cli_args.specs.Snapshots.{ReadsSnapshot, ReadsSnapshotWords, snapshot_after, snapshot_by, snapshot_words, words_of_snapshot};

use crate::command::values_of;
use crate::folders::{Until, read_until};
use crate::parting::part_option;
use std::alloc::Global;
use zk_path::NoMemory;

/// A state of a data directory, to write its snapshot.
#[derive(Clone, Copy, Debug)]
pub struct SnapshotJob<'a> {
    /// The data directory, or its `version-2`.
    pub folder: &'a str,
    /// The directory of the logs, if it is another.
    pub logs: Option<&'a str>,
    /// The snapshot: a path, or `@` for standard output.
    pub output: &'a str,
    /// The last transaction of the state.
    pub at: Until,
}

/// The words of [`SnapshotJob`].
#[derive(Clone, Copy, Debug)]
pub(crate) struct SnapshotGiven<'a> {
    folder: &'a str,
    logs: Option<&'a str>,
    output: &'a str,
    at: &'a str,
}

/// The state that words name.
#[tactic(auto, using(crate::proofs::SnapshotLaws::given_snapshot, crate::proofs::SnapshotLaws::no_snapshot))]
pub(crate) fn snapshot_of<'a>(
    alloc: Global,
    words: &[&'a str],
) -> Result<Option<SnapshotJob<'a>>, NoMemory>
    ensures { IfOk result (λ read. ReadsSnapshot (map (λ word. word.now) words.now) read) }
{
    match snapshot_words(alloc, words)? {
        Some(given) => state_of(alloc, given),
        None => Ok(None),
    }
}

/// The words of a command line for a snapshot.
fn snapshot_words<'a>(
    alloc: Global,
    words: &[&'a str],
) -> Result<Option<SnapshotGiven<'a>>, NoMemory>
    ensures { IfOk result (λ read. option_map words_of_snapshot read ≡ snapshot_words (map (λ word. word.now) words.now)) }
{
    let [_, name, rest @ ..] = words else {
        return Ok(None);
    };
    if *name != "snapshot" {
        return Ok(None);
    }
    snapshot_after(alloc, rest)
}

/// The words after the command's name.
fn snapshot_after<'a>(
    alloc: Global,
    words: &[&'a str],
) -> Result<Option<SnapshotGiven<'a>>, NoMemory>
    ensures { IfOk result (λ read. option_map words_of_snapshot read ≡ snapshot_after (map (λ word. word.now) words.now)) }
{
    let logs = part_option(alloc, "--logs", "--logs=", words)?;
    let at = part_option(alloc, "--at", "--at=", logs.others.as_slice())?;
    let Some(values) = values_of(alloc, at.others.as_slice())? else {
        return Ok(None);
    };
    Ok(snapshot_by(logs.value, at.value, values.as_slice()))
}

/// The words of these options and values.
fn snapshot_by<'a>(
    logs: Option<&'a str>,
    at: Option<&'a str>,
    values: &[&'a str],
) -> Option<SnapshotGiven<'a>>
    ensures { option_map words_of_snapshot result ≡ snapshot_by (option_map (λ word. word.now) logs.entry) (option_map (λ word. word.now) at.entry) (Some (map (λ value. value.now) values.now)) }
{
    let [folder, output] = values else {
        return None;
    };
    let at = match at {
        Some(at) => at,
        None => "last",
    };
    Some(SnapshotGiven {
        folder,
        logs,
        output,
        at,
    })
}

/// The state that these words name.
#[tactic(auto, using(crate::proofs::SnapshotLaws::whole_snapshot, crate::proofs::SnapshotLaws::no_at))]
fn state_of<'a>(
    alloc: Global,
    given: SnapshotGiven<'a>,
) -> Result<Option<SnapshotJob<'a>>, NoMemory>
    ensures { IfOk result (λ read. ReadsSnapshotWords (words_of_snapshot given.entry) read) }
{
    let Some(at) = read_until(alloc, given.at)? else {
        return Ok(None);
    };
    Ok(Some(SnapshotJob {
        folder: given.folder,
        logs: given.logs,
        output: given.output,
        at,
    }))
}
