ghost use Rattle.std.specs.Prelude.{◌≡◌, Some, IfOk, map, option_map};
ghost use Rattle.zk_cli_args.specs.Comparing.{compare_after, compare_by, compare_of, words_of_compare};

use crate::command::values_of;
use crate::parting::part_option;
use std::alloc::Global;
use zk_path::NoMemory;

/// Two data directories to compare.
#[derive(Clone, Copy, Debug)]
pub struct CompareJob<'a> {
    /// A data directory, or its `version-2`.
    pub first: &'a str,
    /// The directory of its logs, if it is another.
    pub first_logs: Option<&'a str>,
    /// Another data directory.
    pub second: &'a str,
    /// The directory of its logs, if it is another.
    pub second_logs: Option<&'a str>,
}

/// The comparison that words name.
pub(crate) fn compare_of<'a>(
    alloc: Global,
    words: &[&'a str],
) -> Result<Option<CompareJob<'a>>, NoMemory>
    ensures { IfOk result (λ read. option_map words_of_compare read ≡ compare_of (map (λ word. word.now) words.now)) }
{
    let [_, name, rest @ ..] = words else {
        return Ok(None);
    };
    if *name != "compare" {
        return Ok(None);
    }
    compare_after(alloc, rest)
}

/// The comparison that the words after the command's name name.
fn compare_after<'a>(alloc: Global, words: &[&'a str]) -> Result<Option<CompareJob<'a>>, NoMemory>
    ensures { IfOk result (λ read. option_map words_of_compare read ≡ compare_after (map (λ word. word.now) words.now)) }
{
    let logs = part_option(alloc, "--logs", "--logs=", words)?;
    let others = part_option(alloc, "--logs2", "--logs2=", logs.others.as_slice())?;
    let Some(values) = values_of(alloc, others.others.as_slice())? else {
        return Ok(None);
    };
    Ok(compare_by(logs.value, others.value, values.as_slice()))
}

/// The comparison with these options and these values.
fn compare_by<'a>(
    logs: Option<&'a str>,
    others: Option<&'a str>,
    values: &[&'a str],
) -> Option<CompareJob<'a>>
    ensures { option_map words_of_compare result ≡ compare_by (option_map (λ logs. logs.now) logs.entry) (option_map (λ logs. logs.now) others.entry) (Some (map (λ value. value.now) values.now)) }
{
    let [first, second] = values else {
        return None;
    };
    Some(CompareJob {
        first,
        first_logs: logs,
        second,
        second_logs: others,
    })
}
