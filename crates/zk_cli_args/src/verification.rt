ghost use Rattle.std.specs.Prelude.{◌≡◌, Some, IfOk, map, option_map};
ghost use Rattle.zk_cli_args.specs.Verifying.{verify_after, verify_by, verify_of, words_of_verify};

use crate::command::values_of;
use crate::parting::part_option;
use std::alloc::Global;
use zk_path::NoMemory;

/// A data directory to verify.
#[derive(Clone, Copy, Debug)]
pub struct VerifyJob<'a> {
    /// The data directory, or its `version-2`.
    pub folder: &'a str,
    /// The directory of the logs, if it is another.
    pub logs: Option<&'a str>,
}

/// The verification that words name.
pub(crate) fn verify_of<'a>(
    alloc: Global,
    words: &[&'a str],
) -> Result<Option<VerifyJob<'a>>, NoMemory>
    ensures { IfOk result (λ read. option_map words_of_verify read ≡ verify_of (map (λ word. word.now) words.now)) }
{
    let [_, name, rest @ ..] = words else {
        return Ok(None);
    };
    if *name != "verify" {
        return Ok(None);
    }
    verify_after(alloc, rest)
}

/// The verification that the words after the command's name name.
fn verify_after<'a>(alloc: Global, words: &[&'a str]) -> Result<Option<VerifyJob<'a>>, NoMemory>
    ensures { IfOk result (λ read. option_map words_of_verify read ≡ verify_after (map (λ word. word.now) words.now)) }
{
    let logs = part_option(alloc, "--logs", "--logs=", words)?;
    let Some(values) = values_of(alloc, logs.others.as_slice())? else {
        return Ok(None);
    };
    Ok(verify_by(logs.value, values.as_slice()))
}

/// The verification with this option and these values.
fn verify_by<'a>(logs: Option<&'a str>, values: &[&'a str]) -> Option<VerifyJob<'a>>
    ensures { option_map words_of_verify result ≡ verify_by (option_map (λ logs. logs.now) logs.entry) (Some (map (λ value. value.now) values.now)) }
{
    let [folder] = values else {
        return None;
    };
    Some(VerifyJob { folder, logs })
}
