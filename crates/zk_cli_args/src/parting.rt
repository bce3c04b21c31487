//! Options and flags, and the other words.
ghost use Rattle.std.specs.Prelude.{◌≡◌, IfOk, map};
ghost use Rattle.zk_cli_args.specs.Incidents.{flagged, parted};
ghost use Rattle.zk_cli_args.specs.Parting.{shown_flag, shown_option};

use crate::options::{flag_in, option_in};
use std::alloc::Global;
use zk_path::NoMemory;

/// The value of an option, if it is there, and the other words.
#[derive(Debug, Drop)]
pub(crate) struct PartedOption<'a> {
    pub(crate) value: Option<&'a str>,
    pub(crate) others: Vec<&'a str>,
}

/// Whether a flag is there, and the other words.
#[derive(Debug, Drop)]
pub(crate) struct PartedFlag<'a> {
    pub(crate) is_there: bool,
    pub(crate) others: Vec<&'a str>,
}

/// The value of an option, if it is there, and the other words.
pub(crate) fn part_option<'a>(
    alloc: Global,
    name: &str,
    prefix: &str,
    words: &[&'a str],
) -> Result<PartedOption<'a>, NoMemory>
    ensures { IfOk result (λ found. shown_option found ≡ parted name.now prefix.now (map (λ word. word.now) words.now)) }
{
    match option_in(alloc, name, prefix, words)? {
        Some(found) => Ok(PartedOption {
            value: Some(found.value),
            others: found.others,
        }),
        None => Ok(PartedOption {
            value: None,
            others: Vec::from_slice(alloc, words)?,
        }),
    }
}

/// Whether a flag is there, and the other words.
pub(crate) fn part_flag<'a>(
    alloc: Global,
    flag: &str,
    words: &[&'a str],
) -> Result<PartedFlag<'a>, NoMemory>
    ensures { IfOk result (λ found. shown_flag found ≡ flagged flag.now (map (λ word. word.now) words.now)) }
{
    match flag_in(alloc, flag, words)? {
        Some(others) => Ok(PartedFlag {
            is_there: true,
            others,
        }),
        None => Ok(PartedFlag {
            is_there: false,
            others: Vec::from_slice(alloc, words)?,
        }),
    }
}
