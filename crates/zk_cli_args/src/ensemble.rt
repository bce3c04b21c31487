ghost use Rattle.std.specs.Prelude.{IfOk, None, Some, map, option_map};
ghost use Rattle.zk_cli_args.specs.Ensembles.{ReadsBound, ReadsEnsemble, ReadsEnsembleBehind, ReadsEnsembleNamed, ReadsLimited, ReadsPlain, ReadsStored};

use crate::options::{flag_in, option_in};
use crate::serving::{Serving, number_within, serving_by};
use std::alloc::Global;
use zk_path::NoMemory;

/// The most connections of an ensemble's clients at once, if the words name no other number.
const MOST_CONNECTIONS: u32 = 1000;

/// An ensemble that serves ZooKeeper's clients.
#[derive(Clone, Copy, Debug)]
pub struct Ensemble<'a> {
    /// The port of server 1, the number of servers, and the most connections at once.
    pub serving: Serving,
    /// The address to listen on, as it was written; `None` for 127.0.0.1.
    pub bind: Option<&'a str>,
    /// The directory of the servers' data; `None` if these are in memory.
    pub directory: Option<&'a str>,
    /// Whether the end of standard input ends the ensemble.
    pub until_eof: bool,
}

/// The ensemble that words name.
pub(crate) fn ensemble_of<'a>(
    alloc: Global,
    words: &[&'a str],
) -> Result<Option<Ensemble<'a>>, NoMemory>
    ensures { IfOk result (λ read. ReadsEnsemble (map (λ word. word.now) words.now) read) }
{
    let [_, name, rest @ ..] = words else {
        return Ok(None);
    };
    ensemble_named(alloc, name, rest)
}

/// The ensemble that a command's name and the words after it name.
fn ensemble_named<'a>(
    alloc: Global,
    name: &str,
    words: &[&'a str],
) -> Result<Option<Ensemble<'a>>, NoMemory>
    ensures { IfOk result (λ read. ReadsEnsembleNamed name.now (map (λ word. word.now) words.now) read) }
{
    if name != "ensemble" {
        return Ok(None);
    }
    ensemble_behind(alloc, words)
}

/// The ensemble that the words after the command's name name.
#[tactic(auto, using(crate::proofs::EnsembleLaws::unstored, crate::proofs::EnsembleLaws::is_stored))]
fn ensemble_behind<'a>(alloc: Global, words: &[&'a str]) -> Result<Option<Ensemble<'a>>, NoMemory>
    ensures { IfOk result (λ read. ReadsEnsembleBehind (map (λ word. word.now) words.now) read) }
{
    match option_in(alloc, "--data", "--data=", words)? {
        Some(found) => stored_ensemble(alloc, found.value, found.others.as_slice()),
        None => address_ensemble(alloc, words),
    }
}

/// The ensemble with its data in a directory that words without the directory name.
#[tactic(auto, using(crate::proofs::EnsembleLaws::has_data, crate::proofs::EnsembleLaws::has_no_address))]
fn stored_ensemble<'a>(
    alloc: Global,
    directory: &'a str,
    words: &[&'a str],
) -> Result<Option<Ensemble<'a>>, NoMemory>
    ensures { IfOk result (λ read. ReadsStored (Some directory.now) (map (λ word. word.now) words.now) read) }
{
    match address_ensemble(alloc, words)? {
        Some(ensemble) => Ok(Some(Ensemble {
            serving: ensemble.serving,
            bind: ensemble.bind,
            directory: Some(directory),
            until_eof: ensemble.until_eof,
        })),
        None => Ok(None),
    }
}

/// The ensemble with its data in memory that words name.
#[tactic(auto, using(crate::proofs::EnsembleLaws::unbound, crate::proofs::EnsembleLaws::is_bound))]
fn address_ensemble<'a>(alloc: Global, words: &[&'a str]) -> Result<Option<Ensemble<'a>>, NoMemory>
    ensures { IfOk result (λ read. ReadsStored None (map (λ word. word.now) words.now) read) }
{
    match option_in(alloc, "--bind", "--bind=", words)? {
        Some(found) => bound_ensemble(alloc, Some(found.value), found.others.as_slice()),
        None => bound_ensemble(alloc, None, words),
    }
}

/// The ensemble at an address that words without the address name.
#[tactic(auto, using(crate::proofs::EnsembleLaws::unlimited, crate::proofs::EnsembleLaws::is_limited, crate::proofs::EnsembleLaws::has_no_limit))]
fn bound_ensemble<'a>(
    alloc: Global,
    bind: Option<&'a str>,
    words: &[&'a str],
) -> Result<Option<Ensemble<'a>>, NoMemory>
    ensures { IfOk result (λ read. ReadsBound (option_map (λ word. word.now) bind.entry) (map (λ word. word.now) words.now) read) }
{
    let Some(found) = option_in(alloc, "--max-connections", "--max-connections=", words)? else {
        return limited_ensemble(alloc, bind, MOST_CONNECTIONS, words);
    };
    match number_within(found.value, 1, u32::MAX) {
        Some(most) => limited_ensemble(alloc, bind, most, found.others.as_slice()),
        None => Ok(None),
    }
}

/// The ensemble with an address and a limit that words without these name.
#[tactic(auto, using(crate::proofs::EnsembleLaws::unflagged, crate::proofs::EnsembleLaws::is_flagged))]
fn limited_ensemble<'a>(
    alloc: Global,
    bind: Option<&'a str>,
    most: u32,
    words: &[&'a str],
) -> Result<Option<Ensemble<'a>>, NoMemory>
    ensures { IfOk result (λ read. ReadsLimited (option_map (λ word. word.now) bind.entry) most (map (λ word. word.now) words.now) read) }
{
    match flag_in(alloc, "--until-eof", words)? {
        Some(others) => plain_ensemble(alloc, bind, most, true, others.as_slice()),
        None => plain_ensemble(alloc, bind, most, false, words),
    }
}

/// The ensemble with these options that words without options name.
#[tactic(auto, using(crate::proofs::EnsembleLaws::is_plain, crate::proofs::EnsembleLaws::has_no_servers))]
fn plain_ensemble<'a>(
    alloc: Global,
    bind: Option<&'a str>,
    most: u32,
    until_eof: bool,
    words: &[&str],
) -> Result<Option<Ensemble<'a>>, NoMemory>
    ensures { IfOk result (λ read. ReadsPlain (option_map (λ word. word.now) bind.entry) most until_eof (map (λ word. word.now) words.now) read) }
{
    match serving_by(alloc, words, 1, most)? {
        Some(serving) => Ok(Some(Ensemble {
            serving,
            bind,
            directory: None,
            until_eof,
        })),
        None => Ok(None),
    }
}
