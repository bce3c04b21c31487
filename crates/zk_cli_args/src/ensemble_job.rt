ghost use Rattle.std.specs.Prelude.{IfOk, map};
ghost use Rattle.zk_cli_args.specs.Lines.{IsSeveral, ReadsRecorded, ReadsRecordedBy};

use crate::ensemble::{Ensemble, ensemble_of};
use crate::options::record_of;
use std::alloc::Global;
use zk_path::NoMemory;

/// An ensemble, and its record.
#[derive(Clone, Copy, Debug)]
pub struct EnsembleJob<'a> {
    pub ensemble: Ensemble<'a>,
    /// The file of the record of several servers; `None` without one.
    pub record: Option<&'a str>,
}

/// The ensemble of several servers that words with `--record` name.
#[tactic(auto, using(crate::proofs::LinesLaws::recorded, crate::proofs::LinesLaws::not_recorded))]
pub(crate) fn recorded_of<'a>(
    alloc: Global,
    words: &[&'a str],
) -> Result<Option<EnsembleJob<'a>>, NoMemory>
    ensures { IfOk result (λ read. ReadsRecorded (map (λ word. word.now) words.now) read) }
{
    match record_of(alloc, words)? {
        Some(found) => recorded_by(alloc, found.value, found.others.as_slice()),
        None => Ok(None),
    }
}

/// The ensemble of several servers that the other words name.
#[tactic(auto, using(crate::proofs::LinesLaws::of_several))]
fn recorded_by<'a>(
    alloc: Global,
    file: &'a str,
    words: &[&'a str],
) -> Result<Option<EnsembleJob<'a>>, NoMemory>
    ensures { IfOk result (λ read. ReadsRecordedBy file.now (map (λ word. word.now) words.now) read) }
{
    match ensemble_of(alloc, words)? {
        Some(ensemble) => Ok(several(file, ensemble)),
        None => Ok(None),
    }
}

/// The ensemble with its record; `None` if there is one server.
fn several<'a>(file: &'a str, ensemble: Ensemble<'a>) -> Option<EnsembleJob<'a>>
    ensures { IsSeveral file.now ensemble.entry result }
{
    if ensemble.serving.servers < 2 {
        return None;
    }
    Some(EnsembleJob {
        ensemble,
        record: Some(file),
    })
}
