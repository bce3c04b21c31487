//! `zk compare`.
ghost use Rattle.std.specs.Prelude.{◌≡◌, ◌-◌, ◌<◌, ◌^◌, ◌++◌, IfErr, IfOk, map};
ghost use Rattle.std.specs.String.{string_bytes};
ghost use Rattle.zk_comparison.specs.Lines.{AreLines, IsFindingText};
ghost use Rattle.zk_comparison.specs.Objects.{IsFindingLine};
ghost use Rattle.zk_comparison.specs.Reports.{AreLogsOf, AreNoticesOf, FindsComparison, FindsLoaded, FindsOfLogs, FindsSurvey, IsComparison, Keeps, OutputsReport, Puts, TellsComparison, difference_by, end_in, fault_by, fault_of, findings_in, second_history};
ghost use Rattle.zk_comparison.specs.Sources.{source_of};
ghost use Rattle.zk_directory.specs.Chains.{told};
ghost use Rattle.zk_records.specs.Sinks.{write_failures_of};
ghost use Rattle.zk_verification.specs.Surveys.{surveyed_by};

use crate::finding::{Directory, Finding, disagree, findings_of};
use crate::judgement::{judge, limits_of};
use crate::lines::findings_text;
use crate::loss::losses_of;
use crate::notices::push_notices;
use crate::objects::findings_objects;
use crate::trees::{Trees, compare_trees_at};
use std::alloc::Global;
use std::io::Write;
use zk_directory::LogEntry;
use zk_directory_state::{
    Folder, HistoryFault, logs_in, put_with_notices, snapshots_in, tell_fault,
};
use zk_log::Sink;
use zk_path::NoMemory;
use zk_verification::{LogBytes, Mark, Survey, load_logs, survey_logs};

/// What is said of two directories, and on what the answer does not cover.
#[derive(Debug, Drop)]
pub(crate) struct Report {
    pub findings: Vec<Finding>,
    pub notices: String,
    /// The last zxid of the range in common.
    pub end: Option<i64>,
}

/// The logs of a directory. The first folder has the snapshots, and may be the same.
#[tactic(auto, using(crate::proofs::Reported::no_files, crate::proofs::Reported::snapshots_unlisted, crate::proofs::Reported::logs_unlisted, crate::proofs::Reported::unlisted))]
fn load<S: Folder, L: Folder>(
    alloc: Global,
    snapshots: &S,
    logs: &L,
) -> Result<Vec<LogBytes>, HistoryFault>
    ensures loaded { IfOk result (λ loaded. AreLogsOf (source_of (S.names_in snapshots.now) (S.bytes_in snapshots.now) (L.names_in logs.now) (L.bytes_in logs.now)) loaded.items) }
    ensures none { IfErr result (λ fault. Keeps (source_of (S.names_in snapshots.now) (S.bytes_in snapshots.now) (L.names_in logs.now) (L.bytes_in logs.now)) fault) }
{
    let held = snapshots_in(alloc, snapshots)?;
    let logged = logs_in(alloc, logs)?;
    if held.is_empty() && logged.is_empty() {
        return Err(HistoryFault::Empty);
    }
    Ok(load_logs(alloc, logs, logged.as_slice())?)
}

/// The fault of logs that hold two histories.
fn second_history(marks: &[Mark]) -> Option<HistoryFault>
    ensures { result ≡ second_history marks.now }
{
    let mut rest = marks;
    while let [mark, more @ ..] = rest {
        if let Some(fault) = difference_by(mark) {
            return Some(fault);
        }
        rest = more;
    }
    None
}

/// The fault of an entry that differs from an earlier one of its zxid.
fn difference_by(mark: &Mark) -> Option<HistoryFault>
    ensures { result ≡ difference_by mark.now }
{
    match mark {
        Mark::Wrong(HistoryFault::Differs { log, at }) => {
            Some(HistoryFault::Differs { log: *log, at: *at })
        }
        _ => None,
    }
}

fn fault_by(fault: Option<HistoryFault>, taken: &[LogEntry<'_>]) -> Option<HistoryFault>
    ensures { result ≡ fault_by fault (map told taken.now) }
{
    match (fault, taken) {
        (Some(fault), _) => Some(fault),
        (None, []) => Some(HistoryFault::NoTransaction),
        (None, [_, ..]) => None,
    }
}

/// Why a directory is not compared.
fn fault_of(survey: &Survey<'_>) -> Option<HistoryFault>
    ensures { result ≡ fault_of (surveyed_by survey.now) }
{
    fault_by(second_history(survey.marks.as_slice()), survey.entries())
}

/// The entries of logs, joined, and what is said of the logs.
#[tactic(auto, using(crate::proofs::Reported::found))]
fn survey_of(alloc: Global, logs: &[LogBytes]) -> Result<Survey<'_>, HistoryFault>
    ensures { FindsSurvey logs.now result }
{
    let survey = survey_logs(alloc, logs)?;
    match fault_of(&survey) {
        Some(fault) => Err(fault),
        None => Ok(survey),
    }
}

fn findings_in(
    alloc: Global,
    first: &Survey<'_>,
    second: &Survey<'_>,
) -> Result<Vec<Finding>, NoMemory>
    ensures { IfOk result (λ findings. findings.items ≡ findings_in (surveyed_by first.now) (surveyed_by second.now)) }
{
    let losses = losses_of(alloc, first.marks.as_slice())?;
    let others = losses_of(alloc, second.marks.as_slice())?;
    let judged = judge(
        alloc,
        first.entries(),
        second.entries(),
        losses.as_slice(),
        others.as_slice(),
    )?;
    findings_of(alloc, judged.as_slice())
}

/// The notices on both directories.
#[tactic(auto, using(crate::proofs::Reported::both_noticed))]
fn notices_of(alloc: Global, first: &[Mark], second: &[Mark]) -> Result<String, NoMemory>
    ensures { IfOk result (λ notices. AreNoticesOf first.now second.now (string_bytes notices)) }
{
    let mut notices = String::new(alloc);
    push_notices(&mut notices, Directory::First, first)?;
    push_notices(&mut notices, Directory::Second, second)?;
    Ok(notices)
}

fn compare_surveys(
    alloc: Global,
    first: &Survey<'_>,
    second: &Survey<'_>,
) -> Result<Report, NoMemory>
    ensures is { IfOk result (λ compared. IsComparison (surveyed_by first.now) (surveyed_by second.now) compared.findings.items (string_bytes compared.notices)) }
    ensures end { IfOk result (λ compared. compared.end ≡ end_in (surveyed_by first.now) (surveyed_by second.now)) }
{
    let findings = findings_in(alloc, first, second)?;
    let notices = notices_of(alloc, first.marks.as_slice(), second.marks.as_slice())?;
    let end = limits_of(first.entries(), second.entries()).end;
    Ok(Report {
        findings,
        notices,
        end,
    })
}

#[tactic(auto, using(crate::proofs::Reported::first_fails, crate::proofs::Reported::second_fails, crate::proofs::Reported::both_compared))]
fn compare_loaded(
    alloc: Global,
    first: &[LogBytes],
    second: &[LogBytes],
) -> Result<Report, HistoryFault>
    ensures { FindsLoaded first.now second.now result }
{
    let ours = survey_of(alloc, first)?;
    let theirs = survey_of(alloc, second)?;
    Ok(compare_surveys(alloc, &ours, &theirs)?)
}

/// Compares the transactions of two directories.
#[tactic(auto, using(crate::proofs::Reported::compared_in))]
fn compare_logs<A: Folder, B: Folder, C: Folder, D: Folder>(
    alloc: Global,
    first: &A,
    first_logs: &B,
    second: &C,
    second_logs: &D,
) -> Result<Report, HistoryFault>
    ensures { FindsOfLogs (source_of (A.names_in first.now) (A.bytes_in first.now) (B.names_in first_logs.now) (B.bytes_in first_logs.now))
        (source_of (C.names_in second.now) (C.bytes_in second.now) (D.names_in second_logs.now) (D.bytes_in second_logs.now)) result }
{
    let ours = load(alloc, first, first_logs)?;
    let theirs = load(alloc, second, second_logs)?;
    compare_loaded(alloc, ours.as_slice(), theirs.as_slice())
}

/// Adds what is said of the trees.
fn with_trees(mut compared: Report, mut trees: Trees) -> Result<Report, NoMemory>
    ensures findings { IfOk result (λ report. report.findings.items ≡ compared.findings.items ++ trees.findings.items) }
    ensures notices { IfOk result (λ report. string_bytes report.notices ≡ string_bytes compared.notices ++ string_bytes trees.notices) }
{
    compared.findings.append(&mut trees.findings)?;
    compared.notices.push_str(trees.notices.as_str())?;
    Ok(compared)
}

/// Compares two directories: their transactions, and their trees after the last one of the range in
/// common. Of each the first folder has the snapshots, and the second one the logs; they may be the
/// same.
///
/// Fails with
/// - [`HistoryFault::Empty`] if a directory has no snapshot and no log;
/// - [`HistoryFault::NoTransaction`] if its logs have no transaction;
/// - [`HistoryFault::Differs`] if they hold two histories;
/// - [`HistoryFault::Read`] if the names of a folder cannot be read;
/// - [`HistoryFault::Unreadable`] if a file cannot be read that a tree there rests on.
#[tactic(auto, using(crate::proofs::Reported::reported, crate::proofs::Reported::logs_kept, crate::proofs::Reported::trees_unseen, crate::proofs::Reported::no_memory))]
pub(crate) fn compare_directories<A: Folder, B: Folder, C: Folder, D: Folder>(
    alloc: Global,
    first: &A,
    first_logs: &B,
    second: &C,
    second_logs: &D,
) -> Result<Report, HistoryFault>
    ensures { FindsComparison (source_of (A.names_in first.now) (A.bytes_in first.now) (B.names_in first_logs.now) (B.bytes_in first_logs.now))
        (source_of (C.names_in second.now) (C.bytes_in second.now) (D.names_in second_logs.now) (D.bytes_in second_logs.now)) result }
{
    let compared = compare_logs(alloc, first, first_logs, second, second_logs)?;
    let trees = compare_trees_at(alloc, first, first_logs, second, second_logs, compared.end)?;
    Ok(with_trees(compared, trees)?)
}

/// Writes the text of findings, and the notices. Returns the exit status.
fn put_findings<O: Write, E: Write>(
    text: &str,
    compared: &Report,
    output: &mut Sink<O>,
    faults: &mut Sink<E>,
) -> u8
    requires output { write_failures_of output.old < 2 ^ 64 - 1 }
    requires faults { write_failures_of faults.old < 2 ^ 64 - 1 }
    ensures { Puts O.contents E.contents text.now compared.now output.old output.new faults.old faults.new result }
{
    let status = put_with_notices(text, compared.notices.as_str(), output, faults);
    if disagree(compared.findings.as_slice()) {
        1
    } else {
        status
    }
}

/// Writes a line for each finding. Returns the exit status.
fn put_lines<O: Write, E: Write>(
    alloc: Global,
    compared: &Report,
    output: &mut Sink<O>,
    faults: &mut Sink<E>,
) -> Result<u8, NoMemory>
    requires output { write_failures_of output.old < 2 ^ 64 - 1 }
    requires faults { write_failures_of faults.old < 2 ^ 64 - 1 }
    ensures { OutputsReport (AreLines IsFindingText) O.contents E.contents compared.now output.old output.new faults.old faults.new result }
{
    let text = findings_text(alloc, compared.findings.as_slice())?;
    Ok(put_findings(text.as_str(), compared, output, faults))
}

/// Writes an object for each finding. Returns the exit status.
fn put_objects<O: Write, E: Write>(
    alloc: Global,
    compared: &Report,
    output: &mut Sink<O>,
    faults: &mut Sink<E>,
) -> Result<u8, NoMemory>
    requires output { write_failures_of output.old < 2 ^ 64 - 1 }
    requires faults { write_failures_of faults.old < 2 ^ 64 - 1 }
    ensures { OutputsReport (AreLines IsFindingLine) O.contents E.contents compared.now output.old output.new faults.old faults.new result }
{
    let text = findings_objects(alloc, compared.findings.as_slice())?;
    Ok(put_findings(text.as_str(), compared, output, faults))
}

/// Writes what two directories have in common, where they differ, which of them begins or ends first,
/// and where their trees differ after the last transaction in common; and notices on what a directory
/// lost. Returns the exit status: 1 if a transaction or a node differs, or if both have no transaction
/// in common.
pub fn compare<A: Folder, B: Folder, C: Folder, D: Folder, O: Write, E: Write>(
    alloc: Global,
    first: &A,
    first_logs: &B,
    second: &C,
    second_logs: &D,
    output: &mut Sink<O>,
    faults: &mut Sink<E>,
) -> Result<u8, NoMemory>
    requires output { write_failures_of output.old < 2 ^ 64 - 1 }
    requires faults { write_failures_of faults.old < 2 ^ 64 - 1 }
    ensures { TellsComparison (AreLines IsFindingText) O.contents E.contents
        (source_of (A.names_in first.now) (A.bytes_in first.now) (B.names_in first_logs.now) (B.bytes_in first_logs.now))
        (source_of (C.names_in second.now) (C.bytes_in second.now) (D.names_in second_logs.now) (D.bytes_in second_logs.now)) output.old output.new faults.old faults.new result }
{
    match compare_directories(alloc, first, first_logs, second, second_logs) {
        Ok(compared) => put_lines(alloc, &compared, output, faults),
        Err(fault) => tell_fault(alloc, &fault, faults),
    }
}

/// The same, with an object of JSON for each line of the output.
pub fn compare_json<A: Folder, B: Folder, C: Folder, D: Folder, O: Write, E: Write>(
    alloc: Global,
    first: &A,
    first_logs: &B,
    second: &C,
    second_logs: &D,
    output: &mut Sink<O>,
    faults: &mut Sink<E>,
) -> Result<u8, NoMemory>
    requires output { write_failures_of output.old < 2 ^ 64 - 1 }
    requires faults { write_failures_of faults.old < 2 ^ 64 - 1 }
    ensures { TellsComparison (AreLines IsFindingLine) O.contents E.contents
        (source_of (A.names_in first.now) (A.bytes_in first.now) (B.names_in first_logs.now) (B.bytes_in first_logs.now))
        (source_of (C.names_in second.now) (C.bytes_in second.now) (D.names_in second_logs.now) (D.bytes_in second_logs.now)) output.old output.new faults.old faults.new result }
{
    match compare_directories(alloc, first, first_logs, second, second_logs) {
        Ok(compared) => put_objects(alloc, &compared, output, faults),
        Err(fault) => tell_fault(alloc, &fault, faults),
    }
}
