//! `zk compare` of two or more directories.
ghost use Rattle.std.specs.Prelude.{◌≡◌, ◌-◌, ◌<◌, ◌^◌, ◌++◌, ◌||◌, Err, IfOk, Ok, OnOk, codes, map};
ghost use Rattle.std.specs.String.{string_bytes};
ghost use Rattle.zk_comparison.specs.Reports.{TellsComparison};
ghost use Rattle.zk_comparison.specs.Sources.{named_by};
ghost use Rattle.zk_comparison.specs.Several.{AppendsPair, AreFindingsIn, AreReports, IsPairReport, IsReportBy, IsReportWith, IsToldLine, OutputsReports, PutsBy, TellsReports, pair_fields, pair_text, with_pair};
ghost use Rattle.zk_directory_state.specs.FaultLines.{fault_line};
ghost use Rattle.zk_json.specs.Json.{AppendsLineOf, object_of};
ghost use Rattle.zk_records.specs.Sinks.{write_failures_of};

use crate::compared_directory::ComparedDirectory;
use crate::comparison::{Report, compare, compare_directories, compare_json};
use crate::finding::{Finding, disagree};
use crate::lines::findings_text;
use crate::objects::findings_objects;
use crate::report_form::ReportForm;
use std::alloc::Global;
use std::io::Write;
use zk_directory_state::{Folder, HistoryFault, fault_line, put_with_notices};
use zk_format::push_quoted;
use zk_json::{Value, push_object_line};
use zk_log::Sink;
use zk_path::NoMemory;

/// What is said of the first directory and some of the others.
#[derive(Drop)]
struct PairReport {
    text: String,
    notices: String,
    /// Whether two directories differ, or one cannot be compared.
    differ: bool,
}

/// Appends the line of the two directories that a report is about.
#[tactic(auto, unfolding(crate::specs::Several::pair_text))]
fn push_pair_text(text: &mut String, first: &str, second: &str) -> Result<(), NoMemory>
    ensures { OnOk result (string_bytes text.new ≡ string_bytes text.old ++ pair_text first.now second.now) }
{
    text.push_str("compare ")?;
    push_quoted(text, first)?;
    text.push_str(" ")?;
    push_quoted(text, second)?;
    text.push_str("\n")?;
    Ok(())
}

/// Appends the object of that line.
fn push_pair_object<'a>(text: &mut String, first: &'a str, second: &'a str) -> Result<(), NoMemory>
    ensures { OnOk result (AppendsLineOf (object_of (pair_fields first.now second.now)) (string_bytes text.old) (string_bytes text.new)) }
{
    let fields = [
        ("kind", Value::Text("compare")),
        ("first", Value::Text(first)),
        ("second", Value::Text(second)),
    ];
    push_object_line(text, &fields)
}

#[tactic(auto, using(crate::proofs::AllReported::pair_appended))]
fn push_pair(text: &mut String, form: ReportForm, first: &str, second: &str) -> Result<(), NoMemory>
    ensures { OnOk result (AppendsPair form first.now second.now (string_bytes text.old) (string_bytes text.new)) }
{
    match form {
        ReportForm::Lines => push_pair_text(text, first, second),
        ReportForm::Objects => push_pair_object(text, first, second),
    }
}

fn findings_in(alloc: Global, form: ReportForm, findings: &[Finding]) -> Result<String, NoMemory>
    ensures { IfOk result (λ text. AreFindingsIn form findings.now (string_bytes text)) }
{
    match form {
        ReportForm::Lines => findings_text(alloc, findings),
        ReportForm::Objects => findings_objects(alloc, findings),
    }
}

/// Notices after the line of the two directories, if there are any.
fn with_pair(alloc: Global, first: &str, second: &str, notices: &str) -> Result<String, NoMemory>
    ensures { IfOk result (λ text. string_bytes text ≡ with_pair first.now second.now notices.now) }
{
    if notices.is_empty() {
        return Ok(String::new(alloc));
    }
    after_pair(alloc, first, second, notices)
}

fn after_pair(alloc: Global, first: &str, second: &str, notices: &str) -> Result<String, NoMemory>
    ensures { IfOk result (λ text. string_bytes text ≡ codes "zk: " ++ pair_text first.now second.now ++ notices.now) }
{
    let mut text = String::from_str(alloc, "zk: ")?;
    push_pair_text(&mut text, first, second)?;
    text.push_str(notices)?;
    Ok(text)
}

/// The line of the two directories, and this text after it.
#[tactic(auto, using(crate::proofs::AllReported::both_after))]
fn report_with(
    alloc: Global,
    form: ReportForm,
    first: &str,
    second: &str,
    body: &str,
    noted: &str,
    differ: bool,
) -> Result<PairReport, NoMemory>
    ensures with { IfOk result (λ report. IsReportWith form first.now second.now body.now noted.now (string_bytes report.text) (string_bytes report.notices)) }
    ensures differ { IfOk result (λ report. report.differ ≡ differ) }
{
    let mut text = String::new(alloc);
    push_pair(&mut text, form, first, second)?;
    text.push_str(body)?;
    let notices = with_pair(alloc, first, second, noted)?;
    Ok(PairReport {
        text,
        notices,
        differ,
    })
}

/// What is said of two directories that were compared.
#[tactic(auto, using(crate::proofs::AllReported::report_found))]
fn report_of(
    alloc: Global,
    form: ReportForm,
    first: &str,
    second: &str,
    compared: &Report,
) -> Result<PairReport, NoMemory>
    ensures { IfOk result (λ report. IsReportBy form first.now second.now (Ok compared.now) (string_bytes report.text) (string_bytes report.notices) report.differ) }
{
    let body = findings_in(alloc, form, compared.findings.as_slice())?;
    let differ = disagree(compared.findings.as_slice());
    report_with(
        alloc,
        form,
        first,
        second,
        body.as_str(),
        compared.notices.as_str(),
        differ,
    )
}

/// The line of the fault that keeps a directory from being compared.
fn told_line(alloc: Global, fault: &HistoryFault) -> Result<String, NoMemory>
    ensures { IfOk result (λ line. IsToldLine fault.now (string_bytes line)) }
{
    if let HistoryFault::NoMemory = fault {
        return Err(NoMemory);
    }
    fault_line(alloc, fault)
}

/// What is said of two directories of which one cannot be compared.
#[tactic(auto, using(crate::proofs::AllReported::report_missed))]
fn report_without(
    alloc: Global,
    form: ReportForm,
    first: &str,
    second: &str,
    fault: &HistoryFault,
) -> Result<PairReport, NoMemory>
    ensures { IfOk result (λ report. IsReportBy form first.now second.now (Err fault.now) (string_bytes report.text) (string_bytes report.notices) report.differ) }
{
    let line = told_line(alloc, fault)?;
    report_with(alloc, form, first, second, "", line.as_str(), true)
}

/// What is said of two directories.
#[tactic(auto, using(crate::proofs::AllReported::pair_reported))]
fn report_of_pair<S: Folder, L: Folder>(
    alloc: Global,
    form: ReportForm,
    first: &ComparedDirectory<'_, S, L>,
    second: &ComparedDirectory<'_, S, L>,
) -> Result<PairReport, NoMemory>
    ensures { IfOk result (λ report. IsPairReport form (named_by S.names_in S.bytes_in L.names_in L.bytes_in first.now) (named_by S.names_in S.bytes_in L.names_in L.bytes_in second.now)
        (string_bytes report.text) (string_bytes report.notices) report.differ) }
{
    let answer = compare_directories(
        alloc,
        &first.snapshots,
        &first.logs,
        &second.snapshots,
        &second.logs,
    );
    match answer {
        Ok(compared) => report_of(alloc, form, first.name, second.name, &compared),
        Err(fault) => report_without(alloc, form, first.name, second.name, &fault),
    }
}

/// Appends a report.
fn add_report(all: &mut PairReport, report: &PairReport) -> Result<(), NoMemory>
    ensures text { OnOk result (string_bytes all.new.text ≡ string_bytes all.old.text ++ string_bytes report.now.text) }
    ensures notices { OnOk result (string_bytes all.new.notices ≡ string_bytes all.old.notices ++ string_bytes report.now.notices) }
    ensures differ { OnOk result (all.new.differ ≡ (all.old.differ || report.now.differ)) }
{
    all.text.push_str(report.text.as_str())?;
    all.notices.push_str(report.notices.as_str())?;
    all.differ = all.differ || report.differ;
    Ok(())
}

/// What is said of the first directory and each of the others.
fn reports_of<S: Folder, L: Folder>(
    alloc: Global,
    form: ReportForm,
    first: &ComparedDirectory<'_, S, L>,
    others: &[ComparedDirectory<'_, S, L>],
) -> Result<PairReport, NoMemory>
    ensures { IfOk result (λ all. AreReports form (named_by S.names_in S.bytes_in L.names_in L.bytes_in first.now) (map (named_by S.names_in S.bytes_in L.names_in L.bytes_in) others.now)
        (string_bytes all.text) (string_bytes all.notices) all.differ) }
{
    let mut all = PairReport {
        text: String::new(alloc),
        notices: String::new(alloc),
        differ: false,
    };
    for second in others {
        let report = report_of_pair(alloc, form, first, second)?;
        add_report(&mut all, &report)?;
    }
    Ok(all)
}

/// Writes reports, and their notices. Returns the exit status.
fn put_reports<O: Write, E: Write>(
    all: &PairReport,
    output: &mut Sink<O>,
    faults: &mut Sink<E>,
) -> u8
    requires output { write_failures_of output.old < 2 ^ 64 - 1 }
    requires faults { write_failures_of faults.old < 2 ^ 64 - 1 }
    ensures { PutsBy O.contents E.contents (string_bytes all.now.text) (string_bytes all.now.notices) all.now.differ output.old output.new faults.old faults.new result }
{
    let status = put_with_notices(all.text.as_str(), all.notices.as_str(), output, faults);
    if all.differ { 1 } else { status }
}

/// Writes a report of the first directory and each of the others, after a line with the two. Returns
/// the exit status.
#[tactic(auto, using(crate::proofs::AllReported::reports_put))]
fn compare_several<S: Folder, L: Folder, O: Write, E: Write>(
    alloc: Global,
    form: ReportForm,
    first: &ComparedDirectory<'_, S, L>,
    others: &[ComparedDirectory<'_, S, L>],
    output: &mut Sink<O>,
    faults: &mut Sink<E>,
) -> Result<u8, NoMemory>
    requires output { write_failures_of output.old < 2 ^ 64 - 1 }
    requires faults { write_failures_of faults.old < 2 ^ 64 - 1 }
    ensures { OutputsReports form O.contents E.contents (named_by S.names_in S.bytes_in L.names_in L.bytes_in first.now)
        (map (named_by S.names_in S.bytes_in L.names_in L.bytes_in) others.now) output.old output.new faults.old faults.new result }
{
    let all = reports_of(alloc, form, first, others)?;
    Ok(put_reports(&all, output, faults))
}

/// Writes the report of two directories alone. Returns the exit status.
fn compare_two<S: Folder, L: Folder, O: Write, E: Write>(
    alloc: Global,
    form: ReportForm,
    first: &ComparedDirectory<'_, S, L>,
    second: &ComparedDirectory<'_, S, L>,
    output: &mut Sink<O>,
    faults: &mut Sink<E>,
) -> Result<u8, NoMemory>
    requires output { write_failures_of output.old < 2 ^ 64 - 1 }
    requires faults { write_failures_of faults.old < 2 ^ 64 - 1 }
    ensures { TellsComparison (AreFindingsIn form) O.contents E.contents (named_by S.names_in S.bytes_in L.names_in L.bytes_in first.now).source
        (named_by S.names_in S.bytes_in L.names_in L.bytes_in second.now).source output.old output.new faults.old faults.new result }
{
    match form {
        ReportForm::Lines => compare(
            alloc,
            &first.snapshots,
            &first.logs,
            &second.snapshots,
            &second.logs,
            output,
            faults,
        ),
        ReportForm::Objects => compare_json(
            alloc,
            &first.snapshots,
            &first.logs,
            &second.snapshots,
            &second.logs,
            output,
            faults,
        ),
    }
}

/// Compares a directory with each of the others, and writes what [`compare`] writes of the two. Before
/// each report of several, and before its notices, comes a line with the names of the two. Returns the
/// exit status: 1 if two directories differ or have no transaction in common, or if one cannot be
/// compared.
///
/// Of several, a directory that cannot be compared has the line of its fault among the notices, and
/// the others are compared all the same.
pub fn compare_each<S: Folder, L: Folder, O: Write, E: Write>(
    alloc: Global,
    form: ReportForm,
    first: &ComparedDirectory<'_, S, L>,
    others: &[ComparedDirectory<'_, S, L>],
    output: &mut Sink<O>,
    faults: &mut Sink<E>,
) -> Result<u8, NoMemory>
    requires output { write_failures_of output.old < 2 ^ 64 - 1 }
    requires faults { write_failures_of faults.old < 2 ^ 64 - 1 }
    ensures { TellsReports form O.contents E.contents (named_by S.names_in S.bytes_in L.names_in L.bytes_in first.now)
        (map (named_by S.names_in S.bytes_in L.names_in L.bytes_in) others.now) output.old output.new faults.old faults.new result }
{
    match others {
        [second] => compare_two(alloc, form, first, second, output, faults),
        _ => compare_several(alloc, form, first, others, output, faults),
    }
}
