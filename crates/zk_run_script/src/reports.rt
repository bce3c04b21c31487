//! Reports on a server: the number of their lines, and the lines.
ghost use Rattle.std.specs.Prelude.{◌≡◌, ◌++◌, false, IfOk, OnErr, OnOk};
ghost use Rattle.std.specs.List.{flat_map};
ghost use Rattle.std.specs.String.{string_bytes};
ghost use Rattle.zk_run_script.specs.Answers.{lines_line, listing_report, answer_line, answers_report, sync_line, syncs_report, kind_text, event_line, events_report, tree_lines, counted_tree};
ghost use Rattle.zk_format.specs.Listings.{line_of};

use zk_ensemble::Caught;
use zk_listing::{push_digits, push_line, push_quoted, push_result_line, push_tree};
use zk_machine::{ChangeKind, Machine};
use zk_model::Answered;
use zk_path::NoMemory;
use zk_table::Txn;
use zk_watch::Fired;

/// Appends how many lines follow.
fn push_lines(page: &mut String, count: usize) -> Result<(), NoMemory>
    ensures { OnOk result
        (string_bytes page.new ≡ string_bytes page.old ++ lines_line count) }
{
    write!(page, "lines {count}\n")?;
    Ok(())
}

/// Appends the report of transactions: a listing.
pub fn push_listing(page: &mut String, txns: &[Txn]) -> Result<(), NoMemory>
    ensures appended { OnOk result
        (string_bytes page.new ≡ string_bytes page.old ++ listing_report txns.now) }
    ensures unchanged { OnErr result (string_bytes page.new ≡ string_bytes page.old) }
{
    let mut report = String::new(*page.allocator());
    push_lines(&mut report, txns.len())?;
    push_txns(&mut report, txns)?;
    page.push_str(report.as_str())?;
    Ok(())
}

fn push_txns(page: &mut String, txns: &[Txn]) -> Result<(), NoMemory>
    ensures { OnOk result
        (string_bytes page.new ≡ string_bytes page.old ++ flat_map line_of txns.now) }
{
    for txn in txns {
        push_line(page, txn)?;
    }
    Ok(())
}

/// Appends the report of delivered entries' results: the tag and the result of each.
pub fn push_answers(page: &mut String, answers: &[Answered]) -> Result<(), NoMemory>
    ensures appended { OnOk result
        (string_bytes page.new ≡ string_bytes page.old ++ answers_report answers.now) }
    ensures unchanged { OnErr result (string_bytes page.new ≡ string_bytes page.old) }
{
    let mut report = String::new(*page.allocator());
    push_lines(&mut report, answers.len())?;
    push_answer_lines(&mut report, answers)?;
    page.push_str(report.as_str())?;
    Ok(())
}

fn push_answer_lines(page: &mut String, answers: &[Answered]) -> Result<(), NoMemory>
    ensures { OnOk result
        (string_bytes page.new ≡ string_bytes page.old ++ flat_map answer_line answers.now) }
{
    for answered in answers {
        push_answer(page, answered)?;
    }
    Ok(())
}

fn push_answer(page: &mut String, answered: &Answered) -> Result<(), NoMemory>
    ensures { OnOk result
        (string_bytes page.new ≡ string_bytes page.old ++ answer_line answered.now) }
{
    write!(page, "{} ", answered.tag)?;
    push_result_line(page, &answered.result)?;
    page.push('\n')?;
    Ok(())
}

/// Appends the report of a server's completed syncs: the tag and the length of each.
pub fn push_syncs(page: &mut String, syncs: &[Caught]) -> Result<(), NoMemory>
    ensures appended { OnOk result
        (string_bytes page.new ≡ string_bytes page.old ++ syncs_report syncs.now) }
    ensures unchanged { OnErr result (string_bytes page.new ≡ string_bytes page.old) }
{
    let mut report = String::new(*page.allocator());
    push_lines(&mut report, syncs.len())?;
    push_sync_lines(&mut report, syncs)?;
    page.push_str(report.as_str())?;
    Ok(())
}

fn push_sync_lines(page: &mut String, syncs: &[Caught]) -> Result<(), NoMemory>
    ensures { OnOk result
        (string_bytes page.new ≡ string_bytes page.old ++ flat_map sync_line syncs.now) }
{
    for caught in syncs {
        push_sync(page, *caught)?;
    }
    Ok(())
}

fn push_sync(page: &mut String, caught: Caught) -> Result<(), NoMemory>
    ensures { OnOk result
        (string_bytes page.new ≡ string_bytes page.old ++ sync_line caught) }
{
    write!(page, "{} {}\n", caught.tag, caught.length)?;
    Ok(())
}

/// Appends the report of fired events, in the order in which they fired.
pub fn push_events(page: &mut String, fired: &[Fired]) -> Result<(), NoMemory>
    ensures appended { OnOk result
        (string_bytes page.new ≡ string_bytes page.old ++ events_report fired.now) }
    ensures unchanged { OnErr result (string_bytes page.new ≡ string_bytes page.old) }
{
    let mut report = String::new(*page.allocator());
    push_lines(&mut report, fired.len())?;
    push_event_lines(&mut report, fired)?;
    page.push_str(report.as_str())?;
    Ok(())
}

fn push_event_lines(page: &mut String, fired: &[Fired]) -> Result<(), NoMemory>
    ensures { OnOk result
        (string_bytes page.new ≡ string_bytes page.old ++ flat_map event_line fired.now) }
{
    for event in fired {
        push_event(page, event)?;
    }
    Ok(())
}

fn push_event(page: &mut String, event: &Fired) -> Result<(), NoMemory>
    ensures { OnOk result
        (string_bytes page.new ≡ string_bytes page.old ++ event_line event.now) }
{
    push_digits(page, event.session)?;
    page.push_str(" event ")?;
    page.push_str(number_of(event.kind))?;
    page.push(' ')?;
    push_quoted(page, event.path.text())?;
    page.push('\n')?;
    Ok(())
}

fn number_of(kind: ChangeKind) -> &'static str
    ensures { result.now ≡ kind_text kind }
{
    match kind {
        ChangeKind::Created => "1",
        ChangeKind::Deleted => "2",
        ChangeKind::DataChanged => "3",
        ChangeKind::ChildrenChanged => "4",
    }
}

/// Appends the report of a tree, after the number of its lines.
pub fn push_counted_tree(page: &mut String, machine: &Machine) -> Result<(), NoMemory>
    requires { machine.now.failed ≡ false }
    ensures appended { OnOk result
        (string_bytes page.new ≡ string_bytes page.old ++ counted_tree machine.now.state) }
    ensures unchanged { OnErr result (string_bytes page.new ≡ string_bytes page.old) }
{
    let lines = lines_of(machine)?;
    let mut report = String::new(*page.allocator());
    push_lines(&mut report, lines)?;
    push_tree(&mut report, machine)?;
    page.push_str(report.as_str())?;
    Ok(())
}

/// Counts the lines of a tree's report.
fn lines_of(machine: &Machine) -> Result<usize, NoMemory>
    requires { machine.now.failed ≡ false }
    ensures { IfOk result (λ lines. lines ≡ tree_lines machine.now.state) }
{
    let Ok(tree) = machine.tree() else {
        unreachable!()
    };
    let Ok(sessions) = machine.sessions() else {
        unreachable!()
    };
    let nodes = tree.paths()?.as_slice().len();
    Ok(1 + sessions.len() + nodes)
}
