//! The trees of two directories, after a transaction that both have.
ghost use Rattle.std.specs.Prelude.{◌≡◌, ◌++◌, ◌∷◌, [], IfOk, OnOk, Ok, Err, codes, length, map, option_map, take};
ghost use Rattle.std.specs.List.{filter};
ghost use Rattle.std.specs.Option.{option_copied};
ghost use Rattle.std.specs.String.{string_bytes};
ghost use Rattle.zk_comparison.specs.Sources.{source_of};
ghost use Rattle.zk_comparison.specs.Trees.{FindsSight, FindsTrees, IsSight, IsWhole, alone_by, differing_paths, is_unread, node_at, nodes_in, tree_findings, trees_by};
ghost use Rattle.zk_comparison.specs.declared.finding.Finding.TheVariants as said;
ghost use Rattle.zk_tree_changes.specs.Differences.{differ_at};

use crate::finding::{Directory, Finding, MOST_DIFFERING};
use crate::notices::tree_notice;
use std::alloc::Global;
use zk_directory_state::{Folder, HistoryFault, Shown, Upto, notices_text, shown_of};
use zk_machine::Machine;
use zk_path::{NoMemory, Path};
use zk_table::Node;
use zk_tree::Tree;
use zk_tree_changes::{Paths, differ_at, tree_of};

/// What the files of a directory prove of its tree after a transaction.
#[derive(Drop)]
struct Sight {
    /// `None` if they prove no such state.
    machine: Option<Machine>,
    /// The notices on the state, or why there is none.
    notices: String,
}

/// What is said of the trees of two directories.
#[derive(Drop)]
pub(crate) struct Trees {
    pub(crate) findings: Vec<Finding>,
    pub(crate) notices: String,
}

/// Compares the trees of two directories after a transaction, if there is one.
///
/// Fails if a file or folder cannot be read.
#[tactic(auto, using(crate::proofs::Seen::compared_trees, crate::proofs::Seen::first_unseen, crate::proofs::Seen::second_unseen, crate::proofs::Seen::no_memory_for_trees))]
pub(crate) fn compare_trees_at<A: Folder, B: Folder, C: Folder, D: Folder>(
    alloc: Global,
    first: &A,
    first_logs: &B,
    second: &C,
    second_logs: &D,
    end: Option<i64>,
) -> Result<Trees, HistoryFault>
    ensures { FindsTrees (source_of (A.names_in first.now) (A.bytes_in first.now) (B.names_in first_logs.now) (B.bytes_in first_logs.now))
        (source_of (C.names_in second.now) (C.bytes_in second.now) (D.names_in second_logs.now) (D.bytes_in second_logs.now)) end result }
{
    let Some(zxid) = end else {
        return Ok(Trees {
            findings: Vec::new(alloc),
            notices: String::new(alloc),
        });
    };
    let ours = sight_of(alloc, Directory::First, first, first_logs, zxid)?;
    let theirs = sight_of(alloc, Directory::Second, second, second_logs, zxid)?;
    let findings = findings_of_trees(alloc, zxid, &ours, &theirs)?;
    let mut notices = ours.notices;
    notices.push_str(theirs.notices.as_str())?;
    Ok(Trees { findings, notices })
}

/// The tree of a directory after a transaction.
///
/// Fails if a file or folder cannot be read.
#[tactic(auto, using(crate::proofs::Seen::seen, crate::proofs::Seen::not_seen, crate::proofs::Seen::unseen, crate::proofs::Seen::out_of_memory))]
fn sight_of<S: Folder, L: Folder>(
    alloc: Global,
    directory: Directory,
    snapshots: &S,
    logs: &L,
    zxid: i64,
) -> Result<Sight, HistoryFault>
    ensures { FindsSight (source_of (S.names_in snapshots.now) (S.bytes_in snapshots.now) (L.names_in logs.now) (L.bytes_in logs.now)) directory zxid result }
{
    match shown_of(alloc, snapshots, logs, Upto::Zxid { zxid }) {
        Ok(shown) => Ok(sight_in(alloc, directory, zxid, &shown)?),
        Err(fault) if is_unread(&fault) => Err(fault),
        Err(fault) => Ok(sight_without(alloc, directory, zxid, &fault)?),
    }
}

/// Whether a file or folder could not be read, or allocation failed.
fn is_unread(fault: &HistoryFault) -> bool
    ensures { result ≡ is_unread fault.now }
{
    match fault {
        HistoryFault::Unreadable(_) => true,
        HistoryFault::Read => true,
        HistoryFault::NoMemory => true,
        _ => false,
    }
}

/// The tree of a state.
#[tactic(auto, using(crate::proofs::Seen::state_seen))]
fn sight_in(
    alloc: Global,
    directory: Directory,
    zxid: i64,
    shown: &Shown,
) -> Result<Sight, NoMemory>
    ensures { IfOk result (λ sight. IsSight directory zxid (Ok shown.now) sight) }
{
    let notices = notices_text(alloc, Upto::Zxid { zxid }, &shown.restored)?;
    let machine = Some(shown.restored.table.machine()?);
    Ok(Sight { machine, notices })
}

/// No tree, for this reason.
fn sight_without(
    alloc: Global,
    directory: Directory,
    zxid: i64,
    fault: &HistoryFault,
) -> Result<Sight, NoMemory>
    ensures { IfOk result (λ sight. IsSight directory zxid (Err fault.now) sight) }
{
    let notices = tree_notice(alloc, directory, fault)?;
    Ok(Sight {
        machine: None,
        notices,
    })
}

/// What is said of the trees of two directories after a transaction: nothing, if there is only one.
fn findings_of_trees(
    alloc: Global,
    zxid: i64,
    first: &Sight,
    second: &Sight,
) -> Result<Vec<Finding>, NoMemory>
    requires first { IsWhole first.now.machine }
    requires second { IsWhole second.now.machine }
    ensures { IfOk result (λ found. found.items ≡ trees_by zxid (nodes_in first.now.machine) (nodes_in second.now.machine)) }
{
    match (&first.machine, &second.machine) {
        (Some(ours), Some(theirs)) => compare_trees(alloc, zxid, tree_of(ours), tree_of(theirs)),
        _ => Ok(Vec::new(alloc)),
    }
}

/// The first nodes at which two trees differ, and the number of all.
fn compare_trees(
    alloc: Global,
    zxid: i64,
    first: &Tree,
    second: &Tree,
) -> Result<Vec<Finding>, NoMemory>
    ensures { IfOk result (λ found. found.items ≡ tree_findings zxid first.now second.now) }
{
    let paths = differing_paths(alloc, first, second)?;
    let mut findings = Vec::new(alloc);
    push_nodes(&mut findings, first, second, most_of(paths.as_slice()))?;
    findings.push(tree_finding(zxid, paths.len()))?;
    Ok(findings)
}

fn tree_finding(zxid: i64, count: usize) -> Finding
    ensures { result ≡ said.Tree zxid count }
{
    Finding::Tree { zxid, count }
}

/// The first of these, up to the number of those that have findings of their own.
fn most_of(paths: &[Path]) -> &[Path]
    ensures { result.now ≡ take 1000 paths.now }
{
    if paths.len() <= MOST_DIFFERING {
        paths
    } else {
        &paths[..MOST_DIFFERING]
    }
}

/// The paths of the nodes at which two trees differ, in order.
#[tactic(auto, using(crate::proofs::Seen::next_path))]
fn differing_paths(alloc: Global, first: &Tree, second: &Tree) -> Result<Vec<Path>, NoMemory>
    ensures { IfOk result (λ paths. paths.items ≡ differing_paths first.now second.now) }
{
    let paths = Paths::of(alloc, first, second)?;
    let texts = paths.texts()?;
    let mut differing = Vec::new(alloc);
    for text in texts.as_slice() {
        push_differing(&mut differing, first, second, text)?;
    }
    Ok(differing)
}

/// Appends a path, if the trees differ there.
#[tactic(auto, using(crate::proofs::Seen::no_nodes))]
fn push_differing(
    differing: &mut Vec<Path>,
    first: &Tree,
    second: &Tree,
    text: &str,
) -> Result<(), NoMemory>
    ensures { OnOk result (differing.new.items ≡ differing.old.items ++ filter (differ_at first.now second.now) (text.now ∷ [])) }
{
    if !differ_at(*differing.allocator(), first, second, text)? {
        return Ok(());
    }
    let path = match (first.entry_by_text(text), second.entry_by_text(text)) {
        (Some((path, _)), _) => path.copy()?,
        (None, Some((path, _))) => path.copy()?,
        (None, None) => unreachable!(),
    };
    differing.push(path)?;
    Ok(())
}

/// Appends what is said of each of these nodes.
fn push_nodes(
    findings: &mut Vec<Finding>,
    first: &Tree,
    second: &Tree,
    paths: &[Path],
) -> Result<(), NoMemory>
    ensures { OnOk result (findings.new.items ≡ findings.old.items ++ map (node_at first.now second.now) paths.now) }
{
    for path in paths {
        let directory = alone_by(first.get(path), second.get(path));
        findings.push(Finding::Node {
            path: path.copy()?,
            directory,
        })?;
    }
    Ok(())
}

/// The directory that alone has a node; `None` if both have it.
fn alone_by(first: Option<&Node>, second: Option<&Node>) -> Option<Directory>
    ensures { result ≡ alone_by (option_copied first.entry) (option_copied second.entry) }
{
    match (first, second) {
        (Some(_), None) => Some(Directory::First),
        (None, Some(_)) => Some(Directory::Second),
        _ => None,
    }
}
