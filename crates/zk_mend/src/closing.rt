//! Compares the paths in the record of a closed session with the nodes of the tree.

ghost use Rattle.std.specs.Prelude.{◌≡◌, IfOk};
ghost use Rattle.std.specs.List.{list_any, list_all};
ghost use Rattle.std.specs.Option.{option_copied};
ghost use Rattle.std.specs.Str.{bytes_eq};
ghost use Rattle.std.specs.FinMap.{get};
ghost use Rattle.zk_newer_records.specs.NewerRecords.{listed_of, listed_in};
ghost use Rattle.zk_mend.specs.NewerLogs.{owns, is_own, is_others, closes_others, lists_own, lists_others};

use zk_newer_records::{Encoding, NewerRecord};
use zk_path::{NoMemory, Path};
use zk_table::Node;
use zk_tree::Tree;

/// Whether a session owns a node; 0 is no session.
fn owns(session: i64, node: &Node) -> bool
    ensures { result ≡ owns session node.now }
{
    session != 0 && node.owner == session
}

/// Whether the node exists and is the session's.
fn is_own(session: i64, node: Option<&Node>) -> bool
    ensures { result ≡ is_own session (option_copied node.entry) }
{
    match node {
        Some(node) => owns(session, node),
        None => false,
    }
}

/// Whether the node exists and is not the session's.
fn is_others(session: i64, node: Option<&Node>) -> bool
    ensures { result ≡ is_others session (option_copied node.entry) }
{
    match node {
        Some(node) => !owns(session, node),
        None => false,
    }
}

fn listed(form: &Encoding) -> &[Path]
    ensures { result.now ≡ listed_in form.now }
{
    match form {
        Encoding::ClosePaths { listed } => listed.as_slice(),
        _ => &[],
    }
}

/// Whether a listed node exists and is not the session's.
pub(crate) fn closes_others(tree: &Tree, newer: &NewerRecord) -> bool
    ensures { result ≡ closes_others tree.now newer.now }
{
    let session = newer.txn.session;
    listed(&newer.form)
        .iter()
        .any(|path| is_others(session, tree.get(path)))
}

/// Whether the listed paths, as a set, are not the session's nodes.
pub(crate) fn lists_others(tree: &Tree, session: i64, form: &Encoding) -> Result<bool, NoMemory>
    ensures { IfOk result (λ others. others ≡ lists_others tree.now session form.now) }
{
    match form {
        Encoding::ClosePaths { listed } => Ok(!lists_own(tree, session, listed.as_slice())?),
        _ => Ok(false),
    }
}

/// Whether the listed paths, as a set, are the session's nodes.
fn lists_own(tree: &Tree, session: i64, listed: &[Path]) -> Result<bool, NoMemory>
    ensures { IfOk result (λ own. own ≡ lists_own tree.now session listed.now) }
{
    let owned = tree.owned_by(session)?;
    Ok(are_own(tree, session, listed) && are_listed(owned.as_slice(), listed))
}

/// Whether each of these is a node of the session.
fn are_own(tree: &Tree, session: i64, listed: &[Path]) -> bool
    ensures { result ≡ list_all (λ path. is_own session (get tree.now path)) listed.now }
{
    listed.iter().all(|path| is_own(session, tree.get(path)))
}

fn are_listed(owned: &[Path], listed: &[Path]) -> bool
    ensures { result ≡ list_all (λ path. list_any (bytes_eq path) listed.now) owned.now }
{
    owned.iter().all(|path| is_listed(path, listed))
}

fn is_listed(path: &Path, listed: &[Path]) -> bool
    ensures { result ≡ list_any (bytes_eq path.now) listed.now }
{
    listed.iter().any(|other| path.text() == other.text())
}
