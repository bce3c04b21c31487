ghost use Rattle.std.specs.Prelude.{◌≡◌, nat_eq};
ghost use Rattle.std.specs.List.{list_any, starts_with};
ghost use Rattle.zk_debug.specs.Breakpoints.{kind_of, is_below, is_in, names, is_removal, concerns, is_met};

use zk_machine::{Applied, Change, ChangeKind};
use zk_path::Path;
use zk_table::{Op, Sub, Txn};

/// A condition on places of a log. It is checked for the transaction just before the place.
#[derive(Debug, Drop)]
pub enum Breakpoint {
    /// The transaction of this zxid.
    At(i64),
    /// A transaction or a part that names this path, applied or rejected, or a closed session whose
    /// node there is deleted.
    Path(Path),
    /// The same for this path and all below it.
    Prefix(Path),
    /// A transaction of this session.
    Session(i64),
    /// A transaction of this kind.
    Kind(Kind),
    /// A transaction whose result is not 0.
    Error,
}

/// The operation of a transaction, by its word in a listing.
#[derive(Clone, Copy, Debug, PartialEq, Eq)]
pub enum Kind {
    /// `create`.
    Create,
    /// `create0`, of 3.3.
    CreateOld,
    /// `delete`.
    Delete,
    /// `setData`.
    SetData,
    /// `setACL`.
    SetAcl,
    /// `createSession`.
    OpenSession,
    /// `closeSession`.
    CloseSession,
    /// `error`.
    Error,
    /// `multi`, with any parts.
    Multi,
}

impl Kind {
    fn of(op: &Op) -> Kind
        ensures { result ≡ kind_of op.now }
    {
        match op {
            Op::Create { .. } => Kind::Create,
            Op::CreateOld { .. } => Kind::CreateOld,
            Op::Delete { .. } => Kind::Delete,
            Op::SetData { .. } => Kind::SetData,
            Op::SetAcl { .. } => Kind::SetAcl,
            Op::OpenSession { .. } => Kind::OpenSession,
            Op::CloseSession => Kind::CloseSession,
            Op::Error { .. } => Kind::Error,
            Op::Multi { .. } => Kind::Multi,
        }
    }
}

impl Breakpoint {
    /// Whether a transaction matches the breakpoint, given its result and changes.
    pub(crate) fn is_met(&self, txn: &Txn, applied: &Applied) -> bool
        ensures { result ≡ is_met txn.now applied.now.result.err applied.now.changes.items self.now }
    {
        match self {
            Breakpoint::At(zxid) => txn.zxid == *zxid,
            Breakpoint::Path(path) => concerns(path, false, &txn.op, applied.changes.as_slice()),
            Breakpoint::Prefix(path) => concerns(path, true, &txn.op, applied.changes.as_slice()),
            Breakpoint::Session(session) => txn.session == *session,
            Breakpoint::Kind(kind) => Kind::of(&txn.op) == *kind,
            Breakpoint::Error => applied.result.err != 0,
        }
    }
}

/// Whether a path is another, or with `below` one below it.
pub fn is_in(path: &str, below: bool, named: &str) -> bool
    ensures { result ≡ is_in path.now below named.now }
{
    named == path || (below && is_below(path, named))
}

/// Whether a path is below another.
fn is_below(path: &str, named: &str) -> bool
    ensures { result ≡ is_below path.now named.now }
{
    starts(named, path) && (path == "/" || named.as_bytes().get(path.len()) == Some(&b'/'))
}

fn starts(text: &str, prefix: &str) -> bool
    ensures { result ≡ starts_with nat_eq text.now prefix.now }
{
    text.as_bytes().starts_with(prefix.as_bytes())
}

/// Whether an operation with these changes names a path, or with `below` one below it, also in a
/// part, or closed a session whose node there was deleted.
fn concerns(path: &Path, below: bool, op: &Op, changes: &[Change]) -> bool
    ensures { result ≡ concerns path.now below op.now changes.now }
{
    match op {
        Op::Create { path: named, .. }
        | Op::CreateOld { path: named, .. }
        | Op::Delete { path: named }
        | Op::SetData { path: named, .. }
        | Op::SetAcl { path: named, .. } => is_in(path.text(), below, named.text()),
        Op::Multi { parts } => any_names(path, below, parts.as_slice()),
        Op::CloseSession => any_removes(path, below, changes),
        Op::OpenSession { .. } | Op::Error { .. } => false,
    }
}

/// Whether one of a multi's parts names a path.
fn any_names(path: &Path, below: bool, parts: &[Sub]) -> bool
    ensures { result ≡ list_any (names path.now below) parts.now }
{
    parts.iter().any(|part| names(path, below, part))
}

/// Whether one of the changes is that the node of a path was deleted.
fn any_removes(path: &Path, below: bool, changes: &[Change]) -> bool
    ensures { result ≡ list_any (is_removal path.now below) changes.now }
{
    changes.iter().any(|change| is_removal(path, below, change))
}

/// Whether a part of a multi names a path.
fn names(path: &Path, below: bool, part: &Sub) -> bool
    ensures { result ≡ names path.now below part.now }
{
    match part {
        Sub::Create { path: named, .. }
        | Sub::Delete { path: named }
        | Sub::SetData { path: named, .. }
        | Sub::Check { path: named, .. } => is_in(path.text(), below, named.text()),
        Sub::Error { .. } => false,
    }
}

/// Whether a change is that the node of a path was deleted.
fn is_removal(path: &Path, below: bool, change: &Change) -> bool
    ensures { result ≡ is_removal path.now below change.now }
{
    match change.kind {
        ChangeKind::Deleted => is_in(path.text(), below, change.path.text()),
        _ => false,
    }
}
