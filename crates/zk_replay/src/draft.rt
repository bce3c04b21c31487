ghost use Rattle.std.specs.Prelude.{◌≡◌, ◌≢◌, IfOk, OnOk};
ghost use Rattle.std.specs.FinMap as finite;
ghost use Rattle.std.specs.Int.{w64, cast_unsigned};
ghost use Rattle.zk_path.specs.Paths.{parent_of};
ghost use Rattle.zk_table.specs.Nodes.{open_to_all};
ghost use Rattle.zk_replay.specs.Bases.{listed, acl_of, shown_owner, node_with, draft_with, draft_of, parent_marked, with_stored, drafted, sessions_of, parent_fault, stored_fault, drafted_fault, snapshot_fault, FailsBy, IsDraftOf};

use crate::draft_node::DraftNode;
use crate::draft_nodes::DraftNodes;
use crate::fault::BaseFault;
use std::alloc::Global;
use zk_acl::Acls;
use zk_fold::Sessions;
use zk_path::{NoMemory, Path};
use zk_snapshot::{Access, Contents, Lease, Stored};
use zk_table::{Content, Node};

/// The nodes and sessions of a snapshot while the snapshot's window is replayed.
#[derive(Drop)]
pub struct Draft {
    pub nodes: DraftNodes,
    pub sessions: Sessions,
}

/// The access control list of a number in the table of a snapshot.
fn listed(accesses: &[Access], number: i64) -> Result<Option<Acls>, NoMemory>
    ensures { IfOk result (λ acls. acls ≡ listed accesses.now number) }
{
    for access in accesses {
        if access.number == number {
            return Ok(Some(access.acl.copy()?));
        }
    }
    Ok(None)
}

/// The access control list of a number; -1 is open to all.
fn acl_of(open_acl: &Acls, accesses: &[Access], number: i64) -> Result<Option<Acls>, NoMemory>
    requires { open_acl.now ≡ open_to_all }
    ensures { IfOk result (λ acls. acls ≡ acl_of accesses.now number) }
{
    if number == -1 {
        return Ok(Some(open_acl.copy()?));
    }
    listed(accesses, number)
}

/// An owner as clients see it: containers and nodes with a time to live have none.
pub fn shown_owner(owner: i64) -> i64
    ensures { result ≡ shown_owner owner }
{
    if owner == i64::MIN || (owner >= -72_057_594_037_927_936 && owner < 0) {
        return 0;
    }
    owner
}

/// A stored node, with this content and list.
fn node_with(stored: &Stored, content: Option<Content>, acl: Acls) -> Node
    requires { content ≡ stored.now.kept.content }
    ensures { result ≡ node_with stored.now acl }
{
    let owner = shown_owner(stored.kept.owner);
    Node {
        content,
        acl,
        czxid: stored.kept.moments.czxid,
        mzxid: stored.kept.moments.mzxid,
        pzxid: stored.kept.pzxid,
        ctime: stored.kept.moments.ctime,
        mtime: stored.kept.moments.mtime,
        version: stored.kept.versions.version,
        creates: stored.kept.versions.creates,
        aversion: stored.kept.versions.aversion,
        owner,
    }
}

fn draft_with(stored: &Stored, acl: Acls, lacks_acl: bool) -> Result<DraftNode, NoMemory>
    ensures { IfOk result (λ draft. draft ≡ draft_with stored.now acl lacks_acl) }
{
    let path = stored.path.copy()?;
    let content = Content::copy_of(&stored.kept.content)?;
    let raw_owner = stored.kept.owner;
    Ok(DraftNode {
        path,
        node: node_with(stored, content, acl),
        raw_owner,
        lacks_acl,
        had_children: false,
    })
}

/// A stored node; its list may come with a later transaction.
fn draft_of(
    alloc: Global,
    open_acl: &Acls,
    accesses: &[Access],
    stored: &Stored,
) -> Result<DraftNode, NoMemory>
    requires { open_acl.now ≡ open_to_all }
    ensures { IfOk result (λ draft. draft ≡ draft_of accesses.now stored.now) }
{
    match acl_of(open_acl, accesses, stored.kept.access)? {
        Some(acl) => draft_with(stored, acl, false),
        None => draft_with(stored, Acls::new(alloc, Vec::new(alloc))?, true),
    }
}

/// Records at its parent that a node is put at a path. Fails if the parent is missing.
fn mark_parent(drafts: &mut DraftNodes, path: &Path) -> Result<(), BaseFault>
    ensures marked { OnOk result (drafts.new ≡ parent_marked drafts.old (parent_of path.now)) }
    ensures exact { FailsBy (parent_fault drafts.old (parent_of path.now)) result }
{
    let Some(above) = path.parent() else {
        return Ok(());
    };
    if !drafts.contains(above) {
        return Err(BaseFault::Tree);
    }
    drafts.mark_parent(above);
    Ok(())
}

/// Inserts a stored node. Fails if its path is taken or its parent is missing.
fn insert_stored(
    alloc: Global,
    drafts: &mut DraftNodes,
    open_acl: &Acls,
    accesses: &[Access],
    stored: &Stored,
) -> Result<(), BaseFault>
    requires { open_acl.now ≡ open_to_all }
    ensures inserted { OnOk result (drafts.new ≡ with_stored accesses.now drafts.old stored.now) }
    ensures exact { FailsBy (stored_fault drafts.old stored.now) result }
{
    if drafts.contains(stored.path.text()) {
        return Err(BaseFault::Tree);
    }
    mark_parent(drafts, &stored.path)?;
    let draft = draft_of(alloc, open_acl, accesses, stored)?;
    drafts.insert(stored.path.text(), draft)?;
    Ok(())
}

/// The stored nodes.
fn drafted(alloc: Global, accesses: &[Access], stored: &[Stored]) -> Result<DraftNodes, BaseFault>
    ensures drafted { IfOk result (λ drafts. drafts ≡ drafted accesses.now finite.empty stored.now) }
    ensures exact { FailsBy (drafted_fault accesses.now finite.empty stored.now) result }
{
    let first = Node::first(alloc)?;
    let mut drafts = DraftNodes::new(alloc);
    for one in stored {
        insert_stored(alloc, &mut drafts, &first.acl, accesses, one)?;
    }
    Ok(drafts)
}

/// Opens a session.
fn open_session(sessions: &mut Sessions, session: i64, timeout: i32) -> Result<(), NoMemory>
    ensures { OnOk result (sessions.new ≡ finite.insert sessions.old (cast_unsigned w64 session) timeout) }
{
    sessions.open(session.cast_unsigned(), timeout)
}

/// Opens a stored session.
fn open_lease(sessions: &mut Sessions, lease: &Lease) -> Result<(), NoMemory>
    ensures { OnOk result (sessions.new ≡ finite.insert sessions.old (cast_unsigned w64 lease.now.session) lease.now.timeout) }
{
    open_session(sessions, lease.session, lease.timeout)
}

/// The sessions.
fn sessions_of(alloc: Global, leases: &[Lease]) -> Result<Sessions, NoMemory>
    ensures { IfOk result (λ sessions. sessions ≡ sessions_of finite.empty leases.now) }
{
    let mut sessions = Sessions::new(alloc);
    for lease in leases {
        open_lease(&mut sessions, lease)?;
    }
    Ok(sessions)
}

impl Draft {
    /// Builds the draft of a snapshot. Fails with [`BaseFault::Tree`] if a path occurs twice or
    /// before its parent.
    pub fn of(alloc: Global, contents: &Contents) -> Result<Draft, BaseFault>
        ensures drafted { IfOk result (λ draft. IsDraftOf contents.now draft) }
        ensures exact { FailsBy (snapshot_fault contents.now) result }
    {
        let nodes = drafted(
            alloc,
            contents.accesses.as_slice(),
            contents.nodes.as_slice(),
        )?;
        let sessions = sessions_of(alloc, contents.leases.as_slice())?;
        Ok(Draft { nodes, sessions })
    }
}
