ghost use Rattle.std.specs.Prelude.{◌≡◌, ℤ, IfOk, IsOk};
ghost use Rattle.zk_table.specs.declared.txn.Op.TheVariants as ops;

use crate::content::Content;
use crate::sub::Subs;
use zk_acl::Acls;
use zk_path::{NoMemory, Path};

/// A transaction: its header, and its operation.
///
/// `zookeeper.jute`, `TxnHeader`; `session` is its `clientId`.
#[derive(Debug, Drop)]
pub struct Txn {
    /// The session of the request.
    pub session: i64,
    /// The number of the request within the session.
    pub cxid: i32,
    pub zxid: i64,
    /// Milliseconds since 1970.
    pub time: i64,
    pub op: Op,
}

impl Txn {
    pub fn copy(&self) -> Result<Txn, NoMemory>
        ensures same { IfOk result (λ copy. copy ≡ self.now) }
        ensures error { (code : ℤ) → self.now.op ≡ ops.Error code → IsOk result }
    {
        let op = self.op.copy()?;
        Ok(Txn { op, ..*self })
    }
}

/// The operation of a transaction.
///
/// `zookeeper.jute`, module `org.apache.zookeeper.txn`.
#[derive(Debug)]
pub enum Op {
    /// Creates a node. `count` is the parent's count of creates afterwards; -1 adds one.
    Create {
        path: Path,
        content: Option<Content>,
        acl: Acls,
        ephemeral: bool,
        count: i32,
    },
    /// Creates a node, as 3.3 servers logged it: the parent's count of creates grows by one.
    ///
    /// `zookeeper.jute`, `CreateTxnV0`.
    CreateOld {
        path: Path,
        content: Option<Content>,
        acl: Acls,
        ephemeral: bool,
    },
    /// Deletes a node without children.
    Delete {
        path: Path,
    },
    /// Sets a node's content and its version.
    SetData {
        path: Path,
        content: Option<Content>,
        version: i32,
    },
    /// Sets a node's access control list and the list's version.
    SetAcl {
        path: Path,
        acl: Acls,
        version: i32,
    },
    /// Opens the header's session, with a timeout in milliseconds.
    OpenSession {
        timeout: i32,
    },
    /// Closes the header's session and deletes the nodes that it owns.
    CloseSession,
    /// Several operations on nodes, applied in order; if one of them is an error, none is applied.
    Multi {
        parts: Subs,
    },
    /// A request that the server rejected with this code.
    Error {
        code: i32,
    },
}

impl Drop for Op {
    fn drop(self) {
        match self {
            Op::Create {
                path: _,
                content: _,
                acl: _,
                ephemeral: _,
                count: _,
            } => (),
            Op::CreateOld {
                path: _,
                content: _,
                acl: _,
                ephemeral: _,
            } => (),
            Op::Delete { path: _ } => (),
            Op::SetData {
                path: _,
                content: _,
                version: _,
            } => (),
            Op::SetAcl {
                path: _,
                acl: _,
                version: _,
            } => (),
            Op::OpenSession { timeout: _ } => (),
            Op::CloseSession => (),
            Op::Multi { parts: _ } => (),
            Op::Error { code: _ } => (),
        }
    }
}

impl Op {
    pub fn copy(&self) -> Result<Op, NoMemory>
        ensures same { IfOk result (λ copy. copy ≡ self.now) }
        // An error needs no memory.
        ensures error { (code : ℤ) → self.now ≡ ops.Error code → IsOk result }
    {
        match self {
            Op::Create {
                path,
                content,
                acl,
                ephemeral,
                count,
            } => copy_of_create(path, content, acl, *ephemeral, *count),
            Op::CreateOld {
                path,
                content,
                acl,
                ephemeral,
            } => copy_of_create_old(path, content, acl, *ephemeral),
            Op::Delete { path } => copy_of_delete(path),
            Op::SetData {
                path,
                content,
                version,
            } => copy_of_set_data(path, content, *version),
            Op::SetAcl { path, acl, version } => copy_of_set_acl(path, acl, *version),
            Op::OpenSession { timeout } => Ok(Op::OpenSession { timeout: *timeout }),
            Op::CloseSession => Ok(Op::CloseSession),
            Op::Multi { parts } => copy_of_multi(parts),
            Op::Error { code } => Ok(Op::Error { code: *code }),
        }
    }
}

fn copy_of_create(
    path: &Path,
    content: &Option<Content>,
    acl: &Acls,
    ephemeral: bool,
    count: i32,
) -> Result<Op, NoMemory>
    ensures { IfOk result (λ op. op ≡ ops.Create path.now content.now acl.now ephemeral count) }
{
    let path = path.copy()?;
    let content = Content::copy_of(content)?;
    let acl = acl.copy()?;
    Ok(Op::Create {
        path,
        content,
        acl,
        ephemeral,
        count,
    })
}

fn copy_of_create_old(
    path: &Path,
    content: &Option<Content>,
    acl: &Acls,
    ephemeral: bool,
) -> Result<Op, NoMemory>
    ensures { IfOk result (λ op. op ≡ ops.CreateOld path.now content.now acl.now ephemeral) }
{
    let path = path.copy()?;
    let content = Content::copy_of(content)?;
    let acl = acl.copy()?;
    Ok(Op::CreateOld {
        path,
        content,
        acl,
        ephemeral,
    })
}

fn copy_of_delete(path: &Path) -> Result<Op, NoMemory>
    ensures { IfOk result (λ op. op ≡ ops.Delete path.now) }
{
    let path = path.copy()?;
    Ok(Op::Delete { path })
}

fn copy_of_set_data(path: &Path, content: &Option<Content>, version: i32) -> Result<Op, NoMemory>
    ensures { IfOk result (λ op. op ≡ ops.SetData path.now content.now version) }
{
    let path = path.copy()?;
    let content = Content::copy_of(content)?;
    Ok(Op::SetData {
        path,
        content,
        version,
    })
}

fn copy_of_set_acl(path: &Path, acl: &Acls, version: i32) -> Result<Op, NoMemory>
    ensures { IfOk result (λ op. op ≡ ops.SetAcl path.now acl.now version) }
{
    let path = path.copy()?;
    let acl = acl.copy()?;
    Ok(Op::SetAcl { path, acl, version })
}

fn copy_of_multi(parts: &Subs) -> Result<Op, NoMemory>
    ensures { IfOk result (λ op. op ≡ ops.Multi parts.now) }
{
    let parts = parts.copy()?;
    Ok(Op::Multi { parts })
}
