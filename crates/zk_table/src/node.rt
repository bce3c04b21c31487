ghost use Rattle.std.specs.Prelude.{◌≡◌, pos, ◌-ℤ◌, ◌*ℤ◌, IfOk};
ghost use Rattle.std.specs.Int.{w32, int_wrap};
ghost use Rattle.zk_acl.specs.Access.{allows, read_perm};
ghost use Rattle.zk_table.specs.declared.read.ReadReply.TheVariants as replies;
ghost use Rattle.zk_table.specs.Nodes.{first_node, open_to_all, created, with_child, without_child, written, guarded, next_creates, content_length, stat_with};
ghost use Rattle.zk_table.specs.Replies.{if_readable};

use crate::codes::NO_AUTH;
use crate::content::Content;
use crate::read::ReadReply;
use crate::txn::Txn;
use std::alloc::Global;
use zk_acl::{Acl, Acls, Id, READ, Stat, Text, allows};
use zk_path::NoMemory;

/// A node of the tree, without its children. Times are milliseconds.
///
/// ZooKeeper Programmer's Guide, "ZNodes" and "ZooKeeper Stat Structure".
#[derive(Debug)]
pub struct Node {
    /// `None` is null content.
    pub content: Option<Content>,
    pub acl: Acls,
    /// The transaction that created the node.
    pub czxid: i64,
    /// The transaction that last changed its content.
    pub mzxid: i64,
    /// The transaction that last changed its children.
    pub pzxid: i64,
    pub ctime: i64,
    pub mtime: i64,
    /// The version of the content.
    pub version: i32,
    /// The number of children ever created, as the log counts them.
    pub creates: i32,
    /// The version of the access control list.
    pub aversion: i32,
    /// The session that owns the node; 0 for a persistent node.
    pub owner: i64,
}

impl Drop for Node {
    fn drop(self) {
        let Node {
            content: _,
            acl: _,
            czxid: _,
            mzxid: _,
            pzxid: _,
            ctime: _,
            mtime: _,
            version: _,
            creates: _,
            aversion: _,
            owner: _,
        } = self;
    }
}

impl Node {
    /// A node that exists before any transaction: empty, and open to all.
    pub fn first(alloc: Global) -> Result<Node, NoMemory>
        ensures { IfOk result (λ node. node ≡ first_node) }
    {
        Ok(Node {
            content: Some(Content::new(alloc, Vec::new(alloc))?),
            acl: open_to_all(alloc)?,
            czxid: 0,
            mzxid: 0,
            pzxid: 0,
            ctime: 0,
            mtime: 0,
            version: 0,
            creates: 0,
            aversion: 0,
            owner: 0,
        })
    }

    /// The node that a transaction creates.
    pub fn created(
        txn: &Txn,
        content: &Option<Content>,
        acl: &Acls,
        ephemeral: bool,
    ) -> Result<Node, NoMemory>
        ensures { IfOk result (λ node. node ≡ created txn.now content.now acl.now ephemeral) }
    {
        let content = Content::copy_of(content)?;
        let acl = acl.copy()?;
        let owner = if ephemeral { txn.session } else { 0 };
        Ok(Node {
            content,
            acl,
            czxid: txn.zxid,
            mzxid: txn.zxid,
            pzxid: txn.zxid,
            ctime: txn.time,
            mtime: txn.time,
            version: 0,
            creates: 0,
            aversion: 0,
            owner,
        })
    }

    /// A copy that shares content and access control list, without allocating, like
    /// [`Content::copy`].
    pub fn copy(&self) -> Result<Node, NoMemory>
        ensures { IfOk result (λ copy. copy ≡ self.now) }
    {
        Ok(Node {
            content: Content::copy_of(&self.content)?,
            acl: self.acl.copy()?,
            ..*self
        })
    }

    /// Counts a child that was created.
    pub fn add_child(&mut self, zxid: i64, count: i32)
        ensures { self.new ≡ with_child zxid count self.old }
    {
        self.creates = next_creates(self.creates, count);
        self.pzxid = zxid;
    }

    /// Records that a child was deleted.
    pub fn lose_child(&mut self, zxid: i64)
        ensures { self.new ≡ without_child zxid self.old }
    {
        self.pzxid = zxid;
    }

    /// Sets the content and its version.
    pub fn write(&mut self, txn: &Txn, content: Option<Content>, version: i32)
        ensures { self.new ≡ written txn.now content version self.old }
    {
        self.content = content;
        self.version = version;
        self.mzxid = txn.zxid;
        self.mtime = txn.time;
    }

    /// Sets the access control list and its version.
    pub fn guard(&mut self, acl: Acls, version: i32)
        ensures { self.new ≡ guarded acl version self.old }
    {
        self.acl = acl;
        self.aversion = version;
    }

    /// The stat of the node, given its number of children.
    pub fn stat(&self, children: usize) -> Stat
        ensures { result ≡ stat_with self.now children }
    {
        Stat {
            czxid: self.czxid,
            mzxid: self.mzxid,
            ctime: self.ctime,
            mtime: self.mtime,
            version: self.version,
            cversion: child_version(self.creates, children),
            aversion: self.aversion,
            ephemeral_owner: self.owner,
            data_length: wrapped(content_length(&self.content)),
            num_children: wrapped(children),
            pzxid: self.pzxid,
        }
    }

    /// Whether a caller who has proved `auths` may read the node.
    pub fn is_readable(&self, auths: &[Id]) -> bool
        ensures { result ≡ allows self.now.acl read_perm auths.now }
    {
        allows(self.acl.as_slice(), READ, auths)
    }

    /// The reply to a read of the node's content. `stat` is the node's.
    pub fn content_reply(&self, stat: Stat, auths: &[Id]) -> Result<ReadReply, NoMemory>
        ensures { IfOk result (λ reply. reply ≡ if_readable self.now auths.now (replies.Content self.now.content stat)) }
    {
        if !self.is_readable(auths) {
            return Ok(ReadReply::Refused(NO_AUTH));
        }
        let content = Content::copy_of(&self.content)?;
        Ok(ReadReply::Content { content, stat })
    }

    /// The reply to a read of the node's access control list. `stat` is the node's.
    pub fn acl_reply(&self, stat: Stat) -> Result<ReadReply, NoMemory>
        ensures { IfOk result (λ reply. reply ≡ replies.AclIs self.now.acl stat) }
    {
        let acl = self.acl.copy()?;
        Ok(ReadReply::AclIs { acl, stat })
    }
}

/// The access control list that grants everything to everyone.
fn open_to_all(alloc: Global) -> Result<Acls, NoMemory>
    ensures { IfOk result (λ acl. acl ≡ open_to_all) }
{
    let scheme = Text::read(alloc, "world")?;
    let id = Text::read(alloc, "anyone")?;
    let mut entries = Vec::new(alloc);
    entries.push(Acl {
        perms: 31,
        id: Id { scheme, id },
    })?;
    Acls::new(alloc, entries)
}

/// The parent's count of creates after a create; -1 counts one more.
fn next_creates(before: i32, count: i32) -> i32
    ensures { result ≡ next_creates before count }
{
    if count == -1 {
        before.wrapping_add(1)
    } else {
        count
    }
}

/// In bytes; 0 for null content.
fn content_length(content: &Option<Content>) -> usize
    ensures { result ≡ content_length content.now }
{
    content
        .as_ref()
        .map_or(0, |content| content.as_slice().len())
}

/// A number modulo 2^32, as a stat stores it.
fn wrapped(number: usize) -> i32
    ensures { result ≡ int_wrap w32 (pos number) }
{
    ((number % (1 << 32)) as u32).cast_signed()
}

/// The version of the children: twice the creates, minus the number of children.
fn child_version(creates: i32, children: usize) -> i32
    ensures { result ≡ int_wrap w32 ((pos 2 *ℤ creates) -ℤ pos children) }
{
    2_i32.wrapping_mul(creates).wrapping_sub(wrapped(children))
}
