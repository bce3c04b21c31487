ghost use Rattle.std.specs.Prelude.{◌≡◌, IfOk};
ghost use Rattle.zk_table.specs.Replies.{path_read};
ghost use Rattle.zk_table.specs.declared.read.ReadReply.TheVariants as replies;

use crate::content::Content;
use crate::names::Names;
use zk_acl::{Acls, Stat};
use zk_path::{NoMemory, Path};

/// A read of the tree.
///
/// ZooKeeper Programmer's Guide, "Data Access".
#[derive(Debug)]
pub enum ReadCall {
    GetData { path: Path },
    /// Whether a node exists.
    Exists { path: Path },
    GetChildren { path: Path },
    GetAcl { path: Path },
}

impl Drop for ReadCall {
    fn drop(self) {
        match self {
            ReadCall::GetData { path: _ } => (),
            ReadCall::Exists { path: _ } => (),
            ReadCall::GetChildren { path: _ } => (),
            ReadCall::GetAcl { path: _ } => (),
        }
    }
}

impl ReadCall {
    /// The path of the node that is read.
    pub fn path(&self) -> &Path
        ensures { result.now ≡ path_read self.now }
    {
        match self {
            ReadCall::GetData { path }
            | ReadCall::Exists { path }
            | ReadCall::GetChildren { path }
            | ReadCall::GetAcl { path } => path,
        }
    }

    pub fn copy(&self) -> Result<ReadCall, NoMemory>
        ensures { IfOk result (λ copy. copy ≡ self.now) }
    {
        let path = self.path().copy()?;
        match self {
            ReadCall::GetData { .. } => Ok(ReadCall::GetData { path }),
            ReadCall::Exists { .. } => Ok(ReadCall::Exists { path }),
            ReadCall::GetChildren { .. } => Ok(ReadCall::GetChildren { path }),
            ReadCall::GetAcl { .. } => Ok(ReadCall::GetAcl { path }),
        }
    }
}

/// The reply to a read, with the node's stat.
///
/// ZooKeeper Programmer's Guide, "Data Access" and "ZooKeeper Stat Structure".
#[derive(Debug)]
pub enum ReadReply {
    /// `None` is null content.
    Content {
        content: Option<Content>,
        stat: Stat,
    },
    /// The node exists.
    Found(Stat),
    /// The names of the node's children, in order.
    Children {
        names: Names,
        stat: Stat,
    },
    /// The node's access control list.
    AclIs {
        acl: Acls,
        stat: Stat,
    },
    /// An error code.
    Refused(i32),
}

impl Drop for ReadReply {
    fn drop(self) {
        match self {
            ReadReply::Content {
                content: _,
                stat: _,
            } => (),
            ReadReply::Found(_) => (),
            ReadReply::Children { names: _, stat: _ } => (),
            ReadReply::AclIs { acl: _, stat: _ } => (),
            ReadReply::Refused(_) => (),
        }
    }
}

impl ReadReply {
    pub fn copy(&self) -> Result<ReadReply, NoMemory>
        ensures { IfOk result (λ copy. copy ≡ self.now) }
    {
        match self {
            ReadReply::Content { content, stat } => copy_of_content(content, *stat),
            ReadReply::Found(stat) => Ok(ReadReply::Found(*stat)),
            ReadReply::Children { names, stat } => copy_of_children(names, *stat),
            ReadReply::AclIs { acl, stat } => copy_of_acl(acl, *stat),
            ReadReply::Refused(code) => Ok(ReadReply::Refused(*code)),
        }
    }
}

fn copy_of_content(content: &Option<Content>, stat: Stat) -> Result<ReadReply, NoMemory>
    ensures { IfOk result (λ reply. reply ≡ replies.Content content.now stat) }
{
    let content = Content::copy_of(content)?;
    Ok(ReadReply::Content { content, stat })
}

fn copy_of_children(names: &Names, stat: Stat) -> Result<ReadReply, NoMemory>
    ensures { IfOk result (λ reply. reply ≡ replies.Children names.now stat) }
{
    let names = names.copy()?;
    Ok(ReadReply::Children { names, stat })
}

fn copy_of_acl(acl: &Acls, stat: Stat) -> Result<ReadReply, NoMemory>
    ensures { IfOk result (λ reply. reply ≡ replies.AclIs acl.now stat) }
{
    let acl = acl.copy()?;
    Ok(ReadReply::AclIs { acl, stat })
}
