ghost use Rattle.std.specs.Prelude.{◌≡◌, None, IfOk, IsOk, IsTrue};
ghost use Rattle.zk_table.specs.declared.sub.Sub.TheVariants as parts;
ghost use Rattle.zk_table.specs.Parts.{is_error, code_of, path_of};

use crate::content::Content;
use crate::result::PartResult;
use std::marker::Model;
use zk_acl::Acls;
use zk_path::{NoMemory, Path};

/// One part of a multi.
///
/// `zookeeper.jute`, `MultiTxn` and `Txn`; the fields are those of [`Op`](crate::Op).
#[derive(Debug, Drop)]
pub enum Sub {
    /// Creates a node.
    Create {
        path: Path,
        content: Option<Content>,
        acl: Acls,
        ephemeral: bool,
        count: i32,
    },
    /// Deletes a node without children.
    Delete {
        path: Path,
    },
    /// Sets a node's content and its version.
    SetData {
        path: Path,
        content: Option<Content>,
        version: i32,
    },
    /// A version check that had passed when the transaction was logged.
    Check {
        path: Path,
        version: i32,
    },
    /// A part that the server rejected with this code. A multi that has one changes nothing.
    Error {
        code: i32,
    },
}

impl Sub {
    pub fn copy(&self) -> Result<Sub, NoMemory>
        ensures same { IfOk result (λ copy. copy ≡ self.now) }
        // An error needs no memory.
        ensures error { IsTrue (is_error self.now) → IsOk result }
    {
        match self {
            Sub::Create {
                path,
                content,
                acl,
                ephemeral,
                count,
            } => copy_of_create(path, content, acl, *ephemeral, *count),
            Sub::Delete { path } => copy_of_delete(path),
            Sub::SetData {
                path,
                content,
                version,
            } => copy_of_set_data(path, content, *version),
            Sub::Check { path, version } => copy_of_check(path, *version),
            Sub::Error { code } => Ok(Sub::Error { code: *code }),
        }
    }

    /// Whether the part is an error.
    pub fn is_error(&self) -> bool
        ensures { result ≡ is_error self.now }
    {
        matches!(self, Sub::Error { .. })
    }

    /// The result of the part if it is not applied: an error's own code, or else `code`, with the
    /// path that the part names.
    pub fn answer_unapplied(&self, code: i32) -> Result<PartResult, NoMemory>
        ensures { IfOk result (λ answer. answer ≡ record { err = code_of code self.now; path = path_of self.now; stat = None }) }
    {
        let path = self.path_told()?;
        Ok(PartResult {
            err: self.code_of(code),
            path,
            stat: None,
        })
    }

    /// The code of that result.
    fn code_of(&self, code: i32) -> i32
        ensures { result ≡ code_of code self.now }
    {
        match self {
            Sub::Error { code: own } => *own,
            _ => code,
        }
    }

    /// A copy of the path that the part names.
    fn path_told(&self) -> Result<Option<Path>, NoMemory>
        ensures { IfOk result (λ path. path ≡ path_of self.now) }
    {
        match self {
            Sub::Create { path, .. }
            | Sub::Delete { path }
            | Sub::SetData { path, .. }
            | Sub::Check { path, .. } => Ok(Some(path.copy()?)),
            Sub::Error { .. } => Ok(None),
        }
    }
}

fn copy_of_create(
    path: &Path,
    content: &Option<Content>,
    acl: &Acls,
    ephemeral: bool,
    count: i32,
) -> Result<Sub, NoMemory>
    ensures { IfOk result (λ part. part ≡ parts.Create path.now content.now acl.now ephemeral count) }
{
    let path = path.copy()?;
    let content = Content::copy_of(content)?;
    let acl = acl.copy()?;
    Ok(Sub::Create {
        path,
        content,
        acl,
        ephemeral,
        count,
    })
}

fn copy_of_delete(path: &Path) -> Result<Sub, NoMemory>
    ensures { IfOk result (λ part. part ≡ parts.Delete path.now) }
{
    let path = path.copy()?;
    Ok(Sub::Delete { path })
}

fn copy_of_set_data(path: &Path, content: &Option<Content>, version: i32) -> Result<Sub, NoMemory>
    ensures { IfOk result (λ part. part ≡ parts.SetData path.now content.now version) }
{
    let path = path.copy()?;
    let content = Content::copy_of(content)?;
    Ok(Sub::SetData {
        path,
        content,
        version,
    })
}

fn copy_of_check(path: &Path, version: i32) -> Result<Sub, NoMemory>
    ensures { IfOk result (λ part. part ≡ parts.Check path.now version) }
{
    let path = path.copy()?;
    Ok(Sub::Check { path, version })
}

/// The parts of a multi, modelled as a list.
#[derive(Debug, Drop)]
pub struct Subs {
    parts: Vec<Sub>,
}

impl Model for Subs {
    ghost use Rattle.std.specs.Prelude.{List};
    ghost use Rattle.zk_table.specs.declared.sub.Sub.{Sub};

    ghost Value = { List Sub };

    ghost view = { λ subs. subs.parts.items };
}

impl Subs {
    /// Wraps `parts` without allocating.
    pub fn new(parts: Vec<Sub>) -> Subs
        ensures { result ≡ parts.items }
    {
        Subs { parts }
    }

    pub fn into_vec(self) -> Vec<Sub>
        ensures { result.items ≡ self }
    {
        let Subs { parts } = self;
        parts
    }

    pub fn as_slice(&self) -> &[Sub]
        ensures { result.now ≡ self.now }
    {
        self.parts.as_slice()
    }

    pub fn copy(&self) -> Result<Subs, NoMemory>
        ensures { IfOk result (λ copy. copy ≡ self.now) }
    {
        let mut parts = Vec::new(*self.parts.allocator());
        for part in &self.parts {
            parts.push(part.copy()?)?;
        }
        Ok(Subs { parts })
    }
}
