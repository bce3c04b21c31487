ghost use Rattle.std.specs.Prelude.{◌≡◌, pos, Some, None, IfOk};
ghost use Rattle.zk_table.specs.Answers.{plain_answer};

use std::marker::Model;
use zk_acl::Stat;
use zk_path::{NoMemory, Path};

/// The result of a transaction.
#[derive(Debug, Drop)]
pub struct TxnResult {
    pub zxid: i64,
    /// 0, or the error code.
    pub err: i32,
    /// The path that the operation names, applied or not.
    pub path: Option<Path>,
    /// The stat after an operation that was applied and has one.
    pub stat: Option<Stat>,
    /// The results of a multi's parts, in order.
    pub parts: PartResults,
}

impl TxnResult {
    pub fn copy(&self) -> Result<TxnResult, NoMemory>
        ensures { IfOk result (λ copy. copy ≡ self.now) }
    {
        Ok(TxnResult {
            path: copy_of(&self.path)?,
            parts: self.parts.copy()?,
            ..*self
        })
    }
}

/// The result of one part of a multi.
#[derive(Debug, Drop)]
pub struct PartResult {
    /// 0, or the error code.
    pub err: i32,
    /// The path that the part names, applied or not.
    pub path: Option<Path>,
    /// The stat right after a part that was applied and has one.
    pub stat: Option<Stat>,
}

impl PartResult {
    /// The result of an operation that names no path, applied or rejected.
    pub fn plain(err: i32) -> PartResult
        ensures { result ≡ plain_answer err }
    {
        PartResult {
            err,
            path: None,
            stat: None,
        }
    }

    /// The result of an operation that was rejected.
    pub fn refused(path: Path, err: i32) -> PartResult
        ensures { result ≡ record { err = err; path = Some path; stat = None } }
    {
        PartResult {
            err,
            path: Some(path),
            stat: None,
        }
    }

    /// The result of an operation that was applied.
    pub fn done(path: Path, stat: Option<Stat>) -> PartResult
        ensures { result ≡ record { err = pos 0; path = Some path; stat = stat } }
    {
        PartResult {
            err: 0,
            path: Some(path),
            stat,
        }
    }

    pub fn copy(&self) -> Result<PartResult, NoMemory>
        ensures { IfOk result (λ copy. copy ≡ self.now) }
    {
        let path = copy_of(&self.path)?;
        Ok(PartResult { path, ..*self })
    }
}

/// The results of a multi's parts, modelled as a list.
#[derive(Debug, Drop)]
pub struct PartResults {
    parts: Vec<PartResult>,
}

impl Model for PartResults {
    ghost use Rattle.std.specs.Prelude.{List};
    ghost use Rattle.zk_table.specs.declared.result.PartResult.{PartResult};

    ghost Value = { List PartResult };

    ghost view = { λ results. results.parts.items };
}

impl PartResults {
    /// Wraps `parts` without allocating.
    pub fn new(parts: Vec<PartResult>) -> PartResults
        ensures { result ≡ parts.items }
    {
        PartResults { parts }
    }

    pub fn into_vec(self) -> Vec<PartResult>
        ensures { result.items ≡ self }
    {
        let PartResults { parts } = self;
        parts
    }

    pub fn as_slice(&self) -> &[PartResult]
        ensures { result.now ≡ self.now }
    {
        self.parts.as_slice()
    }

    pub fn copy(&self) -> Result<PartResults, NoMemory>
        ensures { IfOk result (λ copy. copy ≡ self.now) }
    {
        let mut parts = Vec::new(*self.parts.allocator());
        for part in &self.parts {
            parts.push(part.copy()?)?;
        }
        Ok(PartResults { parts })
    }
}

/// A copy of the path in a result.
fn copy_of(path: &Option<Path>) -> Result<Option<Path>, NoMemory>
    ensures { IfOk result (λ copy. copy ≡ path.now) }
{
    match path {
        Some(path) => Ok(Some(path.copy()?)),
        None => Ok(None),
    }
}
