//! The parts of a multi: their effects and results.

ghost use Rattle.std.specs.Prelude.{◌≡◌, OnOk, IfOk, pos, if◌then◌else◌};
ghost use Rattle.std.specs.List.{list_any};
ghost use Rattle.zk_table.specs.Codes.{runtime_inconsistency};
ghost use Rattle.zk_table.specs.Parts.{is_error};
ghost use Rattle.zk_table.specs.Multis.{apply_part, nodes_after, answers_of, answers_unapplied, first_refusal};

use crate::codes::RUNTIME_INCONSISTENCY;
use crate::nodes::Nodes;
use crate::{PartResult, Sub, Txn};
use std::alloc::Global;
use zk_path::NoMemory;

impl Nodes {
    /// Applies the parts in order. After [`NoMemory`] some of them may be applied.
    pub(crate) fn apply_parts(
        &mut self,
        txn: &Txn,
        parts: &[Sub],
    ) -> Result<Vec<PartResult>, NoMemory>
        ensures nodes { OnOk result (self.new ≡ nodes_after txn.now self.old parts.now) }
        ensures answers { IfOk result (λ answers. answers.items ≡ answers_of txn.now self.old parts.now) }
    {
        let mut answers = Vec::new(self.allocator());
        for part in parts {
            let answer = self.apply_part(txn, part)?;
            answers.push(answer)?;
        }
        Ok(answers)
    }

    fn apply_part(&mut self, txn: &Txn, part: &Sub) -> Result<PartResult, NoMemory>
        ensures { IfOk result (λ answer. apply_part txn.now self.old part.now ≡ record { nodes = self.new; answer = answer }) }
    {
        match part {
            Sub::Create {
                path,
                content,
                acl,
                ephemeral,
                count,
            } => self.create(txn, path, content, acl, *ephemeral, *count),
            Sub::Delete { path } => self.delete(txn, path),
            Sub::SetData {
                path,
                content,
                version,
            } => self.set_data(txn, path, content, *version),
            Sub::Check { path, .. } => Ok(PartResult::done(path.copy()?, None)),
            Sub::Error { code } => Ok(PartResult::plain(*code)),
        }
    }
}

/// Whether a part is an error, which means that none is applied.
pub fn hold_error(parts: &[Sub]) -> bool
    ensures { result ≡ list_any is_error parts.now }
{
    parts.iter().any(|part| part.is_error())
}

/// The results of parts of which none is applied, because one is an error.
pub fn answers_unapplied(alloc: Global, parts: &[Sub]) -> Result<Vec<PartResult>, NoMemory>
    ensures { IfOk result (λ answers. answers.items ≡ answers_unapplied (pos 0) parts.now) }
{
    let mut answers = Vec::new(alloc);
    let mut code = 0;
    for part in parts {
        answers.push(part.answer_unapplied(code)?)?;
        code = code_behind(part, code);
    }
    Ok(answers)
}

/// The code for the parts after this one, given the code for those before it.
fn code_behind(part: &Sub, code: i32) -> i32
    ensures { result ≡ (if is_error part.now then runtime_inconsistency else code) }
{
    if part.is_error() {
        RUNTIME_INCONSISTENCY
    } else {
        code
    }
}

/// The code of the first part that was rejected; 0 without one.
pub fn first_refusal(answers: &[PartResult]) -> i32
    ensures { result ≡ first_refusal answers.now }
{
    for answer in answers {
        if answer.err != 0 {
            return answer.err;
        }
    }
    0
}
