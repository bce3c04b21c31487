//! The parts of a multi, each prepared on the nodes after those before it.

ghost use Rattle.std.specs.Prelude.{◌≡◌, IfOk};
ghost use Rattle.zk_requests.specs.Refusals.{Gives};
ghost use Rattle.zk_requests.specs.Requests.{part_on, next_part, parts_on};

use crate::Overlay;
use crate::call::Part;
use crate::create::create;
use crate::delete::delete;
use crate::refusal::Refusal;
use crate::versions::{check, set_data};
use zk_acl::Id;
use zk_path::NoMemory;
use zk_table::codes::RUNTIME_INCONSISTENCY;
use zk_table::{Sub, Txn};

/// Prepares a part.
fn part_on(nodes: &Overlay<'_>, auths: &[Id], part: &Part) -> Result<Sub, Refusal>
    ensures { Gives result (part_on nodes.now auths.now part.now) }
{
    match part {
        Part::Create {
            path,
            content,
            acl,
            flags,
        } => create(nodes, auths, path.as_str(), content, acl, *flags),
        Part::Delete { path, version } => delete(nodes, auths, path.as_str(), *version),
        Part::SetData {
            path,
            content,
            version,
        } => set_data(nodes, auths, path.as_str(), content, *version),
        Part::Check { path, version } => check(nodes, auths, path.as_str(), *version),
    }
}

/// Prepares a part, or puts an error in its place. After a rejected part no further one is tested.
fn next_part(nodes: &Overlay<'_>, auths: &[Id], refused: bool, part: &Part) -> Result<Sub, NoMemory>
    ensures { IfOk result (λ made. made ≡ next_part nodes.now auths.now refused part.now) }
{
    if refused {
        return Ok(Sub::Error {
            code: RUNTIME_INCONSISTENCY,
        });
    }
    match part_on(nodes, auths, part) {
        Ok(made) => Ok(made),
        Err(Refusal::Code(code)) => Ok(Sub::Error { code }),
        Err(Refusal::NoMemory) => Err(NoMemory),
    }
}

/// Prepares the parts of a multi with this header, in order.
pub(crate) fn parts_on(
    nodes: Overlay<'_>,
    header: &Txn,
    auths: &[Id],
    parts: &[Part],
) -> Result<Vec<Sub>, NoMemory>
    ensures { IfOk result (λ made. made.items ≡ parts_on header.now auths.now nodes.entry parts.now) }
{
    let mut made = Vec::new(nodes.allocator());
    let mut nodes = nodes;
    let mut refused = false;
    for part in parts {
        let next = next_part(&nodes, auths, refused, part)?;
        nodes = nodes.with_part(header, &next)?;
        refused = next.is_error();
        made.push(next)?;
    }
    Ok(made)
}
