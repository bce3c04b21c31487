//! Turns a call into one transaction, on a machine's state.

ghost use Rattle.std.specs.Prelude.{◌≡◌, ℤ, Result, false, IfOk};
ghost use Rattle.zk_requests.specs.Refusals.{Gives};
ghost use Rattle.zk_table.specs.declared.sub.Sub.{Sub};
ghost use Rattle.zk_table.specs.declared.txn.Op.TheVariants as ops;
ghost use Rattle.zk_requests.specs.Requests.{alone, op_of, op_on, parts_on, opens, is_open, header_of, asked_on, within_limit, meaning_of};

use crate::Overlay;
use crate::call::{Call, Part, Request};
use crate::create::create;
use crate::delete::delete;
use crate::multi::parts_on;
use crate::refusal::Refusal;
use crate::texts::demand;
use crate::timeout::clamp;
use crate::versions::{set_acl, set_data};
use std::alloc::Global;
use zk_acl::Id;
use zk_machine::Machine;
use zk_path::NoMemory;
use zk_records::size;
use zk_table::codes::{BAD_ARGUMENTS, SESSION_EXPIRED};
use zk_table::{Op, Sub, Subs, Txn};

/// The greatest number of bytes of a prepared record.
const LONGEST_RECORD: u64 = 1_048_576;

/// Turns a part into an operation of its own; no request is only a check.
fn op_of(part: Sub) -> Op
    ensures { result ≡ op_of part }
{
    match part {
        Sub::Create {
            path,
            content,
            acl,
            ephemeral,
            count,
        } => Op::Create {
            path,
            content,
            acl,
            ephemeral,
            count,
        },
        Sub::Delete { path } => Op::Delete { path },
        Sub::SetData {
            path,
            content,
            version,
        } => Op::SetData {
            path,
            content,
            version,
        },
        Sub::Check { .. } => Op::Error {
            code: BAD_ARGUMENTS,
        },
        Sub::Error { code } => Op::Error { code },
    }
}

/// The nodes of a machine, without changes.
fn nodes_of(alloc: Global, machine: &Machine) -> Overlay<'_>
    requires { machine.now.failed ≡ false }
    ensures { result ≡ machine.now.state.nodes }
{
    let Ok(tree) = machine.tree() else {
        unreachable!()
    };
    Overlay::new(alloc, tree)
}

fn is_open(machine: &Machine, session: i64) -> bool
    requires { machine.now.failed ≡ false }
    ensures { result ≡ is_open machine.now.state session }
{
    let Ok(timeout) = machine.session(session.cast_unsigned()) else {
        unreachable!()
    };
    timeout.is_some()
}

/// Turns a part that is a whole request into its operation.
fn alone(made: Result<Sub, Refusal>) -> Result<Op, Refusal>
    ensures { (said : Result Sub ℤ) → Gives made said → Gives result (alone said) }
{
    Ok(op_of(made?))
}

/// Prepares the parts of a multi under this header.
fn multi_on(nodes: Overlay<'_>, header: &Txn, auths: &[Id], parts: &[Part]) -> Result<Op, NoMemory>
    ensures { IfOk result (λ op. op ≡ ops.Multi (parts_on header.now auths.now nodes.entry parts.now)) }
{
    let parts = parts_on(nodes, header, auths, parts)?;
    Ok(Op::Multi {
        parts: Subs::new(parts),
    })
}

/// Prepares a request under this header.
fn op_on(
    alloc: Global,
    machine: &Machine,
    header: &Txn,
    auths: &[Id],
    request: &Request,
) -> Result<Op, Refusal>
    requires { machine.now.failed ≡ false }
    ensures { Gives result (op_on machine.now.state header.now auths.now request.now) }
{
    let nodes = nodes_of(alloc, machine);
    match request {
        Request::Create {
            path,
            content,
            acl,
            flags,
        } => alone(create(&nodes, auths, path.as_str(), content, acl, *flags)),
        Request::Delete { path, version } => alone(delete(&nodes, auths, path.as_str(), *version)),
        Request::SetData {
            path,
            content,
            version,
        } => alone(set_data(&nodes, auths, path.as_str(), content, *version)),
        Request::SetAcl { path, acl, version } => {
            set_acl(&nodes, auths, path.as_str(), acl, *version)
        }
        Request::Multi { parts } => Ok(multi_on(nodes, header, auths, parts.as_slice())?),
        Request::OpenSession { timeout } => Ok(Op::OpenSession {
            timeout: clamp(*timeout),
        }),
        Request::CloseSession => Ok(Op::CloseSession),
    }
}

/// Whether a request opens a session, which then has the zxid as its number.
fn opens(request: &Request) -> bool
    ensures { result ≡ opens request.now }
{
    matches!(request, Request::OpenSession { .. })
}

/// The header of a call, with an operation still to be filled in.
fn header_of(call: &Call, zxid: i64) -> Txn
    ensures { result ≡ header_of call.exit.now zxid }
{
    let session = if opens(&call.request) {
        zxid
    } else {
        call.session
    };
    Txn {
        session,
        cxid: call.cxid,
        zxid,
        time: call.now,
        op: Op::CloseSession,
    }
}

/// Prepares a call under its header.
fn asked_on(alloc: Global, machine: &Machine, call: &Call, header: &Txn) -> Result<Op, Refusal>
    requires { machine.now.failed ≡ false }
    ensures { (zxid : ℤ) → header.now ≡ header_of call.exit.now zxid → Gives result (asked_on machine.now.state call.exit.now zxid) }
{
    demand(
        opens(&call.request) || is_open(machine, call.session),
        SESSION_EXPIRED,
    )?;
    op_on(alloc, machine, header, call.auths.as_slice(), &call.request)
}

/// Replaces a transaction whose record is too long by an error.
fn within_limit(txn: Txn) -> Txn
    ensures { result ≡ within_limit txn }
{
    if size(&txn) > LONGEST_RECORD {
        Txn {
            op: Op::Error {
                code: BAD_ARGUMENTS,
            },
            ..txn
        }
    } else {
        txn
    }
}

/// Returns the transaction of a call on a machine's state, at a zxid.
pub fn meaning_of(alloc: Global, machine: &Machine, call: &Call, zxid: i64) -> Result<Txn, NoMemory>
    requires { machine.now.failed ≡ false }
    ensures { IfOk result (λ txn. txn ≡ meaning_of machine.now.state call.exit.now zxid) }
{
    let header = header_of(call, zxid);
    let op = match asked_on(alloc, machine, call, &header) {
        Ok(op) => op,
        Err(Refusal::Code(code)) => Op::Error { code },
        Err(Refusal::NoMemory) => return Err(NoMemory),
    };
    Ok(within_limit(Txn { op, ..header }))
}
