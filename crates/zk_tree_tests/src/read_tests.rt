//! Reads of the machine, compared with those of the plain table. (Replies to clients are tested in
//! checks/golden/machine.golden, except for a node with an empty access control list, which no
//! request creates.)

use crate::machine_tests::Held;
use std::alloc::Global;
use zk_machine::Machine;
use zk_path::{NoMemory, Path};
use zk_table::{Names, ReadCall, ReadReply};

/// The kind of a read.
#[derive(Clone, Copy)]
enum Ask {
    Content,
    Stat,
    Names,
    Acl,
}

/// A read of each kind, one that fails, and one of the node with an empty list.
static READS: [(Ask, &str); 6] = [
    (Ask::Content, "/a"),
    (Ask::Stat, "/a"),
    (Ask::Names, "/"),
    (Ask::Acl, "/a"),
    (Ask::Names, "/x"),
    (Ask::Content, "/b"),
];

/// The reply to the last read.
const LAST: &str =
    "Content { content: Some(Content { bytes: [] }), stat: Stat { czxid: 19, mzxid: 19, ctime: 1000, mtime: 1000, version: 0, cversion: 0, aversion: 0, ephemeral_owner: 0, data_length: 0, num_children: 0, pzxid: 19 } }\n";

/// Returns the call of a read, by a copy of its query.
fn call_of(alloc: Global, ask: Ask, text: &str) -> Result<ReadCall, NoMemory> {
    let path = Path::read(alloc, text).ok().ok_or(NoMemory)?;
    let call = match ask {
        Ask::Content => ReadCall::GetData { path },
        Ask::Stat => ReadCall::Exists { path },
        Ask::Names => ReadCall::GetChildren { path },
        Ask::Acl => ReadCall::GetAcl { path },
    };
    call.copy()
}

/// Appends a reply, if there is one.
fn push_told<E>(text: &mut String, reply: &Result<ReadReply, E>) -> bool {
    match reply {
        Ok(reply) => write!(text, "{reply:?}\n").is_ok(),
        Err(_) => false,
    }
}

/// Copies a reply, whose names are taken apart and put together again.
fn copied(reply: &ReadReply) -> Result<ReadReply, NoMemory> {
    let copy = reply.copy()?;
    if let ReadReply::Children { names, stat } = &copy {
        let names = Names::new(names.copy()?.into_vec());
        return Ok(ReadReply::Children { names, stat: *stat });
    }
    Ok(copy)
}

/// Appends the copy of a reply, if there is one.
fn push_copied<E>(text: &mut String, reply: &Result<ReadReply, E>) -> bool {
    match reply {
        Ok(reply) => push_told(text, &copied(reply)),
        Err(_) => false,
    }
}

/// Appends the machine's reply to a read, and the plain table's.
fn tell(held: &mut Held, machine: &Machine, ask: Ask, path: &str) -> bool {
    match call_of(*held.other.allocator(), ask, path) {
        Ok(call) => {
            push_copied(&mut held.machine, &machine.read(&call, &[]))
                && push_told(&mut held.other, &held.plain.read(&call, &[]))
        }
        Err(_) => false,
    }
}

/// Does the same with each read, and returns whether the last has its expected reply.
pub(crate) fn tell_all(held: &mut Held, machine: &Machine) -> bool {
    for (ask, path) in &READS {
        if !tell(held, machine, *ask, path) {
            return false;
        }
    }
    held.other.as_str().ends_with(LAST)
}
