//! Owners and lists in records of 3.5 to 3.8 servers, read by the library. Mended records and
//! digests are tested in `checks/golden`.

use std::alloc::Global;
use zk_newer_records::{NewerFault, NewerRecord, read_newer};

/// A container is created.
const CONTAINER: &[u8] =
    b"\x01\0\0M#\xab\0\0\0\0\0\x03\0\0\0\0\0\0\0\x04\0\0\x01\xa2\x08u\xe3\xc1\0\0\0\x13\0\0\0\x02/c\0\0\0\0\
      \0\0\0\x01\0\0\0\x1f\0\0\0\x05world\0\0\0\x06anyone\0\0\0\x03\0\0\0\x02\0\0\0\x02\xbbn\x1ej";

/// A node with a time to live is created.
const LIVING: &[u8] =
    b"\x01\0\0M#\xab\0\0\0\0\0\x05\0\0\0\0\0\0\0\x06\0\0\x01\xa2\x08u\xe3\xcb\0\0\0\x15\0\0\0\x02/t\0\0\0\
      \x01t\0\0\0\x01\0\0\0\x1f\0\0\0\x05world\0\0\0\x06anyone\0\0\0\x04\0\0\0\0\0LK@\0\0\0\x02\0\0\0\x03a\
      \xc23\xab";

/// A session ends, and lists a node.
const CLOSING: &[u8] =
    b"\x01\0\0M#\xab\0\0\0\0\0\t\0\0\0\0\0\0\0\x10\0\0\x01\xa2\x08u\xf0/\xff\xff\xff\xf5\0\0\0\x01\0\0\0\x02\
      /e\0\0\0\x02\0\0\0\x01\xa4P[\x1d";

/// Parts of a multi delete a container, and create one and a node with a time to live.
const PARTS: &[u8] =
    b"\xc8\0\0?\xb3@\0\x04\0\0\0\x01\0\0\0\x01\0\0\0\xd9\0\0\x01\xa2\x08h\xb1\xba\0\0\0\x0e\0\0\0\x03\0\0\0\
      \x14\0\0\0\x06\0\0\0\x02/a\0\0\0\x13\0\0\0)\0\0\0\x02/c\xff\xff\xff\xff\0\0\0\x01\0\0\0\x1f\0\0\0\x05w\
      orld\0\0\0\x06anyone\0\0\0\x03\0\0\0\x15\0\0\02\0\0\0\x02/t\0\0\0\x01t\0\0\0\x01\0\0\0\x1f\0\0\0\x05wo\
      rld\0\0\0\x06anyone\0\0\0\x04\0\0\0\0\0LK@\0\0\0\x02\0\0\0..\xcb\x90\x83";

/// What is checked of a record.
#[derive(Clone, Copy)]
enum Asked {
    /// The owner of this node, as the last of `n` owners.
    Owner(&'static str, i64, usize),
    /// The one path that it lists.
    Listed(&'static str),
}

/// Reads a record. It has no contract: a proof would hold all facts of what was read.
fn read(alloc: Global, record: &[u8]) -> Result<NewerRecord, NewerFault> {
    read_newer(alloc, &mut None, record)
}

fn gives_owner(alloc: Global, newer: &NewerRecord, path: &str, owner: i64, of: usize) -> bool {
    match newer.owners(alloc) {
        Ok(owners) => {
            owners.len() == of
                && matches!(owners.last(), Some((at, is)) if at.text() == path && *is == owner)
        }
        Err(_) => false,
    }
}

fn is_so(alloc: Global, newer: &NewerRecord, asked: Asked) -> bool {
    match asked {
        Asked::Owner(path, owner, of) => gives_owner(alloc, newer, path, owner, of),
        Asked::Listed(path) => matches!(newer.listed(), [one] if one.text() == path),
    }
}

fn tells(alloc: Global, record: &[u8], asked: Asked) -> bool {
    match read(alloc, record) {
        Ok(newer) => is_so(alloc, &newer, asked),
        Err(_) => false,
    }
}

/// Of the nodes that a server removes by itself, it has an owner of its own making.
static ASKED: [(&[u8], Asked); 4] = [
    (CONTAINER, Asked::Owner("/c", i64::MIN, 1)),
    (LIVING, Asked::Owner("/t", -72_057_594_032_927_936, 1)),
    (PARTS, Asked::Owner("/t", -72_057_594_032_927_936, 2)),
    (CLOSING, Asked::Listed("/e")),
];

fn answers_hold(alloc: Global) -> bool {
    let mut all = true;
    for (record, asked) in &ASKED {
        all = tells(alloc, record, *asked) && all;
    }
    all
}

#[test]
fn owners_and_lists_are_told(rt: HostRuntime) {
    assert!(rt; answers_hold(rt.alloc()));
}
