//! The contents of a snapshot file.

ghost use Rattle.std.specs.Prelude.{◌≡◌};

use std::marker::Model;
use zk_acl::Acls;
use zk_path::Path;
use zk_table::Content;

/// A session and its timeout in milliseconds.
#[derive(Debug, Drop)]
pub struct Lease {
    pub session: i64,
    pub timeout: i32,
}

/// An access control list, and the number that nodes name it by.
#[derive(Debug, Drop)]
pub struct Access {
    pub number: i64,
    pub acl: Acls,
}

/// Zxids and times in milliseconds: the first fields of `StatPersisted`.
#[derive(Debug, Drop)]
pub struct Moments {
    pub czxid: i64,
    pub mzxid: i64,
    pub ctime: i64,
    pub mtime: i64,
}

/// The versions of `StatPersisted`.
#[derive(Debug, Drop)]
pub struct Versions {
    pub version: i32,
    /// `cversion` as it is stored: the number of children that were ever created.
    pub creates: i32,
    pub aversion: i32,
}

/// A node without its path: `DataNode`, with `StatPersisted`.
#[derive(Debug, Drop)]
pub struct Kept {
    pub content: Option<Content>,
    /// The number of its access control list; -1 is open to all.
    pub access: i64,
    pub moments: Moments,
    pub versions: Versions,
    /// `ephemeralOwner`: -2^63 for a container, negative above -2^56 for a node with a time to
    /// live.
    pub owner: i64,
    pub pzxid: i64,
}

/// A stored node.
#[derive(Debug, Drop)]
pub struct Stored {
    pub path: Path,
    pub kept: Kept,
}

/// The digest of the server's tree after the nodes were written: `ZxidDigest`.
#[derive(Debug, Drop)]
pub struct Claim {
    pub zxid: i64,
    pub version: i32,
    pub sum: i64,
}

/// Sessions, in the order of the file.
#[derive(Debug, Drop)]
pub struct Leases {
    leases: Vec<Lease>,
}

impl Model for Leases {
    ghost use Rattle.std.specs.Prelude.{List};
    ghost use Rattle.zk_snapshot.specs.declared.snapshot.Lease.{Lease};

    ghost Value = { List Lease };

    ghost view = { λ all. all.leases.items };
}

impl Leases {
    pub fn new(leases: Vec<Lease>) -> Leases
        ensures { result ≡ leases.items }
    {
        Leases { leases }
    }

    pub fn as_slice(&self) -> &[Lease]
        ensures { result.now ≡ self.now }
    {
        self.leases.as_slice()
    }
}

/// Access control lists, in the order of the file.
#[derive(Debug, Drop)]
pub struct Accesses {
    accesses: Vec<Access>,
}

impl Model for Accesses {
    ghost use Rattle.std.specs.Prelude.{List};
    ghost use Rattle.zk_snapshot.specs.declared.snapshot.Access.{Access};

    ghost Value = { List Access };

    ghost view = { λ all. all.accesses.items };
}

impl Accesses {
    pub fn new(accesses: Vec<Access>) -> Accesses
        ensures { result ≡ accesses.items }
    {
        Accesses { accesses }
    }

    pub fn as_slice(&self) -> &[Access]
        ensures { result.now ≡ self.now }
    {
        self.accesses.as_slice()
    }
}

/// Nodes, in the order of the file.
#[derive(Debug, Drop)]
pub struct StoredNodes {
    nodes: Vec<Stored>,
}

impl Model for StoredNodes {
    ghost use Rattle.std.specs.Prelude.{List};
    ghost use Rattle.zk_snapshot.specs.declared.snapshot.Stored.{Stored};

    ghost Value = { List Stored };

    ghost view = { λ all. all.nodes.items };
}

impl StoredNodes {
    pub fn new(nodes: Vec<Stored>) -> StoredNodes
        ensures { result ≡ nodes.items }
    {
        StoredNodes { nodes }
    }

    pub fn as_slice(&self) -> &[Stored]
        ensures { result.now ≡ self.now }
    {
        self.nodes.as_slice()
    }
}

/// The bytes before the first seal.
#[derive(Debug, Drop)]
pub struct Contents {
    pub dbid: i64,
    pub leases: Leases,
    pub accesses: Accesses,
    pub nodes: StoredNodes,
}

/// A snapshot file.
#[derive(Debug, Drop)]
pub struct Snapshot {
    pub contents: Contents,
    /// From 3.6 on, unless digests are turned off.
    pub claim: Option<Claim>,
}
