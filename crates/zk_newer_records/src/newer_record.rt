//! The record of a 3.5 to 3.8 server: the transaction that it represents, and its encoding.

ghost use Rattle.std.specs.Prelude.{◌≡◌};
ghost use Rattle.zk_newer_records.specs.NewerRecords.{listed_of};

use crate::parts::PartEncodings;
use std::marker::Model;
use zk_path::Path;
use zk_table::Txn;

/// The paths in the record of a closed session, modelled as a list.
#[derive(Debug, Drop)]
pub struct ClosedPaths {
    paths: Vec<Path>,
}

impl Model for ClosedPaths {
    ghost use Rattle.std.specs.Prelude.{List, ℕ};

    ghost Value = { List (List ℕ) };

    ghost view = { λ listed. listed.paths.items };
}

impl ClosedPaths {
    /// Wraps `paths` without allocating.
    pub fn new(paths: Vec<Path>) -> ClosedPaths
        ensures { result ≡ paths.items }
    {
        ClosedPaths { paths }
    }

    pub fn as_slice(&self) -> &[Path]
        ensures { result.now ≡ self.now }
    {
        self.paths.as_slice()
    }
}

/// The encoding of an operation.
#[derive(Debug, Drop)]
pub enum Encoding {
    /// That of 3.4; for a multi, the encodings of its parts.
    Own,
    /// A create that returns the node's stat.
    Create2,
    /// A create, encoded as that of a container.
    Container,
    /// A create, encoded as that of a node with a time to live, in milliseconds.
    Ttl { ttl: i64 },
    /// A delete, encoded as that of a container.
    DeletedContainer,
    /// A setData, encoded as that of the ensemble's members.
    Reconfig,
    /// A multi of one check, encoded as the check that occurs alone.
    CheckAlone,
    /// A closed session, with the paths of the nodes to delete, in any order.
    ClosePaths { listed: ClosedPaths },
    Parts { forms: PartEncodings },
}

/// The 3.4 transaction that a 3.5 to 3.8 server's record represents, and the encoding of the
/// record.
#[derive(Debug, Drop)]
pub struct NewerRecord {
    pub txn: Txn,
    pub form: Encoding,
    /// The server's digest of its tree after the record, if it wrote one: a sum over the nodes.
    pub digest: Option<i64>,
}

impl NewerRecord {
    /// The paths in the record of a closed session; none for any other record.
    pub fn listed(&self) -> &[Path]
        ensures { result.now ≡ listed_of self.now }
    {
        match &self.form {
            Encoding::ClosePaths { listed } => listed.as_slice(),
            _ => &[],
        }
    }
}
