//! Identities, access control lists and a node's stat; the permissions that a list grants, and the
//! form in which it is stored.
//!
//! `zookeeper.jute`, module `org.apache.zookeeper.data`; ZooKeeper Programmer's Guide, "ZooKeeper
//! access control using ACLs".
#![tactic(auto)]

mod access;
mod acl;
mod digests;
mod fault;
mod fixing;
mod ids;
mod stat;
mod text;

pub use access::{ADMIN, ALL, CREATE, DELETE, READ, WRITE, allows};
pub use acl::{Acl, Acls, Id};
pub use digests::digest_id;
pub use fault::AclFault;
pub use fixing::fix;
pub use ids::Ids;
pub use stat::Stat;
pub use text::Text;
