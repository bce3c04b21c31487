//! The types of operations introduced after 3.4, as later servers number them (`ZooDefs.OpCode`).

/// A create that returns the node's stat.
pub const CREATE2: i32 = 15;

/// The members of the ensemble change.
pub const RECONFIG: i32 = 16;

/// A node that the server deletes after its last child was deleted.
pub const CREATE_CONTAINER: i32 = 19;

/// The server deleted a container, or an expired node with a time to live.
pub const DELETE_CONTAINER: i32 = 20;

/// A node that the server deletes after it was unchanged and without children for some time.
pub const CREATE_TTL: i32 = 21;
