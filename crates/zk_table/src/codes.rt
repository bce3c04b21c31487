//! Error codes, as the 3.4 server and its clients number them.

pub const RUNTIME_INCONSISTENCY: i32 = -2;

pub const BAD_ARGUMENTS: i32 = -8;

pub const NO_NODE: i32 = -101;

pub const NO_AUTH: i32 = -102;

pub const BAD_VERSION: i32 = -103;

pub const NO_CHILDREN_FOR_EPHEMERALS: i32 = -108;

pub const NODE_EXISTS: i32 = -110;

pub const NOT_EMPTY: i32 = -111;

pub const SESSION_EXPIRED: i32 = -112;

pub const INVALID_ACL: i32 = -114;
