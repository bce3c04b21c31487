//! Frames between kazoo 2.8 or zkCli 3.8 and a ZooKeeper 3.8.0 server, as recorded: requests without
//! their length, replies with it.

/// `create /f`.
pub const CREATE: &[u8] =
    b"\0\0\0\x01\0\0\0\x01\0\0\0\x02/f\0\0\0\x03abc\0\0\0\x01\0\0\0\x1f\0\0\0\x05worl\
      d\0\0\0\x06anyone\0\0\0\0";

/// Its reply: the path, at transaction 2.
pub const CREATE_REPLY: &[u8] = b"\0\0\0\x16\0\0\0\x01\0\0\0\0\0\0\0\x02\0\0\0\0\0\0\0\x02/f";

/// `create2 /f2`, with one byte.
pub const CREATE2: &[u8] =
    b"\0\0\0\x03\0\0\0\x0f\0\0\0\x03/f2\0\0\0\x01x\0\0\0\x01\0\0\0\x1f\0\0\0\x05world\
      \0\0\0\x06anyone\0\0\0\0";

/// Its reply: path and stat, at transaction 4.
pub const CREATE2_REPLY: &[u8] =
    b"\0\0\0[\0\0\0\x03\0\0\0\0\0\0\0\x04\0\0\0\0\0\0\0\x03/f2\0\0\0\0\0\0\0\x04\0\0\0\
      \0\0\0\0\x04\0\0\x01\xa2\x20\x11-\x12\0\0\x01\xa2\x20\x11-\x12\0\0\0\0\0\0\0\0\0\
      \0\0\0\0\0\0\0\0\0\0\0\0\0\0\x01\0\0\0\0\0\0\0\0\0\0\0\x04";

/// `exists /none`.
pub const NO_NODE: &[u8] = b"\0\0\0\x05\0\0\0\x03\0\0\0\x05/none\0";

/// Its reply: -101.
pub const NO_NODE_REPLY: &[u8] = b"\0\0\0\x10\0\0\0\x05\0\0\0\0\0\0\0\x04\xff\xff\xff\x9b";

/// `getData /f` with a watch.
pub const GET_DATA: &[u8] = b"\0\0\0\x06\0\0\0\x04\0\0\0\x02/f\x01";

/// Its reply: three bytes and a stat.
pub const GET_DATA_REPLY: &[u8] =
    b"\0\0\0[\0\0\0\x06\0\0\0\0\0\0\0\x04\0\0\0\0\0\0\0\x03abc\0\0\0\0\0\0\0\x02\0\0\0\
      \0\0\0\0\x02\0\0\x01\xa2\x20\x11,\x1a\0\0\x01\xa2\x20\x11,\x1a\0\0\0\0\0\0\0\x01\
      \0\0\0\0\0\0\0\0\0\0\0\0\0\0\0\x03\0\0\0\x01\0\0\0\0\0\0\0\x03";

/// The event of its watch.
pub const CHANGED_EVENT: &[u8] =
    b"\0\0\0\x1e\xff\xff\xff\xff\xff\xff\xff\xff\xff\xff\xff\xff\0\0\0\0\0\0\0\x03\0\0\
      \0\x03\0\0\0\x02/f";

/// `getChildren /f`.
pub const GET_CHILDREN: &[u8] = b"\0\0\0\x08\0\0\0\x08\0\0\0\x02/f\0";

/// Its reply: one name.
pub const GET_CHILDREN_REPLY: &[u8] =
    b"\0\0\0$\0\0\0\x08\0\0\0\0\0\0\0\x05\0\0\0\0\0\0\0\x01\0\0\0\x0cq-0000000000";

/// `sync /f`.
pub const SYNC: &[u8] = b"\0\0\0\x0d\0\0\0\x09\0\0\0\x02/f";

/// Its reply: the path.
pub const SYNC_REPLY: &[u8] = b"\0\0\0\x16\0\0\0\x0d\0\0\0\0\0\0\0\x06\0\0\0\0\0\0\0\x02/f";

/// A multi of create, setData, check and delete.
pub const MULTI: &[u8] =
    b"\0\0\0\x0e\0\0\0\x0e\0\0\0\x01\0\xff\xff\xff\xff\0\0\0\x02/m\0\0\0\x011\0\0\0\x01\
      \0\0\0\x1f\0\0\0\x05world\0\0\0\x06anyone\0\0\0\0\0\0\0\x05\0\xff\xff\xff\xff\0\
      \0\0\x02/m\0\0\0\x012\xff\xff\xff\xff\0\0\0\x0d\0\xff\xff\xff\xff\0\0\0\x02/m\0\
      \0\0\x01\0\0\0\x02\0\xff\xff\xff\xff\0\0\0\x02/m\xff\xff\xff\xff\xff\xff\xff\xff\
      \x01\xff\xff\xff\xff";

/// Its reply.
pub const MULTI_REPLY: &[u8] =
    b"\0\0\0\x87\0\0\0\x0e\0\0\0\0\0\0\0\x07\0\0\0\0\0\0\0\x01\0\0\0\0\0\0\0\0\x02/m\0\
      \0\0\x05\0\0\0\0\0\0\0\0\0\0\0\0\x07\0\0\0\0\0\0\0\x07\0\0\x01\xa2\x20\x11-\xe7\
      \0\0\x01\xa2\x20\x11-\xe7\0\0\0\x01\0\0\0\0\0\0\0\0\0\0\0\0\0\0\0\0\0\0\0\x01\0\
      \0\0\0\0\0\0\0\0\0\0\x07\0\0\0\x0d\0\0\0\0\0\0\0\0\x02\0\0\0\0\0\xff\xff\xff\xff\
      \x01\xff\xff\xff\xff";

/// A multi whose second part fails with -103.
pub const FAILED_MULTI: &[u8] =
    b"\0\0\0\x0f\0\0\0\x0e\0\0\0\x01\0\xff\xff\xff\xff\0\0\0\x02/m\0\0\0\x011\0\0\0\x01\
      \0\0\0\x1f\0\0\0\x05world\0\0\0\x06anyone\0\0\0\0\0\0\0\x0d\0\xff\xff\xff\xff\0\
      \0\0\x02/f\0\0\0\x09\0\0\0\x02\0\xff\xff\xff\xff\0\0\0\x02/m\xff\xff\xff\xff\xff\
      \xff\xff\xff\x01\xff\xff\xff\xff";

/// Its reply: a code for each part.
pub const FAILED_MULTI_REPLY: &[u8] =
    b"\0\0\0@\0\0\0\x0f\0\0\0\0\0\0\0\x08\0\0\0\0\xff\xff\xff\xff\0\0\0\0\0\0\0\0\0\xff\
      \xff\xff\xff\0\xff\xff\xff\x99\xff\xff\xff\x99\xff\xff\xff\xff\0\xff\xff\xff\xfe\
      \xff\xff\xff\xfe\xff\xff\xff\xff\x01\xff\xff\xff\xff";

/// A ping.
pub const PING: &[u8] = b"\xff\xff\xff\xfe\0\0\0\x0b";

/// Its reply, at transaction 9.
pub const PING_REPLY: &[u8] = b"\0\0\0\x10\xff\xff\xff\xfe\0\0\0\0\0\0\0\x09\0\0\0\0";

/// `closeSession`.
pub const CLOSE: &[u8] = b"\0\0\0\x12\xff\xff\xff\xf5";

/// Its reply.
pub const CLOSE_REPLY: &[u8] = b"\0\0\0\x10\0\0\0\x12\0\0\0\0\0\0\0\x0a\0\0\0\0";

/// `auth` of `u:p`.
pub const AUTH: &[u8] = b"\xff\xff\xff\xfc\0\0\0d\0\0\0\0\0\0\0\x06digest\0\0\0\x03u:p";

/// Its reply.
pub const AUTH_REPLY: &[u8] = b"\0\0\0\x10\xff\xff\xff\xfc\0\0\0\0\0\0\0\0\0\0\0\0";

/// `getEphemerals /j`.
pub const EPHEMERALS: &[u8] = b"\0\0\0\x06\0\0\0g\0\0\0\x02/j";

/// Its reply: one path.
pub const EPHEMERALS_REPLY: &[u8] =
    b"\0\0\0\x1c\0\0\0\x06\0\0\0\0\0\0\0\x0d\0\0\0\0\0\0\0\x01\0\0\0\x04/j/e";

/// `getAllChildrenNumber /j`.
pub const COUNT: &[u8] = b"\0\0\0\x07\0\0\0h\0\0\0\x02/j";

/// Its reply: 1.
pub const COUNT_REPLY: &[u8] = b"\0\0\0\x14\0\0\0\x07\0\0\0\0\0\0\0\x0d\0\0\0\0\0\0\0\x01";

/// `removeWatches /j` of children.
pub const REMOVE_WATCHES: &[u8] = b"\0\0\0\x09\0\0\0\x12\0\0\0\x02/j\0\0\0\x01";

/// Its reply.
pub const REMOVE_WATCHES_REPLY: &[u8] = b"\0\0\0\x10\0\0\0\x09\0\0\0\0\0\0\0\x0d\0\0\0\0";

/// `setWatches` since transaction 13: data of `/j`, existence of `/nope`, children of `/j`.
pub const SET_WATCHES: &[u8] =
    b"\0\0\0\x0c\0\0\0e\0\0\0\0\0\0\0\x0d\0\0\0\x01\0\0\0\x02/j\0\0\0\x01\0\0\0\x05/n\
      ope\0\0\0\x01\0\0\0\x02/j";

/// Its reply, without an event.
pub const SET_WATCHES_REPLY: &[u8] = b"\0\0\0\x10\0\0\0\x0c\0\0\0\0\0\0\0\x0d\0\0\0\0";
