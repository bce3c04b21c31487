//! Frames of a client and of its server, by `zookeeper.jute` and the Programmer's Guide. Written by
//! a script that shares no code with this repository.

/// A client asks for a session of six seconds.
pub const CONNECT: &[u8] =
    b"\0\0\0-\0\0\0\0\0\0\0\0\0\0\0\0\0\0\x17p\0\0\0\0\0\0\0\0\0\0\0\x10\0\0\0\0\0\0\0\0\0\0\0\
    \0\0\0\0\0\0";

/// It has the number of the first transaction. The password is a SHA-1.
pub const CONNECTED: &[u8] =
    b"\0\0\0%\0\0\0\0\0\0\x17p\0\0\0\x01\0\0\0\x01\0\0\0\x10'\x9ds\xeb\xf0D\x87\x85a\xfeqqT\
    \xa9\x866\0";

/// The client creates `/a`.
pub const CREATE: &[u8] =
    b"\0\0\03\0\0\0\x01\0\0\0\x01\0\0\0\x02/a\0\0\0\x02hi\0\0\0\x01\0\0\0\x1f\0\0\0\x05world\0\
    \0\0\x06anyone\0\0\0\0";

/// The reply has the path.
pub const CREATED: &[u8] = b"\0\0\0\x16\0\0\0\x01\0\0\0\x01\0\0\0\x02\0\0\0\0\0\0\0\x02/a";

/// It reads the stat of `/a` with a watch, writes, and reads, all at once.
pub const LOOK_AND_SET: &[u8] =
    b"\0\0\0\x0f\0\0\0\x02\0\0\0\x03\0\0\0\x02/a\x01\0\0\0\x19\0\0\0\x03\0\0\0\x05\0\0\0\x02/a\
    \0\0\0\x03bye\xff\xff\xff\xff\0\0\0\x0f\0\0\0\x04\0\0\0\x04\0\0\0\x02/a\0";

/// The first read's reply, the write's event and its reply, and what the second read finds.
pub const LOOKED_AND_SET: &[u8] =
    b"\0\0\0T\0\0\0\x02\0\0\0\x01\0\0\0\x02\0\0\0\0\0\0\0\x01\0\0\0\x02\0\0\0\x01\0\0\0\x02\0\
    \0\0\0\0\0\x13\x88\0\0\0\0\0\0\x13\x88\0\0\0\0\0\0\0\0\0\0\0\0\0\0\0\0\0\0\0\0\0\0\0\x02\
    \0\0\0\0\0\0\0\x01\0\0\0\x02\0\0\0\x1e\xff\xff\xff\xff\xff\xff\xff\xff\xff\xff\xff\xff\0\
    \0\0\0\0\0\0\x03\0\0\0\x03\0\0\0\x02/a\0\0\0T\0\0\0\x03\0\0\0\x01\0\0\0\x03\0\0\0\0\0\0\
    \0\x01\0\0\0\x02\0\0\0\x01\0\0\0\x03\0\0\0\0\0\0\x13\x88\0\0\0\0\0\0\x13\x88\0\0\0\x01\0\
    \0\0\0\0\0\0\0\0\0\0\0\0\0\0\0\0\0\0\x03\0\0\0\0\0\0\0\x01\0\0\0\x02\0\0\0[\0\0\0\x04\0\
    \0\0\x01\0\0\0\x03\0\0\0\0\0\0\0\x03bye\0\0\0\x01\0\0\0\x02\0\0\0\x01\0\0\0\x03\0\0\0\0\
    \0\0\x13\x88\0\0\0\0\0\0\x13\x88\0\0\0\x01\0\0\0\0\0\0\0\0\0\0\0\0\0\0\0\0\0\0\0\x03\0\0\
    \0\0\0\0\0\x01\0\0\0\x02";

/// The session of a client that connects after the server has started again: the first transaction of
/// the second epoch.
pub const CONNECTED_AGAIN: &[u8] =
    b"\0\0\0%\0\0\0\0\0\0\x17p\0\0\0\x02\0\0\0\x01\0\0\0\x10\xc7\xd5\xf9\x8f\xb6\xd5s\xebc\x22\
    \xb9}\xcc\x1d\xadp\0";

/// The client reads `/a`.
pub const READ: &[u8] = b"\0\0\0\x0f\0\0\0\x01\0\0\0\x04\0\0\0\x02/a\0";

/// What the first client has written, with the last transaction in the header.
pub const FOUND: &[u8] =
    b"\0\0\0[\0\0\0\x01\0\0\0\x02\0\0\0\x01\0\0\0\0\0\0\0\x03bye\0\0\0\x01\0\0\0\x02\0\0\0\x01\
    \0\0\0\x03\0\0\0\0\0\0\x13\x88\0\0\0\0\0\0\x13\x88\0\0\0\x01\0\0\0\0\0\0\0\0\0\0\0\0\0\
    \0\0\0\0\0\0\x03\0\0\0\0\0\0\0\x01\0\0\0\x02";
