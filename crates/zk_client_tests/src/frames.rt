//! Frames of a client and of its server, by `zookeeper.jute` and the Programmer's Guide. Written by
//! a script that shares no code with this repository.

/// A client asks for a session of six seconds.
pub const CONNECT: &[u8] =
    b"\0\0\0-\0\0\0\0\0\0\0\0\0\0\0\0\0\0\x17p\0\0\0\0\0\0\0\0\0\0\0\x10\0\0\0\0\0\0\0\0\0\0\0\
    \0\0\0\0\0\0";

/// It has the number of the first transaction. The password is a SHA-1.
pub const CONNECTED: &[u8] =
    b"\0\0\0%\0\0\0\0\0\0\x17p\0\0\0\x01\0\0\0\x01\0\0\0\x10'\x9ds\xeb\xf0D\x87\x85a\xfeqqT\
    \xa9\x866\0";

/// Another connection asks for the session.
pub const RECONNECT: &[u8] =
    b"\0\0\0-\0\0\0\0\0\0\0\0\0\0\0\0\0\0\x17p\0\0\0\x01\0\0\0\x01\0\0\0\x10'\x9ds\xeb\xf0D\
    \x87\x85a\xfeqqT\xa9\x866\0";

/// One asks for it with another password.
pub const IMPOSTOR: &[u8] =
    b"\0\0\0-\0\0\0\0\0\0\0\0\0\0\0\0\0\0\x17p\0\0\0\x01\0\0\0\x01\0\0\0\x10\0\0\0\0\0\0\0\0\0\
    \0\0\0\0\0\0\0\0";

/// It gets no session.
pub const REJECTED: &[u8] =
    b"\0\0\0%\0\0\0\0\0\0\0\0\0\0\0\0\0\0\0\0\0\0\0\x10\0\0\0\0\0\0\0\0\0\0\0\0\0\0\0\0\0";

/// The client creates `/a`.
pub const CREATE: &[u8] =
    b"\0\0\03\0\0\0\x01\0\0\0\x01\0\0\0\x02/a\0\0\0\x02hi\0\0\0\x01\0\0\0\x1f\0\0\0\x05world\0\
    \0\0\x06anyone\0\0\0\0";

/// The reply has the path.
pub const CREATED: &[u8] = b"\0\0\0\x16\0\0\0\x01\0\0\0\x01\0\0\0\x02\0\0\0\0\0\0\0\x02/a";

/// It waits until its server has caught up, at once after the create.
pub const SYNC: &[u8] = b"\0\0\0\x0e\0\0\0\x02\0\0\0\x09\0\0\0\x02/a";

/// The reply's header has the zxid of the create, whose reply stands before it.
pub const SYNCED: &[u8] = b"\0\0\0\x16\0\0\0\x02\0\0\0\x01\0\0\0\x02\0\0\0\0\0\0\0\x02/a";

/// It reads the stat of `/a` with a watch, writes, and reads, all at once.
pub const LOOK_AND_SET: &[u8] =
    b"\0\0\0\x0f\0\0\0\x02\0\0\0\x03\0\0\0\x02/a\x01\0\0\0\x19\0\0\0\x03\0\0\0\x05\0\0\0\x02/a\
    \0\0\0\x03bye\xff\xff\xff\xff\0\0\0\x0f\0\0\0\x04\0\0\0\x04\0\0\0\x02/a\0";

/// The first read's reply, the write's event and its reply, and what the second read finds.
pub const LOOKED_AND_SET: &[u8] =
    b"\0\0\0T\0\0\0\x02\0\0\0\x01\0\0\0\x02\0\0\0\0\0\0\0\x01\0\0\0\x02\0\0\0\x01\0\0\0\x02\0\
    \0\0\0\0\0\x13\x88\0\0\0\0\0\0\x13\x88\0\0\0\0\0\0\0\0\0\0\0\0\0\0\0\0\0\0\0\0\0\0\0\x02\
    \0\0\0\0\0\0\0\x01\0\0\0\x02\0\0\0\x1e\xff\xff\xff\xff\xff\xff\xff\xff\xff\xff\xff\xff\0\
    \0\0\0\0\0\0\x03\0\0\0\x03\0\0\0\x02/a\0\0\0T\0\0\0\x03\0\0\0\x01\0\0\0\x03\0\0\0\0\0\0\
    \0\x01\0\0\0\x02\0\0\0\x01\0\0\0\x03\0\0\0\0\0\0\x13\x88\0\0\0\0\0\0\x13\x88\0\0\0\x01\0\
    \0\0\0\0\0\0\0\0\0\0\0\0\0\0\0\0\0\0\x03\0\0\0\0\0\0\0\x01\0\0\0\x02\0\0\0[\0\0\0\x04\0\
    \0\0\x01\0\0\0\x03\0\0\0\0\0\0\0\x03bye\0\0\0\x01\0\0\0\x02\0\0\0\x01\0\0\0\x03\0\0\0\0\
    \0\0\x13\x88\0\0\0\0\0\0\x13\x88\0\0\0\x01\0\0\0\0\0\0\0\0\0\0\0\0\0\0\0\0\0\0\0\x03\0\0\
    \0\0\0\0\0\x01\0\0\0\x02";

/// A ping.
pub const PING: &[u8] = b"\0\0\0\x08\xff\xff\xff\xfe\0\0\0\x0b";

/// Its reply has the last transaction.
pub const PINGED: &[u8] = b"\0\0\0\x10\xff\xff\xff\xfe\0\0\0\x01\0\0\0\x03\0\0\0\0";

/// The client closes its session.
pub const CLOSE: &[u8] = b"\0\0\0\x08\0\0\0\x05\xff\xff\xff\xf5";

/// The reply is the last.
pub const CLOSED: &[u8] = b"\0\0\0\x10\0\0\0\x05\0\0\0\x01\0\0\0\x04\0\0\0\0";

/// What a 3.8 follower replies to `dump`, without the times at which connections expire.
pub const DUMPED: &[u8] = b"SessionTracker dump:\nGlobal Sessions(1):\n0x100000001\t6000ms\n\
    ephemeral nodes dump:\nSessions with Ephemerals (0):\nConnections dump:\n\
    \tip: /127.0.0.1:45576 sessionId: 0x100000001\n\tip: /127.0.0.1:45578 sessionId: 0x0\n";
