//! Streams between three servers of ZooKeeper 3.8.0 on one machine, as they were recorded.

/// What the leader of a learner that got its tree by a SNAP sent.
pub const LEADER: &[u8] =
    b"\0\0\0\x11\0\0\0\x04\0\0\0\0\0\0\0\x04\0\x01\0\0\xff\xff\xff\xff\0\0\0\x0f\0\0\0\x04\0\0\0\
    \x03\xff\xff\xff\xff\xff\xff\xff\xff\0\0\0\x02\x03\0\0,\xca\xc2\0\0\0\0\xea`\x02\0\0+\xb2\xfd\
    \0\x01\0\0\xea`\0\0\0\x02\0\0\0\0\0\0\0\x01\0\0\0\x01\0\0\0\x01\0\0\0\x05world\0\0\0\x06anyon\
    e\0\0\0\0\0\0\0\x02\0\0\0\x01\0\0\0\x1f\0\0\0\x05world\0\0\0\x06anyone\0\0\0\0\0\0\0\0\xff\
    \xff\xff\xff\xff\xff\xff\xff\0\0\0\0\0\0\0\0\0\0\0\0\0\0\0\0\0\0\0\0\0\0\0\0\0\0\0\0\0\0\0\0\
    \0\0\0\0\0\0\0\x0b\0\0\0\0\0\0\0\0\0\0\0\0\0\0\0\x04\0\0\0\x02\0\0\0\x0d/q-0000000002\0\0\0\0\
    \0\0\0\0\0\0\0\x02\0\0\0\x01\0\0\0\x06\0\0\0\x01\0\0\0\x06\0\0\x01\xa2&\xd0\x10\x83\0\0\x01\
    \xa2&\xd0\x10\x83\0\0\0\0\0\0\0\0\0\0\0\0\0\0\0\0\0\0\0\0\0\0\0\x01\0\0\0\x06\0\0\0\x02/a\0\0\
    \0\x05three\0\0\0\0\0\0\0\x02\0\0\0\x01\0\0\0\x02\0\0\0\x01\0\0\0\x07\0\0\x01\xa2&\xd0\x0d\
    \x90\0\0\x01\xa2&\xd0\x10\xd1\0\0\0\x02\0\0\0\0\0\0\0\0\0\0\0\0\0\0\0\0\0\0\0\x01\0\0\0\x02\0\
    \0\0\x03/n0\0\0\0\x01v\0\0\0\0\0\0\0\x02\0\0\0\x02\0\0\0\x02\0\0\0\x02\0\0\0\x02\0\0\x01\xa2&\
    \xd0=Q\0\0\x01\xa2&\xd0=Q\0\0\0\0\0\0\0\0\0\0\0\0\0\0\0\0\0\0\0\0\0\0\0\x02\0\0\0\x02\0\0\0\
    \x03/n1\0\0\0\x01v\0\0\0\0\0\0\0\x02\0\0\0\x02\0\0\0\x03\0\0\0\x02\0\0\0\x03\0\0\x01\xa2&\xd0\
    >\xb2\0\0\x01\xa2&\xd0>\xb2\0\0\0\0\0\0\0\0\0\0\0\0\0\0\0\0\0\0\0\0\0\0\0\x02\0\0\0\x03\0\0\0\
    \x06/later\0\0\0\0\0\0\0\0\0\0\0\x02\0\0\0\x04\0\0\0\x02\0\0\0\x04\0\0\0\x02\0\0\x01\xa2&\xd2\
    w\x0e\0\0\x01\xa2&\xd2w\x0e\0\0\0\0\0\0\0\0\0\0\0\0\0\0\0\0\0\0\0\0\0\0\0\x04\0\0\0\x02\0\0\0\
    \n/zookeeper\0\0\0\0\xff\xff\xff\xff\xff\xff\xff\xff\0\0\0\0\0\0\0\0\0\0\0\0\0\0\0\0\0\0\0\0\
    \0\0\0\0\0\0\0\0\0\0\0\0\0\0\0\0\0\0\0\0\0\0\0\0\0\0\0\0\0\0\0\0\0\0\0\0\0\0\0\0\0\0\0\x11/zo\
    okeeper/config\0\0\0\x8aserver.1=127.0.0.1:35011:35021:participant\nserver.2=127.0.0.1:35012:\
    35022:participant\nserver.3=127.0.0.1:35013:35023:participant\nversion=0\0\0\0\0\0\0\0\x01\0\
    \0\0\0\0\0\0\0\0\0\0\0\0\0\0\0\0\0\0\0\0\0\0\0\0\0\x01\xa2&\xd1\xd7\xb1\xff\xff\xff\xff\0\0\0\
    \0\xff\xff\xff\xff\0\0\0\0\0\0\0\0\0\0\0\0\0\0\0\0\0\0\0\x10/zookeeper/quota\0\0\0\0\xff\xff\
    \xff\xff\xff\xff\xff\xff\0\0\0\0\0\0\0\0\0\0\0\0\0\0\0\0\0\0\0\0\0\0\0\0\0\0\0\0\0\0\0\0\0\0\
    \0\0\0\0\0\0\0\0\0\0\0\0\0\0\0\0\0\0\0\0\0\0\0\0\0\0\0\0\0\x03/n2\0\0\0\x01v\0\0\0\0\0\0\0\
    \x02\0\0\0\x02\0\0\0\x04\0\0\0\x02\0\0\0\x04\0\0\x01\xa2&\xd0?v\0\0\x01\xa2&\xd0?v\0\0\0\0\0\
    \0\0\0\0\0\0\0\0\0\0\0\0\0\0\0\0\0\0\x02\0\0\0\x04\0\0\0\x06/kept2\0\0\0\0\0\0\0\0\0\0\0\x02\
    \0\0\0\x03\0\0\0\x02\0\0\0\x03\0\0\0\x02\0\0\x01\xa2&\xd1\xf6]\0\0\x01\xa2&\xd1\xf6]\0\0\0\0\
    \0\0\0\0\0\0\0\0\0\0\0\0\0\0\0\0\0\0\0\x03\0\0\0\x02\0\0\0\x02/l\0\0\0\x09by leader\0\0\0\0\0\
    \0\0\x02\0\0\0\x01\0\0\0\n\0\0\0\x01\0\0\0\n\0\0\x01\xa2&\xd0\x1b\xef\0\0\x01\xa2&\xd0\x1b\
    \xef\0\0\0\0\0\0\0\0\0\0\0\0\0\0\0\0\0\0\0\0\0\0\0\x01\0\0\0\n\0\0\0\x05/kept\0\0\0\0\0\0\0\0\
    \0\0\0\x02\0\0\0\x02\0\0\0\x07\0\0\0\x02\0\0\0\x07\0\0\x01\xa2&\xd0\xcf\x03\0\0\x01\xa2&\xd0\
    \xcf\x03\0\0\0\0\0\0\0\0\0\0\0\0\0\0\0\0\0\0\0\0\0\0\0\x02\0\0\0\x07\0\0\0\x02/m\0\0\0\x011\0\
    \0\0\0\0\0\0\x02\0\0\0\x01\0\0\0\x07\0\0\0\x01\0\0\0\x07\0\0\x01\xa2&\xd0\x10\xd1\0\0\x01\xa2\
    &\xd0\x10\xd1\0\0\0\0\0\0\0\0\0\0\0\0\0\0\0\0\0\0\0\0\0\0\0\x01\0\0\0\x07\0\0\0\x01/\0\0\0\nB\
    enWasHere\0\0\0\n\0\0\0\x04\0\0\0\0\0\0\0\x8aserver.1=127.0.0.1:35011:35021:participant\nserv\
    er.2=127.0.0.1:35012:35022:participant\nserver.3=127.0.0.1:35013:35023:participant\nversion=0\
    \xff\xff\xff\xff\0\0\0\x05\0\0\0\x04\0\0\0\x03\xff\xff\xff\xff\xff\xff\xff\xff\0\0\0\x0c\xff\
    \xff\xff\xff\xff\xff\xff\xff\xff\xff\xff\xff\xff\xff\xff\xff\0\0\0\x05\0\0\0\x04\0\0\0\x03\
    \xff\xff\xff\xff\xff\xff\xff\xff";

/// What that learner sent.
pub const LEARNER: &[u8] =
    b"\0\0\0\x0b\0\0\0\x03\0\0\0\0\0\0\0\x14\0\0\0\0\0\0\0\x03\0\x01\0\0\0\0\0\0\0\0\0\0\xff\xff\
    \xff\xff\0\0\0\x12\0\0\0\x03\0\0\0\x05\0\0\0\x04\0\0\0\x03\xff\xff\xff\xff\0\0\0\x03\0\0\0\
    \x04\0\0\0\0\xff\xff\xff\xff\xff\xff\xff\xff\0\0\0\x03\0\0\0\x04\0\0\0\0\xff\xff\xff\xff\xff\
    \xff\xff\xff\0\0\0\x05\0\0\0\x04\0\0\0\x03\0\0\0\0\xff\xff\xff\xff\0\0\0\x05\0\0\0\x04\0\0\0\
    \x03\0\0\0\0\xff\xff\xff\xff";

/// What who connected to an election port sent.
pub const CALLER: &[u8] =
    b"\xff\xff\xff\xff\xff\xff\0\0\0\0\0\0\0\0\0\x03\0\0\0\x0f127.0.0.1:35023\0\0\0\xb6\0\0\0\0\0\
    \0\0\0\0\0\0\x03\0\0\0\x03\0\0\0\x05\0\0\0\0\0\0\0\x01\0\0\0\0\0\0\0\x03\0\0\0\x02\0\0\0\x8as\
    erver.1=127.0.0.1:35011:35021:participant\nserver.2=127.0.0.1:35012:35022:participant\nserver\
    .3=127.0.0.1:35013:35023:participant\nversion=0";

/// What the other side of that connection sent.
pub const CALLED: &[u8] =
    b"\0\0\0\xb6\0\0\0\0\0\0\0\0\0\0\0\x02\0\0\0\x03\0\0\0\x02\0\0\0\0\0\0\0\x01\0\0\0\0\0\0\0\
    \x03\0\0\0\x02\0\0\0\x8aserver.1=127.0.0.1:35011:35021:participant\nserver.2=127.0.0.1:35012:\
    35022:participant\nserver.3=127.0.0.1:35013:35023:participant\nversion=0\0\0\0\xb6\0\0\0\x02\
    \0\0\0\0\0\0\0\x02\0\0\0\x03\0\0\0\x02\0\0\0\0\0\0\0\x01\0\0\0\0\0\0\0\x04\0\0\0\x02\0\0\0\
    \x8aserver.1=127.0.0.1:35011:35021:participant\nserver.2=127.0.0.1:35012:35022:participant\ns\
    erver.3=127.0.0.1:35013:35023:participant\nversion=0";

/// What a leader sent a learner that joined by a DIFF of five entries.
pub const FOLLOWED: &[u8] =
    b"\0\0\0\x11\0\0\0\x02\0\0\0\0\0\0\0\x04\0\x01\0\0\xff\xff\xff\xff\0\0\0\x0d\0\0\0\x02\0\0\0\
    \x05\xff\xff\xff\xff\xff\xff\xff\xff\0\0\0\x02\0\0\0\x02\0\0\0\x01\0\0\00\x02\0\0+\xb2\xfd\0\
    \0\0\0\0\0\0\0\0\x02\0\0\0\x01\0\0\x01\xa2&\xd0=.\xff\xff\xff\xf6\0\0'\x10\0\0\0\x02\0\0\0\
    \x04.\xb8\x83Q\xff\xff\xff\xff\0\0\0\x04\0\0\0\x02\0\0\0\x01\xff\xff\xff\xff\xff\xff\xff\xff\
    \0\0\0\x02\0\0\0\x02\0\0\0\x02\0\0\0X\x02\0\0+\xb2\xfd\0\0\0\0\0\x01\0\0\0\x02\0\0\0\x02\0\0\
    \x01\xa2&\xd0=Q\0\0\0\x01\0\0\0\x03/n0\0\0\0\x01v\0\0\0\x01\0\0\0\x1f\0\0\0\x05world\0\0\0\
    \x06anyone\0\0\0\0\x06\0\0\0\x02\0\0\0\x04}\xb7u6\xff\xff\xff\xff\0\0\0\x04\0\0\0\x02\0\0\0\
    \x02\xff\xff\xff\xff\xff\xff\xff\xff\0\0\0\x02\0\0\0\x02\0\0\0\x03\0\0\0X\x02\0\0+\xb2\xfd\0\
    \0\0\0\0\x02\0\0\0\x02\0\0\0\x03\0\0\x01\xa2&\xd0>\xb2\0\0\0\x01\0\0\0\x03/n1\0\0\0\x01v\0\0\
    \0\x01\0\0\0\x1f\0\0\0\x05world\0\0\0\x06anyone\0\0\0\0\x07\0\0\0\x02\0\0\0\x04zD\0z\xff\xff\
    \xff\xff\0\0\0\x04\0\0\0\x02\0\0\0\x03\xff\xff\xff\xff\xff\xff\xff\xff\0\0\0\x02\0\0\0\x02\0\
    \0\0\x04\0\0\0X\x02\0\0+\xb2\xfd\0\0\0\0\0\x03\0\0\0\x02\0\0\0\x04\0\0\x01\xa2&\xd0?v\0\0\0\
    \x01\0\0\0\x03/n2\0\0\0\x01v\0\0\0\x01\0\0\0\x1f\0\0\0\x05world\0\0\0\x06anyone\0\0\0\0\x08\0\
    \0\0\x02\0\0\0\x04\xbd/G\xfd\xff\xff\xff\xff\0\0\0\x04\0\0\0\x02\0\0\0\x04\xff\xff\xff\xff\
    \xff\xff\xff\xff\0\0\0\x02\0\0\0\x02\0\0\0\x05\0\0\00\x02\0\0+\xb2\xfd\0\0\0\0\0\0\0\0\0\x02\
    \0\0\0\x05\0\0\x01\xa2&\xd0h\xe6\xff\xff\xff\xf5\0\0\0\0\0\0\0\x02\0\0\0\x04\xbd/G\xfd\xff\
    \xff\xff\xff\0\0\0\x04\0\0\0\x02\0\0\0\x05\xff\xff\xff\xff\xff\xff\xff\xff\0\0\0\n\0\0\0\x02\
    \0\0\0\0\0\0\0\x8aserver.1=127.0.0.1:35011:35021:participant\nserver.2=127.0.0.1:35012:35022:\
    participant\nserver.3=127.0.0.1:35013:35023:participant\nversion=0\xff\xff\xff\xff\0\0\0\x05\
    \0\0\0\x02\0\0\0\x05\xff\xff\xff\xff\xff\xff\xff\xff\0\0\0\x05\0\0\0\x02\0\0\0\x05\xff\xff\
    \xff\xff\xff\xff\xff\xff\0\0\0\x0c\xff\xff\xff\xff\xff\xff\xff\xff\xff\xff\xff\xff\xff\xff\
    \xff\xff";

/// What an observer sent its leader.
pub const OBSERVER: &[u8] =
    b"\0\0\0\x10\0\0\0\0\0\0\0\0\0\0\0\x14\0\0\0\0\0\0\0\x03\0\x01\0\0\0\0\0\0\0\0\0\0\xff\xff\
    \xff\xff\0\0\0\x12\0\0\0\0\0\0\0\0\0\0\0\x04\0\0\0\0\xff\xff\xff\xff\0\0\0\x03\0\0\0\x01\0\0\
    \0\0\xff\xff\xff\xff\xff\xff\xff\xff\0\0\0\x03\0\0\0\x01\0\0\0\0\xff\xff\xff\xff\xff\xff\xff\
    \xff\0\0\0\x05\0\0\0\x01\0\0\0\0\0\0\0\0\xff\xff\xff\xff\0\0\0\x05\0\0\0\x01\0\0\0\0\0\0\0\0\
    \xff\xff\xff\xff\0\0\0\x01\xff\xff\xff\xff\xff\xff\xff\xff\0\0\0\x14\x03\0\0=\xf2\xbc\0\0\0\0\
    \0\0\xff\xff\xff\xf6\0\0'\x10\xff\xff\xff\xff\0\0\0\x05\0\0\0\x01\0\0\0\0\0\0\0\x0c\x03\0\0=\
    \xf2\xbc\0\0\0\0'\x10\xff\xff\xff\xff\0\0\0\x01\xff\xff\xff\xff\xff\xff\xff\xff\0\0\0E\x03\0\
    \0=\xf2\xbc\0\0\0\0\0\x01\0\0\0\x01\0\0\0\x0d/via-observer\0\0\0\x01x\0\0\0\x01\0\0\0\x1f\0\0\
    \0\x05world\0\0\0\x06anyone\0\0\0\0\0\0\0\x01\0\0\0\x02ip\0\0\0\x09127.0.0.1\0\0\0\x01\xff\
    \xff\xff\xff\xff\xff\xff\xff\0\0\0\x15\x03\0\0=\xf2\xbc\0\0\0\0\0\x02\0\0\0\x09\0\0\0\x01/\0\
    \0\0\x01\0\0\0\x02ip\0\0\0\x09127.0.0.1\0\0\0\x01\xff\xff\xff\xff\xff\xff\xff\xff\0\0\0\x10\
    \x03\0\0=\xf2\xbc\0\0\0\0\0\x03\xff\xff\xff\xf5\0\0\0\x01\0\0\0\x02ip\0\0\0\x09127.0.0.1";
