//! The kinds of messages.

pub const C_EPOCH: i32 = 1;

pub const NEW_EPOCH: i32 = 2;

pub const ACK_EPOCH: i32 = 3;

pub const NEW_LEADER: i32 = 4;

pub const ACK_LEADER: i32 = 5;

pub const PROPOSE: i32 = 6;

pub const ACK: i32 = 7;

pub const COMMIT: i32 = 8;

pub const REQUEST: i32 = 9;

pub const SYNC_ASK: i32 = 10;

pub const SYNC_TELL: i32 = 11;
