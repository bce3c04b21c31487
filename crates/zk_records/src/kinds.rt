//! The types of operations, as the 3.4 server numbers them (`ZooDefs.OpCode`).

pub const CREATE: i32 = 1;

pub const DELETE: i32 = 2;

pub const SET_DATA: i32 = 5;

pub const SET_ACL: i32 = 7;
/// Occurs only in a multi.
pub const CHECK: i32 = 13;

pub const MULTI: i32 = 14;

pub const ERROR: i32 = -1;

pub const CREATE_SESSION: i32 = -10;

pub const CLOSE_SESSION: i32 = -11;
