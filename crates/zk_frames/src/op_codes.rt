//! The types of requests, as `ZooDefs.OpCode` numbers them.

pub const CREATE: i32 = 1;

pub const DELETE: i32 = 2;

pub const EXISTS: i32 = 3;

pub const GET_DATA: i32 = 4;

pub const SET_DATA: i32 = 5;

pub const GET_ACL: i32 = 6;

pub const SET_ACL: i32 = 7;

pub const GET_CHILDREN: i32 = 8;

pub const SYNC: i32 = 9;

pub const PING: i32 = 11;

pub const GET_CHILDREN_2: i32 = 12;

pub const CHECK: i32 = 13;

pub const MULTI: i32 = 14;

pub const CREATE_2: i32 = 15;

pub const REMOVE_WATCHES: i32 = 18;

pub const AUTH: i32 = 100;

pub const SET_WATCHES: i32 = 101;

pub const GET_EPHEMERALS: i32 = 103;

pub const GET_ALL_CHILDREN_NUMBER: i32 = 104;

pub const CLOSE_SESSION: i32 = -11;

/// The type in the header that ends a multi, and of a failed part's result.
pub const ERROR: i32 = -1;
