//! Tests of `zk_frames`, `zk_client_session`, `zk_connections`, `zk_hub` and `zk_client_port`. No
//! code of its own.
//!
//! Frames are recorded traffic between kazoo 2.8 and a ZooKeeper 3.8.0 server. Other expected
//! values come from ZooKeeper's protocol (`zookeeper.jute`) and the ZooKeeper Programmer's Guide:
//! replies in the order of requests, and sessions that outlive a connection.
#![tactic(auto)]

#[cfg(test)]
mod ask_tests;
#[cfg(test)]
mod connection_tests;
#[cfg(test)]
mod exchange_tests;
#[cfg(test)]
mod frame_tests;
#[cfg(test)]
mod frames;
#[cfg(test)]
mod hub_tests;
#[cfg(test)]
mod outcome_tests;
#[cfg(test)]
mod pairs;
#[cfg(test)]
mod password_tests;
#[cfg(test)]
mod port_session_tests;
#[cfg(test)]
mod reply_tests;
#[cfg(test)]
mod request_tests;
#[cfg(test)]
mod sessions_tests;
#[cfg(test)]
mod traffic;
#[cfg(test)]
mod turn_tests;
#[cfg(test)]
mod watch_tests;
