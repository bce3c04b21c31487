//! Faults, and where they come.

use crate::taken::fault_of;
use zk_jute::JuteFault;
use zk_quorum_records::{BadItem, DecodeFault, Phase, StreamFault};

/// ACK of zxid 1, without data and identities.
const ACK: &[u8] = b"\0\0\0\x03\0\0\0\0\0\0\0\x01\xff\xff\xff\xff\xff\xff\xff\xff";

/// The same with data of length -2.
const LENGTH: &[u8] = b"\0\0\0\x03\0\0\0\0\0\0\0\x01\xff\xff\xff\xff\xff\xff\xff\xff\
    \0\0\0\x03\0\0\0\0\0\0\0\x01\xff\xff\xff\xfe";

/// A packet whose data would be of 16,777,217 bytes.
const TOO_LONG: &[u8] = b"\0\0\0\x03\0\0\0\0\0\0\0\x01\x01\0\0\x01";

/// A hello of an unknown version.
const VERSION: &[u8] = b"\xff\xff\xff\xff\xff\xfe\xff\xff\0\0\0\0\0\0\0\x01\0\0\0\x01a";

/// A frame of 4 bytes: too short for a notification.
const FRAME: &[u8] = b"\0\0\0\x04\0\0\0\0";

fn at(place: u64, fault: JuteFault) -> Option<DecodeFault> {
    Some(DecodeFault::Broken(BadItem {
        place,
        fault: StreamFault::Field(fault),
    }))
}

#[test]
fn faults_have_places(rt: HostRuntime) {
    let alloc = rt.alloc();
    assert!(rt; fault_of(alloc, ACK, Phase::Packets) == None);
    assert!(rt; fault_of(alloc, LENGTH, Phase::Packets) == at(20, JuteFault::Length));
    assert!(rt; fault_of(alloc, TOO_LONG, Phase::Packets) == at(0, JuteFault::Length));
    assert!(rt; fault_of(alloc, VERSION, Phase::Hello) == at(0, JuteFault::Kind));
    assert!(rt; fault_of(alloc, FRAME, Phase::Notifications) == at(0, JuteFault::Length));
}
