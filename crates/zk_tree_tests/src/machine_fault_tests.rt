//! How faults are displayed.

use std::alloc::Global;
use std::fmt::Display;
use zk_acl::AclFault;
use zk_path::NoMemory;
use zk_views::ViewFault;

/// Each fault of a view, and its number.
static FAULTS: [(ViewFault, &str); 3] = [
    (ViewFault::Behind { seen: 2, zxid: 1 }, "V1"),
    (ViewFault::NoMemory, "V2"),
    (ViewFault::Gone, "V3"),
];

/// Whether a fault is displayed as `shown`.
fn is_shown_as<F: Display>(alloc: Global, fault: &F, shown: &str) -> Result<bool, NoMemory> {
    Ok(format!(in alloc; "{fault}")?.as_str() == shown)
}

#[test]
fn faults_are_shown_by_their_numbers(rt: HostRuntime) {
    for (fault, shown) in &FAULTS {
        assert!(rt; is_shown_as(rt.alloc(), fault, shown) == Ok(true));
    }
}

#[test]
fn acl_faults_have_their_codes(rt: HostRuntime) {
    assert!(rt; is_shown_as(rt.alloc(), &AclFault::Invalid, "A1") == Ok(true));
    assert!(rt; is_shown_as(rt.alloc(), &AclFault::from(NoMemory), "A2") == Ok(true));
}
