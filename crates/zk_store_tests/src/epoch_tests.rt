//! The files `acceptedEpoch` and `currentEpoch`: a real server's have digits, and no newline.

use std::alloc::Global;
use zab_epoch::Stable;
use zk_data_files::{Epochs, epoch_text};

fn is_text(alloc: Global, epoch: u32, text: &str) -> bool {
    matches!(epoch_text(alloc, epoch), Ok(found) if found.as_str() == text)
}

#[test]
fn an_epoch_is_decimal(rt: HostRuntime) {
    let alloc = rt.alloc();
    assert!(rt; is_text(alloc, 0, "0"));
    assert!(rt; is_text(alloc, 4, "4"));
    assert!(rt; is_text(alloc, 2_147_483_647, "2147483647"));
}

#[test]
fn epochs_are_those_that_are_promised_and_current(rt: HostRuntime) {
    let mut stable = Stable::new(rt.alloc());
    stable.promised = 7;
    stable.current = 5;
    let epochs = Epochs::of(&stable);
    assert!(rt; epochs.accepted == 7);
    assert!(rt; epochs.current == 5);
}
