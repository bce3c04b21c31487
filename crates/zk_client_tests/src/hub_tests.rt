//! One connection sends a write, a ping and a read; another one a write.

use std::alloc::Global;
use zk_hub::{Hub, HubFault, MOST_OUTSTANDING, News, Output, Outstanding, Reply, Stage};

/// Requests are named by numbers, and results too.
type TestHub = Hub<u32, u32>;

fn request(connection: u64, stage: Stage<u32>, expected: u32) -> Outstanding<u32, u32> {
    Outstanding {
        connection,
        stage,
        expected,
    }
}

/// Whether connection 1 sends requests 10 to 12, and connection 2 request 20.
fn sends(hub: &mut TestHub) -> bool {
    hub.push(request(1, Stage::Waits { tag: 7 }, 10)).is_ok()
        && hub.push(request(1, Stage::Done(0), 11)).is_ok()
        && hub.push(request(2, Stage::Waits { tag: 8 }, 20)).is_ok()
        && hub.push(request(1, Stage::Reads, 12)).is_ok()
        && hub.len() == 4
}

/// Whether connection 1 alone can send nothing, since its read waits.
fn is_blocked(hub: &mut TestHub) -> bool {
    hub.is_blocked(1)
        && !hub.is_blocked(2)
        && hub.push(request(1, Stage::Done(0), 13)) == Err(HubFault::Blocked)
}

fn is_event(output: Option<&Output<u8, u32, u32>>, of: u64, kind: u8) -> bool {
    matches!(output, Some(Output::Event { connection, event }) if *connection == of && *event == kind)
}

fn is_reply(output: Option<&Output<u8, u32, u32>>, of: u64, to: u32, with: u32) -> bool {
    matches!(output, Some(Output::Reply { connection, expected, outcome })
        if *connection == of && *expected == to && *outcome == with)
}

/// Whether the event of an entry is written before its reply, and a reply to each write.
fn delivers(alloc: Global, hub: &mut TestHub) -> bool {
    let Ok(news) = Vec::from_array(
        alloc,
        [
            News::Event {
                connection: 2,
                event: 3,
            },
            News::Outcome {
                tag: 7,
                outcome: 70,
            },
            News::Outcome {
                tag: 8,
                outcome: 80,
            },
        ],
    ) else {
        return false;
    };
    match hub.deliver(alloc, news) {
        Ok(outputs) => {
            outputs.len() == 4
                && is_event(outputs.as_slice().get(0), 2, 3)
                && is_reply(outputs.as_slice().get(1), 1, 10, 70)
                && is_reply(outputs.as_slice().get(2), 1, 11, 0)
                && is_reply(outputs.as_slice().get(3), 2, 20, 80)
        }
        Err(_) => false,
    }
}

/// Whether connection 1 has this one reply.
fn replies(alloc: Global, hub: &mut TestHub, to: u32) -> bool {
    match hub.take_replies(alloc, 1) {
        Ok(replies) =>
            matches!(replies.as_slice(), [Reply { expected, result: value }] if *expected == to && *value == 0),
        Err(_) => false,
    }
}

#[test]
fn requests_are_replied_to_in_order(rt: HostRuntime) {
    let mut hub = Hub::new(rt.alloc());
    assert!(rt; sends(&mut hub));
    assert!(rt; hub.take_read(1).is_none());
    assert!(rt; is_blocked(&mut hub));
    assert!(rt; delivers(rt.alloc(), &mut hub));
    assert!(rt; hub.take_read(1) == Some(12));
    assert!(rt; hub.push(request(1, Stage::Done(0), 13)).is_ok());
    assert!(rt; replies(rt.alloc(), &mut hub, 13));
    assert!(rt; hub.len() == 0);
}

#[test]
fn a_closed_connection_has_no_requests(rt: HostRuntime) {
    let mut hub = Hub::new(rt.alloc());
    assert!(rt; sends(&mut hub));
    hub.close(1);
    assert!(rt; hub.len() == 1);
}

#[test]
fn a_hub_is_full(rt: HostRuntime) {
    let mut hub: TestHub = Hub::new(rt.alloc());
    for _ in 0..MOST_OUTSTANDING {
        let _ = hub.push(request(1, Stage::Done(0), 0));
    }
    assert!(rt; hub.push(request(1, Stage::Done(0), 0)) == Err(HubFault::Full));
}
