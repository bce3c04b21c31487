//! Watch events as frames.

ghost use Rattle.std.specs.Prelude.{◌≡◌, ◌++◌, OnOk};
ghost use Rattle.zk_client_session.specs.Replies.{event_number, event_frame, events_bytes, events_in};

use crate::reply::{Reply, WatchEvent};
use std::alloc::Global;
use zk_acl::Text;
use zk_frames::{FrameFault, WatcherEvent, write_event};
use zk_machine::ChangeKind;

/// The number of a kind of change in `Watcher.EventType`.
fn event_number(kind: ChangeKind) -> i32
    ensures { result ≡ event_number kind }
{
    match kind {
        ChangeKind::Created => 1,
        ChangeKind::Deleted => 2,
        ChangeKind::DataChanged => 3,
        ChangeKind::ChildrenChanged => 4,
    }
}

/// Appends the frame of an event.
pub(crate) fn push_event(
    alloc: Global,
    out: &mut Vec<u8>,
    kind: ChangeKind,
    path: &str,
) -> Result<(), FrameFault>
    ensures { OnOk result (out.new.items ≡ out.old.items ++ event_frame kind path.now) }
{
    let path = Text::read(alloc, path)?;
    let event = WatcherEvent {
        kind: event_number(kind),
        path,
    };
    write_event(out, &event)
}

fn push_all(alloc: Global, out: &mut Vec<u8>, events: &[WatchEvent]) -> Result<(), FrameFault>
    ensures { OnOk result (out.new.items ≡ out.old.items ++ events_bytes events.now) }
{
    for event in events {
        push_event(alloc, out, event.kind, event.path.as_str())?;
    }
    Ok(())
}

/// Appends the frames of the events that come with a reply.
pub(crate) fn push_events(alloc: Global, out: &mut Vec<u8>, reply: &Reply) -> Result<(), FrameFault>
    ensures { OnOk result (out.new.items ≡ out.old.items ++ events_bytes (events_in reply.now)) }
{
    match reply {
        Reply::WatchesSet { events, .. } => push_all(alloc, out, events.as_slice()),
        _ => Ok(()),
    }
}
