//! Watches that no run sets: for the children of an absent node, and of sessions with high digits.
//! Others are tested in `checks/golden/clients.golden`.

use std::alloc::Global;
use zk_machine::{Change, ChangeKind};
use zk_path::{NoMemory, Path};
use zk_watch::{Fired, Watch, WatchKind, Watches};

/// An event: its session, its kind and its path.
type Event = (u64, ChangeKind, &'static str);

/// A watch: the path, the session, and whether it is for the content and for the children.
type Waiting = (&'static str, u64, bool, bool);

/// A step on watches, or their expected state.
#[derive(Clone, Copy)]
enum Step {
    Set(u64, WatchKind, &'static str),
    /// Fires changes, with the expected events.
    Tell(&'static [(ChangeKind, &'static str)], &'static [Event]),
    /// The expected watches.
    Wait(&'static [Waiting]),
}

/// Parses a path.
pub(crate) fn path_of(alloc: Global, text: &str) -> Result<Path, NoMemory> {
    Path::read(alloc, text).ok().ok_or(NoMemory)
}

/// Whether exactly these events fired, in this order.
fn are_events(told: &[Fired], events: &[Event]) -> bool {
    let mut all = told.len() == events.len();
    for (fired, (session, kind, path)) in told.iter().zip(events) {
        all = all && fired.session == *session && fired.kind == *kind && fired.path.text() == *path;
    }
    all
}

/// Whether these are the watches, in this order.
fn are_waiting(watches: &[Watch], waiting: &[Waiting]) -> bool {
    let mut all = watches.len() == waiting.len();
    for (watch, (path, session, content, children)) in watches.iter().zip(waiting) {
        all = all
            && watch.path.text() == *path
            && watch.session == *session
            && (watch.content, watch.children) == (*content, *children);
    }
    all
}

fn changes_of(
    alloc: Global,
    changed: &[(ChangeKind, &'static str)],
) -> Result<Vec<Change>, NoMemory> {
    let mut changes = Vec::new(alloc);
    for (kind, path) in changed {
        let path = path_of(alloc, path)?;
        changes.push(Change { path, kind: *kind })?;
    }
    Ok(changes)
}

/// Whether these changes fire these events.
fn tells(
    alloc: Global,
    watches: &mut Watches,
    changed: &[(ChangeKind, &'static str)],
    events: &[Event],
) -> Result<bool, NoMemory> {
    let changes = changes_of(alloc, changed)?;
    let told = watches.fire(changes.as_slice());
    Ok(matches!(told, Ok(told) if are_events(told.as_slice(), events)))
}

/// Whether a step has its expected result.
fn goes(alloc: Global, watches: &mut Watches, step: Step) -> Result<bool, NoMemory> {
    match step {
        Step::Set(session, kind, path) => {
            let path = path_of(alloc, path)?;
            Ok(watches.set(session, kind, &path).is_ok())
        }
        Step::Tell(changed, events) => tells(alloc, watches, changed, events),
        Step::Wait(waiting) => Ok(are_waiting(watches.as_slice(), waiting)),
    }
}

/// Returns the index of the first step with another result.
fn walk(alloc: Global, watches: &mut Watches, steps: &[Step]) -> Result<Option<usize>, NoMemory> {
    for (place, step) in steps.iter().enumerate() {
        if !goes(alloc, watches, *step)? {
            return Ok(Some(place));
        }
    }
    Ok(None)
}

/// Does the same with empty watches.
fn other_step(alloc: Global, steps: &[Step]) -> Result<Option<usize>, NoMemory> {
    let mut watches = Watches::new(alloc);
    walk(alloc, &mut watches, steps)
}

/// A node is created: session 1 watches its content, session 2 its children and session 3 both.
static CREATED: [Step; 6] = [
    Step::Set(1, WatchKind::Content, "/a"),
    Step::Set(2, WatchKind::Children, "/a"),
    Step::Set(3, WatchKind::Content, "/a"),
    Step::Set(3, WatchKind::Children, "/a"),
    Step::Tell(
        &[(ChangeKind::Created, "/a")],
        &[
            (1, ChangeKind::Created, "/a"),
            (3, ChangeKind::Created, "/a"),
        ],
    ),
    Step::Wait(&[("/a", 2, false, true), ("/a", 3, false, true)]),
];

/// Sessions 0000000000000001, 8000000000000000 and ffffffffffffffff watch two paths. Two changes
/// come at once, of which the first is at the later path.
static MANY: [Step; 8] = [
    Step::Set(u64::MAX, WatchKind::Content, "/b"),
    Step::Set(u64::MAX, WatchKind::Content, "/a"),
    Step::Set(1, WatchKind::Content, "/b"),
    Step::Set(1, WatchKind::Content, "/a"),
    Step::Set(1 << 63, WatchKind::Content, "/b"),
    Step::Set(1 << 63, WatchKind::Content, "/a"),
    Step::Wait(&[
        ("/a", 1, true, false),
        ("/a", 0x8000_0000_0000_0000, true, false),
        ("/a", 0xffff_ffff_ffff_ffff, true, false),
        ("/b", 1, true, false),
        ("/b", 0x8000_0000_0000_0000, true, false),
        ("/b", 0xffff_ffff_ffff_ffff, true, false),
    ]),
    Step::Tell(
        &[
            (ChangeKind::DataChanged, "/b"),
            (ChangeKind::DataChanged, "/a"),
        ],
        &[
            (1, ChangeKind::DataChanged, "/b"),
            (0x8000_0000_0000_0000, ChangeKind::DataChanged, "/b"),
            (0xffff_ffff_ffff_ffff, ChangeKind::DataChanged, "/b"),
            (1, ChangeKind::DataChanged, "/a"),
            (0x8000_0000_0000_0000, ChangeKind::DataChanged, "/a"),
            (0xffff_ffff_ffff_ffff, ChangeKind::DataChanged, "/a"),
        ],
    ),
];

#[test]
fn watches_that_no_run_sets(rt: HostRuntime) {
    assert_eq!(rt; other_step(rt.alloc(), &CREATED), Ok(None));
    assert_eq!(rt; other_step(rt.alloc(), &MANY), Ok(None));
}
