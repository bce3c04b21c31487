//! Tests of a debugger and of servers that no line of a script reaches. They call what no command
//! calls, an absent server, the bytes of a history, an access control list without entries, and a
//! second report.
use crate::device_tests::HEAD;
use std::alloc::Global;
use zk_acl::Acls;
use zk_debug::Debugger;
use zk_listing::{push_tree, spell_tree};
use zk_log::{Source, load};
use zk_path::Path;
use zk_request_syntax::{push_refusal, push_reply};
use zk_run_script::{Ensemble, read_command, run_command};
use zk_table::{Node, ReadReply};

/// Returns a debugger over the first entries of the first log.
fn debugger(alloc: Global) -> Option<Debugger> {
    let loaded = load(alloc, &mut Source::new(HEAD), 9).ok()?;
    Debugger::new(alloc, loaded).ok()
}

/// Whether a node's empty access control list is displayed, and an error after it.
fn is_told(alloc: Global, node: &Node) -> bool {
    let Ok(acl) = Acls::new(alloc, Vec::new(alloc)) else {
        return false;
    };
    let stat = node.stat(0);
    let mut line = String::new(alloc);
    push_reply(&mut line, &ReadReply::AclIs { acl, stat }).is_ok()
        && push_refusal(&mut line, -8).is_ok()
        && line.as_str()
            == "ok 0 0000000100000002 0000000100000002 2000 2000 0 0 0 0000000000000000 2 0 0000000100000002err -8"
}

/// Whether the node `/a` is borrowed, and displayed, after two transactions.
fn node_is_lent(alloc: Global) -> bool {
    let (Some(mut debugger), Ok(path)) = (debugger(alloc), Path::read(alloc, "/a")) else {
        return false;
    };
    debugger.goto(i64::MAX).is_ok()
        && debugger.txns().len() == 2
        && matches!(debugger.node(&path), Ok(Some(node)) if is_told(alloc, node))
}

#[test]
fn a_debugger_lends_a_node(rt: HostRuntime) {
    assert!(rt; node_is_lent(rt.alloc()));
}

/// The entry of the first session's opening: `checks/golden/orders.golden` has its log.
const OPENED: &[u8] =
    b"\0\0\0\0#\xa1\x05\x88\0\0\0$\0\0\0\x01\0\0\0\x01\0\0\0\0\0\0\0\x01\0\0\0\x01\0\0\0\0\0\0\x03\xe8\
      \xff\xff\xff\xf6\0\0u0B";

/// The report of the start state.
const START_TREE: &str = "zxid 0000000000000000\n\
    \"/\" x 1 31 \"world\" \"anyone\" 0000000000000000 0000000000000000 0 0 0 -1 0 0000000000000000 0 1 0000000000000000\n\
    \"/zookeeper\" x 1 31 \"world\" \"anyone\" 0000000000000000 0000000000000000 0 0 0 -1 0 0000000000000000 0 1 0000000000000000\n\
    \"/zookeeper/quota\" x 1 31 \"world\" \"anyone\" 0000000000000000 0000000000000000 0 0 0 0 0 0000000000000000 0 0 0000000000000000\n";

/// Server 1 leads, server 2 follows it, the first session's opening is proposed and delivered, and
/// server 2 crashes.
const EVENTS: &str = "lead 1\nfollow 2 1\narrive 1\narrive 2\narrive 3\narrive 4\narrive 5\n\
    submit 1 1 0000000000000000 0 1000 0 open 30000\narrive 7\narrive 8\narrive 9\ncrash 2";

const ANSWERS: &str = "ok\nok 1\nok 2\nok 3\nok 4\nok 5\nok 6\nok 7\nok 8\nok 9\nok\nok\n";

/// Whether each event has its answer, appended to `answers`.
fn are_answered(alloc: Global, ensemble: &mut Ensemble, answers: &mut String) -> bool {
    for line in EVENTS.split('\n') {
        let Ok(command) = read_command(alloc, 3, line) else {
            return false;
        };
        if run_command(ensemble, command, answers).is_err() {
            return false;
        }
    }
    true
}

/// Whether a server's history has these bytes in a log, and this is its last delivered transaction.
fn has(ensemble: &Ensemble, server: usize, bytes: &[u8], last: i64) -> bool {
    matches!(ensemble.history(server), Some(history) if history.bytes() == bytes)
        && ensemble.last(server) == last
}

/// Whether a server's tree is reported as the start state, and again after that.
fn has_start_tree(alloc: Global, ensemble: &Ensemble, server: usize) -> bool {
    let Ok(machine) = ensemble.tree(server) else {
        return false;
    };
    let mut page = String::new(alloc);
    push_tree(&mut page, &machine).is_ok()
        && page.as_str() == START_TREE
        && spell_tree(&mut page, &machine).is_ok()
        && page.as_str().strip_prefix(START_TREE) == Some(START_TREE)
}

/// Whether an absent server has no history, and the start state.
fn is_none(alloc: Global, ensemble: &Ensemble, server: usize) -> bool {
    ensemble.history(server).is_none()
        && ensemble.delivered(server).len() == 0
        && ensemble.answers(server).is_empty()
        && ensemble.syncs(server).is_empty()
        && ensemble.events_of(server).is_empty()
        && ensemble.last(server) == 0
        && has_start_tree(alloc, ensemble, server)
}

/// Whether the entry is in the histories of server 1 and of server 2, which is down; and servers
/// outside 1 to 3 are absent.
fn all_hold(alloc: Global) -> bool {
    let Ok(mut ensemble) = Ensemble::new(alloc, 3) else {
        return false;
    };
    let mut answers = String::new(alloc);
    are_answered(alloc, &mut ensemble, &mut answers)
        && answers.as_str() == ANSWERS
        && has(&ensemble, 1, OPENED, 0x1_0000_0001)
        && has(&ensemble, 2, OPENED, 0)
        && has(&ensemble, 3, b"", 0)
        && ensemble.messages().len() == 9
        && is_none(alloc, &ensemble, 0)
        && is_none(alloc, &ensemble, 4)
}

#[test]
fn histories_are_logs(rt: HostRuntime) {
    assert!(rt; all_hold(rt.alloc()));
}
