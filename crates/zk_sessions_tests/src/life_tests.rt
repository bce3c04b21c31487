//! `zk sessions` and `zk session` over small directories, and what they are made of. Expected lines
//! are worked out by hand.
use crate::files::{ALL, FROM_6, MemoryFolder};
use std::alloc::Global;
use zk_log::{DripOut, Sink};
use zk_session_commands::{AskedSession, first_known, session, sessions};
use zk_session_lines::{LineForm, push_formed_row, push_record_line, rows_text};
use zk_sessions::{
    Ephemerals, Known, Lives, Moment, Session, moment_of, session_writes_add_up, write_count,
};
use zk_table::{Op, Txn};

/// The files, the session or all, the form, what is printed, and the notice.
type Trial = (
    &'static [(&'static str, &'static [u8])],
    Option<i64>,
    LineForm,
    &'static str,
    &'static str,
);

const RANGE: &str =
    "zk: range 0000000000000006 0000000000000009 1970-01-01T00:00:01.006Z 1970-01-01T00:00:01.009Z\n";

const TRIALS: &[Trial] = &[
    (
        ALL,
        None,
        LineForm::Text,
        "0000000000000001 opened 1970-01-01T00:00:01.001Z 0000000000000001 timeout 4000 writes 7 \
         created 1 deleted 1 left 0 closed 1970-01-01T00:00:01.009Z 0000000000000009\n",
        "",
    ),
    (
        ALL,
        None,
        LineForm::Json,
        "{\"session\":\"0x1\",\"openedZxid\":\"0x1\",\"openedTime\":\"1970-01-01T00:00:01.001Z\",\
         \"timeout\":4000,\"writes\":7,\"created\":1,\"deleted\":1,\"left\":0,\"end\":\"closed\",\
         \"endZxid\":\"0x9\",\"endTime\":\"1970-01-01T00:00:01.009Z\"}\n",
        "",
    ),
    (
        FROM_6,
        Some(1),
        LineForm::Text,
        "0000000000000001 opened unknown timeout 4000 writes 3 created 0 deleted 1 left 0 closed \
         1970-01-01T00:00:01.009Z 0000000000000009\n\
         1970-01-01T00:00:01.006Z 0000000000000006 delete 0000000000000001 \"/a/b\"\n\
         1970-01-01T00:00:01.007Z 0000000000000007 setData 0000000000000001 \"/a\"\n\
         1970-01-01T00:00:01.008Z 0000000000000008 delete 0000000000000001 \"/d\"\n\
         1970-01-01T00:00:01.009Z 0000000000000009 closeSession 0000000000000001 \"/c\"\n",
        RANGE,
    ),
    // no file has it
    (FROM_6, Some(2), LineForm::Text, "", RANGE),
];

fn is_told(alloc: Global, trial: &Trial) -> bool {
    let (files, id, form, text, told) = *trial;
    let folder = MemoryFolder { files };
    let mut output = Sink::new(DripOut::new(alloc, 65_536, None));
    let mut faults = Sink::new(DripOut::new(alloc, 64, None));
    let status = match id {
        None => sessions(alloc, &folder, &folder, form, &mut output, &mut faults),
        Some(id) => session(
            alloc,
            &folder,
            &folder,
            AskedSession { session: id, form },
            &mut output,
            &mut faults,
        ),
    };
    status == Ok(u8::from(text.is_empty()))
        && output.into_inner().bytes() == text.as_bytes()
        && faults.into_inner().bytes() == told.as_bytes()
}

#[test]
fn sessions_are_told(rt: HostRuntime) {
    for trial in TRIALS {
        assert!(rt; is_told(rt.alloc(), trial), "{}", trial.3);
    }
}

/// The session of the snapshot, before the logs.
const LEFT: Session = Session {
    opened: None,
    timeout: Some(4000),
    writes: 0,
    created: 0,
    deleted: 0,
    left: 1,
    ended: None,
};

const LEFT_ROW: &str =
    "0000000000000001 opened unknown timeout 4000 writes 0 created 0 deleted 0 left 1 open\n";

fn owns_one(owners: &Ephemerals) -> bool {
    let owned = owners.owned_by(1);
    matches!(&owned, Ok(paths) if paths.as_slice() == ["/c"].as_slice())
        && owners.owner_of("/c") == Some(1)
}

fn has_one(lives: &Lives) -> bool {
    let entries = lives.entries();
    let is_left = match &entries {
        Ok(entries) => matches!(entries.as_slice(), [(1, life)] if *life == LEFT),
        Err(_) => false,
    };
    is_left && lives.get(2).is_none()
}

fn has_row(alloc: Global, lives: &Lives) -> bool {
    let text = rows_text(alloc, LineForm::Text, lives);
    let mut row = String::new(alloc);
    let pushed = push_formed_row(&mut row, LineForm::Text, 1, LEFT);
    pushed.is_ok()
        && row.as_str() == LEFT_ROW
        && matches!(&text, Ok(text) if text.as_str() == LEFT_ROW)
}

#[test]
fn a_node_is_left(rt: HostRuntime) {
    let alloc = rt.alloc();
    let folder = MemoryFolder { files: FROM_6 };
    let known = first_known(alloc, &folder, &folder);
    assert!(rt; matches!(&known, Ok(known) if owns_one(&known.owners)));
    assert!(rt; matches!(&known, Ok(known) if has_one(&known.lives)));
    assert!(rt; matches!(&known, Ok(known) if has_row(alloc, &known.lives)));
    drop(known);
    let mut made = Known::new(alloc);
    assert!(rt; made.add_lease(1, 4000).is_ok() && made.add_node("/c", 1).is_ok());
    assert!(rt; owns_one(&made.owners) && has_one(&made.lives));
}

#[test]
fn a_transaction_is_told(rt: HostRuntime) {
    let alloc = rt.alloc();
    let txn = Txn {
        session: 1,
        cxid: 0,
        zxid: 9,
        time: 1009,
        op: Op::CloseSession,
    };
    let line =
        "1970-01-01T00:00:01.009Z 0000000000000009 closeSession 0000000000000001 expired \"/c\"\n";
    let mut text = String::new(alloc);
    let pushed = push_record_line(&mut text, &["/c"], "closeSession", true, &txn);
    assert!(rt; pushed.is_ok() && text.as_str() == line);
    assert!(rt;
        moment_of(&txn)
            == Moment {
                zxid: 9,
                time: 1009
            }
            && write_count(&txn.op) == 0
    );
    session_writes_add_up();
    assert!(rt;
        Lives::new(alloc).get(1).is_none() && Ephemerals::new(alloc).owner_of("/c").is_none()
    );
}
