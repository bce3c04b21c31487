//! Lines of transactions.
use std::alloc::Global;
use zk_json::{
    LastChange, Value, push_change_line, push_count_line, push_history_line, push_object_line,
    push_record_line,
};
use zk_listing::assemble;
use zk_path::Path;

/// The parts of a transaction's line in a listing, and those of its JSON line.
static ROWS: [(&[&str], &[&str]); 10] = [
    (
        &[
            "00000000000002a4 0100000d9c0a0000 0 1795791214997 createSession ",
            "30000\n",
        ],
        &[
            r#"{"zxid":"0x2a4","time":"2026-11-27T14:53:34.997Z","#,
            r#""session":"0x100000d9c0a0000","cxid":0,"type":"createSession","#,
            "\"timeout\":30000}\n",
        ],
    ),
    (
        &[
            r#"00000000000002a5 0100000d9c0a0000 1 1795791214997 create "/a "#,
            "\\\"q\\\" \\\\ b\u{e9}\u{4e2d}\" ",
            "x6c696e65206f6e650a6c696e65202274776f225c09001f7ff09f9880 1 31 ",
            "\"world\" \"anyone\" e 7\n",
        ],
        &[
            r#"{"zxid":"0x2a5","time":"2026-11-27T14:53:34.997Z","#,
            r#""session":"0x100000d9c0a0000","cxid":1,"type":"create","path":"/a "#,
            "\\\"q\\\" \\\\ b\u{e9}\u{4e2d}\",",
            "\"data\":\"bGluZSBvbmUKbGluZSAidHdvIlwJAB9/8J+YgA==\",",
            "\"text\":\"line one\\nline \\\"two\\\"\\\\\\t\\u0000\\u001f\u{7f}\u{1f600}\",",
            r#""acl":[{"scheme":"world","id":"anyone","perms":31}],"#,
            "\"ephemeral\":true,\"parentCVersion\":7}\n",
        ],
    ),
    (
        &[
            r#"00000000000002a6 0100000d9c0a0000 2 1795791214997 create0 "/b" - "#,
            "0 p\n",
        ],
        &[
            r#"{"zxid":"0x2a6","time":"2026-11-27T14:53:34.997Z","#,
            r#""session":"0x100000d9c0a0000","cxid":2,"type":"create0","#,
            "\"path\":\"/b\",\"data\":null,\"text\":null,\"acl\":[],\"ephemeral\":false}\n",
        ],
    ),
    (
        &[
            "00000000000002a7 ffffffffffffffff -2147483648 1795791214997 ",
            "setData \"/b\" xfffe00 -1\n",
        ],
        &[
            r#"{"zxid":"0x2a7","time":"2026-11-27T14:53:34.997Z","#,
            r#""session":"0xffffffffffffffff","cxid":-2147483648,"#,
            r#""type":"setData","path":"/b","data":"//4A","text":null,"#,
            "\"version\":-1}\n",
        ],
    ),
    (
        &[
            r#"00000000000002a8 0000000000000001 3 1795791214997 setACL "/b" 2 1 "#,
            "\"digest\" \"super:\\\"x\\\"=\" -1 \"ip\" \"10.0.0.0/8\" 2\n",
        ],
        &[
            r#"{"zxid":"0x2a8","time":"2026-11-27T14:53:34.997Z","session":"0x1","#,
            r#""cxid":3,"type":"setACL","path":"/b","acl":[{"scheme":"digest","#,
            r#""id":"super:\"x\"=","perms":1},{"scheme":"ip","id":"10.0.0.0/8","#,
            "\"perms\":-1}],\"version\":2}\n",
        ],
    ),
    (
        &[
            "00000000000002a9 0000000000000001 4 1795791214997 multi ; check ",
            r#""/b" 3 ; create "/b/c" x 1 31 "world" "anyone" p -1 ; setData "#,
            "\"/b\" x61 4 ; delete \"/b/c\"\n",
        ],
        &[
            r#"{"zxid":"0x2a9","time":"2026-11-27T14:53:34.997Z","session":"0x1","#,
            r#""cxid":4,"type":"multi","ops":[{"type":"check","path":"/b","#,
            r#""version":3},{"type":"create","path":"/b/c","data":"","text":"","#,
            r#""acl":[{"scheme":"world","id":"anyone","perms":31}],"#,
            r#""ephemeral":false,"parentCVersion":-1},{"type":"setData","#,
            r#""path":"/b","data":"YQ==","text":"a","version":4},"#,
            "{\"type\":\"delete\",\"path\":\"/b/c\"}]}\n",
        ],
    ),
    (
        &[
            "00000000000002aa 0000000000000001 5 1795791214997 multi ; error 0 ",
            "; error -101\n",
        ],
        &[
            r#"{"zxid":"0x2aa","time":"2026-11-27T14:53:34.997Z","session":"0x1","#,
            r#""cxid":5,"type":"multi","ops":[{"type":"error","err":0},"#,
            "{\"type\":\"error\",\"err\":-101}]}\n",
        ],
    ),
    (
        &["00000000000002ab 0000000000000001 6 1795791214997 error -110\n"],
        &[
            r#"{"zxid":"0x2ab","time":"2026-11-27T14:53:34.997Z","session":"0x1","#,
            "\"cxid\":6,\"type\":\"error\",\"err\":-110}\n",
        ],
    ),
    (
        &["00000000000002ac 0000000000000001 7 1795791214997 delete \"/b\"\n"],
        &[
            r#"{"zxid":"0x2ac","time":"2026-11-27T14:53:34.997Z","session":"0x1","#,
            "\"cxid\":7,\"type\":\"delete\",\"path\":\"/b\"}\n",
        ],
    ),
    (
        &["00000000000002ad 0100000d9c0a0000 0 1795791214997 closeSession\n"],
        &[
            r#"{"zxid":"0x2ad","time":"2026-11-27T14:53:34.997Z","#,
            "\"session\":\"0x100000d9c0a0000\",\"cxid\":0,\"type\":\"closeSession\"}\n",
        ],
    ),
];

/// The texts, joined.
fn joined(alloc: Global, parts: &[&str]) -> Option<String> {
    let mut text = String::new(alloc);
    for piece in parts {
        text.push_str(piece).ok()?;
    }
    Some(text)
}

/// Whether the only transaction of a listing has a JSON line; `None` without memory.
fn is_written(alloc: Global, listing: &[&str], line: &[&str]) -> Option<bool> {
    let txns = assemble(alloc, joined(alloc, listing)?.as_str()).ok()?;
    let mut text = String::new(alloc);
    push_record_line(&mut text, txns.first()?).ok()?;
    Some(text == joined(alloc, line)?)
}

#[test]
fn transactions_are_objects(rt: HostRuntime) {
    for (listing, line) in &ROWS {
        assert!(rt; is_written(rt.alloc(), listing, line) == Some(true));
    }
}

/// The parts of the line of the transaction of `EXPIRY` in the history of two nodes.
static HISTORY: [&str; 3] = [
    r#"{"paths":["/b","/c \"d\""],"kind":"closeSession","expired":true,"zxid":"0x2ad","#,
    r#""time":"2026-11-27T14:53:34.997Z","session":"0x100000d9c0a0000","#,
    "\"cxid\":0,\"type\":\"closeSession\"}\n",
];

const EXPIRY: &str = "00000000000002ad 0100000d9c0a0000 0 1795791214997 closeSession\n";

/// Whether the history of two nodes has the line; `None` without memory.
fn is_in_history(alloc: Global) -> Option<bool> {
    let txns = assemble(alloc, EXPIRY).ok()?;
    let mut text = String::new(alloc);
    let paths = ["/b", "/c \"d\""];
    push_history_line(&mut text, &paths, "closeSession", true, txns.first()?).ok()?;
    Some(text == joined(alloc, &HISTORY)?)
}

#[test]
fn a_history_has_the_paths(rt: HostRuntime) {
    assert!(rt; is_in_history(rt.alloc()) == Some(true));
}

fn count_line(alloc: Global) -> Option<String> {
    let mut text = String::new(alloc);
    push_count_line(&mut text, "path", "/b\n", 18_446_744_073_709_551_615).ok()?;
    Some(text)
}

#[test]
fn a_count_has_its_path(rt: HostRuntime) {
    let line = count_line(rt.alloc());
    assert!(rt; line.as_deref() == Some("{\"writes\":18446744073709551615,\"path\":\"/b\\n\"}\n"));
}

fn object_line(alloc: Global) -> Option<String> {
    let mut text = String::new(alloc);
    let fields = [
        ("a \"b\"", Value::Text("c\n\u{e9}")),
        ("count", Value::Count(3)),
        ("id", Value::Id(-1)),
        ("flag", Value::Flag(true)),
        ("none", Value::Null),
    ];
    push_object_line(&mut text, &fields).ok()?;
    Some(text)
}

const OBJECT: &str =
    "{\"a \\\"b\\\"\":\"c\\n\u{e9}\",\"count\":3,\"id\":\"0xffffffffffffffff\",\"flag\":true,\"none\":null}\n";

#[test]
fn an_object_has_its_fields(rt: HostRuntime) {
    let line = object_line(rt.alloc());
    assert!(rt; line.as_deref() == Some(OBJECT));
}

fn change_line(alloc: Global, last: Option<LastChange>) -> Option<String> {
    let path = Path::read(alloc, "/b").ok()?;
    let mut text = String::new(alloc);
    push_change_line(&mut text, &path, last, None, None).ok()?;
    Some(text)
}

#[test]
fn a_change_has_both_sides(rt: HostRuntime) {
    let line = change_line(rt.alloc(), None);
    assert!(rt;
        line.as_deref() == Some("{\"path\":\"/b\",\"last\":null,\"before\":null,\"after\":null}\n")
    );
}

const STAMPED: &str =
    "{\"path\":\"/b\",\"last\":{\"zxid\":\"0x2a4\",\"time\":\"2026-11-27T14:53:34.997Z\"},\"before\":null,\"after\":null}\n";

#[test]
fn a_change_has_its_last_transaction(rt: HostRuntime) {
    let last = LastChange {
        zxid: 0x2a4,
        time: 1_795_791_214_997,
    };
    let line = change_line(rt.alloc(), Some(last));
    assert!(rt; line.as_deref() == Some(STAMPED));
}
