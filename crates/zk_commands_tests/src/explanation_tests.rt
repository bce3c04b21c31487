//! What the lines for errors are explained by, and where.

use zk_helps::{explain_at, explanation_of, words_of};

#[test]
fn errors_of_logs_are_explained(rt: HostRuntime) {
    let corrupt = explanation_of(b"zk: G2 1042\n");
    assert!(rt; corrupt.is_some_and(|it| it.starts_with("The entry at this byte is corrupt")));
    let of_file = explanation_of(b"zk: G2 log.100000001\n");
    assert_eq!(rt; corrupt, of_file);
    assert_eq!(rt; explanation_of(b"zk: memory\n"), words_of(b"memory"));
    assert_eq!(rt;
        words_of(b"S4"),
        Some("The snapshot is corrupt: its checksum does not match.")
    );
}

#[test]
fn other_lines_are_not(rt: HostRuntime) {
    for line in [
        &b"zk: G9\n"[..],
        b"G2 1042\n",
        b"zk:G2\n",
        b"",
        b"zk: \n",
        b"zk: G22\n",
    ] {
        assert_eq!(rt; explanation_of(line), None);
    }
}

#[test]
fn the_option_is_found(rt: HostRuntime) {
    assert_eq!(rt;
        explain_at(&["zk", "show", "--explain", "a", "last"]),
        Some(2)
    );
    assert_eq!(rt; explain_at(&["zk", "show", "./--explain", "last"]), None);
}
