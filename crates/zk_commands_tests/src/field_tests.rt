//! Readers of fields that no command calls, which take a field from the beginning. Lines of
//! requests are tested in `checks/golden`.
use std::alloc::Global;
use zk_request_syntax::{
    Lookup, take_id, take_ids, take_int, take_long, take_lookup, take_number, take_request,
    take_space, take_word,
};
use zk_requests::Request;

/// Takes an identity and numbers, each after a space, and returns whether they are the expected
/// ones.
fn takes_id(rest: &mut &str) -> bool {
    take_space(rest).is_ok() && take_id(rest) == Ok(10)
}

fn takes_int(rest: &mut &str) -> bool {
    take_space(rest).is_ok() && take_int(rest) == Ok(-5)
}

fn takes_number(rest: &mut &str) -> bool {
    take_space(rest).is_ok() && take_number(rest) == Ok(u64::MAX)
}

fn takes_long(rest: &mut &str) -> bool {
    take_space(rest).is_ok() && take_long(rest) == Ok(i64::MIN)
}

/// Takes identities, and returns whether they are two, of which the first is `a:b` of the scheme
/// `digest`.
fn takes_ids(alloc: Global, rest: &mut &str) -> bool {
    match take_ids(alloc, rest) {
        Ok(ids) => match ids.as_slice() {
            [first, _] => first.scheme.as_str() == "digest" && first.id.as_str() == "a:b",
            _ => false,
        },
        Err(_) => false,
    }
}

/// Takes a read of the root, and returns whether it sets no watch.
fn takes_lookup(alloc: Global, rest: &mut &str) -> bool {
    match take_lookup(alloc, rest) {
        Ok(Lookup::Asks { call, watch }) => call.path().text() == "/" && !watch,
        _ => false,
    }
}

/// Takes a request, and returns whether it closes a session.
fn takes_close(alloc: Global, rest: &mut &str) -> bool {
    let request = take_request(alloc, rest);
    matches!(&request, Ok(Request::CloseSession))
}

#[test]
fn fields_are_taken_from_the_front(rt: HostRuntime) {
    let alloc = rt.alloc();
    let mut rest =
        "one 000000000000000a -5 18446744073709551615 -9223372036854775808 2 \"a:b\" \"\" get \"/\" close x";
    assert_eq!(rt; take_word(&mut rest), "one");
    assert!(rt; takes_id(&mut rest) && takes_int(&mut rest));
    assert!(rt; takes_number(&mut rest) && takes_long(&mut rest));
    assert!(rt; take_space(&mut rest).is_ok() && takes_ids(alloc, &mut rest));
    assert!(rt; take_space(&mut rest).is_ok() && takes_lookup(alloc, &mut rest));
    assert!(rt; take_space(&mut rest).is_ok() && takes_close(alloc, &mut rest));
    assert_eq!(rt; rest, " x");
    for mut refused in ["+1", "01", "18446744073709551616", ""] {
        assert!(rt; take_number(&mut refused).is_err());
    }
}
