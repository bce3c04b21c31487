//! Tests of `zk_path`.

ghost use Rattle.std.specs.Prelude.{◌≡◌, ◌≢◌, [], false};
ghost use Rattle.std.specs.List.{AllByRecursion};
ghost use Rattle.zk_path.specs.Paths.{is_slash};

use std::alloc::Global;
use zk_path::{NoMemory, Path, PathFault, sequence};

/// Whether a fault is displayed as this code.
fn is_shown_as(alloc: Global, fault: PathFault, code: &str) -> Result<bool, NoMemory> {
    Ok(format!(in alloc; "{fault}")?.as_str() == code)
}

/// Whether a text is rejected with the fault of this code; with `-`, whether it is a path.
fn is_told(alloc: Global, text: &str, code: &str) -> Result<bool, NoMemory> {
    match Path::read(alloc, text) {
        Ok(_) => Ok(code == "-"),
        Err(fault) => is_shown_as(alloc, fault, code),
    }
}

static PATH_FAULTS: [(&str, &str); 30] = [
    ("", "P1"),
    ("a", "P2"),
    ("a/", "P2"),
    ("//", "P3"),
    ("/a//./", "P3"),
    ("/a//b", "P4"),
    ("/a//.", "P4"),
    ("/a/./b", "P5"),
    ("/../\u{7f}//b", "P5"),
    ("/a\u{7f}", "P6"),
    ("/\u{7f}/.", "P6"),
    ("/\0", "P6"),
    ("/\u{1f}", "P6"),
    ("/\u{9f}", "P6"),
    ("/\u{e000}", "P6"),
    ("/\u{f8ff}", "P6"),
    ("/\u{fff0}", "P6"),
    ("/\u{ffff}", "P6"),
    ("/\u{10000}", "P6"),
    ("/\u{10ffff}", "P6"),
    ("/", "-"),
    ("/..a", "-"),
    ("/...", "-"),
    ("/ ", "-"),
    ("/a/b/c", "-"),
    ("/\u{7e}", "-"),
    ("/\u{a0}", "-"),
    ("/\u{d7ff}", "-"),
    ("/\u{f900}", "-"),
    ("/\u{ffef}", "-"),
];

#[test]
fn path_faults_in_order(rt: HostRuntime) {
    for (text, code) in &PATH_FAULTS {
        assert!(rt; is_told(rt.alloc(), text, code) == Ok(true), "{text}");
    }
}

/// Whether a path, by its copy, has this text, parent and name.
fn has_parts(
    alloc: Global,
    text: &str,
    parent: Option<&str>,
    name: &str,
) -> Result<bool, PathFault> {
    let path = Path::read(alloc, text)?.copy()?;
    Ok(path.text() == text && path.parent() == parent && path.name() == name)
}

/// Paths, their parents and their names.
static PARTS: [(&str, Option<&str>, &str); 3] = [
    ("/", None, ""),
    ("/app", Some("/"), "app"),
    ("/app/..lock", Some("/app"), "..lock"),
];

#[test]
fn parents_and_names(rt: HostRuntime) {
    for (text, parent, name) in &PARTS {
        assert!(rt;
            has_parts(rt.alloc(), text, *parent, name) == Ok(true),
            "{text}"
        );
    }
}

/// Whether a path's child with this name has this text, or is rejected with the fault of this code.
fn is_child(alloc: Global, path: &Path, name: &str, child: &str) -> Result<bool, NoMemory>
    requires filled { name.now ≢ [] }
    requires whole { AllByRecursion (λ b. is_slash b ≡ false) name.now }
{
    match path.child(name) {
        Ok(path) => Ok(path.text() == child),
        Err(fault) => is_shown_as(alloc, fault, child),
    }
}

/// Does the same with the path of a text.
fn has_child(alloc: Global, text: &str, name: &str, child: &str) -> Result<bool, PathFault>
    requires filled { name.now ≢ [] }
    requires whole { AllByRecursion (λ b. is_slash b ≡ false) name.now }
{
    let path = Path::read(alloc, text)?;
    Ok(is_child(alloc, &path, name, child)?)
}

#[test]
fn children_add_a_name(rt: HostRuntime) {
    let alloc = rt.alloc();
    assert_eq!(rt; has_child(alloc, "/", "app", "/app"), Ok(true));
    assert_eq!(rt; has_child(alloc, "/app", "..lock", "/app/..lock"), Ok(true));
    assert_eq!(rt; has_child(alloc, "/app", ".", "P5"), Ok(true));
    assert_eq!(rt; has_child(alloc, "/app", "..", "P5"), Ok(true));
    assert_eq!(rt; has_child(alloc, "/app", "a\u{7f}", "P6"), Ok(true));
}

#[test]
fn want_of_memory_has_its_code(rt: HostRuntime) {
    assert!(rt; is_shown_as(rt.alloc(), PathFault::from(NoMemory), "P7") == Ok(true));
}

/// Whether a number is formatted as `text` at the end of a sequential node's name.
fn is_spelled(alloc: Global, number: i32, text: &str) -> bool {
    matches!(sequence(alloc, number), Ok(spelled) if spelled.as_str() == text)
}

/// Numbers, and how each is formatted.
static NUMBERS: [(i32, &str); 7] = [
    (0, "0000000000"),
    (2, "0000000002"),
    (3, "0000000003"),
    (i32::MAX, "2147483647"),
    (i32::MIN, "-2147483648"),
    (-2147483647, "-2147483647"),
    (-5, "-000000005"),
];

#[test]
fn sequential_names_wrap(rt: HostRuntime) {
    for (number, text) in &NUMBERS {
        assert!(rt; is_spelled(rt.alloc(), *number, text));
    }
}
