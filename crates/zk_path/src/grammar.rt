ghost use Rattle.std.specs.Prelude.{◌≡◌, None, true};
ghost use Rattle.std.specs.List.{list_any, slice_split};
ghost use Rattle.std.specs.Result.{result_err};
ghost use Rattle.std.specs.Str.{chars};
ghost use Rattle.zk_path.specs.Paths.{is_slash, is_bad_char, name_fault, first_fault, fault_of};
ghost use Rattle.zk_path.specs.Plain.{is_plain_behind, may_follow};

use crate::fault::PathFault;

/// Fails with the first fault of a text that is not a path.
pub(crate) fn check_path(text: &str) -> Result<(), PathFault>
    ensures { result_err result ≡ fault_of text.now }
{
    if text.is_empty() {
        return Err(PathFault::Empty);
    }
    let Some(names) = text.strip_prefix('/') else {
        return Err(PathFault::NotAbsolute);
    };
    if names.is_empty() {
        return Ok(());
    }
    if names.ends_with('/') {
        return Err(PathFault::TrailingSlash);
    }
    check_names(names)
}

/// Checks the names between slashes, from the left; fails with the first fault.
fn check_names(names: &str) -> Result<(), PathFault>
    ensures { result_err result ≡ first_fault (slice_split is_slash names.now) }
{
    if is_plain(names) {
        return Ok(());
    }
    for name in names.split('/') {
        check_name(name)?;
    }
    Ok(())
}

/// Returns whether a scan of the bytes accepts the text after the first slash: printable ASCII in
/// which no name is empty or starts with a dot. Most paths pass; a text that does not may still be
/// a path.
fn is_plain(names: &str) -> bool
    ensures { result ≡ is_plain_behind true names.now }
{
    let mut plain = true;
    let mut behind_slash = true;
    // No early exit, so that the compiler vectorizes the loop.
    for byte in names.as_bytes() {
        plain &= may_follow(behind_slash, *byte);
        behind_slash = *byte == b'/';
    }
    plain && !behind_slash
}

/// Whether a byte of a plain path may follow a slash, or another byte of a name.
fn may_follow(behind_slash: bool, byte: u8) -> bool
    ensures { result ≡ may_follow behind_slash byte }
{
    let stays = !behind_slash | ((byte != b'/') & (byte != b'.'));
    stays & (byte >= b' ') & (byte <= b'~')
}

/// Fails with the fault of a text without slashes that is not a node's name.
pub(crate) fn check_name(name: &str) -> Result<(), PathFault>
    ensures { result_err result ≡ name_fault name.now }
{
    if name.is_empty() {
        return Err(PathFault::EmptyName);
    }
    if name == "." || name == ".." {
        return Err(PathFault::DotName);
    }
    if has_bad_char(name) {
        return Err(PathFault::BadChar);
    }
    Ok(())
}

fn has_bad_char(name: &str) -> bool
    ensures { result ≡ list_any is_bad_char (chars name.now) }
{
    name.chars().any(is_bad_char)
}

/// Whether no name may contain this character: NUL, a control character, one for private use, a
/// special, or one that UTF-16 encodes as two units.
fn is_bad_char(c: char) -> bool
    ensures { result ≡ is_bad_char c }
{
    matches!(
        c,
        '\0'..='\u{1f}' | '\u{7f}'..='\u{9f}' | '\u{e000}'..='\u{f8ff}' | '\u{fff0}'..
    )
}
