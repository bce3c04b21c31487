//! The names of snapshots and logs.
ghost use Rattle.std.specs.Prelude.{◌≡◌, ◌<◌, IfSome, option_map};
ghost use Rattle.std.specs.List.{position};
ghost use Rattle.zk_directory.specs.Names.{before_dot, digit_in, digit_of, file_name_of, is_dot, log_digits, number_of, read_zxid_of, server_file_of, snapshot_digits, value_of, zxid_of};

/// 2^59: a digit after a number from here on would make it 2^63 or more.
const SIXTEENTH: u64 = 576_460_752_303_423_488;

/// A file of a data directory, by the zxid in its name.
#[derive(Clone, Copy, Debug, PartialEq, Eq)]
pub enum FileName {
    /// `snapshot.ZXID`: written after this transaction was applied.
    Snapshot { zxid: i64 },
    /// `log.ZXID`: created for this transaction.
    Log { zxid: i64 },
}

/// Which digits of a hexadecimal number there may be above 9.
#[derive(Clone, Copy)]
enum Case {
    Lower,
    Either,
}

/// The snapshot or log that a file's name denotes; `None` for any other name.
///
/// ZXID is lower-case hexadecimal, without leading zeros, and not negative.
pub fn read_file_name(name: &str) -> Option<FileName>
    ensures { result ≡ file_name_of name.now }
{
    if let Some(digits) = log_digits(name) {
        return match zxid_of(digits.as_bytes()) {
            Some(zxid) => Some(FileName::Log { zxid }),
            None => None,
        };
    }
    if let Some(digits) = snapshot_digits(name) {
        return match zxid_of(digits.as_bytes()) {
            Some(zxid) => Some(FileName::Snapshot { zxid }),
            None => None,
        };
    }
    None
}

/// What follows `log.`.
fn log_digits(name: &str) -> Option<&str>
    ensures { option_map (λ digits. digits.now) result ≡ log_digits name.now }
{
    name.strip_prefix("log.")
}

/// What follows `snapshot.`.
fn snapshot_digits(name: &str) -> Option<&str>
    ensures { option_map (λ digits. digits.now) result ≡ snapshot_digits name.now }
{
    name.strip_prefix("snapshot.")
}

/// The zxid of hexadecimal digits without a leading zero.
fn zxid_of(digits: &[u8]) -> Option<i64>
    ensures { result ≡ zxid_of digits.now }
{
    match digits {
        [] => None,
        [b'0', _, ..] => None,
        _ => value_of(Case::Lower, digits),
    }
}

/// The value of hexadecimal digits, if it is below 2^63.
fn value_of(case: Case, digits: &[u8]) -> Option<i64>
    ensures { result ≡ value_of case digits.now }
{
    let mut value = 0u64;
    for byte in digits {
        let Some(digit) = digit_in(case, *byte) else {
            return None;
        };
        if value >= SIXTEENTH {
            return None;
        }
        value = value * 16 + digit;
    }
    Some(value as i64)
}

/// The value of a lower-case hexadecimal digit.
fn digit_of(byte: u8) -> Option<u64>
    ensures digit { result ≡ digit_of byte }
    ensures small { IfSome result (λ digit. digit < 16) }
{
    match byte {
        b'0'..=b'9' => Some(u64::from(byte - b'0')),
        b'a'..=b'f' => Some(u64::from(byte - b'a') + 10),
        _ => None,
    }
}

/// The snapshot or log that a server reads by this name; `None` for a name that it leaves out.
///
/// What stands between the first dot and the next one, or the end, is the zxid: in hexadecimal of
/// either case, with any leading zeros, and maybe after a plus sign. So `log.0D8`, `log.d8.bak` and `log.d8` are read alike.
pub fn read_server_name(name: &str) -> Option<FileName>
    ensures { result ≡ server_file_of name.now }
{
    if let Some(rest) = log_digits(name) {
        return match read_zxid_of(before_dot(rest.as_bytes())) {
            Some(zxid) => Some(FileName::Log { zxid }),
            None => None,
        };
    }
    if let Some(rest) = snapshot_digits(name) {
        return match read_zxid_of(before_dot(rest.as_bytes())) {
            Some(zxid) => Some(FileName::Snapshot { zxid }),
            None => None,
        };
    }
    None
}

/// What stands before the first dot, or all.
fn before_dot(text: &[u8]) -> &[u8]
    ensures { result.now ≡ before_dot text.now }
{
    match dot_at(text) {
        Some(at) => &text[..at],
        None => text,
    }
}

fn dot_at(text: &[u8]) -> Option<usize>
    ensures { result ≡ position is_dot text.now }
{
    text.iter().position(|byte| *byte == b'.')
}

/// The value of hexadecimal digits of either case, which a plus sign may precede.
fn read_zxid_of(digits: &[u8]) -> Option<i64>
    ensures { result ≡ read_zxid_of digits.now }
{
    match digits {
        [b'+', rest @ ..] => number_of(rest),
        _ => number_of(digits),
    }
}

/// The value of hexadecimal digits of either case, if there are any and it is below 2^63.
fn number_of(digits: &[u8]) -> Option<i64>
    ensures { result ≡ number_of digits.now }
{
    if digits.is_empty() {
        return None;
    }
    value_of(Case::Either, digits)
}

/// The value of a hexadecimal digit.
fn digit_in(case: Case, byte: u8) -> Option<u64>
    ensures digit { result ≡ digit_in case byte }
    ensures small { IfSome result (λ digit. digit < 16) }
{
    match (case, byte) {
        (Case::Either, b'A'..=b'F') => Some(u64::from(byte - b'A') + 10),
        _ => digit_of(byte),
    }
}
