ghost use Rattle.std.specs.Prelude.{◌≡◌, ◌==◌, option_map};
ghost use Rattle.std.specs.List.{position};
ghost use Rattle.zk_line_protocol.specs.Lines.{IsSplit};

/// Returns the bytes before the first newline, and those after it; `None` if there is no newline.
pub fn split_line(bytes: &[u8]) -> Option<(&[u8], &[u8])>
    ensures { IsSplit bytes.now (option_map (λ x. (x.0.now, x.1.now)) result) }
{
    match newline_at(bytes) {
        Some(at) => Some((&bytes[..at], &bytes[at + 1..])),
        None => None,
    }
}

/// Finds the first newline.
fn newline_at(bytes: &[u8]) -> Option<usize>
    ensures { result ≡ position (λ b. b == 10) bytes.now }
{
    bytes.iter().position(|b| *b == b'\n')
}
