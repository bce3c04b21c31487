ghost use Rattle.std.specs.Prelude.{◌≡◌, IfOk};
ghost use Rattle.std.specs.String.{string_bytes};
ghost use Rattle.zk_listing.specs.Lines.{line_of_script_fault};

use std::alloc::Global;
use thiserror::Error;
use zk_path::NoMemory;

/// Why a script stopped before its end.
#[derive(Clone, Copy, Debug, PartialEq, Eq, Error)]
pub enum ScriptFault {
    /// The line with this number, counted from 1, is not a command.
    #[error("script {0}")]
    Malformed(u64),
    /// An allocation failed.
    #[error("no memory")]
    NoMemory,
}

/// The line for the first line of a script that is not a command.
pub fn script_line(alloc: Global, number: u64) -> Result<String, NoMemory>
    ensures { IfOk result (λ line. string_bytes line ≡ line_of_script_fault number) }
{
    let mut line = String::new(alloc);
    write!(line, "zk: script {number}\n")?;
    Ok(line)
}
