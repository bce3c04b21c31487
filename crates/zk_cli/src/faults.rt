//! Standard error, which says in words what each line means if that is asked for, or on a terminal.

ghost use Rattle.std.specs.Prelude.{◌≡◌};
ghost use Rattle.zk_records.specs.Sinks.{write_failures_of};

use std::env;
use std::io::{IsTerminal, Stderr};
use zk_helps::{Explaining, explain_at, words_of};
use zk_log::Sink;
use zk_path::NoMemory;

/// A new writer of standard error.
pub(crate) fn faults(rt: &HostRuntime) -> Sink<Explaining<Stderr>>
    ensures { write_failures_of result ≡ 0 }
{
    Sink::new(new_explaining(rt))
}

/// Standard error, with explanations if they are asked for.
pub(crate) fn new_explaining(rt: &HostRuntime) -> Explaining<Stderr> {
    Explaining::new(rt.stderr(), explains(rt))
}

/// Prints why the program stops. Returns the exit status.
pub(crate) fn refuse(rt: &HostRuntime, reason: &str) -> u8 {
    // If that fails too, the error cannot be reported.
    let _ = eprintln!(rt; "zk: {reason}");
    if explains(rt)
        && let Some(words) = words_of(reason.as_bytes())
    {
        let _ = eprintln!(rt; "{words}");
    }
    1
}

fn explains(rt: &HostRuntime) -> bool {
    rt.stderr().is_terminal() || matches!(is_asked(rt), Ok(true))
}

/// Whether the words of the command line ask for explanations.
fn is_asked(rt: &HostRuntime) -> Result<bool, NoMemory> {
    let Ok(args) = env::args(rt) else {
        return Ok(false);
    };
    let words = args.collect::<Vec<_>>(rt.alloc())?;
    let texts = words
        .iter()
        .map(|word| word.as_str())
        .collect::<Vec<_>>(rt.alloc())?;
    Ok(explain_at(texts.as_slice()).is_some())
}
