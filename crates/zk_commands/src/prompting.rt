//! The prompt of a session.
ghost use Rattle.std.specs.Prelude.{◌≡◌, ◌-◌, ◌<◌, ◌^◌, ◌++◌, true, OnOk};
ghost use Rattle.std.specs.String.{string_bytes};
ghost use Rattle.zk_records.specs.Sinks.{write_failures_of};
ghost use Rattle.zk_commands.specs.Prompts.{Puts, prompt_text};

use crate::session::{Session, TalkFault};
use std::io::Write;
use zk_listing::push_id;
use zk_log::Sink;
use zk_path::NoMemory;

/// Writes the prompt, if prompts are on.
pub fn put_prompt<O: Write>(
    session: &Session,
    prompts: bool,
    output: &mut Sink<O>,
) -> Result<(), TalkFault>
    requires { write_failures_of output.old < 2 ^ 64 - 1 }
    ensures { Puts O.contents output.old (prompt_text prompts session.now.debugger) result output.new }
{
    let mut page = String::new(session.alloc);
    if prompts {
        push_prompt(&mut page, session)?;
    }
    output.write_all(page.as_bytes())?;
    Ok(())
}

fn push_prompt(page: &mut String, session: &Session) -> Result<(), NoMemory>
    ensures { OnOk result (string_bytes page.new ≡ string_bytes page.old ++ prompt_text true session.now.debugger) }
{
    write!(page, "zk {} ", session.debugger.place())?;
    push_id(page, session.debugger.zxid())?;
    page.push_str("> ")?;
    Ok(())
}
