//! The words of a fault and of a help, without what is around them in a line.
ghost use Rattle.std.specs.Prelude.{◌≡◌, ◌++◌, IfOk, codes, option_map};
ghost use Rattle.std.specs.String.{string_bytes};
ghost use Rattle.zk_directory_state.specs.FaultLines.{fault_text};
ghost use Rattle.zk_json_commands.specs.Verifications.{CutsFront, CutsLine};
ghost use Rattle.zk_verification.specs.Helps.{help_line};

use std::alloc::Global;
use zk_directory_state::{HistoryFault, fault_line};
use zk_path::NoMemory;
use zk_verification::{Kind, help_line};

/// What follows a front in a text that begins with it.
fn after_front<'a>(front: &str, text: &'a str) -> Option<&'a str>
    ensures { CutsFront front.now text.now (option_map (λ rest. rest.now) result) }
{
    text.strip_prefix(front)
}

/// A text without its newline.
fn before_newline(text: &str) -> Option<&str>
    ensures { CutsLine text.now (option_map (λ words. words.now) result) }
{
    text.strip_suffix("\n")
}

/// The words of a fault: its name, the file that it is about, and its numbers.
#[tactic(auto, unfolding(zk_directory_state::specs::FaultLines::fault_line))]
pub(crate) fn fault_words(alloc: Global, fault: &HistoryFault) -> Result<String, NoMemory>
    ensures { IfOk result (λ words. string_bytes words ≡ fault_text fault.now) }
{
    let line = fault_line(alloc, fault)?;
    let Some(rest) = after_front("zk: ", line.as_str()) else {
        unreachable!()
    };
    let Some(words) = before_newline(rest) else {
        unreachable!()
    };
    Ok(String::from_str(alloc, words)?)
}

/// What helps against faults of a kind.
#[tactic(auto, using(crate::proofs::Words::help_ends))]
pub(crate) fn help_words(kind: Kind) -> &'static str
    ensures { help_line kind ≡ codes "help " ++ result.now ++ codes "\n" }
{
    let Some(rest) = after_front("help ", help_line(kind)) else {
        unreachable!()
    };
    let Some(words) = before_newline(rest) else {
        unreachable!()
    };
    words
}
