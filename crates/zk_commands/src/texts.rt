//! The messages of a session.
ghost use Rattle.std.specs.Prelude.{◌≡◌};
ghost use Rattle.zk_debug.specs.Reading.{word_in};
ghost use Rattle.zk_commands.specs.Texts.{expected_for, help_text};

/// What was expected in place of a line that is not a command.
pub(crate) fn expected_of(line: &str) -> &'static str
    ensures { result.now ≡ expected_for (word_in line.now) }
{
    match line.split_once(' ') {
        None => expected_for(line),
        Some((word, _)) => expected_for(word),
    }
}

#[tactic(auto, unfolding(crate::specs::Texts::expected_for))]
fn expected_for(word: &str) -> &'static str
    ensures { result.now ≡ expected_for word.now }
{
    match word {
        "goto" => "goto ZXID, of sixteen lower-case hexadecimal digits, or 0x and fewer",
        "node" => "node PATH, in double quotes if it has a space",
        "break" => "break at ZXID, path PATH, prefix PATH, session ID, kind WORD or error",
        "clear" => "clear N, the number of a breakpoint",
        "list" => "list or list N, a number of lines",
        "step" => "step or step N, a number of places",
        "tree" => "tree or tree PATH",
        _ => "a command; help lists them",
    }
}

/// The text of `help`.
pub(crate) fn help() -> &'static str
    ensures { result.now ≡ help_text }
{
    "Lines of a session, one command each; an empty line repeats the last one:
  s, step [N]         one place up, or N
  b, back             one place down
  r, run              up to the first place that matches a breakpoint, or to the end
  rb, runback         down to the last one that does, or to the start
  g, goto ZXID        to the place after all transactions up to this zxid
  tree [PATH]         prints the tree at the place, or the nodes at and below PATH
  node PATH           prints one node of it
  last                prints the result of the transaction just applied
  list [N]            prints the log around the place, marked >: N lines on each side, or 5
  diff                prints what the last move changed: - removed, + added, < before, > after
  diff last           prints what the transaction just applied changed
  break at ZXID       sets a breakpoint on a zxid
  break path PATH     on a path that a transaction or a part names, or a closed session deletes
  break prefix PATH   on such a path and all below it
  break session ID    on a session
  break kind WORD     on a kind of transaction
  break error         on a result whose code is not 0
  info breaks         prints the breakpoints
  clear N             removes breakpoint N
  reset               back to the start; breakpoints stay
  help                these lines
  quit                ends the session, as the end of input does

Words of a kind:
  create0 create delete setData setACL createSession closeSession error multi

A ZXID and an ID are sixteen lower-case hexadecimal digits, or 0x and fewer. A PATH with a space, a
quote or a backslash stands in double quotes.
"
}
