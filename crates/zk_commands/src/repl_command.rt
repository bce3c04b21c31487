use zk_debug::Command;
use zk_path::Path;

/// A command of a session besides those of a script.
#[derive(Debug, Drop)]
pub enum ReplCommand {
    /// `help`: prints the lines of a session.
    Help,
    /// `list [N]`: prints the log's lines around the place, up to N before it and up to N after it.
    Around(u32),
    /// `diff`: prints what the last move changed in the tree.
    Diff,
    /// `diff last`: prints what the transaction just before the place changed in the tree.
    DiffLast,
    /// `tree PATH`: prints the nodes at and below a path.
    Subtree(Path),
    /// `info breaks`: prints the breakpoints that are set.
    Breakpoints,
    /// `step N` or `break prefix PATH`: a command of the debugger that scripts do not have.
    Do(Command),
    /// `quit`: ends the session.
    Quit,
}
