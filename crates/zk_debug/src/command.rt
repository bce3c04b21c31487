use crate::Breakpoint;
use zk_path::Path;

/// The command in one line of a debug script.
#[derive(Debug, Drop)]
pub enum Command {
    /// `step`: moves to the next place.
    Step,
    /// Moves this many places on, or to the end. A script has no line for it: a session has `step N`.
    StepBy(u32),
    /// `back`: moves to the previous place.
    Back,
    /// `run`: moves to the first later place that matches a breakpoint, or to the end.
    Run,
    /// `runback`: moves to the last earlier place that matches a breakpoint, or to the start.
    RunBack,
    /// `goto ZXID`: moves to the place after the transactions with at most this zxid.
    Goto(i64),
    /// `tree`: prints the report of the tree at the place.
    Tree,
    /// `node PATH`: prints the line of a node at the place.
    Node(Path),
    /// `last`: prints the result of the transaction just before the place.
    Last,
    /// `break ..`: sets a breakpoint.
    Break(Breakpoint),
    /// `clear N`: removes the breakpoint with a number.
    Clear(u32),
    /// `reset`: moves to the start. Keeps the breakpoints.
    Reset,
}
