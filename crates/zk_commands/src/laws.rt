//! A law of sessions: a function without code, whose contract is a theorem.

ghost use Rattle.zk_commands.specs.Laws.{SessionsAnswerScripts};

/// If each line is a command, the output of a session is that of a script of these lines.
pub fn sessions_answer_scripts()
    ensures { SessionsAnswerScripts }
{}
