ghost use Rattle.std.specs.Prelude.{IfSome};
ghost use Rattle.zk_reactor.specs.Commands.{NamesCommand, NamesServer, NamesServers};

/// A command of the operator. Servers are numbered from 1.
#[derive(Clone, Copy, Debug, PartialEq, Eq)]
pub enum Command {
    /// Stops a server.
    Crash(usize),
    /// Starts a server that has crashed.
    Restart(usize),
    /// Makes a server lead.
    Lead(usize),
    /// Cuts the link between two servers.
    Cut(usize, usize),
    /// Makes all links healthy.
    Heal,
    /// Prints what each server does.
    Status,
}

/// The command of a line; `None` if it is none.
pub fn command_in(line: &str) -> Option<Command>
    ensures { IfSome result (NamesCommand line.now) }
{
    if line == "heal" {
        return Some(Command::Heal);
    }
    if line == "status" {
        return Some(Command::Status);
    }
    if let Some(word) = line.strip_prefix("crash ") {
        return Some(Command::Crash(server_in(word)?));
    }
    if let Some(word) = line.strip_prefix("restart ") {
        return Some(Command::Restart(server_in(word)?));
    }
    if let Some(word) = line.strip_prefix("lead ") {
        return Some(Command::Lead(server_in(word)?));
    }
    let (one, other) = servers_in(line.strip_prefix("cut ")?)?;
    Some(Command::Cut(one, other))
}

/// The server that a word numbers.
fn server_in(word: &str) -> Option<usize>
    ensures { IfSome result (NamesServer word.now) }
{
    word.parse::<usize>().ok()
}

/// The servers that two words number.
fn servers_in(words: &str) -> Option<(usize, usize)>
    ensures { IfSome result (λ both. NamesServers words.now both.0 both.1) }
{
    let (one, other) = words.split_once(" ")?;
    Some((server_in(one)?, server_in(other)?))
}
