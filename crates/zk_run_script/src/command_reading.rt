//! Reads a line with a command.
ghost use Rattle.std.specs.Prelude.{◌≡◌, ◌≢◌, IfErr};
ghost use Rattle.zk_listing.specs.Reading.{Takes, spaced, mapped};
ghost use Rattle.zk_request_syntax.specs.Reading.{number_at};
ghost use Rattle.zk_run_script.specs.Commands.{ReadsCommand};
ghost use Rattle.zk_run_script.specs.CommandReading.{two_at, submit_at, expire_at, read_at, submitted, expired, read_by, reported_at, command_at, is_among, among_result};
ghost use Rattle.zk_run_script.specs.declared.command.Command.TheVariants as commands;
ghost use Rattle.zk_model.specs.declared.event.Event.TheVariants as events;
ghost use Rattle.zab_model.specs.declared.event.Event.TheVariants.{Follow as WorldFollow, Sync as WorldSync};

use crate::command::{Command, Report};
use std::alloc::Global;
use zab_model::Event as WorldEvent;
use zk_listing::ListCause;
use zk_model::{Event, Question};
use zk_request_syntax::{
    Lookup, spaced_id, spaced_ids, spaced_int, spaced_long, spaced_lookup, spaced_number,
    spaced_request, take_word,
};
use zk_requests::Call;

/// Reads the command of a line, without its newline, among `servers` servers. A report on another
/// server is an error.
pub fn read_command(alloc: Global, servers: usize, line: &str) -> Result<Command, ListCause>
    ensures { ReadsCommand servers line.now result }
{
    let mut rest = line;
    let read = command(alloc, &mut rest);
    among(servers, read, rest)
}

/// Checks that nothing is left of the line, and that the server of a report exists.
fn among(servers: usize, read: Result<Command, ListCause>, left: &str) -> Result<Command, ListCause>
    ensures { result ≡ among_result servers left.now read }
{
    let command = read?;
    if left.is_empty() && is_among(servers, &command) {
        return Ok(command);
    }
    Err(ListCause::Fields)
}

/// Whether the server of a report exists.
fn is_among(servers: usize, command: &Command) -> bool
    ensures { result ≡ is_among servers command.now }
{
    match command {
        Command::Reports { server, .. } => 0 < *server && *server <= servers,
        _ => true,
    }
}

#[tactic(auto, unfolding(crate::specs::CommandReading::command_at))]
fn command(alloc: Global, input: &mut &str) -> Result<Command, ListCause>
    ensures { Takes result input.new.now (command_at input.old.now) }
{
    match take_word(input) {
        "lead" => Ok(happens(WorldEvent::Lead {
            server: place(input)?,
        })),
        "follow" => follow(input),
        "arrive" => Ok(happens(WorldEvent::Arrive {
            message: place(input)?,
        })),
        "crash" => Ok(happens(WorldEvent::Crash {
            server: place(input)?,
        })),
        "restart" => Ok(happens(WorldEvent::Restart {
            server: place(input)?,
        })),
        "submit" => submit(alloc, input),
        "expire" => expire(input),
        "sync" => sync(input),
        "read" => read(alloc, input),
        "delivered" => report(Report::Delivered, input),
        "history" => report(Report::History, input),
        "answers" => report(Report::Answers, input),
        "syncs" => report(Report::Syncs, input),
        "events" => report(Report::Events, input),
        "tree" => report(Report::Tree, input),
        _ => Err(ListCause::Word),
    }
}

/// An event of the world of servers.
fn happens(event: WorldEvent<Call>) -> Command
    ensures { result ≡ commands.Happens (events.World event) }
{
    Command::Happens(Event::World(event))
}

fn follow(input: &mut &str) -> Result<Command, ListCause>
    ensures { Takes result input.new.now (mapped (λ x. commands.Happens (events.World (WorldFollow x.0 x.1))) two_at input.old.now) }
{
    let server = place(input)?;
    let leader = place(input)?;
    Ok(happens(WorldEvent::Follow { server, leader }))
}

#[tactic(auto, unfolding(crate::specs::CommandReading::submit_at))]
fn submit(alloc: Global, input: &mut &str) -> Result<Command, ListCause>
    ensures { Takes result input.new.now (mapped submitted submit_at input.old.now) }
{
    let server = place(input)?;
    let tag = spaced_number(input)?;
    let session = spaced_id(input)?;
    let cxid = spaced_int(input)?;
    let now = spaced_long(input)?;
    let auths = spaced_ids(alloc, input)?;
    let request = spaced_request(alloc, input)?;
    let call = Call {
        tag,
        session,
        cxid,
        auths,
        now,
        request,
    };
    Ok(happens(WorldEvent::Submit { server, call }))
}

#[tactic(auto, unfolding(crate::specs::CommandReading::expire_at))]
fn expire(input: &mut &str) -> Result<Command, ListCause>
    ensures { Takes result input.new.now (mapped expired expire_at input.old.now) }
{
    let server = place(input)?;
    let tag = spaced_number(input)?;
    let session = spaced_id(input)?;
    let now = spaced_long(input)?;
    Ok(happens(WorldEvent::Expire {
        server,
        tag,
        session,
        now,
    }))
}

fn sync(input: &mut &str) -> Result<Command, ListCause>
    ensures { Takes result input.new.now (mapped (λ x. commands.Happens (events.World (WorldSync x.0 x.1))) two_at input.old.now) }
{
    let server = place(input)?;
    let tag = spaced_number(input)?;
    Ok(happens(WorldEvent::Sync { server, tag }))
}

#[tactic(auto, unfolding(crate::specs::CommandReading::read_at))]
fn read(alloc: Global, input: &mut &str) -> Result<Command, ListCause>
    ensures { Takes result input.new.now (mapped read_by read_at input.old.now) }
{
    let server = place(input)?;
    let session = spaced_id(input)?;
    let seen = spaced_id(input)?;
    let auths = spaced_ids(alloc, input)?;
    match spaced_lookup(alloc, input)? {
        Lookup::Asks { call, watch } => Ok(Command::Happens(Event::Read(Question {
            server,
            session,
            seen,
            auths,
            call,
            watch,
        }))),
        Lookup::BadPath => Ok(Command::ReadsNoPath),
    }
}

fn report(report: Report, input: &mut &str) -> Result<Command, ListCause>
    ensures { Takes result input.new.now (reported_at report input.old.now) }
{
    let server = place(input)?;
    Ok(Command::Reports { report, server })
}

/// Reads the number of a server or a message, after a space.
fn place(input: &mut &str) -> Result<usize, ListCause>
    ensures taken { Takes result input.new.now (spaced number_at input.old.now) }
    ensures memory { IfErr result (λ cause. cause ≢ ListCause.NoMemory) }
{
    let number = spaced_number(input)?;
    Ok(number as usize)
}
