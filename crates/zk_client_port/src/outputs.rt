ghost use Rattle.std.specs.Prelude.{◌≡◌, ◌++◌, ◌∷◌, [], OnOk, IfOk};
ghost use Rattle.zk_client_port.specs.Outputs.{is_numbered, with_first, after_output, after_outputs, gained_from, gained_in, gained_at};
ghost use Rattle.zk_client_port.specs.Results.{with_outcome};
ghost use Rattle.zk_connections.specs.Connections.{with_event};

use crate::admission::Admission;
use crate::expected::Expected;
use crate::result::{Attachment, write_outcome};
use std::alloc::Global;
use zk_connections::Connection;
use zk_frames::FrameFault;
use zk_hub::{Outcome, Output};
use zk_path::NoMemory;
use zk_watch::Fired;

/// What a hub writes to a connection.
pub type PortOutput = Output<Fired, Expected, Outcome>;

/// Writes outputs in order, at a server whose last transaction is `last`. Returns the sessions that
/// connections have got by them. After an error, all connections are lost.
pub fn write_outputs(
    alloc: Global,
    admission: &Admission,
    last: i64,
    connections: &mut Vec<Connection>,
    outputs: Vec<PortOutput>,
) -> Result<Vec<Attachment>, FrameFault>
    ensures connections { OnOk result (connections.new.items ≡ after_outputs admission.now last outputs.items connections.old.items) }
    ensures gained { IfOk result (λ it. it.items ≡ gained_from admission.now last outputs.items connections.old.items) }
{
    let mut gained = Vec::new(alloc);
    for output in outputs {
        write_output(alloc, admission, last, connections, &mut gained, output)?;
    }
    Ok(gained)
}

fn write_output(
    alloc: Global,
    admission: &Admission,
    last: i64,
    connections: &mut Vec<Connection>,
    gained: &mut Vec<Attachment>,
    output: PortOutput,
) -> Result<(), FrameFault>
    ensures connections { OnOk result (connections.new.items ≡ after_output admission.now last output connections.old.items) }
    ensures gained { OnOk result (gained.new.items ≡ gained.old.items ++ gained_in admission.now output connections.old.items) }
{
    match output {
        Output::Event { connection, event } => write_event_to(
            alloc,
            connections,
            connection,
            &event,
        ),
        Output::Reply {
            connection,
            expected,
            outcome,
        } => {
            let attachment = write_outcome_to(
                alloc,
                admission,
                last,
                connections,
                connection,
                expected,
                outcome,
            )?;
            if let Some(attachment) = attachment {
                push(gained, attachment)?;
            }
            Ok(())
        }
    }
}

fn push(gained: &mut Vec<Attachment>, attachment: Attachment) -> Result<(), NoMemory>
    ensures { OnOk result (gained.new.items ≡ gained.old.items ++ attachment ∷ []) }
{
    gained.push(attachment)?;
    Ok(())
}

fn write_event_to(
    alloc: Global,
    connections: &mut Vec<Connection>,
    number: u64,
    event: &Fired,
) -> Result<(), FrameFault>
    ensures { OnOk result (connections.new.items ≡ with_first (is_numbered number) (with_event event.now.kind event.now.path) connections.old.items) }
{
    for index in 0..connections.len() {
        let connection = &mut connections[index];
        if connection.number() == number {
            return connection.write_event(alloc, event.kind, &event.path);
        }
    }
    Ok(())
}

fn write_outcome_to(
    alloc: Global,
    admission: &Admission,
    last: i64,
    connections: &mut Vec<Connection>,
    number: u64,
    expected: Expected,
    outcome: Outcome,
) -> Result<Option<Attachment>, FrameFault>
    ensures connections { OnOk result (connections.new.items ≡ with_first (is_numbered number) (with_outcome admission.now last expected outcome) connections.old.items) }
    ensures gained { IfOk result (λ it. it ≡ gained_at number admission.now expected outcome connections.old.items) }
{
    for index in 0..connections.len() {
        let connection = &mut connections[index];
        if connection.number() == number {
            return write_outcome(alloc, admission, last, connection, expected, outcome);
        }
    }
    Ok(None)
}
