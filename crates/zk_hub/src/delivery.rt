ghost use Rattle.std.specs.Prelude.{◌≡◌, ◌++◌, map, IfOk, OnOk};
ghost use Rattle.zk_hub.specs.Deliveries.{outputs_of, left_after, outputs_for, left_for, reply_output, output_of, left_by};

use crate::hub::Hub;
use crate::news::{News, Output};
use crate::request::Reply;
use std::alloc::Global;
use zk_path::NoMemory;

/// Appends the replies of a connection.
fn push_replies<V: Drop, E: Drop, R: Drop>(
    outputs: &mut Vec<Output<V, E, R>>,
    connection: u64,
    replies: Vec<Reply<E, R>>,
) -> Result<(), NoMemory>
    ensures { OnOk result (outputs.new.items ≡ outputs.old.items ++ map (reply_output connection) replies.items) }
{
    for reply in replies {
        let Reply { expected, result } = reply;
        outputs.push(Output::Reply {
            connection,
            expected,
            outcome: result,
        })?;
    }
    Ok(())
}

/// Gives the request that waits for a tag its result, and appends the replies that its connection
/// can have now.
fn complete<V: Drop, E: Drop, R: Drop>(
    alloc: Global,
    hub: &mut Hub<E, R>,
    outputs: &mut Vec<Output<V, E, R>>,
    tag: u64,
    outcome: R,
) -> Result<(), NoMemory>
    ensures outputs { OnOk result (outputs.new.items ≡ outputs.old.items ++ outputs_for tag outcome hub.old) }
    ensures hub { OnOk result (hub.new ≡ left_for tag outcome hub.old) }
{
    match hub.complete(tag, outcome) {
        Some(connection) => {
            let replies = hub.take_replies(alloc, connection)?;
            push_replies(outputs, connection, replies)
        }
        None => Ok(()),
    }
}

/// Appends the outputs of one [`News`].
fn deliver_one<V: Drop, E: Drop, R: Drop>(
    alloc: Global,
    hub: &mut Hub<E, R>,
    outputs: &mut Vec<Output<V, E, R>>,
    news: News<V, R>,
) -> Result<(), NoMemory>
    ensures outputs { OnOk result (outputs.new.items ≡ outputs.old.items ++ output_of news hub.old) }
    ensures hub { OnOk result (hub.new ≡ left_by news hub.old) }
{
    match news {
        News::Event { connection, event } => {
            outputs.push(Output::Event { connection, event })?;
            Ok(())
        }
        News::Outcome { tag, outcome } => complete(alloc, hub, outputs, tag, outcome),
    }
}

/// Appends what news writes, in order.
pub(crate) fn deliver_all<V: Drop, E: Drop, R: Drop>(
    alloc: Global,
    hub: &mut Hub<E, R>,
    news: Vec<News<V, R>>,
) -> Result<Vec<Output<V, E, R>>, NoMemory>
    ensures outputs { IfOk result (λ outputs. outputs.items ≡ outputs_of news.items hub.old) }
    ensures hub { OnOk result (hub.new ≡ left_after news.items hub.old) }
{
    let mut outputs = Vec::new(alloc);
    for one in news {
        deliver_one(alloc, hub, &mut outputs, one)?;
    }
    Ok(outputs)
}
