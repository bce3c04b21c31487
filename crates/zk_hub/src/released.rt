ghost use Rattle.std.specs.Prelude.{◌≡◌, ◌≢◌, ◌⊎◌, ◌++◌, [], map, drop, length, int_lt, true, false, IfOk, IfErr, OnOk, OnErr, IsErrOf};
ghost use Rattle.zab_epoch.specs.declared.stable.Stable.{Stable};
ghost use Rattle.zab_host.specs.Durability.{IsPartialStore};
ghost use Rattle.zab_host.specs.Hosts.{IsStored};
ghost use Rattle.zk_hub.specs.Outcomes.{hub_news, news_at};
ghost use Rattle.zk_host.specs.Delivered.{delivered_in, closed_in};
ghost use Rattle.zk_host.specs.Failures.{CannotRead};
ghost use Rattle.zk_host.specs.WatchedTrees.{after_entries, after_read};
ghost use Rattle.zk_host.specs.declared.host_fault.ReadFault.TheVariants as read_faults;
ghost use Rattle.zk_hub.specs.Deliveries.{output_of, outputs_of, left_by, left_after};
ghost use Rattle.zk_model.specs.Ensembles.{reply_of};

use crate::outcome::Outcome;
use crate::{Hub, News as HubNews, Output};
use std::alloc::Global;
use zab_epoch::Messages;
use zab_host::Storage;
use zk_host::{News, ReadFault, ReleaseFault, ReplicaHost};
use zk_model::Question;
use zk_path::NoMemory;
use zk_requests::Call;
use zk_table::ReadReply;
use zk_watch::Fired;

/// What a host has released.
pub struct Released<E: Drop> {
    /// For the other hosts.
    pub messages: Messages<Call>,
    /// For clients, in order.
    pub outputs: Vec<Output<Fired, E, Outcome>>,
    /// The sessions that the newly delivered entries close, in order. Their connections end after
    /// the outputs.
    pub closed: Vec<i64>,
}

impl<E: Drop> Drop for Released<E> {
    fn drop(self) {
        let Released {
            messages: _,
            outputs: _,
            closed: _,
        } = self;
    }
}

/// A piece of a host's news, as a hub takes it.
fn for_hub(news: News) -> HubNews<Fired, Outcome>
    ensures { result ≡ hub_news news }
{
    match news {
        News::Event(fired) => HubNews::Event {
            connection: fired.session,
            event: fired,
        },
        News::Answer(answered) => HubNews::Outcome {
            tag: answered.tag,
            outcome: Outcome::Wrote(answered.result),
        },
    }
}

/// Gives the news that a host has to its clients' requests, without a second list of it.
fn deliver<E: Drop>(
    alloc: Global,
    hub: &mut Hub<E, Outcome>,
    news: Vec<News>,
) -> Result<Vec<Output<Fired, E, Outcome>>, NoMemory>
    ensures outputs { IfOk result (λ it. it.items ≡ outputs_of (map hub_news news.items) hub.old) }
    ensures hub { OnOk result (hub.new ≡ left_after (map hub_news news.items) hub.old) }
{
    let mut outputs = Vec::new(alloc);
    for one in news {
        let mut written = deliver_one(alloc, hub, one)?;
        outputs.append(&mut written)?;
    }
    Ok(outputs)
}

/// Gives a piece of news to the clients' requests.
fn deliver_one<E: Drop>(
    alloc: Global,
    hub: &mut Hub<E, Outcome>,
    news: News,
) -> Result<Vec<Output<Fired, E, Outcome>>, NoMemory>
    ensures outputs { IfOk result (λ it. it.items ≡ output_of (hub_news news) hub.old ++ []) }
    ensures hub { OnOk result (hub.new ≡ left_by (hub_news news) hub.old) }
{
    let mut one = Vec::new(alloc);
    one.push(for_hub(news))?;
    hub.deliver(alloc, one)
}

/// Releases what a host has: its messages, once its state is stored, and what the newly delivered
/// entries write to clients. An entry's events are written before the reply to its client, and all
/// of it before any read that shows the entry.
///
/// After an error, the caller closes all connections, and stops the host.
pub fn release<S: Storage, E: Drop>(
    alloc: Global,
    host: &mut ReplicaHost<S>,
    hub: &mut Hub<E, Outcome>,
) -> Result<Released<E>, ReleaseFault>
    ensures messages { IfOk result (λ it. it.messages ≡ host.old.host.outbox) }
    ensures stored { OnOk result (IsStored S.may_recover host.new.host) }
    ensures state { host.new.host.state ≡ host.old.host.state }
    ensures outputs { IfOk result (λ it. it.outputs.items ≡ outputs_of (map hub_news (news_at host.old.tree host.old.shown host.new.host.state)) hub.old) }
    ensures hub { OnOk result (hub.new ≡ left_after (map hub_news (news_at host.old.tree host.old.shown host.new.host.state)) hub.old) }
    ensures closed { IfOk result (λ it. it.closed.items ≡ closed_in (drop host.old.shown (delivered_in host.new.host.state))) }
    ensures tree { OnOk result (host.new.tree ≡ record (after_entries host.old.tree (drop host.old.shown (delivered_in host.new.host.state))) { news = [] }) }
    ensures shown { OnOk result (host.new.shown ≡ length (delivered_in host.new.host.state)) }
    ensures sent { OnOk result (host.new.host.outbox ≡ []) }
    ensures tags { host.new.tags ≡ host.old.tags }
    ensures crash { (found : Stable) → S.may_recover host.new.host.storage found
        → S.may_recover host.old.host.storage found
        ⊎ IsPartialStore (S.may_recover host.old.host.storage) host.old.host.state.peer.stable found }
    ensures boots { S.boots host.new.host.storage ≡ S.boots host.old.host.storage }
{
    let shown = host.shown();
    let messages = host.release(alloc)?;
    let Ok(closed) = host.closed_after(alloc, shown) else {
        return Err(ReleaseFault::NoMemory);
    };
    let news = host.take_news();
    match deliver(alloc, hub, news) {
        Ok(outputs) => Ok(Released {
            messages,
            outputs,
            closed,
        }),
        Err(NoMemory) => Err(ReleaseFault::NoMemory),
    }
}

/// Replies to a connection's read from the host's tree, and sets its watch. The host has no news:
/// all that the tree shows is written.
pub fn read<S: Storage>(
    host: &mut ReplicaHost<S>,
    connection: u64,
    question: &Question,
) -> Result<ReadReply, ReadFault>
    requires written { host.old.tree.news ≡ [] }
    ensures reply { IfOk result (λ reply. reply ≡ reply_of question.now host.old.tree.tree) }
    ensures watches { IfOk result (λ reply. host.new.tree ≡ after_read connection question.now reply host.old.tree) }
    ensures behind { int_lt host.old.tree.tree.last question.now.seen ≡ true
        → IsErrOf result (read_faults.Behind question.now.seen host.old.tree.tree.last) }
    ensures near { OnOk result (int_lt host.old.tree.tree.last question.now.seen ≡ false) }
    ensures fault { IfErr result (CannotRead question.now host.old.tree) }
    ensures unchanged { OnErr result (host.new.tree ≡ host.old.tree) }
    ensures written { host.new.tree.news ≡ [] }
    ensures tree { host.new.tree.tree ≡ host.old.tree.tree }
    ensures rest { (host.new.host ≡ host.old.host) × ((host.new.shown ≡ host.old.shown) × (host.new.tags ≡ host.old.tags)) }
{
    host.read(connection, question)
}
