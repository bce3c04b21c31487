//! Starts the ensemble of a service: server 1 leads, and the others follow it.

ghost use Rattle.std.specs.Prelude.{◌≡◌, ◌∷◌, ◌-◌, [], IfOk, IfErr, OnOk};
ghost use Rattle.zk_front.specs.Happening.{Ran};
ghost use Rattle.zk_model.specs.declared.event.Event.TheVariants as events;
ghost use Rattle.zk_front.specs.ServiceStarting.{BrokeOff, IsBegun, IsUnbegun, Refused, beginning, followers, new_view};

use crate::ensemble_servers::Servers;
use crate::event::HOME;
use crate::happening::happen;
use crate::reply::service_fault_of;
use std::alloc::Global;
use zk_ensemble::{Ensemble, Event};
use zk_line_protocol::ServiceFault;
use zk_requests::Call;

/// Returns a new ensemble of `count` servers: server 1 leads, the others follow it, and all
/// messages have arrived.
pub(crate) fn start(alloc: Global, count: usize) -> Result<Servers, ServiceFault>
    ensures ok { IfOk result (λ it. IsBegun count it) }
    ensures err { IfErr result (λ fault. IsUnbegun count fault) }
{
    let mut servers = Servers {
        ensemble: Ensemble::new(alloc, count)?,
        arrived: 0,
    };
    begin(&mut servers.ensemble, count)?;
    servers.deliver()?;
    Ok(servers)
}

/// Has server 1 lead, and the others follow it.
fn begin(ensemble: &mut Ensemble, count: usize) -> Result<(), ServiceFault>
    ensures ok { OnOk result (Ran ensemble.old (beginning count) ensemble.new) }
    ensures err { IfErr result (λ fault. BrokeOff ensemble.old (beginning count) fault ensemble.new) }
{
    obey(ensemble, zab_model::Event::Lead { server: HOME })?;
    follow_all(ensemble, count)?;
    Ok(())
}

/// Has each server after the first follow it.
fn follow_all(ensemble: &mut Ensemble, count: usize) -> Result<(), ServiceFault>
    ensures ok { OnOk result (Ran ensemble.old (followers (count - 1)) ensemble.new) }
    ensures err { IfErr result (λ fault. BrokeOff ensemble.old (followers (count - 1)) fault ensemble.new) }
{
    let others = count.saturating_sub(1);
    for place in 0..others {
        let follow = zab_model::Event::Follow {
            server: place + 2,
            leader: HOME,
        };
        obey(ensemble, follow)?;
    }
    Ok(())
}

/// Calls an event of the world, and ignores its answer.
fn obey(ensemble: &mut Ensemble, event: zab_model::Event<Call>) -> Result<(), ServiceFault>
    ensures ok { OnOk result (Ran ensemble.old (events.World event ∷ []) ensemble.new) }
    ensures err { IfErr result (λ fault. Refused ensemble.old (events.World event) fault ensemble.new) }
{
    match happen(ensemble, Event::World(event)) {
        Ok(_) => Ok(()),
        Err(fault) => Err(service_fault_of(fault)),
    }
}
