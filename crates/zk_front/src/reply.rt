//! Replies and faults for the results of an ensemble.

ghost use Rattle.std.specs.Prelude.{◌≡◌};
ghost use Rattle.zk_front.specs.Asks.{caught_by, looked_by, service_fault_of};

use zk_line_protocol::{Reply, ServiceFault};
use zk_model::{Answer, EnsembleFault};

/// Returns the reply to a read, with the last transaction of the server that was read.
pub fn looked_by(answer: Answer, zxid: i64) -> Result<Reply, ServiceFault>
    ensures { result ≡ looked_by answer zxid }
{
    match answer {
        Answer::Looked(reply) => Ok(Reply::Looked { reply, zxid }),
        Answer::Moved(_) => Err(ServiceFault::Server),
    }
}

/// Returns the reply to a sync, from its length if the server has caught up.
pub fn caught_by(caught: Option<u64>) -> Result<Reply, ServiceFault>
    ensures { result ≡ caught_by caught }
{
    match caught {
        Some(_) => Ok(Reply::Caught),
        None => Err(ServiceFault::Server),
    }
}

/// Returns the client's fault for an ensemble's: an allocation failure and a server that has not
/// caught up have faults of their own.
pub fn service_fault_of(fault: EnsembleFault) -> ServiceFault
    ensures { result ≡ service_fault_of fault }
{
    match fault {
        EnsembleFault::Behind { .. } => ServiceFault::Behind,
        EnsembleFault::NoMemory | EnsembleFault::Died(_) => ServiceFault::Memory,
        _ => ServiceFault::Server,
    }
}
