//! What holds of every server's clients. The function does nothing; it is there for its contract.

ghost use Rattle.zk_client_port.specs.Orders.{RepliesInOrder};

use zab_host::Storage;

/// A connection's requests are replied to in the order in which it sent them.
pub fn replies_in_order<S: Storage>()
    ensures { RepliesInOrder S }
{}
