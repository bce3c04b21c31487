//! Laws of links: functions without code, whose contracts are theorems.

ghost use Rattle.zk_peer_links.specs.Packets.{LinksAreExact, LinksCompose};

/// Each prefix of the frames of packets decodes to a prefix of the packets, and no frame of it is
/// wrong.
pub fn links_are_exact()
    ensures { LinksAreExact }
{}

/// Bytes decode to the same packets in whatever chunks they come: what two chunks decode to, one after
/// the other, is what they decode to as one.
pub fn links_compose()
    ensures { LinksCompose }
{}
