use crate::hello::Hello;
use crate::notification::Notification;
use crate::packet::QuorumPacket;
use zk_snapshot::{Access, Lease, Stored};

/// What comes next on one direction of a connection between servers.
#[derive(Clone, Copy, Debug)]
pub enum Phase {
    /// Packets of a quorum port.
    Packets,
    /// The tree after a SNAP: the number of its sessions.
    SessionCount,
    /// That number of sessions.
    Sessions(u32),
    /// The number of access control lists.
    AccessCount,
    /// That number of lists.
    Accesses(u32),
    /// Nodes, up to the path `/`.
    Nodes,
    /// The text `BenWasHere`.
    Signature,
    /// The hello of who connects to an election port.
    Hello,
    /// Notifications of an election port.
    Notifications,
}

/// A part of a stream that is taken as one.
#[derive(Debug, Drop)]
pub enum Item {
    Packet(QuorumPacket),
    SessionCount(u32),
    Session(Lease),
    AccessCount(u32),
    Access(Access),
    Node(Stored),
    TreeEnd,
    Signature,
    Hello(Hello),
    Notification(Notification),
}

impl Phase {
    ghost use Rattle.std.specs.Prelude.{◌≡◌, ◌<◌, ◌^◌};
    ghost use Rattle.zk_quorum_records.specs.Items.{accesses_left, after, after_access, after_kind, after_session, sessions_left};

    /// The type of a packet that a tree follows.
    const SNAP: i32 = 15;

    fn sessions_left(count: u32) -> Phase
        ensures { result ≡ sessions_left count }
    {
        if count == 0 {
            Phase::AccessCount
        } else {
            Phase::Sessions(count)
        }
    }

    fn accesses_left(count: u32) -> Phase
        ensures { result ≡ accesses_left count }
    {
        if count == 0 {
            Phase::Nodes
        } else {
            Phase::Accesses(count)
        }
    }

    fn after_session(self) -> Phase
        ensures { result ≡ after_session self }
    {
        match self {
            Phase::Sessions(count) => Phase::sessions_left(count.saturating_sub(1)),
            _ => self,
        }
    }

    fn after_access(self) -> Phase
        ensures { result ≡ after_access self }
    {
        match self {
            Phase::Accesses(count) => Phase::accesses_left(count.saturating_sub(1)),
            _ => self,
        }
    }

    fn after_kind(kind: i32) -> Phase
        ensures { result ≡ after_kind kind }
    {
        if kind == Phase::SNAP {
            Phase::SessionCount
        } else {
            Phase::Packets
        }
    }

    /// What comes after an item.
    pub fn after(self, item: &Item) -> Phase
        ensures { result ≡ after self item.now }
    {
        match item {
            Item::Packet(packet) => Phase::after_kind(packet.kind),
            Item::SessionCount(count) => Phase::sessions_left(*count),
            Item::Session(_) => self.after_session(),
            Item::AccessCount(count) => Phase::accesses_left(*count),
            Item::Access(_) => self.after_access(),
            Item::Node(_) => Phase::Nodes,
            Item::TreeEnd => Phase::Signature,
            Item::Signature => Phase::Packets,
            Item::Hello(_) | Item::Notification(_) => Phase::Notifications,
        }
    }
}
