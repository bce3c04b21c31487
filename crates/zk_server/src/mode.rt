ghost use Rattle.std.specs.Prelude.{◌≡◌};
ghost use Rattle.zk_server.specs.Modes.{is_established, is_leading, is_synced_with, mode_in, serves};

use crate::election::Position;
use zab_epoch::Role;

/// What a server is in its ensemble. ZooKeeper, `QuorumPeer`: `ServerState`.
#[derive(Clone, Copy, Debug, Drop, PartialEq, Eq)]
pub enum Mode {
    /// It has no leader.
    Looking,
    /// `synced` once it has taken its leader's history.
    Following { leader: usize, synced: bool },
    /// `established` once a quorum has taken its history.
    Leading { established: bool },
}

impl Mode {
    /// The mode of a server whose election has this position, and whose host this role.
    pub fn of(position: Position, role: &Role) -> Mode
        ensures { result ≡ mode_in position role.now }
    {
        match position {
            Position::Looking | Position::Chosen => Mode::Looking,
            Position::Leads => Mode::Leading {
                established: is_established(role),
            },
            Position::Follows(leader) => Mode::Following {
                leader,
                synced: is_synced_with(leader, role),
            },
        }
    }

    /// Whether it accepts clients' calls.
    pub fn serves(&self) -> bool
        ensures { result ≡ serves self.now }
    {
        match self {
            Mode::Looking => false,
            Mode::Following { synced, .. } => *synced,
            Mode::Leading { established } => *established,
        }
    }

    /// Whether it leads, and accepts calls.
    pub fn is_leading(&self) -> bool
        ensures { result ≡ is_leading self.now }
    {
        match self {
            Mode::Leading { established } => *established,
            _ => false,
        }
    }
}

fn is_established(role: &Role) -> bool
    ensures { result ≡ is_established role.now }
{
    matches!(role, Role::Broadcast)
}

fn is_synced_with(server: usize, role: &Role) -> bool
    ensures { result ≡ is_synced_with server role.now }
{
    match role {
        Role::Following { leader, synced } => *leader == server && *synced,
        _ => false,
    }
}
