//! The weights of a script's servers, read without allocating.
use std::marker::Model;

/// The greatest number of servers in a script.
pub(crate) const MOST_SERVERS: usize = 15;

/// The weights of up to 15 servers, from server 1 on.
#[derive(Drop)]
pub(crate) struct ServerWeights {
    values: [u32; 15],
    count: usize,
}

/// Contracts see a list.
impl Model for ServerWeights {
    ghost use Rattle.std.specs.Prelude.{List, ℕ, ◌≤◌, take};

    ghost Value = { List ℕ };

    ghost view = { λ it. take it.count it.values };

    ghost invariant = { λ it. it.count ≤ 15 };
}

impl ServerWeights {
    ghost use Rattle.std.specs.Prelude.{◌≡◌, ◌≤◌, ◌<◌, ◌++◌, [], ◌∷◌, length, replicate};

    pub(crate) fn none() -> ServerWeights
        ensures { result ≡ [] }
    {
        ServerWeights {
            values: [0; 15],
            count: 0,
        }
    }

    /// Weighs each of `servers` servers 1.
    pub(crate) fn even(servers: usize) -> ServerWeights
        requires { servers ≤ 15 }
        ensures { result ≡ replicate servers 1 }
    {
        ServerWeights {
            values: [1; 15],
            count: servers,
        }
    }

    /// Appends the weight of the next server.
    pub(crate) fn push(&mut self, weight: u32)
        requires { length self.old < 15 }
        ensures { self.new ≡ self.old ++ weight ∷ [] }
    {
        self.values[self.count] = weight;
        self.count += 1;
    }

    pub(crate) fn as_slice(&self) -> &[u32]
        ensures { result.now ≡ self.now }
    {
        &self.values[..self.count]
    }
}
