//! Links that are cut.

ghost use Rattle.std.specs.Prelude.{◌≡◌};
ghost use Rattle.std.specs.List.{list_any};
ghost use Rattle.zk_peers.specs.Links.{joins, is_cut};

/// The link between two servers is cut: no message arrives over it.
#[derive(Clone, Copy, Debug, Drop, PartialEq, Eq)]
pub struct Cut {
    pub one: usize,
    pub other: usize,
}

impl Cut {
    /// Whether it is the link between these servers.
    pub(crate) fn joins(&self, one: usize, other: usize) -> bool
        ensures { result ≡ joins one other self.now }
    {
        (self.one == one && self.other == other) || (self.one == other && self.other == one)
    }
}

/// Whether the link between two servers is cut.
pub(crate) fn is_cut(cuts: &[Cut], one: usize, other: usize) -> bool
    ensures { result ≡ is_cut cuts.now one other }
{
    cuts.iter().any(|cut| cut.joins(one, other))
}
