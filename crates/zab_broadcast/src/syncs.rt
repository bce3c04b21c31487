use std::alloc::Global;
use std::marker::Model;
use zk_path::NoMemory;

/// A client's sync that a follower has sent to its leader.
#[derive(Clone, Copy, Debug, Drop, PartialEq, Eq)]
pub struct Asked {
    pub tag: u64,
    /// How many entries the leader had delivered, once it has replied.
    pub length: Option<u64>,
}

/// A completed sync: `length` entries are delivered.
#[derive(Clone, Copy, Debug, Drop, PartialEq, Eq)]
pub struct Caught {
    pub tag: u64,
    pub length: u64,
}

/// The syncs sent to the leader, in the order of tags.
#[derive(Debug, Drop)]
pub struct AskedSyncs {
    syncs: Vec<Asked>,
}

/// Contracts see a list.
impl Model for AskedSyncs {
    ghost use Rattle.std.specs.Prelude.{List};
    ghost use Rattle.zab_broadcast.specs.declared.syncs.Asked.{Asked};

    ghost Value = { List Asked };

    ghost view = { λ asked. asked.syncs.items };
}

/// The completed syncs, in the order of completion.
#[derive(Debug, Drop)]
pub struct CaughtSyncs {
    syncs: Vec<Caught>,
}

/// Contracts see a list.
impl Model for CaughtSyncs {
    ghost use Rattle.std.specs.Prelude.{List};
    ghost use Rattle.zab_broadcast.specs.declared.syncs.Caught.{Caught};

    ghost Value = { List Caught };

    ghost view = { λ caught. caught.syncs.items };
}

ghost use Rattle.std.specs.Prelude.{◌≡◌};
ghost use Rattle.zab_broadcast.specs.Syncs.{is_reached, first_told};

/// Whether the leader has replied with a length, and that many entries are delivered.
fn is_reached(length: Option<u64>, delivered: u64) -> bool
    ensures { result ≡ is_reached delivered length }
{
    match length {
        Some(length) => length <= delivered,
        None => false,
    }
}

/// Keeps the first length that the leader sent.
fn first_told(length: u64, before: Option<u64>) -> Option<u64>
    ensures { result ≡ first_told length before }
{
    match before {
        Some(before) => Some(before),
        None => Some(length),
    }
}

impl AskedSyncs {
    ghost use Rattle.std.specs.Prelude.{◌≡◌, ◌≤◌, [], length, IfOk, OnOk, OnErr};
    ghost use Rattle.zab_broadcast.specs.Syncs.{position_of, with_asked, is_asked, told, left_asked, newly_caught};

    pub fn new(alloc: Global) -> AskedSyncs
        ensures { result ≡ [] }
    {
        AskedSyncs {
            syncs: Vec::new(alloc),
        }
    }

    /// Counts the syncs before the first with a greater tag.
    fn position_of(&self, tag: u64) -> usize
        ensures place { result ≡ position_of tag self.now }
        ensures within { result ≤ length self.now }
    {
        for (place, one) in self.syncs.iter().enumerate() {
            if tag < one.tag {
                return place;
            }
        }
        self.syncs.len()
    }

    /// Inserts a sync in the order of tags. If an allocation fails, the list is unchanged.
    pub(crate) fn ask(&mut self, tag: u64) -> Result<(), NoMemory>
        ensures ok { OnOk result (self.new ≡ with_asked tag self.old) }
        ensures err { OnErr result (self.new ≡ self.old) }
    {
        let place = self.position_of(tag);
        self.syncs.reserve(1)?;
        self.syncs.insert(place, Asked { tag, length: None })?;
        Ok(())
    }

    /// Whether a sync with this tag is pending.
    pub(crate) fn has(&self, tag: u64) -> bool
        ensures { result ≡ is_asked tag self.now }
    {
        for one in &self.syncs {
            if one.tag == tag {
                return true;
            }
        }
        false
    }

    /// Copies the list with the leader's length for a tag. A length received earlier stays.
    pub(crate) fn told(&self, tag: u64, length: u64) -> Result<AskedSyncs, NoMemory>
        ensures { IfOk result (λ asked. asked ≡ told tag length self.now) }
    {
        let mut syncs = Vec::new(*self.syncs.allocator());
        for one in &self.syncs {
            let mut one = *one;
            if one.tag == tag {
                one.length = first_told(length, one.length);
            }
            syncs.push(one)?;
        }
        Ok(AskedSyncs { syncs })
    }

    /// Copies those that are still pending once `delivered` entries are delivered.
    pub(crate) fn left(&self, delivered: u64) -> Result<AskedSyncs, NoMemory>
        ensures { IfOk result (λ asked. asked ≡ left_asked delivered self.now) }
    {
        let mut syncs = Vec::new(*self.syncs.allocator());
        for one in &self.syncs {
            if !is_reached(one.length, delivered) {
                syncs.push(*one)?;
            }
        }
        Ok(AskedSyncs { syncs })
    }

    /// Returns those that complete once `delivered` entries are delivered.
    pub(crate) fn caught(&self, delivered: u64) -> Result<CaughtSyncs, NoMemory>
        ensures { IfOk result (λ caught. caught ≡ newly_caught delivered self.now) }
    {
        let mut syncs = Vec::new(*self.syncs.allocator());
        for one in &self.syncs {
            if let Some(length) = one.length {
                if length <= delivered {
                    syncs.push(Caught {
                        tag: one.tag,
                        length,
                    })?;
                }
            }
        }
        Ok(CaughtSyncs { syncs })
    }
}

impl CaughtSyncs {
    ghost use Rattle.std.specs.Prelude.{◌≡◌, [], ◌∷◌, ◌++◌, OnOk, OnErr};
    ghost use Rattle.zab_broadcast.specs.Syncs.{caught_at};

    pub fn new(alloc: Global) -> CaughtSyncs
        ensures { result ≡ [] }
    {
        CaughtSyncs {
            syncs: Vec::new(alloc),
        }
    }

    pub fn as_slice(&self) -> &[Caught]
        ensures { result.now ≡ self.now }
    {
        self.syncs.as_slice()
    }

    /// Appends a completed sync. If an allocation fails, the list is unchanged.
    pub(crate) fn push(&mut self, tag: u64, length: u64) -> Result<(), NoMemory>
        ensures ok { OnOk result (self.new ≡ self.old ++ caught_at tag length ∷ []) }
        ensures err { OnErr result (self.new ≡ self.old) }
    {
        self.syncs.push(Caught { tag, length })?;
        Ok(())
    }

    /// Appends another list. If an allocation fails, this one is unchanged.
    pub(crate) fn append(&mut self, more: CaughtSyncs) -> Result<(), NoMemory>
        ensures ok { OnOk result (self.new ≡ self.old ++ more) }
        ensures err { OnErr result (self.new ≡ self.old) }
    {
        let CaughtSyncs { mut syncs } = more;
        self.syncs.append(&mut syncs)?;
        Ok(())
    }
}
