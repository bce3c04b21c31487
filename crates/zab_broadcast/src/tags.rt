use std::alloc::Global;
use std::collections::BTreeMap;
use std::marker::Model;
use zk_path::NoMemory;

/// Tags of calls in the order in which they were taken, with an index for look-ups.
#[derive(Debug, Drop)]
pub struct Tags {
    tags: Vec<u64>,
    /// The position at which each tag was first taken.
    places: BTreeMap<u64, usize>,
}

/// Contracts see a list.
impl Model for Tags {
    ghost use Rattle.std.specs.Prelude.{List, ℕ};
    ghost use Rattle.zab_broadcast.specs.Places.{ArePlaces};

    ghost Value = { List ℕ };

    ghost view = { λ tags. tags.tags.items };

    ghost invariant = { λ tags. ArePlaces tags.places tags.tags.items };
}

impl Tags {
    ghost use Rattle.std.specs.Prelude.{◌≡◌, ◌≢◌, ◌-◌, [], ◌∷◌, ◌++◌, true, false, length, take, Some, OnOk, OnErr};
    ghost use Rattle.zab_broadcast.specs.Calls.{is_taken};
    ghost use Rattle.zab_broadcast.specs.Places.{place_from};

    pub fn new(alloc: Global) -> Tags
        ensures { result ≡ [] }
    {
        Tags {
            tags: Vec::new(alloc),
            places: BTreeMap::new(alloc),
        }
    }

    pub fn len(&self) -> usize
        ensures { result ≡ length self.now }
    {
        self.tags.len()
    }

    /// Appends a tag. If an allocation fails, the list is unchanged.
    pub fn push(&mut self, tag: u64) -> Result<(), NoMemory>
        ensures ok { OnOk result (self.new ≡ self.old ++ tag ∷ []) }
        ensures err { OnErr result (self.new ≡ self.old) }
    {
        self.tags.reserve(1)?;
        if !self.places.contains_key(&tag) {
            self.places.insert(tag, self.tags.len())?;
        }
        self.tags.push_reserved(tag);
        Ok(())
    }

    /// Removes the last tag, if there is one. Allocates nothing.
    pub(crate) fn drop_last(&mut self)
        ensures { self.new ≡ take (length self.old - 1) self.old }
    {
        if self.tags.is_empty() {
            return;
        }
        let last = self.tags.len() - 1;
        let tag = self.tags[last];
        if self.is_first_at(tag, last) {
            self.places.remove(&tag);
        }
        self.tags.truncate(last);
    }

    /// Keeps the first `n` tags, or all if there are fewer. Allocates nothing.
    #[tactic(auto, using(crate::proofs::Cutting::take_less, crate::proofs::Cutting::take_all))]
    pub fn cut(&mut self, count: usize)
        ensures { self.new ≡ take count self.old }
    {
        while self.len() > count {
            self.drop_last();
        }
    }

    /// Whether a tag was first taken at a position, counted from 0.
    fn is_first_at(&self, tag: u64, place: usize) -> bool
        ensures yes { result ≡ true → place_from 0 tag self.now ≡ Some place }
        ensures no { result ≡ false → place_from 0 tag self.now ≢ Some place }
    {
        match self.places.get(&tag) {
            Some(first) => *first == place,
            None => false,
        }
    }

    /// Whether a tag is in the list.
    #[tactic(auto, using(crate::proofs::Places::taken_is))]
    pub fn has(&self, tag: u64) -> bool
        ensures { result ≡ is_taken tag self.now }
    {
        self.places.contains_key(&tag)
    }
}
