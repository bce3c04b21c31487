ghost use Rattle.std.specs.Prelude.{◌≡◌, OnOk, length, MatchResult, ◌<◌, ◌≤◌, IsTrue};
ghost use Rattle.std.specs.FinMap as finite;
ghost use Rattle.zk_table.specs.Places.{position_of};
ghost use Rattle.zk_table.specs.States.{path_cmp};
ghost use Rattle.zk_machine.specs.Preimages.{noted, all_noted};
ghost use Rattle.zk_machine.specs.Restoring.{all_begin};

use std::alloc::Global;
use std::cmp::Ordering;
use std::marker::Model;
use zk_path::{NoMemory, Path};
use zk_table::Node;

/// The paths that were touched, each with its node before, or none: a list sorted by path.
#[derive(Debug, Drop)]
pub(crate) struct Preimages {
    notes: Vec<(Path, Option<Node>)>,
}

impl Model for Preimages {
    ghost use Rattle.std.specs.Prelude.{IsTrue};
    ghost use Rattle.std.specs.Coded.{coded_list, coded_option, coded_ℕ};
    ghost use Rattle.std.specs.FinMap as finite;
    ghost use Rattle.zk_table.specs.contracts.node.Node as node;
    ghost use Rattle.zk_table.specs.States.{path_cmp};
    ghost use Rattle.zk_machine.specs.Restoring.{all_begin};
    ghost use Rattle.zk_machine.specs.Undoing.{PreimageMap};

    ghost Value = { PreimageMap };

    ghost coded = { finite.code (coded_list coded_ℕ) (coded_option node.the_row.coded) };

    ghost view = { λ touched. finite.from_sorted touched.notes.items };

    ghost invariant = { λ touched. IsTrue (finite.is_sorted path_cmp touched.notes.items) × IsTrue (all_begin touched.notes.items) };
}

/// The position of a path, or else the position at which to insert it.
fn position_of(notes: &[(Path, Option<Node>)], path: &str) -> Result<usize, usize>
    requires { IsTrue (finite.is_sorted path_cmp notes.now) }
    ensures place { result ≡ position_of path_cmp path.now notes.now }
    ensures within { MatchResult result (λ at. at < length notes.now) (λ at. at ≤ length notes.now) }
{
    notes.binary_search_by(
        |note: &(Path, Option<Node>)| -> Ordering
            ensures { result ≡ path_cmp note.now.0 path.entry.now }
        { note.0.text().cmp(path) },
    )
}

impl Preimages {
    pub(crate) fn new(alloc: Global) -> Preimages
        ensures { result ≡ finite.empty }
    {
        Preimages {
            notes: Vec::new(alloc),
        }
    }

    /// Clears the list and keeps its memory for the next transaction.
    pub(crate) fn clear(&mut self)
        ensures { self.new ≡ finite.empty }
    {
        self.notes.clear();
    }

    /// Records the node before a change, unless the path has a preimage.
    pub(crate) fn note(&mut self, path: Path, before: Option<Node>) -> Result<(), NoMemory>
        ensures { OnOk result (self.new ≡ noted self.old path before) }
    {
        match position_of(&self.notes, path.text()) {
            Ok(_) => {}
            Err(at) => self.notes.insert(at, (path, before))?,
        }
        Ok(())
    }

    /// Frees the memory that the list does not use.
    pub(crate) fn shrink(&mut self)
        ensures { self.new ≡ self.old }
    {
        self.notes.shrink_to_fit();
    }

    /// Records the preimages of another list in order.
    pub(crate) fn note_all(&mut self, others: Preimages) -> Result<(), NoMemory>
        ensures { OnOk result (self.new ≡ all_noted self.old (finite.entries others)) }
    {
        for (path, before) in others.into_notes() {
            self.note(path, before)?;
        }
        Ok(())
    }

    /// The preimages, sorted by path.
    pub(crate) fn as_slice(&self) -> &[(Path, Option<Node>)]
        ensures notes { result.now ≡ finite.entries self.now }
        ensures slashes { IsTrue (all_begin result.now) }
    {
        self.notes.as_slice()
    }

    /// The preimages, sorted by path.
    pub(crate) fn into_notes(self) -> Vec<(Path, Option<Node>)>
        ensures { result.items ≡ finite.entries self }
    {
        self.notes
    }
}
