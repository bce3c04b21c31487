//! A restoration under way.
ghost use Rattle.std.specs.Prelude.{◌≡◌, IfOk};
ghost use Rattle.zk_directory.specs.Chains.{history_of};
ghost use Rattle.zk_directory.specs.Joints.{joints_of};
ghost use Rattle.zk_directory_state.specs.Ends.{last_time};
ghost use Rattle.zk_directory_state.specs.Restorations.{Begins, Finishes, Goes, GoesThrough, is_before};

use crate::counting::take_counting;
use crate::ends::last_time;
use crate::joining::{check_end, take_entry};
use crate::restore_fault::RestoreFault;
use std::alloc::Global;
use zk_directory::{Chain, FileEntry, Joint, LogFile, Turn};
use zk_fold::Fold;
use zk_path::NoMemory;
use zk_replay::{DigestCount, Digests, Draft, Stage, finish};
use zk_snapshot::Contents;

/// Where a restoration begins.
#[derive(Clone, Copy)]
pub enum Base<'s> {
    /// At the state before any transaction.
    Empty,
    /// At a snapshot that was begun at `zxid`, the one in its name. A replay of it is exact from
    /// the zxid `exact` on.
    Snapshot {
        contents: &'s Contents,
        zxid: i64,
        exact: i64,
    },
}

/// A restoration under way: the entries that were taken, and the state that they lead to.
#[derive(Drop)]
pub struct Restore<'a> {
    chain: Chain<'a>,
    /// From this zxid on a replay of the snapshot is exact.
    exact: i64,
    stage: Stage,
    digests: Digests,
}

/// Whether a zxid comes before the one from which a snapshot is exact; none is the end of the logs.
fn is_before(zxid: Option<i64>, exact: i64) -> bool
    ensures { result ≡ is_before zxid exact }
{
    match zxid {
        Some(zxid) => zxid < exact,
        None => false,
    }
}

impl<'a> Restore<'a> {
    /// No entry yet, after the base; `upto` is the zxid whose state is asked for, or none for the
    /// end of the logs.
    ///
    /// Fails with [`RestoreFault::Early`] if a snapshot is exact only after that zxid, and with
    /// [`RestoreFault::Tree`] if one of its paths occurs twice or before its parent.
    #[tactic(auto, using(crate::proofs::Wholes::begin_fails))]
    pub fn new(
        alloc: Global,
        base: Base<'_>,
        upto: Option<i64>,
    ) -> Result<Restore<'a>, RestoreFault>
        ensures { Begins base.entry upto result }
    {
        match base {
            Base::Empty => Ok(Restore {
                chain: Chain::new(alloc, None, upto),
                exact: 0,
                stage: Stage::Table {
                    table: Fold::new(alloc)?,
                },
                digests: Digests::new(alloc),
            }),
            Base::Snapshot {
                contents,
                zxid,
                exact,
            } => {
                if is_before(upto, exact) {
                    return Err(RestoreFault::Early { exact });
                }
                let draft = Draft::of(alloc, contents)?;
                Ok(Restore {
                    chain: Chain::new(alloc, Some(zxid), upto),
                    exact,
                    stage: Stage::Window { draft, last: zxid },
                    digests: Digests::of_snapshot(alloc, contents)?,
                })
            }
        }
    }

    /// Takes the next entry of the log files, which are read in order, and returns the decision on
    /// it: the entry is replayed on the draft or applied to the table; or the snapshot or an
    /// earlier log holds it; or all that was asked for was taken.
    ///
    /// Fails with [`RestoreFault::Purged`], [`RestoreFault::Gap`] or [`RestoreFault::Differs`] if
    /// the entry does not continue the history. The first entry after a snapshot's window fails
    /// with [`RestoreFault::Tree`] or [`RestoreFault::Access`] if the window leads to no state.
    #[tactic(auto, using(crate::proofs::Joined::entry_fails, crate::proofs::Joined::stage_fails))]
    pub fn take(
        self,
        alloc: Global,
        entry: &FileEntry<'a>,
    ) -> Result<(Restore<'a>, Turn), RestoreFault>
        ensures { Goes self.entry entry.now result }
    {
        let Restore {
            chain,
            exact,
            stage,
            digests,
        } = self;
        let mut chain = chain;
        let turn = take_entry(&mut chain, entry)?;
        if turn != Turn::Take {
            let same = Restore {
                chain,
                exact,
                stage,
                digests,
            };
            return Ok((same, turn));
        }
        let (stage, digests) = take_counting(alloc, stage, digests, exact, &entry.newer)?;
        let next = Restore {
            chain,
            exact,
            stage,
            digests,
        };
        Ok((next, turn))
    }

    /// Takes the entries of a log file in order, and returns whether reading goes on with the next
    /// file.
    ///
    /// Fails as [`Restore::take`] does, and with [`RestoreFault::Log`] if the file is broken after
    /// its entries, and a later entry is asked for.
    #[tactic(auto, using(crate::proofs::Joined::none_taken, crate::proofs::Joined::to_the_end))]
    pub fn take_file(
        self,
        alloc: Global,
        file: &LogFile<'a>,
    ) -> Result<(Restore<'a>, bool), RestoreFault>
        ensures { GoesThrough self.entry file.now result }
    {
        let mut restore = self;
        for entry in &file.entries {
            let (next, turn) = restore.take(alloc, entry)?;
            restore = next;
            if turn == Turn::Stop {
                return Ok((restore, false));
            }
        }
        check_end(&restore.chain, file)?;
        Ok((restore, true))
    }

    /// Returns the table after the last entry.
    ///
    /// Fails with [`RestoreFault::Short`] if the entries end before the zxid from which the
    /// snapshot is exact, and with [`RestoreFault::Tree`] or [`RestoreFault::Access`] if its window
    /// leads to no state.
    #[tactic(auto, using(crate::proofs::Wholes::finish_fails))]
    pub fn finish(self, alloc: Global) -> Result<Fold, RestoreFault>
        ensures { Finishes self.entry result }
    {
        let Restore {
            chain,
            exact,
            stage,
            digests: _,
        } = self;
        if is_before(chain.position, exact) {
            return Err(RestoreFault::Short { exact });
        }
        Ok(finish(alloc, stage)?)
    }

    /// The draft within the window of a snapshot, and the table after it.
    pub fn stage(&self) -> &Stage
        ensures { result.now ≡ self.now.stage }
    {
        &self.stage
    }

    /// How many digests of records were those of the table after them, and how many were not.
    pub fn digests(&self) -> DigestCount
        ensures { result ≡ self.now.digests.count }
    {
        self.digests.count()
    }

    /// The zxid of the last entry that was taken, or else of the snapshot.
    pub fn position(&self) -> Option<i64>
        ensures { result ≡ self.now.chain.position }
    {
        self.chain.position
    }

    /// The time of the last entry that was taken, in milliseconds since 1970; `None` if there is none.
    pub fn time(&self) -> Option<i64>
        ensures { result ≡ last_time (history_of self.now.chain).taken }
    {
        last_time(&self.chain.taken)
    }

    /// The places at which an epoch follows another, and nothing shows that the first is whole.
    pub fn joints(&self, alloc: Global) -> Result<Vec<Joint>, NoMemory>
        ensures { IfOk result (λ joints. joints.items ≡ joints_of (history_of self.now.chain) self.now.digests.count.last) }
    {
        self.chain.joints(alloc, self.digests().last)
    }
}
