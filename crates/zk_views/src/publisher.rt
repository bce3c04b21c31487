ghost use Rattle.std.specs.Prelude.{◌≡◌, ◌+◌, ◌-◌, ◌^◌, ◌<◌, [], ◌∷◌, ◌++◌, drop, length, replicate, IfOk, OnErr, OnOk};
ghost use Rattle.zk_views.specs.Views.{IsPrefix, LiesBetween, unentered, unpublished};

use crate::reader::Reader;
use crate::rule::{Publish, ViewWriter};
use crate::view::View;
use core::mem::replace_with;
use std::alloc::{AllocError, Global};
use std::marker::Model;
use std::sync::Wait;
use zk_jute::Span;
use zk_path::NoMemory;
use zk_table::Txn;

/// The publishing end of a view. It is not `Drop`: end it by [`Publisher::close`].
pub struct Publisher {
    writer: ViewWriter,
    // The number of transactions offered.
    offered: usize,
}

/// Contracts see the published list, the longer list that it was offered, and the table of its
/// view.
impl Model for Publisher {
    ghost use Rattle.std.specs.Prelude.{◌≡◌, ◌++◌, drop, length};
    ghost use Rattle.zk_views.specs.Views.{Publishing};

    ghost Value = { Publishing };

    ghost view = { λ p. record { table = p.writer.desk.place.table_id; published = p.writer.desk.shown.value; offered = p.writer.desk.shown.value ++ drop p.writer.behind p.writer.log.items } };

    ghost invariant = { λ p. p.offered ≡ length (p.writer.desk.shown.value ++ drop p.writer.behind p.writer.log.items) };
}

impl Publisher {
    /// Creates a view with nothing published, and `count` readers over its table. [`NoMemory`] also
    /// if there can't be that many.
    pub fn start<R: Wait>(
        rt: &R,
        alloc: Global,
        readers: usize,
    ) -> Result<(Publisher, Vec<Reader>), NoMemory>
        requires { (0 < readers) × (readers < 2 ^ 32) }
        ensures publisher { IfOk result (λ started. started.0 ≡ unpublished started.0.table) }
        ensures readers { IfOk result (λ started. started.1.items ≡ replicate readers (unentered started.0.table)) }
    {
        let (first, second) = (View::new(alloc)?, View::new(alloc)?);
        let writer = ViewWriter::new(alloc, first, second, readers)?;
        match readers_of(alloc, &writer, readers) {
            Ok(readers) => Ok((Publisher { writer, offered: 0 }, readers)),
            Err(refused) => {
                writer.take(rt);
                Err(refused)
            }
        }
    }

    pub fn published(&self) -> &[Txn]
        ensures { result.now ≡ self.now.published }
    {
        self.writer.published().txns()
    }

    /// Returns the number of transactions offered. The next ones go after them.
    pub fn offered(&self) -> usize
        ensures count { result ≡ length self.now.offered }
        ensures begins { IsPrefix self.now.published self.now.offered }
    {
        self.offered
    }

    /// Appends transactions to those offered before, and publishes all of them at once. Waits for
    /// readers that are still in an older copy.
    ///
    /// After [`NoMemory`] what is published is unchanged. The first of these transactions may have
    /// been offered, as [`Publisher::offered`] shows; the next call that succeeds publishes them.
    pub fn publish<R: Wait>(&mut self, rt: &R, more: &[Txn]) -> Result<(), NoMemory>
        requires room { length self.old.offered + length more.now < 2 ^ 64 }
        ensures published { OnOk result (self.new.published ≡ self.old.offered ++ more.now) }
        ensures offered { OnOk result (self.new.offered ≡ self.new.published) }
        ensures grows { IsPrefix self.old.published self.new.published }
        ensures refused { OnErr result (self.new.published ≡ self.old.published) }
        ensures partly { OnErr result (LiesBetween self.old.offered self.new.offered (self.old.offered ++ more.now)) }
    {
        // Reading a part gives the prover what its type keeps.
        let _ = &self.writer;
        self.offer(more)?;
        self.show(rt)
    }

    /// Reads transactions, and publishes them as [`Publisher::publish`].
    #[tactic(auto, using(crate::proofs::Prefixes::prefix_same, crate::proofs::Prefixes::prefix_append))]
    pub fn publish_read<R: Wait>(
        &mut self,
        rt: &R,
        alloc: Global,
        more: &Span<'_>,
    ) -> Result<(), NoMemory>
        requires room { length self.old.offered + length more.now < 2 ^ 64 }
        ensures published { OnOk result (self.new.published ≡ self.old.offered ++ more.now) }
        ensures offered { OnOk result (self.new.offered ≡ self.new.published) }
        ensures grows { IsPrefix self.old.published self.new.published }
        ensures refused { OnErr result (self.new.published ≡ self.old.published) }
        ensures partly { OnErr result (LiesBetween self.old.offered self.new.offered (self.old.offered ++ more.now)) }
    {
        let txns = more.read(alloc)?;
        self.publish(rt, txns.as_slice())
    }

    /// Appends transactions to those offered before. After [`NoMemory`] the first of them may have
    /// been offered.
    fn offer(&mut self, more: &[Txn]) -> Result<(), NoMemory>
        requires room { length self.old.offered + length more.now < 2 ^ 64 }
        ensures published { self.new.published ≡ self.old.published }
        ensures offered { OnOk result (self.new.offered ≡ self.old.offered ++ more.now) }
        ensures partly { OnErr result (LiesBetween self.old.offered self.new.offered (self.old.offered ++ more.now)) }
    {
        for txn in more {
            self.offer_one(txn)?;
        }
        Ok(())
    }

    /// Offers one more transaction. After [`NoMemory`] nothing has changed.
    fn offer_one(&mut self, txn: &Txn) -> Result<(), NoMemory>
        requires room { length self.old.offered < 2 ^ 64 - 1 }
        ensures published { self.new.published ≡ self.old.published }
        ensures offered { OnOk result (self.new.offered ≡ self.old.offered ++ txn.now ∷ []) }
        ensures refused { OnErr result (self.new.offered ≡ self.old.offered) }
    {
        let txn = txn.copy()?;
        if self.writer.append(txn).is_err() {
            return Err(NoMemory);
        }
        self.offered += 1;
        Ok(())
    }

    /// Publishes all that was offered. After [`NoMemory`] nothing has changed.
    fn show<R: Wait>(&mut self, rt: &R) -> Result<(), NoMemory>
        ensures published { OnOk result (self.new.published ≡ self.old.offered) }
        ensures offered { self.new.offered ≡ self.old.offered }
        ensures refused { OnErr result (self.new.published ≡ self.old.published) }
    {
        if !self.writer.has_pending_operations() {
            return Ok(());
        }
        replace_with(&mut self.writer, rt, |writer, rt| show_all(writer, rt))?;
        Ok(())
    }

    /// Closes the view, and returns what was published last. Waits for readers that are still in.
    /// No reader enters it any more.
    pub fn close<R: Wait>(self, rt: &R) -> Vec<Txn>
        ensures { result.items ≡ self.published }
    {
        let Publisher { writer, offered: _ } = self;
        Box::into_inner(writer.take(rt)).into_txns()
    }
}

/// Publishes all that is pending, or nothing if an allocation fails.
fn show_all<R: Wait>(writer: ViewWriter, rt: &R) -> (ViewWriter, Result<(), AllocError>)
    ensures shown { OnOk result.1 ((result.0.desk.shown.value ≡ writer.desk.shown.value ++ drop writer.behind writer.log.items) × (drop result.0.behind result.0.log.items ≡ [])) }
    ensures refused { OnErr result.1 ((result.0.desk.shown.value ≡ writer.desk.shown.value) × (drop result.0.behind result.0.log.items ≡ drop writer.behind writer.log.items)) }
{
    writer.publish_as::<Publish, R>(rt)
}

/// Creates `count` readers of a view.
fn readers_of(alloc: Global, writer: &ViewWriter, count: usize) -> Result<Vec<Reader>, NoMemory>
    ensures { IfOk result (λ readers. readers.items ≡ replicate count (unentered writer.now.desk.place.table_id)) }
{
    let mut readers = Vec::new(alloc);
    readers.reserve(count)?;
    for _ in 0..count {
        readers.push(Reader::new(writer.factory().reader()?))?;
    }
    Ok(readers)
}
