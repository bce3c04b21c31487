ghost use Rattle.std.specs.Prelude.{◌≡◌, ◌<◌, ◌++◌, [], false, length, OnOk, OnErr};
ghost use Rattle.zk_records.specs.Records.{ustring};
ghost use Rattle.zk_snapshot.specs.Snapshots.{slash};
ghost use Rattle.zk_snapshot_writer.specs.Writing.{ended_from, to_come, IsEncoder};

use crate::checksum::Checksum;
use crate::fields::{put_claim, put_seal, put_text};
use crate::nodes::put_stored;
use zk_path::NoMemory;
use zk_snapshot::{Claim, StoredNodes};

/// The nodes of a snapshot, and how many of them are encoded.
#[derive(Debug, Drop)]
pub(crate) struct Encoder {
    pub(crate) nodes: StoredNodes,
    pub(crate) claim: Option<Claim>,
    /// The number of nodes that are encoded.
    pub(crate) at: usize,
    /// The checksum of all bytes that are encoded.
    pub(crate) sums: Checksum,
    /// Whether the end is encoded.
    pub(crate) is_over: bool,
}

impl Encoder {
    /// Encodes the next node, or else the end, in place of the bytes of `item`. If an allocation
    /// fails, `item` is empty and nothing else is changed.
    pub(crate) fn encode_next(&mut self, item: &mut Vec<u8>) -> Result<(), NoMemory>
        requires encoder { IsEncoder self.old }
        requires open { self.old.is_over ≡ false }
        ensures next { OnOk result (to_come self.old ≡ item.new.items ++ to_come self.new) }
        ensures some { OnOk result (0 < length item.new.items) }
        ensures unchanged { OnErr result (self.new ≡ self.old) }
        ensures emptied { OnErr result (item.new.items ≡ []) }
        ensures encoder { IsEncoder self.new }
    {
        item.clear();
        let Ok(()) = self.encode(item) else {
            item.clear();
            return Err(NoMemory);
        };
        Ok(())
    }

    /// Encodes the next node, or else the end.
    fn encode(&mut self, item: &mut Vec<u8>) -> Result<(), NoMemory>
        requires encoder { IsEncoder self.old }
        requires open { self.old.is_over ≡ false }
        requires empty { item.old.items ≡ [] }
        ensures next { OnOk result (to_come self.old ≡ item.new.items ++ to_come self.new) }
        ensures some { OnOk result (0 < length item.new.items) }
        ensures unchanged { OnErr result (self.new ≡ self.old) }
        ensures encoder { IsEncoder self.new }
    {
        let nodes = self.nodes.as_slice();
        if self.at < nodes.len() {
            put_stored(item, &nodes[self.at])?;
            self.sums = self.sums.after(item.as_slice());
            self.at += 1;
            return Ok(());
        }
        put_end(item, self.sums, &self.claim)?;
        self.is_over = true;
        Ok(())
    }
}

/// The end of the nodes and the seals, after bytes with this checksum.
fn put_end(item: &mut Vec<u8>, before: Checksum, claim: &Option<Claim>) -> Result<(), NoMemory>
    requires empty { item.old.items ≡ [] }
    ensures { OnOk result (item.new.items ≡ ended_from before (ustring slash) claim.now) }
{
    put_text(item, "/")?;
    put_seal(item, before)?;
    let Some(claim) = claim else {
        return Ok(());
    };
    put_claim(item, claim)?;
    put_seal(item, before)
}
