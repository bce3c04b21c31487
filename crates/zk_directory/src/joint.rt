//! Where an epoch follows another, and nothing shows that the first is whole.
ghost use Rattle.std.specs.Prelude.{◌≡◌, ◌++◌, [], IfOk, OnOk, Some, map};
ghost use Rattle.zk_directory.specs.Chains.{history_of, told};
ghost use Rattle.zk_directory.specs.Joints.{is_joint, is_proved, joint_at, joints_from, joints_of, with_joint};

use crate::chain::{Chain, LogEntry};
use crate::continuing::{epoch_of, starts_history};
use std::alloc::Global;
use zk_path::NoMemory;

/// A place in a history at which nothing shows that an epoch is whole.
#[derive(Clone, Copy, Debug, PartialEq, Eq)]
pub struct Joint {
    /// The last transaction of the epoch that the files have.
    pub last: i64,
    /// The first one of a later epoch.
    pub next: i64,
}

impl Chain<'_> {
    /// The places in the history at which an epoch follows another, and nothing shows that the first
    /// is whole: no record from there on has the digest of its tree. `proved` is the zxid of the last
    /// record that has it.
    pub fn joints(&self, alloc: Global, proved: Option<i64>) -> Result<Vec<Joint>, NoMemory>
        ensures { IfOk result (λ joints. joints.items ≡ joints_of (history_of self.now) proved) }
    {
        joints_in(alloc, proved, self.base, &self.taken)
    }
}

/// Such places in entries after one of the zxid `base`.
fn joints_in(
    alloc: Global,
    proved: Option<i64>,
    base: Option<i64>,
    taken: &[LogEntry<'_>],
) -> Result<Vec<Joint>, NoMemory>
    ensures { IfOk result (λ joints. joints.items ≡ joints_from proved base (map told taken.now)) }
{
    let mut joints = Vec::new(alloc);
    let mut before = base;
    for entry in taken {
        push_joint_before(&mut joints, proved, before, entry)?;
        before = after(entry);
    }
    Ok(joints)
}

/// Appends such a place before an entry, if there is one.
fn push_joint_before(
    joints: &mut Vec<Joint>,
    proved: Option<i64>,
    before: Option<i64>,
    entry: &LogEntry<'_>,
) -> Result<(), NoMemory>
    ensures { OnOk result (joints.new.items ≡ joints.old.items ++ with_joint (joint_at proved before entry.now.zxid) []) }
{
    push_joint(joints, joint_at(proved, before, entry.zxid))
}

fn after(entry: &LogEntry<'_>) -> Option<i64>
    ensures { result ≡ Some entry.now.zxid }
{
    Some(entry.zxid)
}

fn push_joint(joints: &mut Vec<Joint>, joint: Option<Joint>) -> Result<(), NoMemory>
    ensures { OnOk result (joints.new.items ≡ joints.old.items ++ with_joint joint []) }
{
    if let Some(joint) = joint {
        joints.push(joint)?;
    }
    Ok(())
}

fn joint_at(proved: Option<i64>, before: Option<i64>, zxid: i64) -> Option<Joint>
    ensures { result ≡ joint_at proved before zxid }
{
    let before = before?;
    if is_joint(before, zxid) && !is_proved(proved, zxid) {
        return Some(Joint {
            last: before,
            next: zxid,
        });
    }
    None
}

/// Whether an epoch begins after another.
fn is_joint(before: i64, zxid: i64) -> bool
    ensures { result ≡ is_joint before zxid }
{
    epoch_of(before) < epoch_of(zxid) && !(before == 0 && starts_history(zxid))
}

/// Whether a record of this zxid or a later one has the digest of its tree.
fn is_proved(proved: Option<i64>, zxid: i64) -> bool
    ensures { result ≡ is_proved proved zxid }
{
    match proved {
        Some(proved) => zxid <= proved,
        None => false,
    }
}
