ghost use Rattle.std.specs.Prelude.{◌≡◌, ◌≤◌, ◌*◌, length, IfOk};
ghost use Rattle.std.specs.List.{sum};
ghost use Rattle.zab_epoch.specs.Quorums.{is_heavy, weight_of};
ghost use Rattle.zab_epoch.specs.Shares.{heavy_share};

use crate::quorums::Quorums;
use crate::weight_fault::WeightFault;
use std::alloc::Global;
use std::marker::Model;
use zk_path::NoMemory;

/// The sets of servers with more than half of the total weight.
///
/// Each server has a weight, from server 1 on. A server of weight 0 changes nothing: a set is a
/// quorum with it exactly if it is one without it.
#[derive(Debug, Drop)]
pub struct Weighted {
    weights: Vec<u32>,
}

/// Contracts see the list of the weights.
impl Model for Weighted {
    ghost use Rattle.std.specs.Prelude.{List, ℕ};

    ghost Value = { List ℕ };

    ghost view = { λ it. it.weights.items };
}

impl Weighted {
    ghost use Rattle.std.specs.Prelude.{◌≡◌, ◌≢◌, length, replicate, None, Some, IfOk, IfErr, Err};
    ghost use Rattle.zab_epoch.specs.declared.weight_fault.WeightFault.TheVariants as faults;
    ghost use Rattle.zab_epoch.specs.Weights.{weight_fault};

    /// Reads the weights of 2 to 15 servers; not all of them are 0.
    pub fn read(alloc: Global, weights: &[u32]) -> Result<Weighted, WeightFault>
        ensures found { IfOk result (λ it. it ≡ weights.now) }
        ensures right { IfOk result (λ _. weight_fault weights.now ≡ None) }
        ensures fault { IfErr result (λ fault. fault ≢ faults.NoMemory → weight_fault weights.now ≡ Some fault) }
        ensures memory { result ≡ Err faults.NoMemory → weight_fault weights.now ≡ None }
    {
        if weights.len() < 2 || weights.len() > 15 {
            return Err(WeightFault::Count);
        }
        if total(weights) == 0 {
            return Err(WeightFault::NoWeight);
        }
        Ok(copied(alloc, weights)?)
    }

    /// Weighs each of `servers` servers 1: the quorums are the majorities.
    pub fn even(alloc: Global, servers: usize) -> Result<Weighted, NoMemory>
        ensures { IfOk result (λ it. it ≡ replicate servers 1) }
    {
        let mut weights = Vec::new(alloc);
        for _ in 0..servers {
            weights.push(1)?;
        }
        Ok(Weighted { weights })
    }

    pub fn servers(&self) -> usize
        ensures { result ≡ length self.now }
    {
        self.weights.len()
    }
}

impl Quorums for Weighted {
    ghost passes = { is_heavy };

    fn is_quorum(&self, marks: &[bool]) -> bool {
        let weights = self.weights.as_slice();
        marks.len() == weights.len() && total(weights) < 2 * weight_of(weights, marks)
    }

    fn copy(&self) -> Result<Weighted, NoMemory> {
        copied(*self.weights.allocator(), &self.weights)
    }

    ghost share = { heavy_share };
}

/// Copies the weights.
fn copied(alloc: Global, weights: &[u32]) -> Result<Weighted, NoMemory>
    ensures { IfOk result (λ it. it ≡ weights.now) }
{
    let mut list = Vec::new(alloc);
    list.extend_from_slice(weights)?;
    Ok(Weighted { weights: list })
}

/// Adds up all weights, in 128 bits: no sum overflows.
fn total(weights: &[u32]) -> u128
    ensures sum { result ≡ sum weights.now }
    ensures bound { result ≤ length weights.now * 4294967295 }
{
    let mut total = 0;
    for weight in weights {
        total += u128::from(*weight);
    }
    total
}

/// Adds up the weights of the marked servers.
fn weight_of(weights: &[u32], marks: &[bool]) -> u128
    requires { length marks.now ≡ length weights.now }
    ensures weight { result ≡ weight_of weights.now marks.now }
    ensures bound { result ≤ length weights.now * 4294967295 }
{
    let mut weight = 0;
    for index in 0..weights.len() {
        if marks[index] {
            weight += u128::from(weights[index]);
        }
    }
    weight
}
