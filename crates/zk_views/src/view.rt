ghost use Rattle.std.specs.Prelude.{◌≡◌, [], IfOk, IfErr, OnErr};
ghost use Rattle.zk_table.specs.Histories.{tree_of};
ghost use Rattle.zk_table.specs.Reads.{reply_to};
ghost use Rattle.zk_views.specs.Answers.{IsAnswered, IsRefused};

use crate::fault::ViewFault;
use crate::machines::{last_of, machine_after, machine_of, read_from};
use crate::pass::Pass;
use crate::seen::Seen;
use left_right::Absorb;
use std::alloc::{AllocError, Global};
use std::marker::Model;
use zk_acl::Id;
use zk_machine::Machine;
use zk_path::NoMemory;
use zk_table::{ReadCall, ReadReply, Txn};

/// One of the two copies of what is published: a list of transactions, and their tree.
#[derive(Drop)]
pub struct View {
    alloc: Global,
    txns: Vec<Txn>,
    /// The zxid of the last transaction; 0 before the first.
    last: i64,
    /// `None` after an allocation failed within a transaction: the next one builds it anew from the
    /// list.
    machine: Option<Machine>,
}

/// Contracts see the list.
impl Model for View {
    ghost use Rattle.std.specs.Prelude.{◌≡◌, List};
    ghost use Rattle.zk_table.specs.declared.txn.Txn.{Txn};
    ghost use Rattle.zk_views.specs.Machines.{IsKeptBeside};

    ghost Value = { List Txn };

    ghost view = { λ view. view.txns.items };

    ghost invariant = { λ view. IsKeptBeside view.txns.items view.last view.machine };
}

impl View {
    /// An empty list, and the start tree.
    pub fn new(alloc: Global) -> Result<View, NoMemory>
        ensures { IfOk result (λ view. view ≡ []) }
    {
        let machine = Machine::new(alloc)?;
        Ok(View {
            alloc,
            txns: Vec::new(alloc),
            last: 0,
            machine: Some(machine),
        })
    }

    pub fn txns(&self) -> &[Txn]
        ensures { result.now ≡ self.now }
    {
        self.txns.as_slice()
    }

    /// Returns the transactions.
    pub fn into_txns(self) -> Vec<Txn>
        ensures { result.items ≡ self }
    {
        let View { txns, .. } = self;
        txns
    }

    /// Replies to a client, if it has seen no later transaction. Its pass then has seen the last
    /// one.
    pub fn tell(&self, pass: &mut Pass, call: &ReadCall, auths: &[Id]) -> Result<Seen, ViewFault>
        ensures answered { IfOk result (IsAnswered self.now call.now auths.now pass.old pass.new) }
        ensures refused { IfErr result (IsRefused ⊥ self.now pass.old) }
        ensures kept { OnErr result (pass.new ≡ pass.old) }
    {
        let seen = pass.seen();
        let zxid = self.last;
        if zxid < seen {
            return Err(ViewFault::Behind { seen, zxid });
        }
        let reply = self.reply(call, auths)?;
        pass.take(zxid);
        Ok(Seen { zxid, reply })
    }

    /// Returns the tree's reply to a caller who has proved these identities.
    fn reply(&self, call: &ReadCall, auths: &[Id]) -> Result<ReadReply, NoMemory>
        ensures { IfOk result (λ reply. reply ≡ reply_to (tree_of self.now) call.now auths.now) }
    {
        match &self.machine {
            Some(machine) => read_from(machine, call, auths),
            None => read_from(&machine_of(self.alloc, self.txns.as_slice())?, call, auths),
        }
    }
}

/// Appends a transaction to the list, and applies it to the tree.
impl Absorb<Txn> for View {
    // A clause reads an array as a list of any length.
    type State = [Txn; 0];

    ghost use Rattle.std.specs.Prelude.{[], ◌∷◌, ◌++◌};

    ghost state = { λ view. view };

    ghost applied = { λ txns txn. txns ++ txn ∷ [] };

    fn absorb_first(&mut self, operation: &Txn, other: &View) -> Result<(), AllocError> {
        let Ok(txn) = operation.copy() else {
            return Err(AllocError);
        };
        match self.absorb_second(txn, other) {
            Ok(()) => Ok(()),
            Err(_) => Err(AllocError),
        }
    }

    /// Room in the list is reserved first: a failed allocation leaves the list unchanged.
    fn absorb_second(&mut self, operation: Txn, _other: &View) -> Result<(), Txn> {
        if self.txns.reserve(1).is_err() {
            return Err(operation);
        }
        let machine = self.machine.take();
        let Ok(machine) = machine_after(self.alloc, machine, self.txns.as_slice(), &operation)
        else {
            return Err(operation);
        };
        self.last = last_of(&machine);
        self.machine = Some(machine);
        self.txns.push_reserved(operation);
        Ok(())
    }
}
