ghost use Rattle.std.specs.Prelude.{◌≡◌, ◌≢◌, ◌≤◌, ◌<◌, ◌⊎◌, length, true, false, Err, OnOk, OnErr};
ghost use Rattle.zab_model.specs.declared.fault.WorldFault.TheVariants as world_faults;
ghost use Rattle.zab_model.specs.Running.{is_running};
ghost use Rattle.zab_model.specs.Runs.{delivered_of};
ghost use Rattle.zk_headline_laws.specs.Consequences.{FitsInWorld};
ghost use Rattle.zk_replicas.specs.Keeping.{MayServe, EachKept, WasKept, WasShown};
ghost use Rattle.zk_model.specs.Ensembles.{fresh, at_server, shown_then, of_world};

use std::alloc::Global;
use std::marker::Model;
use zab_epoch::{Entries, History, Message, Weighted};
use zab_model::Moved;
use zab_world::{Caught, World, WorldFault};
use zk_machine::Machine;
use zk_model::{Answer, Answered, EnsembleFault, Event, Preparer, Question};
use zk_path::NoMemory;
use zk_replicas::{CrashCache, Replica, find, look, peek};
use zk_requests::Call;
use zk_watch::Fired;

/// Servers with trees, and the messages between them, after some events. Servers are numbered from
/// 1.
///
/// An ensemble is always that of a run: a list of events from a new ensemble on. If an allocation
/// fails, the ensemble is unchanged, or the event becomes the crash of its server.
pub struct Ensemble {
    alloc: Global,
    world: World<Preparer, Weighted>,
    replicas: Vec<Replica>,
    /// What each server had delivered before it crashed, until it delivers something again.
    kept: Vec<Option<CrashCache>>,
}

impl Drop for Ensemble {
    fn drop(self) {
        let Ensemble {
            alloc: _,
            world: _,
            replicas: _,
            kept: _,
        } = self;
    }
}

impl Model for Ensemble {
    ghost use Rattle.zab_epoch.specs.contracts.message.Message as message;
    ghost use Rattle.zab_broadcast.specs.contracts.state.State as state;
    ghost use Rattle.zk_requests.specs.contracts.call.Call as call;
    ghost use Rattle.zk_table.specs.contracts.node.Node as node;
    ghost use Rattle.zk_model.specs.contracts.answer.Answered as answered;
    ghost use Rattle.zk_watch.specs.contracts.watch.Watch as watch;
    ghost use Rattle.zk_watch.specs.contracts.watch.Fired as fired;
    ghost use Rattle.zk_ensemble.specs.Views.{EnsembleView, world_code, below_code, ensemble_code, below_by};
    ghost use Rattle.zk_replicas.specs.Views.{shown_code};
    ghost use Rattle.zk_ensemble.specs.Keeping.{IsStanding};

    ghost Value = { EnsembleView };

    ghost coded = { ensemble_code
        (below_code (world_code state.the_row.coded (message.the_row call.the_row).coded))
        (shown_code node.the_row.coded answered.the_row.coded watch.the_row.coded fired.the_row.coded) };

    ghost view = { λ it. record { below = below_by it.world; shown = it.replicas.items } };

    ghost invariant = { λ it. IsStanding (below_by it.world) it.replicas.items it.kept.items };
}

impl Ensemble {
    ghost use Rattle.std.specs.Prelude.{◌≡◌, ◌≢◌, replicate, length, true, false, IfOk, Err};
    ghost use Rattle.std.specs.Option.{option_copied, option_map};
    ghost use Rattle.zab_model.specs.Runs.{delivered_of, stable_of, syncs_of};
    ghost use Rattle.zab_model.specs.Worlds.{new_world, is_server};
    ghost use Rattle.zab_epoch.specs.Entries.{txns_of};
    ghost use Rattle.zk_model.specs.declared.event.Event.TheVariants as events;
    ghost use Rattle.zk_model.specs.declared.fault.EnsembleFault.TheVariants as faults;
    ghost use Rattle.zk_model.specs.Counting.{counted, IsAnswered};
    ghost use Rattle.zk_model.specs.Ensembles.{fresh, happens, replica_at};
    ghost use Rattle.zk_headline_laws.specs.Headline.{IsNextInRun};
    ghost use Rattle.zk_model.specs.Runs.{after, answered_of};
    ghost use Rattle.zk_table.specs.Histories.{tree_of};
    ghost use Rattle.zk_ensemble.specs.Views.{state_of, profile_in, server_of, answers_in, events_in, tree_in};

    /// Creates an ensemble of `servers` running servers of weight 1: the quorums are the
    /// majorities.
    pub fn new(alloc: Global, servers: usize) -> Result<Ensemble, NoMemory>
        ensures { IfOk result (λ it. it ≡ record {
          below = record {
            quorums = replicate servers 1;
            servers = servers;
            world = new_world servers;
          };
          shown = replicate servers fresh;
        }) }
    {
        Ensemble::with(alloc, Weighted::even(alloc, servers)?)
    }

    /// Creates an ensemble of one running server for each weight. The quorums are the sets with
    /// more than half of the weight; the weights never change.
    pub fn with(alloc: Global, weights: Weighted) -> Result<Ensemble, NoMemory>
        ensures { IfOk result (λ it. it ≡ record {
          below = record {
            quorums = weights;
            servers = length weights;
            world = new_world (length weights);
          };
          shown = replicate (length weights) fresh;
        }) }
    {
        let servers = weights.servers();
        let world = World::with(alloc, servers, weights)?;
        let mut replicas = Vec::new(alloc);
        let mut kept = Vec::new(alloc);
        for _ in 0..servers {
            replicas.push(Replica::new(alloc))?;
            kept.push(None)?;
        }
        Ok(Ensemble {
            alloc,
            world,
            replicas,
            kept,
        })
    }

    /// Executes an event.
    ///
    /// If an allocation fails before anything happened, nothing has: [`EnsembleFault::NoMemory`].
    /// If it fails later, while the event's server sends or delivers, that server has crashed
    /// instead: [`EnsembleFault::Died`]. A read never fails so.
    pub fn step(&mut self, event: Event) -> Result<Answer, EnsembleFault>
        ensures counts { state_of self.new ≡ after (profile_in self.old.below) (state_of self.old) (counted event result) }
        ensures answers { IsAnswered (profile_in self.old.below) (state_of self.old) event result }
        ensures run { IsNextInRun (profile_in self.old.below) self.old.below.servers (state_of self.old) (counted event result)
            (state_of self.new) }
        ensures unchanged { result ≡ Err faults.NoMemory → self.new ≡ self.old }
        ensures same { (self.new.below.quorums ≡ self.old.below.quorums) × (self.new.below.servers ≡ self.old.below.servers) }
    {
        // Once a field is read, the prover knows that the ensemble is of a run.
        let _alloc = self.alloc;
        match event {
            Event::World(event) => self.move_world(event),
            Event::Read(question) => self.look(&question),
        }
    }

    pub(crate) fn allocator(&self) -> Global {
        self.alloc
    }

    /// Executes an event of the world; its server delivers what is new.
    fn move_world(&mut self, event: zab_model::Event<Call>) -> Result<Answer, EnsembleFault>
        ensures counts { state_of self.new
            ≡ after (profile_in self.old.below) (state_of self.old) (counted (events.World event) result) }
        ensures answers { IsAnswered (profile_in self.old.below) (state_of self.old) (events.World event) result }
        ensures unchanged { result ≡ Err faults.NoMemory → self.new ≡ self.old }
        ensures fits { FitsInWorld event }
        ensures same { (self.new.below.quorums ≡ self.old.below.quorums) × (self.new.below.servers ≡ self.old.below.servers) }
    {
        know_session(&event);
        let number = self.world.mover(&event);
        let before = self.world.delivered(number).len();
        let answer = self.world.advance(event);
        if is_no_memory(&answer) {
            return Err(EnsembleFault::NoMemory);
        }
        let (replicas, kept) = (&mut self.replicas, &mut self.kept);
        if catch_up(self.alloc, &self.world, replicas, kept, number, before).is_err() {
            self.world.fail();
            return Err(EnsembleFault::Died(number));
        }
        told(answer)
    }

    /// Executes a client's read.
    fn look(&mut self, question: &Question) -> Result<Answer, EnsembleFault>
        ensures acts { result ≢ Err faults.NoMemory → (state_of self.new, result) ≡ happens (profile_in self.old.below) (state_of self.old) (events.Read question.now) }
        ensures below { self.new.below ≡ self.old.below }
        ensures unchanged { result ≡ Err faults.NoMemory → self.new ≡ self.old }
    {
        if let Err(fault) = self.world.running(question.server) {
            return Err(EnsembleFault::from(fault));
        }
        look(&mut self.replicas, question)
    }

    /// Returns the reply to a read now, without setting its watch.
    pub fn peek(&self, question: &Question) -> Result<Answer, EnsembleFault>
        ensures { result ≢ Err faults.NoMemory → result ≡ (happens (profile_in self.now.below) (state_of self.now) (events.Read question.now)).1 }
    {
        if let Err(fault) = self.world.running(question.server) {
            return Err(EnsembleFault::from(fault));
        }
        peek(&self.replicas, question)
    }

    /// Borrows the table's result for each entry that a server has delivered, in order; empty for
    /// an unknown number.
    pub fn answers(&self, number: usize) -> &[Answered]
        ensures shown { result.now ≡ answers_in (replica_at self.now.shown number) }
        ensures table { is_server self.now.below.servers number ≡ true → result.now ≡ answered_of (delivered_of self.now.below.world number) }
    {
        match find(&self.replicas, number) {
            Some(replica) => replica.answers(),
            None => &[],
        }
    }

    /// Borrows the events fired at a server since it started, in order; empty for an unknown
    /// number.
    pub fn events_of(&self, number: usize) -> &[Fired]
        ensures { result.now ≡ events_in (replica_at self.now.shown number) }
    {
        match find(&self.replicas, number) {
            Some(replica) => replica.events(),
            None => &[],
        }
    }

    /// Returns the zxid of a server's tree: 0 before the first transaction, for a server that is
    /// down, and for an unknown number.
    pub fn last(&self, number: usize) -> i64
        ensures { result ≡ (tree_in (replica_at self.now.shown number)).last }
    {
        match find(&self.replicas, number) {
            Some(replica) => replica.last(),
            None => 0,
        }
    }

    /// Returns the server that an event may change, or that it reads; 0 for the arrival of an
    /// unknown message.
    pub fn server_of(&self, event: &Event) -> usize
        ensures { result ≡ server_of self.now.below.world event.now }
    {
        match event {
            Event::World(event) => self.world.mover(event),
            Event::Read(question) => question.server,
        }
    }

    /// Returns a machine in the state of a server's tree, which is that of its delivered list: the
    /// start state for a server that is down and for an unknown number.
    pub fn tree(&self, number: usize) -> Result<Machine, NoMemory>
        ensures shown { IfOk result (λ machine. machine ≡ record { state = tree_in (replica_at self.now.shown number); steps = 0; failed = false }) }
        ensures table { is_server self.now.below.servers number ≡ true
            → IfOk result (λ machine. machine.state ≡ tree_of (txns_of (delivered_of self.now.below.world number))) }
    {
        match find(&self.replicas, number) {
            Some(replica) => replica.tree(self.alloc),
            None => Machine::new(self.alloc),
        }
    }

    /// Borrows the entries that a server has delivered; none for an unknown number.
    pub fn delivered(&self, number: usize) -> Entries<'_>
        ensures { result ≡ delivered_of self.now.below.world number }
    {
        self.world.delivered(number)
    }

    /// Borrows the syncs that a server has completed since it started, in the order of completion:
    /// each tag, and the number of entries that had to be delivered. Empty for an unknown number; a
    /// crash clears it.
    pub fn syncs(&self, number: usize) -> &[Caught]
        ensures { result.now ≡ syncs_of self.now.below.world number }
    {
        self.world.syncs(number)
    }

    /// Borrows a server's history, also for a server that is down; `None` for an unknown number.
    pub fn history(&self, number: usize) -> Option<&History>
        ensures { option_copied result ≡ option_map (λ stable. stable.history) (stable_of self.now.below.world number) }
    {
        match self.world.stable(number) {
            Some(stable) => Some(&stable.history),
            None => None,
        }
    }

    /// Borrows all messages ever sent, numbered from 1.
    pub fn messages(&self) -> &[Message<Call>]
        ensures { result.now ≡ self.now.below.world.messages }
    {
        self.world.messages()
    }
}

/// Brings a server up to its delivered list; one that does not run shows nothing.
fn catch_up(
    alloc: Global,
    world: &World<Preparer, Weighted>,
    replicas: &mut [Replica],
    kept: &mut [Option<CrashCache>],
    number: usize,
    before: usize,
) -> Result<(), NoMemory>
    requires grown { is_running world.now.world number ≡ true → before ≤ length (delivered_of world.now.world number) }
    requires places { length kept.old ≡ length replicas.old }
    requires aside { EachKept (MayServe (delivered_of world.now.world number)) kept.old }
    ensures shown { OnOk result (replicas.new
        ≡ at_server (shown_then (is_running world.now.world number) before (delivered_of world.now.world number)) replicas.old number) }
    ensures forgets { OnErr result (replicas.new ≡ at_server (λ _. fresh) replicas.old number) }
    ensures runs { OnErr result (is_running world.now.world number ≡ true) }
    ensures news { OnErr result (before < length (delivered_of world.now.world number)) }
    ensures count { length replicas.new ≡ length replicas.old }
    ensures places { length kept.new ≡ length kept.old }
    ensures aside { EachKept (λ it. WasKept kept.old it ⊎ WasShown replicas.old number it) kept.new }
{
    let running = is_running(world, number);
    let delivered = world.delivered(number);
    zk_replicas::catch_up(alloc, running, &delivered, replicas, kept, number, before)
}

fn is_running(world: &World<Preparer, Weighted>, number: usize) -> bool
    ensures { result ≡ is_running world.now.world number }
{
    world.running(number).is_ok()
}

/// Once a session is read, the prover knows that it is a number of 64 bits.
fn know_session(event: &zab_model::Event<Call>)
    ensures { FitsInWorld event.now }
{
    let _session = match event {
        zab_model::Event::Submit { call, .. } => call.session,
        zab_model::Event::Expire { session, .. } => *session,
        _ => 0,
    };
}

/// Converts a world's answer.
fn told(answer: Result<Moved, WorldFault>) -> Result<Answer, EnsembleFault>
    ensures { result ≡ of_world answer }
{
    match answer {
        Ok(moved) => Ok(Answer::Moved(moved)),
        Err(fault) => Err(EnsembleFault::from(fault)),
    }
}

fn is_no_memory(answer: &Result<Moved, WorldFault>) -> bool
    ensures no { result ≡ false → answer.now ≢ Err world_faults.NoMemory }
    ensures yes { result ≡ true → answer.now ≡ Err world_faults.NoMemory }
{
    matches!(answer, Err(WorldFault::NoMemory))
}
