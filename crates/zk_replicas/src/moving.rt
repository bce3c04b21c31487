//! The effect of an event on the servers' trees.

ghost use Rattle.std.specs.Prelude.{◌≡◌, ◌≢◌, ◌≤◌, ◌<◌, ◌⊎◌, length, true, if◌then◌else◌, int_lt, Some, None, Err, IfSome, OnOk, OnErr};
ghost use Rattle.std.specs.Option.{option_copied};
ghost use Rattle.zab_model.specs.Worlds.{World as WorldState};
ghost use Rattle.zk_requests.specs.declared.call.Call.{Call as SomeCall};
ghost use Rattle.zk_model.specs.declared.fault.EnsembleFault.TheVariants as faults;
ghost use Rattle.zk_model.specs.Ensembles.{fresh, ensemble, replica_at, at_server, shown_then, take_all, looks};
ghost use Rattle.zk_replicas.specs.Keeping.{MayServe, IsShownBy, EachKept, WasKept, WasShown};

use crate::crash_cache::CrashCache;
use crate::replica::Replica;
use std::alloc::Global;
use zab_epoch::Entries;
use zk_model::{Answer, EnsembleFault, Question};
use zk_path::NoMemory;

/// Borrows the replica with this number.
pub fn find(replicas: &[Replica], number: usize) -> Option<&Replica>
    ensures { option_copied result ≡ replica_at replicas.now number }
{
    if number == 0 {
        return None;
    }
    replicas.get(number - 1)
}

/// Brings a server up to its delivered list. One that is down shows nothing, and what it had
/// delivered is cached. If an allocation fails, the server shows nothing, either.
pub fn catch_up(
    alloc: Global,
    running: bool,
    delivered: &Entries<'_>,
    replicas: &mut [Replica],
    kept: &mut [Option<CrashCache>],
    number: usize,
    before: usize,
) -> Result<(), NoMemory>
    requires grown { running ≡ true → before ≤ length delivered.now }
    requires places { length kept.old ≡ length replicas.old }
    requires aside { EachKept (MayServe delivered.now) kept.old }
    ensures shown { OnOk result (replicas.new ≡ at_server (shown_then running before delivered.now) replicas.old number) }
    ensures forgets { OnErr result (replicas.new ≡ at_server (λ _. fresh) replicas.old number) }
    ensures runs { OnErr result (running ≡ true) }
    ensures news { OnErr result (before < length delivered.now) }
    ensures count { length replicas.new ≡ length replicas.old }
    ensures places { length kept.new ≡ length kept.old }
    ensures aside { EachKept (λ it. WasKept kept.old it ⊎ WasShown replicas.old number it) kept.new }
{
    if number == 0 || number > replicas.len() {
        return Ok(());
    }
    let (replica, aside) = (&mut replicas[number - 1], &mut kept[number - 1]);
    bring_up(alloc, running, delivered, replica, aside, before)
}

/// Brings one server up to its delivered list.
fn bring_up(
    alloc: Global,
    running: bool,
    delivered: &Entries<'_>,
    replica: &mut Replica,
    kept: &mut Option<CrashCache>,
    before: usize,
) -> Result<(), NoMemory>
    requires grown { running ≡ true → before ≤ length delivered.now }
    requires aside { IfSome kept.old (MayServe delivered.now) }
    ensures shown { OnOk result (replica.new ≡ shown_then running before delivered.now replica.old) }
    ensures forgets { OnErr result (replica.new ≡ fresh) }
    ensures runs { OnErr result (running ≡ true) }
    ensures news { OnErr result (before < length delivered.now) }
    ensures aside { IfSome kept.new (λ it. (kept.old ≡ Some it) ⊎ IsShownBy replica.old it) }
{
    if !running {
        replica.leave(alloc, kept);
        return Ok(());
    }
    let news = delivered.behind(before);
    if deliver(alloc, replica, kept, &news, before).is_err() {
        *replica = Replica::new(alloc);
        return Err(NoMemory);
    }
    Ok(())
}

/// Delivers entries after the first `n`. If these are its first ones, it continues from its cache.
fn deliver(
    alloc: Global,
    replica: &mut Replica,
    kept: &mut Option<CrashCache>,
    entries: &Entries<'_>,
    before: usize,
) -> Result<(), NoMemory>
    requires { before ≡ 0 → IfSome kept.old (MayServe entries.now) }
    ensures taken { OnOk result (replica.new ≡ take_all replica.old entries.now) }
    ensures some { OnErr result (0 < length entries.now) }
    ensures aside { IfSome kept.new (λ it. kept.old ≡ Some it) }
{
    let many = entries.len();
    if before > 0 || many == 0 {
        return replica.take_all(alloc, entries);
    }
    let done = replica.go_on(kept, many);
    replica.take_all(alloc, &entries.behind(done))
}

/// Rejects a client that has seen more than this server's last transaction.
fn behind(replica: &Replica, question: &Question) -> Option<EnsembleFault>
    ensures { result ≡ (if int_lt replica.now.tree.last question.now.seen
        then Some (faults.Behind question.now.seen replica.now.tree.last) else None) }
{
    let at = replica.last();
    let seen = question.seen;
    if at < seen {
        Some(EnsembleFault::Behind { seen, at })
    } else {
        None
    }
}

/// Reads at a server, and sets the read's watch.
pub fn look(replicas: &mut [Replica], question: &Question) -> Result<Answer, EnsembleFault>
    ensures looks { (w : WorldState SomeCall) → result ≢ Err faults.NoMemory → (ensemble w replicas.new, result)
        ≡ looks (ensemble w replicas.old) question.now (replica_at replicas.old question.now.server) }
    ensures count { length replicas.new ≡ length replicas.old }
    ensures unchanged { OnErr result (replicas.new ≡ replicas.old) }
{
    let number = question.server;
    if number == 0 || number > replicas.len() {
        return Err(EnsembleFault::NoServer);
    }
    let replica = &mut replicas[number - 1];
    if let Some(fault) = behind(replica, question) {
        return Err(fault);
    }
    Ok(Answer::Looked(replica.look(question)?))
}

/// Returns the reply to a read at a server, without setting its watch.
pub fn peek(replicas: &[Replica], question: &Question) -> Result<Answer, EnsembleFault>
    ensures { (w : WorldState SomeCall) → result ≢ Err faults.NoMemory
        → result ≡ (looks (ensemble w replicas.now) question.now (replica_at replicas.now question.now.server)).1 }
{
    let number = question.server;
    if number == 0 || number > replicas.len() {
        return Err(EnsembleFault::NoServer);
    }
    let replica = &replicas[number - 1];
    if let Some(fault) = behind(replica, question) {
        return Err(fault);
    }
    Ok(Answer::Looked(replica.reply_of(question)?))
}
