use crate::adoption::advance;
use crate::steps::{is_server, put_back, take_step};
use crate::{Process, Rollback};
use std::alloc::Global;
use std::marker::Model;
use zab_broadcast::{Caught, Primary};
use zab_epoch::{Entries, Messages, Quorums, Stable};
use zab_model::{Event, Moved, UsedTags, WorldFault};
use zk_path::NoMemory;

/// The servers of a world, from server 1 on.
#[derive(Drop)]
pub(crate) struct Processes<P: Primary> {
    places: Vec<Process<P>>,
}

/// Contracts see a list.
impl<P: Primary> Model for Processes<P> {
    ghost use Rattle.std.specs.Prelude.{List};
    ghost use Rattle.zab_model.specs.ProcessStates.{ProcessState};

    ghost Value = { List ProcessState };

    ghost view = { λ places. places.places.items };
}

impl<P: Primary> Processes<P> {
    ghost use Rattle.std.specs.Prelude.{◌≡◌, true, false, Some, None, IfOk, IfSome, OnOk, OnErr};
    ghost use Rattle.zab_model.specs.declared.event.Event.TheVariants.{Crash};
    ghost use Rattle.zab_model.specs.Counting.{counted, IsAnswered};
    ghost use Rattle.zab_model.specs.Movers.{mover};
    ghost use Rattle.zab_model.specs.ProcessStates.{new_servers};
    ghost use Rattle.std.specs.Option.{option_copied};
    ghost use Rattle.zab_model.specs.Worlds.{world, happens, profile_of, server_at, running};
    ghost use Rattle.zab_agreement_laws.specs.Promises.{EachEndsBelow};
    ghost use Rattle.zab_model.specs.Running.{if_running, is_up, is_running};
    ghost use Rattle.zab_model.specs.Runs.{after, delivered_list, caught_list, kept};
    ghost use Rattle.zab_world.specs.Adoptions.{MayFall};
    ghost use Rattle.zab_world.specs.Rollbacks.{fallen_by, moved_in};

    /// Creates `servers` new servers.
    #[tactic(auto, using(zab_model::proofs::Numbering::new_servers_more))]
    pub(crate) fn new(alloc: Global, servers: usize) -> Result<Processes<P>, NoMemory>
        ensures { IfOk result (λ places. places ≡ new_servers servers servers) }
    {
        let mut places = Vec::new(alloc);
        for before in 0..servers {
            places.push(Process::new(alloc, servers, before + 1))?;
        }
        Ok(Processes { places })
    }

    /// Borrows a server; `None` for an unknown number.
    fn place(&self, number: usize) -> Option<&Process<P>>
        ensures { option_copied result ≡ server_at self.now number }
    {
        if is_server(self.places.len(), number) {
            self.places.as_slice().get(number - 1)
        } else {
            None
        }
    }

    /// Fails if no server has this number, or it is down.
    pub(crate) fn running(&self, number: usize) -> Result<(), WorldFault>
        ensures why { result ≡ if_running (running self.now number) }
        ensures runs { OnOk result (is_up (server_at self.now number) ≡ true) }
        ensures rests { OnErr result (is_up (server_at self.now number) ≡ false) }
    {
        let Some(place) = self.place(number) else {
            return Err(WorldFault::NoServer);
        };
        if !place.up {
            return Err(WorldFault::Down);
        }
        Ok(())
    }

    /// Borrows what a server has delivered.
    pub(crate) fn delivered(&self, number: usize) -> Entries<'_>
        ensures { result ≡ delivered_list (server_at self.now number) }
    {
        match self.place(number) {
            Some(place) => place.server.delivered(),
            None => Entries::none(),
        }
    }

    /// Borrows the syncs that a server has completed since it started.
    pub(crate) fn syncs(&self, number: usize) -> &[Caught]
        ensures { result.now ≡ caught_list (server_at self.now number) }
    {
        match self.place(number) {
            Some(place) => place.server.state().caught.as_slice(),
            None => &[],
        }
    }

    /// Borrows a server's stable part.
    pub(crate) fn stable(&self, number: usize) -> Option<&Stable>
        ensures { option_copied result ≡ kept (server_at self.now number) }
    {
        match self.place(number) {
            Some(place) => Some(&place.server.state().peer.stable),
            None => None,
        }
    }

    /// Executes an event; each leader's history ends below the zxid that it assigns. Returns what
    /// undoes it.
    pub(crate) fn step<Q: Quorums>(
        &mut self,
        alloc: Global,
        quorums: &Q,
        messages: &mut Messages<P::Call>,
        tags: &mut UsedTags,
        event: Event<P::Call>,
    ) -> Result<(Option<Rollback>, Moved), WorldFault>
        requires { EachEndsBelow self.old }
        ensures counts { world self.new messages.new tags.new
            ≡ after (profile_of (Q.passes quorums.now) P.made_of P.tag_of P.closing_of)
            (world self.old messages.old tags.old) (counted event (moved_in result)) }
        ensures answers { IsAnswered (profile_of (Q.passes quorums.now) P.made_of P.tag_of P.closing_of)
            (world self.old messages.old tags.old) event (moved_in result) }
        ensures falls { IfOk result (λ told.
            is_running (world self.old messages.old tags.old) (mover (world self.old messages.old tags.old) event) ≡ true
            → fallen_by self.new messages.new tags.new told.0
            ≡ Some (happens (profile_of (Q.passes quorums.now) P.made_of P.tag_of P.closing_of)
            (world self.old messages.old tags.old) (Crash (mover (world self.old messages.old tags.old) event))).0) }
        ensures rests { IfOk result (λ told.
            is_running (world self.old messages.old tags.old) (mover (world self.old messages.old tags.old) event) ≡ false
            → told.0 ≡ None) }
    {
        take_step(alloc, quorums, &mut self.places, messages, tags, event)
    }

    /// Executes an event; each leader's history ends below the zxid that it assigns. Returns what
    /// undoes it, or nothing if a server handled a NewLeader, for which it delivers no more.
    pub(crate) fn advance<Q: Quorums>(
        &mut self,
        alloc: Global,
        quorums: &Q,
        messages: &mut Messages<P::Call>,
        tags: &mut UsedTags,
        event: Event<P::Call>,
    ) -> Result<(Option<Rollback>, Moved), WorldFault>
        requires { EachEndsBelow self.old }
        ensures counts { world self.new messages.new tags.new
            ≡ after (profile_of (Q.passes quorums.now) P.made_of P.tag_of P.closing_of)
            (world self.old messages.old tags.old) (counted event (moved_in result)) }
        ensures answers { IsAnswered (profile_of (Q.passes quorums.now) P.made_of P.tag_of P.closing_of)
            (world self.old messages.old tags.old) event (moved_in result) }
        ensures falls { IfOk result (λ told.
            is_running (world self.old messages.old tags.old) (mover (world self.old messages.old tags.old) event) ≡ true
            → MayFall (profile_of (Q.passes quorums.now) P.made_of P.tag_of P.closing_of)
            (world self.old messages.old tags.old) event (world self.new messages.new tags.new)
            (fallen_by self.new messages.new tags.new told.0)) }
        ensures rests { IfOk result (λ told.
            is_running (world self.old messages.old tags.old) (mover (world self.old messages.old tags.old) event) ≡ false
            → told.0 ≡ None) }
    {
        advance(alloc, quorums, &mut self.places, messages, tags, event)
    }

    /// Crashes the recorded server in place of its step.
    pub(crate) fn put_back(
        &mut self,
        alloc: Global,
        messages: &mut Messages<P::Call>,
        tags: &mut UsedTags,
        note: Rollback,
    )
        ensures { IfSome (fallen_by self.old messages.old tags.old (Some note))
            (λ w. world self.new messages.new tags.new ≡ w) }
    {
        put_back(alloc, &mut self.places, messages, tags, note);
    }
}
