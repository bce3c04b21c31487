use std::alloc::Global;
use std::marker::Model;
use zab_host::Vote;
use zk_path::NoMemory;
use zk_peer_links::{Arrival, Notice};

/// A server's place in the ensemble, as its elections have it.
#[derive(Clone, Copy, Debug, Drop, PartialEq, Eq)]
pub enum Position {
    /// It has no leader.
    Looking,
    /// An operator makes it lead.
    Chosen,
    Leads,
    /// It follows the server with this number.
    Follows(usize),
}

/// What an election decides.
#[derive(Clone, Copy, Debug, Drop, PartialEq, Eq)]
pub enum Choice {
    Wait,
    Lead,
    Follow(usize),
}

/// After how many ticks in which it hears of no quorum a leader looks again. ZooKeeper: `syncLimit`, here
/// as in the Administrator's Guide's sample configuration.
const SYNC_LIMIT: u64 = 5;

/// A server's part in the elections of a leader.
///
/// ZooKeeper, class `FastLeaderElection`; the end of an election is simpler here: the server with
/// the greatest vote leads, and says so, and the others follow whoever says so.
#[derive(Debug, Drop)]
pub struct Election {
    servers: usize,
    position: Position,
    round: u64,
    /// The server's own vote: by which it leads or follows, or of now while it looks for a leader.
    vote: Vote,
    /// The last notice of each peer, over a link that has not ended since.
    heard: Vec<Notice>,
    /// The peers that it has heard of since it was last supported.
    alive: Vec<usize>,
    /// The ticks since then.
    silence: u64,
}

impl Model for Election {
    ghost use Rattle.zk_server.specs.Elections.{ElectionView, election};

    ghost Value = { ElectionView };

    ghost view = { λ it. election it.servers it.position it.round it.vote it.heard.items it.alive.items it.silence };
}

impl Election {
    ghost use Rattle.std.specs.Prelude.{◌≡◌, [], OnOk};
    ghost use Rattle.zk_server.specs.Elections.{new_election, after_arrival, after_notice, after_close, after_choice, after_tick, after_tick_if, after_silence, hearing_of, is_supported, best_leader, choice_of, is_elected, notice_of, has_quorum};

    /// The election of a server that has just started. It looks for a leader.
    pub fn new(alloc: Global, servers: usize, vote: Vote) -> Election
        ensures { result ≡ new_election servers vote }
    {
        Election {
            servers,
            position: Position::Looking,
            round: 0,
            vote,
            heard: Vec::new(alloc),
            alive: Vec::new(alloc),
            silence: 0,
        }
    }

    pub fn position(&self) -> Position
        ensures { result ≡ self.now.position }
    {
        self.position
    }

    /// The notice for its peers.
    pub fn notice(&self) -> Notice
        ensures { result ≡ notice_of self.now }
    {
        Notice {
            round: self.round,
            vote: self.vote,
            leader: match self.position {
                Position::Looking | Position::Chosen => 0,
                Position::Leads => self.vote.server,
                Position::Follows(leader) => leader,
            },
        }
    }

    /// Takes notice of an arrival.
    pub(crate) fn note(&mut self, arrival: &Arrival) -> Result<(), NoMemory>
        ensures { OnOk result (self.new ≡ after_arrival arrival.now self.old) }
    {
        match arrival {
            Arrival::Mail { .. } => Ok(()),
            Arrival::Notice(notice) => self.hear(notice),
            Arrival::Session(notice) => self.hear_of(notice.sender),
            Arrival::Closed(peer) => {
                self.forget(*peer);
                Ok(())
            }
            Arrival::Lead => {
                self.position = Position::Chosen;
                Ok(())
            }
        }
    }

    fn hear(&mut self, notice: &Notice) -> Result<(), NoMemory>
        ensures { OnOk result (self.new ≡ after_notice notice.now self.old) }
    {
        if self.is_doubted_by(notice) {
            self.position = Position::Looking;
        }
        remove_from(&mut self.heard, notice.vote.server);
        self.heard.push(*notice)?;
        self.hear_of(notice.vote.server)
    }

    /// A peer runs.
    fn hear_of(&mut self, peer: usize) -> Result<(), NoMemory>
        ensures { OnOk result (self.new ≡ hearing_of peer self.old) }
    {
        if !is_among(&self.alive, peer) {
            self.alive.push(peer)?;
        }
        Ok(())
    }

    /// Records that a tick has passed, if it has. A leader that has heard of no quorum for five ticks
    /// looks again.
    pub fn tick(&mut self, ticked: bool)
        ensures { self.new ≡ after_tick_if ticked self.old }
    {
        if !ticked {
            return;
        }
        if self.is_supported() {
            self.begin_watch();
        } else {
            self.bear_silence();
        }
    }

    /// Another tick without support.
    fn bear_silence(&mut self)
        ensures { self.new ≡ after_silence self.old }
    {
        if self.silence < SYNC_LIMIT - 1 {
            self.silence += 1;
        } else {
            self.position = Position::Looking;
            self.begin_watch();
        }
    }

    /// Nothing is heard yet.
    fn begin_watch(&mut self)
        ensures { self.new ≡ record self.old { alive = []; silence = 0 } }
    {
        self.alive.clear();
        self.silence = 0;
    }

    /// Whether it has heard of a quorum since it last had, if it leads.
    fn is_supported(&self) -> bool
        ensures { result ≡ is_supported self.now }
    {
        match self.position {
            Position::Leads => self.servers / 2 <= self.alive.len(),
            _ => true,
        }
    }

    /// Whether a notice makes the server look for a leader: its leader's, or that of another leader
    /// which beats its own.
    fn is_doubted_by(&self, notice: &Notice) -> bool
        ensures { result ≡ is_doubted_by notice.now self.now }
    {
        match self.position {
            Position::Looking | Position::Chosen => false,
            Position::Leads => notice.is_leaders() && notice.beats(&self.notice()),
            Position::Follows(leader) => notice.is_leaders() || notice.is_from(leader),
        }
    }

    ghost use Rattle.zk_server.specs.Elections.{is_doubted_by, is_lost_by};

    /// Forgets a peer whose link has ended.
    fn forget(&mut self, peer: usize)
        ensures { self.new ≡ after_close peer self.old }
    {
        remove_from(&mut self.heard, peer);
        if self.is_lost_by(peer) {
            self.position = Position::Looking;
        }
    }

    /// Whether the server has no leader without a peer: it followed it, or leads, and has no quorum.
    fn is_lost_by(&self, peer: usize) -> bool
        ensures { result ≡ is_lost_by peer self.now }
    {
        match self.position {
            Position::Looking | Position::Chosen => false,
            Position::Leads => !self.has_quorum(),
            Position::Follows(leader) => leader == peer,
        }
    }

    /// Whether it and the peers that it hears are a majority.
    fn has_quorum(&self) -> bool
        ensures { result ≡ has_quorum self.now }
    {
        self.servers / 2 <= self.heard.len()
    }

    /// The leader to follow: a peer that leads, and that no other leader beats.
    fn best_leader(&self) -> Option<Notice>
        ensures { result ≡ best_leader self.now.heard }
    {
        best_in(&self.heard)
    }

    /// Whether the server is to lead: a majority looks for a leader, and its vote wins over theirs.
    fn is_elected(&self) -> bool
        ensures { result ≡ is_elected self.now }
    {
        self.has_quorum() && all_lose(&self.heard, &self.vote)
    }

    /// What the server is to do. `vote` is its vote of now.
    pub(crate) fn choose(&mut self, vote: Vote) -> Choice
        ensures choice { result ≡ choice_of (with_vote vote self.old) }
        ensures position { self.new ≡ after_choice result (with_vote vote self.old) }
    {
        self.set_vote(vote);
        let choice = self.choice();
        match choice {
            Choice::Wait => (),
            Choice::Lead => self.begin_to_lead(),
            Choice::Follow(leader) => self.begin_to_follow(leader),
        }
        choice
    }

    /// A server that leads or follows keeps its vote: a notice with another one would be news to its
    /// followers, and they would look for a leader again.
    fn set_vote(&mut self, vote: Vote)
        ensures { self.new ≡ with_vote vote self.old }
    {
        match self.position {
            Position::Looking | Position::Chosen => self.vote = vote,
            Position::Leads | Position::Follows(_) => (),
        }
    }

    ghost use Rattle.zk_server.specs.Elections.{with_vote};

    fn begin_to_lead(&mut self)
        ensures { self.new ≡ after_choice choices.Lead self.old }
    {
        self.round = round_after(self.position, self.round);
        self.position = Position::Leads;
        self.begin_watch();
    }

    fn begin_to_follow(&mut self, leader: usize)
        ensures { self.new ≡ after_choice (choices.Follow leader) self.old }
    {
        self.position = Position::Follows(leader);
        self.begin_watch();
    }

    ghost use Rattle.zk_server.specs.declared.election.Choice.TheVariants as choices;

    fn choice(&self) -> Choice
        ensures { result ≡ choice_of self.now }
    {
        match self.position {
            Position::Chosen => Choice::Lead,
            Position::Looking => self.choice_among(),
            Position::Leads | Position::Follows(_) => Choice::Wait,
        }
    }

    fn choice_among(&self) -> Choice
        ensures { result ≡ choice_among self.now }
    {
        if let Some(notice) = self.best_leader() {
            return Choice::Follow(notice.vote.server);
        }
        if self.is_elected() {
            return Choice::Lead;
        }
        Choice::Wait
    }

    ghost use Rattle.zk_server.specs.Elections.{choice_among};
}

ghost use Rattle.std.specs.Prelude.{◌≡◌, nat_eq, not, filter};
ghost use Rattle.std.specs.List.{list_any, list_all};
ghost use Rattle.zk_peer_links.specs.Notices.{is_from};
ghost use Rattle.zk_server.specs.Elections.{best_leader, is_best, is_beaten_by, loses_to, next_round, round_after};

/// An operator's election is a new round.
fn round_after(position: Position, round: u64) -> u64
    ensures { result ≡ round_after position round }
{
    match position {
        Position::Chosen => next_round(round),
        _ => round,
    }
}

fn next_round(round: u64) -> u64
    ensures { result ≡ next_round round }
{
    if round == u64::MAX { round } else { round + 1 }
}

fn remove_from(heard: &mut Vec<Notice>, server: usize)
    ensures { heard.new.items ≡ filter (λ it. not (is_from server it)) heard.old.items }
{
    heard.retain(|it| !it.is_from(server));
}

fn is_among(servers: &[usize], server: usize) -> bool
    ensures { result ≡ list_any (nat_eq server) servers.now }
{
    servers.iter().any(|it| server == *it)
}

fn best_in(heard: &[Notice]) -> Option<Notice>
    ensures { result ≡ best_leader heard.now }
{
    for notice in heard {
        if is_best(heard, notice) {
            return Some(*notice);
        }
    }
    None
}

fn is_best(heard: &[Notice], notice: &Notice) -> bool
    ensures { result ≡ is_best heard.now notice.now }
{
    notice.is_leaders() && !is_beaten(heard, notice)
}

fn is_beaten(heard: &[Notice], notice: &Notice) -> bool
    ensures { result ≡ list_any (is_beaten_by notice.now) heard.now }
{
    heard.iter().any(|it| it.is_leaders() && it.beats(notice))
}

/// Whether all notices are of servers that look for a leader, and their votes lose.
fn all_lose(heard: &[Notice], vote: &Vote) -> bool
    ensures { result ≡ list_all (loses_to vote.now) heard.now }
{
    heard
        .iter()
        .all(|it| it.leader == 0 && vote.wins_over(&it.vote))
}
