use zk_model::Event;

/// The command of a line of a run script. Servers and messages are numbered from 1.
#[derive(Debug, Drop)]
pub enum Command {
    /// Executes an event: `lead P`, `follow P Q`, `arrive K`, `crash P`, `restart P`, `submit P TAG
    /// SESSION CXID NOW AUTHS REQUEST`, `expire P TAG SESSION NOW`, `sync P TAG` or `read P SESSION
    /// SEEN AUTHS READ`.
    Happens(Event),
    /// A read at a text that is no path: nothing happens.
    ReadsNoPath,
    /// Reports on a server: `delivered P`, `history P`, `answers P`, `syncs P`, `events P` or `tree
    /// P`.
    Reports { report: Report, server: usize },
}

/// The kind of a report on a server.
#[derive(Clone, Copy, Debug, PartialEq, Eq)]
pub enum Report {
    /// The entries that it has delivered, as a listing.
    Delivered,
    /// The entries of its history, delivered or not, as a listing.
    History,
    /// The result of each delivered entry.
    Answers,
    /// The syncs completed since it started, and the length of each.
    Syncs,
    /// The events that its sessions' watches have fired.
    Events,
    /// Its tree.
    Tree,
}
