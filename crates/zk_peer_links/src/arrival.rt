use crate::notice::Notice;
use crate::session_notice::SessionNotice;
use zab_epoch::Messages;
use zk_requests::Call;

/// What arrives at a server between two turns.
pub enum Arrival {
    /// A connection from a peer has brought messages. No two connections have the same number: a
    /// link that is opened again is a new one.
    Mail { line: u64, messages: Messages<Call> },
    /// A peer has sent a notice.
    Notice(Notice),
    /// A peer has sent a notice about a session.
    Session(SessionNotice),
    /// The link to a peer has ended, or is a new one.
    Closed(usize),
    /// An operator makes the server lead.
    Lead,
}

impl Drop for Arrival {
    fn drop(self) {
        match self {
            Arrival::Mail {
                line: _,
                messages: _,
            } => (),
            Arrival::Notice(_) => (),
            Arrival::Session(_) => (),
            Arrival::Closed(_) => (),
            Arrival::Lead => (),
        }
    }
}
