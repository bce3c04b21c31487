//! The event of an ask.

ghost use Rattle.std.specs.Prelude.{◌≡◌};
ghost use Rattle.zk_front.specs.Asks.{event_of, next_tag, session_of};

use zk_line_protocol::Ask;
use zk_model::{Event, Question};
use zk_requests::Call;

/// The number of the server that executes asks.
pub const HOME: usize = 1;

/// Returns the session of an ask; 0 for the ask that opens one.
pub fn session_of(ask: &Ask) -> i64
    ensures { result ≡ session_of ask.now }
{
    match ask {
        Ask::Write { session, .. } => *session,
        Ask::Read { session, .. } => *session,
        Ask::Sync { session } => *session,
    }
}

/// Returns the event of an ask at server [`HOME`]: a call that is submitted with this tag at this
/// time, a read, or a sync with this tag.
pub fn event_of(ask: Ask, tag: u64, now: i64) -> Event
    ensures { result ≡ event_of ask tag now }
{
    match ask {
        Ask::Write {
            session,
            cxid,
            auths,
            request,
        } => Event::World(zab_model::Event::Submit {
            server: HOME,
            call: Call {
                tag,
                session,
                cxid,
                auths,
                now,
                request,
            },
        }),
        Ask::Read {
            session,
            seen,
            auths,
            call,
            watch,
        } => Event::Read(Question {
            server: HOME,
            session,
            seen,
            auths,
            call,
            watch,
        }),
        Ask::Sync { .. } => Event::World(zab_model::Event::Sync { server: HOME, tag }),
    }
}

/// Returns the tag after one. Tags are counted in 64 bits that wrap: an ensemble rejects one that
/// was used.
pub fn next_tag(tag: u64) -> u64
    ensures { result ≡ next_tag tag }
{
    tag.wrapping_add(1)
}
