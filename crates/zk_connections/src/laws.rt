//! What holds of every connection. The functions do nothing; each is there for its contract.

ghost use Rattle.zk_connections.specs.ConnectionLaws.{FramesAreCapped, TurnsAreBounded};
ghost use Rattle.zk_connections.specs.Conversations.{HeadersNeverFall, NothingIsLeftOut, TheSessionComesFirst};

/// A frame that is taken has at most [`MOST_BYTES`].
///
/// [`MOST_BYTES`]: zk_frames::MOST_BYTES
pub fn frames_are_capped()
    ensures { FramesAreCapped }
{}

/// In a turn at most [`Connection::MOST_WORK`] frames are taken of a connection, and in them at most
/// as many watches.
///
/// [`Connection::MOST_WORK`]: crate::Connection::MOST_WORK
pub fn turns_are_bounded()
    ensures { TurnsAreBounded }
{}

/// What its client is sent is all that was written to it, from the first byte on: if some is dropped,
/// nothing after it is sent.
pub fn nothing_is_left_out()
    ensures { NothingIsLeftOut }
{}

/// The first that is written to it is the response to its connect request, or to a four-letter word.
/// It is given one session at most.
pub fn the_session_comes_first()
    ensures { TheSessionComesFirst }
{}

/// The zxids in the headers of the replies that are written to it never fall.
pub fn headers_never_fall()
    ensures { HeadersNeverFall }
{}
