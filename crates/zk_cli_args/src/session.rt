ghost use Rattle.std.specs.Prelude.{◌≡◌, Some, IfOk, map, option_map};
ghost use Rattle.zk_cli_args.specs.Sessions.{ReadsId, ReadsSession, ReadsSessionId, ReadsSessionWords, session_after, session_by, session_words, words_of_session};

use crate::command::{read_digits, values_of};
use crate::parting::part_option;
use crate::zxids::widened;
use std::alloc::Global;
use zk_path::NoMemory;

/// A session of a data directory.
#[derive(Clone, Copy, Debug)]
pub struct SessionJob<'a> {
    pub session: i64,
    /// The data directory, or its `version-2`.
    pub folder: &'a str,
    /// The directory of the logs, if it is another.
    pub logs: Option<&'a str>,
}

/// The words of [`SessionJob`].
#[derive(Clone, Copy, Debug)]
pub(crate) struct SessionGiven<'a> {
    session: &'a str,
    folder: &'a str,
    logs: Option<&'a str>,
}

/// The session that words name.
#[tactic(auto, using(crate::proofs::SessionLaws::given_session, crate::proofs::SessionLaws::no_session))]
pub(crate) fn session_of<'a>(
    alloc: Global,
    words: &[&'a str],
) -> Result<Option<SessionJob<'a>>, NoMemory>
    ensures { IfOk result (λ read. ReadsSession (map (λ word. word.now) words.now) read) }
{
    match session_words(alloc, words)? {
        Some(given) => given_session(alloc, given),
        None => Ok(None),
    }
}

/// The words of a command line for a session.
fn session_words<'a>(alloc: Global, words: &[&'a str]) -> Result<Option<SessionGiven<'a>>, NoMemory>
    ensures { IfOk result (λ read. option_map words_of_session read ≡ session_words (map (λ word. word.now) words.now)) }
{
    let [_, name, rest @ ..] = words else {
        return Ok(None);
    };
    if *name != "session" {
        return Ok(None);
    }
    session_after(alloc, rest)
}

/// The words after the command's name.
fn session_after<'a>(alloc: Global, words: &[&'a str]) -> Result<Option<SessionGiven<'a>>, NoMemory>
    ensures { IfOk result (λ read. option_map words_of_session read ≡ session_after (map (λ word. word.now) words.now)) }
{
    let logs = part_option(alloc, "--logs", "--logs=", words)?;
    let Some(values) = values_of(alloc, logs.others.as_slice())? else {
        return Ok(None);
    };
    Ok(session_by(logs.value, values.as_slice()))
}

/// The words of this option and these values.
fn session_by<'a>(logs: Option<&'a str>, values: &[&'a str]) -> Option<SessionGiven<'a>>
    ensures { option_map words_of_session result ≡ session_by (option_map (λ word. word.now) logs.entry) (Some (map (λ value. value.now) values.now)) }
{
    let [session, folder] = values else {
        return None;
    };
    Some(SessionGiven {
        session,
        folder,
        logs,
    })
}

/// The session that these words name.
#[tactic(auto, using(crate::proofs::SessionLaws::whole_session, crate::proofs::SessionLaws::no_id))]
fn given_session<'a>(
    alloc: Global,
    given: SessionGiven<'a>,
) -> Result<Option<SessionJob<'a>>, NoMemory>
    ensures { IfOk result (λ read. ReadsSessionWords (words_of_session given.entry) read) }
{
    let Some(session) = read_session(alloc, given.session)? else {
        return Ok(None);
    };
    Ok(Some(SessionJob {
        session,
        folder: given.folder,
        logs: given.logs,
    }))
}

/// The session of a word of 1 to 16 lower-case hexadecimal digits, alone or after `0x`. Returns
/// `None` for any other word.
#[tactic(auto, using(crate::proofs::SessionLaws::reads_widened))]
fn read_session(alloc: Global, word: &str) -> Result<Option<i64>, NoMemory>
    ensures { IfOk result (λ read. ReadsSessionId word.now read) }
{
    let plain = widened(alloc, word)?;
    read_id(alloc, plain.as_str())
}

/// The number of sixteen lower-case hexadecimal digits. Returns `None` for any other word.
fn read_id(alloc: Global, word: &str) -> Result<Option<i64>, NoMemory>
    ensures { IfOk result (λ read. ReadsId word.now read) }
{
    match read_digits(alloc, word)? {
        Some(bits) => Ok(Some(bits.cast_signed())),
        None => Ok(None),
    }
}
