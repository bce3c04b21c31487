ghost use Rattle.std.specs.Prelude.{◌≡◌, ◌++◌, IfOk, OnOk};
ghost use Rattle.std.specs.Option.{option_map};
ghost use Rattle.std.specs.String.{string_bytes};
ghost use Rattle.zk_connections.specs.Statuses.{counted, envi_text, named, zxid_line, mode_text, srvr_text, mntr_text, serving_text, looking_text, text_of};

use crate::word::Word;
use std::alloc::Global;
use zk_path::NoMemory;

/// What a server does in its ensemble.
#[derive(Clone, Copy, Debug, PartialEq, Eq)]
pub enum Mode {
    Leader,
    Follower,
    /// It serves no clients: it has no leader.
    Looking,
}

/// What a server replies to four-letter words.
#[derive(Clone, Copy, Debug, PartialEq, Eq)]
pub struct Status {
    pub mode: Mode,
    /// The unsigned number that the last transaction's sixteen digits write.
    pub last: u64,
    pub nodes: usize,
    pub connections: usize,
    /// Its outstanding requests.
    pub outstanding: usize,
}

fn mode_text(mode: Mode) -> &'static str
    ensures { result.now ≡ mode_text mode }
{
    match mode {
        Mode::Leader => "leader",
        Mode::Follower => "follower",
        Mode::Looking => "looking",
    }
}

/// The reply to `envi`, of a server with a leader or without one.
fn envi_text() -> &'static str
    ensures { result.now ≡ envi_text }
{
    "Environment:\nzookeeper.version=3.4\n"
}

/// Appends a line with a number.
fn push_count(text: &mut String, name: &str, count: usize) -> Result<(), NoMemory>
    ensures { OnOk result (string_bytes text.new ≡ string_bytes text.old ++ counted name.now count) }
{
    write!(text, "{name}{count}\n")?;
    Ok(())
}

/// Appends a line with a word.
fn push_word(text: &mut String, name: &str, word: &str) -> Result<(), NoMemory>
    ensures { OnOk result (string_bytes text.new ≡ string_bytes text.old ++ named name.now word.now) }
{
    write!(text, "{name}{word}\n")?;
    Ok(())
}

fn push_zxid(text: &mut String, zxid: u64) -> Result<(), NoMemory>
    ensures { OnOk result (string_bytes text.new ≡ string_bytes text.old ++ zxid_line zxid) }
{
    write!(text, "Zxid: 0x{zxid:x}\n")?;
    Ok(())
}

fn srvr_text(alloc: Global, status: &Status) -> Result<String, NoMemory>
    ensures { IfOk result (λ text. string_bytes text ≡ srvr_text status.now) }
{
    let mut text = String::from_str(alloc, "Zookeeper version: 3.4\n")?;
    push_count(&mut text, "Connections: ", status.connections)?;
    push_count(&mut text, "Outstanding: ", status.outstanding)?;
    push_zxid(&mut text, status.last)?;
    push_word(&mut text, "Mode: ", mode_text(status.mode))?;
    push_count(&mut text, "Node count: ", status.nodes)?;
    Ok(text)
}

fn mntr_text(alloc: Global, status: &Status) -> Result<String, NoMemory>
    ensures { IfOk result (λ text. string_bytes text ≡ mntr_text status.now) }
{
    let mut text = String::from_str(alloc, "zk_version\t3.4\n")?;
    push_count(&mut text, "zk_num_alive_connections\t", status.connections)?;
    push_count(&mut text, "zk_outstanding_requests\t", status.outstanding)?;
    push_word(&mut text, "zk_server_state\t", mode_text(status.mode))?;
    push_count(&mut text, "zk_znode_count\t", status.nodes)?;
    Ok(text)
}

/// The reply of a server that has a leader.
fn serving_text(alloc: Global, word: Word, status: &Status) -> Result<Option<String>, NoMemory>
    ensures { IfOk result (λ text. option_map string_bytes text ≡ serving_text word status.now) }
{
    let text = match word {
        Word::Ruok => String::from_str(alloc, "imok")?,
        Word::Isro => String::from_str(alloc, "rw")?,
        Word::Srvr | Word::Stat => srvr_text(alloc, status)?,
        Word::Mntr => mntr_text(alloc, status)?,
        Word::Envi => String::from_str(alloc, envi_text())?,
        Word::Cons | Word::Dump => return Ok(None),
    };
    Ok(Some(text))
}

/// The reply of a server that has no leader.
fn looking_text(alloc: Global, word: Word) -> Result<String, NoMemory>
    ensures { IfOk result (λ text. string_bytes text ≡ looking_text word) }
{
    let text = match word {
        Word::Ruok => "imok",
        Word::Isro => "null",
        Word::Envi => envi_text(),
        Word::Srvr | Word::Stat | Word::Mntr | Word::Cons | Word::Dump => {
            "This ZooKeeper instance is not currently serving requests\n"
        }
    };
    Ok(String::from_str(alloc, text)?)
}

/// A server's reply to a four-letter word; `None` if the server has a leader and the word asks for
/// lists, which [`connections_text`] and [`sessions_text`] write.
///
/// ZooKeeper Administrator's Guide, "The Four Letter Words".
///
/// [`connections_text`]: crate::connections_text
/// [`sessions_text`]: crate::sessions_text
pub fn text_of(alloc: Global, word: Word, status: &Status) -> Result<Option<String>, NoMemory>
    ensures { IfOk result (λ text. option_map string_bytes text ≡ text_of word status.now) }
{
    match status.mode {
        Mode::Looking => Ok(Some(looking_text(alloc, word)?)),
        Mode::Leader | Mode::Follower => serving_text(alloc, word, status),
    }
}
