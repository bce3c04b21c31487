//! Replies to clients. A public function appends all of a reply, or nothing if an allocation fails.
ghost use Rattle.std.specs.Prelude.{◌≡◌, ◌++◌, ◌∷◌, OnOk, OnErr};
ghost use Rattle.std.specs.List.{flat_map};
ghost use Rattle.std.specs.String.{string_bytes};
ghost use Rattle.zk_format.specs.Spelling.{stat_text};
ghost use Rattle.zk_request_syntax.specs.ReplyLines.{refusal_text, reply_text, name_text, names_text};

use zk_acl::{Stat, Text};
use zk_listing::{push_acl, push_content, push_quoted, push_stat};
use zk_path::NoMemory;
use zk_table::ReadReply;

/// Appends an error by its code.
pub fn push_refusal(line: &mut String, code: i32) -> Result<(), NoMemory>
    ensures appended { OnOk result (string_bytes line.new ≡ string_bytes line.old ++ refusal_text code) }
    ensures unchanged { OnErr result (string_bytes line.new ≡ string_bytes line.old) }
{
    let mut told = String::new(*line.allocator());
    spell_refusal(&mut told, code)?;
    line.push_str(told.as_str())?;
    Ok(())
}

#[tactic(auto, unfolding(crate::specs::ReplyLines::refusal_text))]
fn spell_refusal(line: &mut String, code: i32) -> Result<(), NoMemory>
    ensures { OnOk result (string_bytes line.new ≡ string_bytes line.old ++ refusal_text code) }
{
    line.push_str("err ")?;
    write!(line, "{code}")?;
    Ok(())
}

/// Appends the reply to a read, without a newline.
pub fn push_reply(line: &mut String, reply: &ReadReply) -> Result<(), NoMemory>
    ensures appended { OnOk result (string_bytes line.new ≡ string_bytes line.old ++ reply_text reply.now) }
    ensures unchanged { OnErr result (string_bytes line.new ≡ string_bytes line.old) }
{
    let mut told = String::new(*line.allocator());
    spell_reply(&mut told, reply)?;
    line.push_str(told.as_str())?;
    Ok(())
}

fn spell_reply(line: &mut String, reply: &ReadReply) -> Result<(), NoMemory>
    ensures { OnOk result (string_bytes line.new ≡ string_bytes line.old ++ reply_text reply.now) }
{
    match reply {
        ReadReply::Content { content, stat } => {
            line.push_str("ok ")?;
            push_content(line, content)?;
            spell_stat(line, stat)
        }
        ReadReply::Found(stat) => {
            line.push_str("ok")?;
            spell_stat(line, stat)
        }
        ReadReply::Children { names, stat } => {
            line.push_str("ok ")?;
            spell_names(line, names.as_slice())?;
            spell_stat(line, stat)
        }
        ReadReply::AclIs { acl, stat } => {
            line.push_str("ok ")?;
            push_acl(line, acl)?;
            spell_stat(line, stat)
        }
        ReadReply::Refused(code) => spell_refusal(line, *code),
    }
}

/// Appends a space and a stat.
fn spell_stat(line: &mut String, stat: &Stat) -> Result<(), NoMemory>
    ensures { OnOk result (string_bytes line.new ≡ string_bytes line.old ++ 32 ∷ stat_text stat.now) }
{
    line.push(' ')?;
    push_stat(line, stat)
}

/// Appends the number of names, and each of them after a space.
#[tactic(auto, unfolding(crate::specs::ReplyLines::names_text))]
fn spell_names(line: &mut String, names: &[Text]) -> Result<(), NoMemory>
    ensures { OnOk result (string_bytes line.new ≡ string_bytes line.old ++ names_text names.now) }
{
    write!(line, "{}", names.len())?;
    for name in names {
        line.push(' ')?;
        push_quoted(line, name.as_str())?;
    }
    Ok(())
}
