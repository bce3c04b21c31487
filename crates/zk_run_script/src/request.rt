//! Requests. After an error, a part may be left.
ghost use Rattle.std.specs.Prelude.{◌≡◌, ◌++◌, ◌∷◌, codes, OnOk};
ghost use Rattle.std.specs.Fmt.{signed_decimal};
ghost use Rattle.std.specs.List.{flat_map, list_all};
ghost use Rattle.std.specs.String.{string_bytes};
ghost use Rattle.zk_format.specs.Spelling.{acl_text, quoted};
ghost use Rattle.zk_run_script.specs.Lines.{create_text, has_part_line, has_request_line, named_text, node_text, part_text, request_text, separated_text, set_text};

use crate::fields::{
    are_flags, is_counted, is_ephemeral, is_sequential, spell_flag, spell_int, spell_text,
};
use zk_acl::{Acls, Text};
use zk_format::{push_acl, push_content};
use zk_path::NoMemory;
use zk_requests::{Part, Request};
use zk_table::Content;

/// Whether a run script has a line with the request.
pub(crate) fn has_request_line(request: &Request) -> bool
    ensures { result ≡ has_request_line request.now }
{
    match request {
        Request::Create { acl, flags, .. } => are_flags(*flags) && is_counted(acl),
        Request::SetAcl { acl, .. } => is_counted(acl),
        Request::Multi { parts } => have_part_lines(parts.as_slice()),
        _ => true,
    }
}

fn have_part_lines(parts: &[Part]) -> bool
    ensures { result ≡ list_all has_part_line parts.now }
{
    parts.iter().all(|part| has_part_line(part))
}

fn has_part_line(part: &Part) -> bool
    ensures { result ≡ has_part_line part.now }
{
    match part {
        Part::Create { acl, flags, .. } => are_flags(*flags) && is_counted(acl),
        _ => true,
    }
}

pub(crate) fn spell_request(line: &mut String, request: &Request) -> Result<(), NoMemory>
    ensures { OnOk result (string_bytes line.new ≡ string_bytes line.old ++ request_text request.now) }
{
    match request {
        Request::Create {
            path,
            content,
            acl,
            flags,
        } => spell_create(line, path, content, acl, *flags),
        Request::Delete { path, version } => spell_named(line, "delete", path, *version),
        Request::SetData {
            path,
            content,
            version,
        } => spell_set(line, path, content, *version),
        Request::SetAcl { path, acl, version } => spell_set_acl(line, path, acl, *version),
        Request::Multi { parts } => spell_multi(line, parts.as_slice()),
        Request::OpenSession { timeout } => {
            line.push_str("open")?;
            spell_int(line, i64::from(*timeout))
        }
        Request::CloseSession => Ok(line.push_str("close")?),
    }
}

/// Appends a multi's word, and each part after its separator.
fn spell_multi(line: &mut String, parts: &[Part]) -> Result<(), NoMemory>
    ensures { OnOk result (string_bytes line.new ≡ string_bytes line.old ++ (codes "multi" ++ flat_map separated_text parts.now)) }
{
    line.push_str("multi")?;
    for part in parts {
        line.push_str(" ; ")?;
        spell_part(line, part)?;
    }
    Ok(())
}

fn spell_part(line: &mut String, part: &Part) -> Result<(), NoMemory>
    ensures { OnOk result (string_bytes line.new ≡ string_bytes line.old ++ part_text part.now) }
{
    match part {
        Part::Create {
            path,
            content,
            acl,
            flags,
        } => spell_create(line, path, content, acl, *flags),
        Part::Delete { path, version } => spell_named(line, "delete", path, *version),
        Part::SetData {
            path,
            content,
            version,
        } => spell_set(line, path, content, *version),
        Part::Check { path, version } => spell_named(line, "check", path, *version),
    }
}

fn spell_create(
    line: &mut String,
    path: &Text,
    content: &Option<Content>,
    acl: &Acls,
    flags: i32,
) -> Result<(), NoMemory>
    ensures { OnOk result (string_bytes line.new ≡ string_bytes line.old ++ create_text path.now content.now acl.now flags) }
{
    line.push_str("create")?;
    spell_flag(line, is_sequential(flags), "-s")?;
    spell_flag(line, is_ephemeral(flags), "-e")?;
    spell_node(line, path, content, acl)?;
    Ok(())
}

/// Appends a path, a content and an access control list, each after a space.
fn spell_node(
    line: &mut String,
    path: &Text,
    content: &Option<Content>,
    acl: &Acls,
) -> Result<(), NoMemory>
    ensures { OnOk result (string_bytes line.new ≡ string_bytes line.old ++ node_text path.now content.now acl.now) }
{
    spell_text(line, path.as_str())?;
    line.push(' ')?;
    push_content(line, content)?;
    line.push(' ')?;
    push_acl(line, acl)
}

fn spell_set(
    line: &mut String,
    path: &Text,
    content: &Option<Content>,
    version: i32,
) -> Result<(), NoMemory>
    ensures { OnOk result (string_bytes line.new ≡ string_bytes line.old ++ set_text path.now content.now version) }
{
    line.push_str("set")?;
    spell_text(line, path.as_str())?;
    line.push(' ')?;
    push_content(line, content)?;
    spell_int(line, i64::from(version))
}

fn spell_set_acl(line: &mut String, path: &Text, acl: &Acls, version: i32) -> Result<(), NoMemory>
    ensures { OnOk result (string_bytes line.new ≡ string_bytes line.old
        ++ codes "setacl " ++ quoted path.now ++ 32 ∷ acl_text acl.now ++ 32 ∷ signed_decimal version) }
{
    line.push_str("setacl")?;
    spell_text(line, path.as_str())?;
    line.push(' ')?;
    push_acl(line, acl)?;
    spell_int(line, i64::from(version))
}

/// Appends a word, a path and a version.
fn spell_named(line: &mut String, word: &str, path: &Text, version: i32) -> Result<(), NoMemory>
    ensures { OnOk result (string_bytes line.new ≡ string_bytes line.old ++ named_text word.now path.now version) }
{
    line.push_str(word)?;
    spell_text(line, path.as_str())?;
    spell_int(line, i64::from(version))
}
