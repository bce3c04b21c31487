//! Contents and access control lists.
ghost use Rattle.std.specs.Prelude.{◌≡◌, ◌++◌, ◌∷◌, [], OnOk, codes};
ghost use Rattle.std.specs.List.{flat_map};
ghost use Rattle.json.specs.Tree.{json_tokens};
ghost use Rattle.zk_json.specs.Json.{acl_entry_fields, acl_entry_of, acl_of, content_fields, data_of, fields_tokens, text_by, text_of};

use crate::fields::{push_number_field, push_text_field};
use crate::json_text::JsonText;
use base64::engine::general_purpose::STANDARD;
use std::str;
use zk_acl::{Acl, Acls};
use zk_path::NoMemory;
use zk_table::Content;

/// Appends a content in base64.
fn push_base64(json: &mut JsonText, content: &Option<Content>) -> Result<(), NoMemory>
    ensures { OnOk result (json.new.writer.tokens ≡ json.old.writer.tokens ++ json_tokens (data_of content.now)) }
{
    match content {
        Some(content) => {
            let text = STANDARD.encode(json.alloc, content.as_slice())?;
            json.push_string(text.as_str())
        }
        None => json.push_null(),
    }
}

/// Appends a content as text, if it is UTF-8.
fn push_text(json: &mut JsonText, content: &Option<Content>) -> Result<(), NoMemory>
    ensures { OnOk result (json.new.writer.tokens ≡ json.old.writer.tokens ++ json_tokens (text_of content.now)) }
{
    match content {
        Some(content) => push_bytes(json, content.as_slice()),
        None => json.push_null(),
    }
}

/// Appends bytes as text, if they are UTF-8.
#[tactic(auto, using(crate::proofs::Tokens::utf8_text, crate::proofs::Tokens::no_text))]
fn push_bytes(json: &mut JsonText, bytes: &[u8]) -> Result<(), NoMemory>
    ensures { OnOk result (json.new.writer.tokens ≡ json.old.writer.tokens ++ json_tokens (text_by bytes.now)) }
{
    match str::from_utf8(bytes) {
        Ok(text) => json.push_string(text),
        Err(_) => json.push_null(),
    }
}

/// Appends the fields of a node's content.
pub(crate) fn push_content_fields(
    json: &mut JsonText,
    content: &Option<Content>,
) -> Result<(), NoMemory>
    ensures { OnOk result (json.new.writer.tokens ≡ json.old.writer.tokens ++ fields_tokens (content_fields content.now)) }
{
    json.push_name("data")?;
    push_base64(json, content)?;
    json.push_name("text")?;
    push_text(json, content)
}

/// Appends an entry of an access control list.
fn push_acl_entry(json: &mut JsonText, entry: &Acl) -> Result<(), NoMemory>
    ensures { OnOk result (json.new.writer.tokens ≡ json.old.writer.tokens ++ json_tokens (acl_entry_of entry.now)) }
{
    json.open_object()?;
    push_text_field(json, "scheme", entry.id.scheme.as_str())?;
    push_text_field(json, "id", entry.id.id.as_str())?;
    push_number_field(json, "perms", entry.perms)?;
    json.close_object()
}

/// Appends the entries of an access control list.
fn push_acl_entries(json: &mut JsonText, entries: &[Acl]) -> Result<(), NoMemory>
    ensures { OnOk result (json.new.writer.tokens ≡ json.old.writer.tokens ++ flat_map (λ entry. json_tokens (acl_entry_of entry)) entries.now) }
{
    for entry in entries {
        push_acl_entry(json, entry)?;
    }
    Ok(())
}

/// Appends the field of an access control list.
pub(crate) fn push_acl_field(json: &mut JsonText, acl: &Acls) -> Result<(), NoMemory>
    ensures { OnOk result (json.new.writer.tokens ≡ json.old.writer.tokens ++ fields_tokens ((codes "acl", acl_of acl.now) ∷ [])) }
{
    json.push_name("acl")?;
    json.open_array()?;
    push_acl_entries(json, acl.as_slice())?;
    json.close_array()
}
