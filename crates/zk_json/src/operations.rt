//! The fields of operations.
ghost use Rattle.std.specs.Prelude.{◌≡◌, ◌++◌, ◌∷◌, [], OnOk, codes};
ghost use Rattle.std.specs.List.{flat_map};
ghost use Rattle.json.specs.Json as values;
ghost use Rattle.json.specs.Tree.{json_tokens};
ghost use Rattle.zk_json.specs.Json.{fields_tokens};
ghost use Rattle.zk_json.specs.Records.{check_fields, create_fields, create_old_fields, delete_fields, error_fields, multi_fields, new_node_fields, op_fields, open_session_fields, part_fields, part_of, set_acl_fields, set_data_fields};

use crate::contents::{push_acl_field, push_content_fields};
use crate::fields::{push_boolean_field, push_number_field, push_text_field};
use crate::json_text::JsonText;
use zk_acl::Acls;
use zk_path::{NoMemory, Path};
use zk_table::{Content, Op, Sub};

/// Appends the fields of an operation.
pub(crate) fn push_op_fields(json: &mut JsonText, op: &Op) -> Result<(), NoMemory>
    ensures { OnOk result (json.new.writer.tokens ≡ json.old.writer.tokens ++ fields_tokens (op_fields op.now)) }
{
    match op {
        Op::Create {
            path,
            content,
            acl,
            ephemeral,
            count,
        } => push_create_fields(json, path, content, acl, *ephemeral, *count),
        Op::CreateOld {
            path,
            content,
            acl,
            ephemeral,
        } => push_create_old_fields(json, path, content, acl, *ephemeral),
        Op::Delete { path } => push_delete_fields(json, path),
        Op::SetData {
            path,
            content,
            version,
        } => push_set_data_fields(json, path, content, *version),
        Op::SetAcl { path, acl, version } => push_set_acl_fields(json, path, acl, *version),
        Op::OpenSession { timeout } => push_open_session_fields(json, *timeout),
        Op::CloseSession => push_text_field(json, "type", "closeSession"),
        Op::Error { code } => push_error_fields(json, *code),
        Op::Multi { parts } => push_multi_fields(json, parts.as_slice()),
    }
}

/// Appends the type of an operation, and its path.
fn push_place(json: &mut JsonText, name: &str, path: &Path) -> Result<(), NoMemory>
    ensures { OnOk result (json.new.writer.tokens ≡ json.old.writer.tokens
        ++ fields_tokens ((codes "type", values.string name.now) ∷ (codes "path", values.string path.now) ∷ [])) }
{
    push_text_field(json, "type", name)?;
    push_text_field(json, "path", path.text())
}

/// Appends the content and the access rights of a new node.
fn push_new_node(
    json: &mut JsonText,
    content: &Option<Content>,
    acl: &Acls,
    ephemeral: bool,
) -> Result<(), NoMemory>
    ensures { OnOk result (json.new.writer.tokens ≡ json.old.writer.tokens ++ fields_tokens (new_node_fields content.now acl.now ephemeral)) }
{
    push_content_fields(json, content)?;
    push_acl_field(json, acl)?;
    push_boolean_field(json, "ephemeral", ephemeral)
}

fn push_create_fields(
    json: &mut JsonText,
    path: &Path,
    content: &Option<Content>,
    acl: &Acls,
    ephemeral: bool,
    count: i32,
) -> Result<(), NoMemory>
    ensures { OnOk result (json.new.writer.tokens ≡ json.old.writer.tokens
        ++ fields_tokens (create_fields path.now content.now acl.now ephemeral count)) }
{
    push_place(json, "create", path)?;
    push_new_node(json, content, acl, ephemeral)?;
    push_number_field(json, "parentCVersion", count)
}

fn push_create_old_fields(
    json: &mut JsonText,
    path: &Path,
    content: &Option<Content>,
    acl: &Acls,
    ephemeral: bool,
) -> Result<(), NoMemory>
    ensures { OnOk result (json.new.writer.tokens ≡ json.old.writer.tokens
        ++ fields_tokens (create_old_fields path.now content.now acl.now ephemeral)) }
{
    push_place(json, "create0", path)?;
    push_new_node(json, content, acl, ephemeral)
}

fn push_delete_fields(json: &mut JsonText, path: &Path) -> Result<(), NoMemory>
    ensures { OnOk result (json.new.writer.tokens ≡ json.old.writer.tokens ++ fields_tokens (delete_fields path.now)) }
{
    push_place(json, "delete", path)
}

fn push_set_data_fields(
    json: &mut JsonText,
    path: &Path,
    content: &Option<Content>,
    version: i32,
) -> Result<(), NoMemory>
    ensures { OnOk result (json.new.writer.tokens ≡ json.old.writer.tokens
        ++ fields_tokens (set_data_fields path.now content.now version)) }
{
    push_place(json, "setData", path)?;
    push_content_fields(json, content)?;
    push_number_field(json, "version", version)
}

fn push_set_acl_fields(
    json: &mut JsonText,
    path: &Path,
    acl: &Acls,
    version: i32,
) -> Result<(), NoMemory>
    ensures { OnOk result (json.new.writer.tokens ≡ json.old.writer.tokens
        ++ fields_tokens (set_acl_fields path.now acl.now version)) }
{
    push_place(json, "setACL", path)?;
    push_acl_field(json, acl)?;
    push_number_field(json, "version", version)
}

fn push_check_fields(json: &mut JsonText, path: &Path, version: i32) -> Result<(), NoMemory>
    ensures { OnOk result (json.new.writer.tokens ≡ json.old.writer.tokens ++ fields_tokens (check_fields path.now version)) }
{
    push_place(json, "check", path)?;
    push_number_field(json, "version", version)
}

fn push_open_session_fields(json: &mut JsonText, timeout: i32) -> Result<(), NoMemory>
    ensures { OnOk result (json.new.writer.tokens ≡ json.old.writer.tokens ++ fields_tokens (open_session_fields timeout)) }
{
    push_text_field(json, "type", "createSession")?;
    push_number_field(json, "timeout", timeout)
}

fn push_error_fields(json: &mut JsonText, code: i32) -> Result<(), NoMemory>
    ensures { OnOk result (json.new.writer.tokens ≡ json.old.writer.tokens ++ fields_tokens (error_fields code)) }
{
    push_text_field(json, "type", "error")?;
    push_number_field(json, "err", code)
}

/// Appends the fields of a part of a multi.
fn push_part_fields(json: &mut JsonText, part: &Sub) -> Result<(), NoMemory>
    ensures { OnOk result (json.new.writer.tokens ≡ json.old.writer.tokens ++ fields_tokens (part_fields part.now)) }
{
    match part {
        Sub::Create {
            path,
            content,
            acl,
            ephemeral,
            count,
        } => push_create_fields(json, path, content, acl, *ephemeral, *count),
        Sub::Delete { path } => push_delete_fields(json, path),
        Sub::SetData {
            path,
            content,
            version,
        } => push_set_data_fields(json, path, content, *version),
        Sub::Check { path, version } => push_check_fields(json, path, *version),
        Sub::Error { code } => push_error_fields(json, *code),
    }
}

/// Appends a part of a multi.
fn push_part(json: &mut JsonText, part: &Sub) -> Result<(), NoMemory>
    ensures { OnOk result (json.new.writer.tokens ≡ json.old.writer.tokens ++ json_tokens (part_of part.now)) }
{
    json.open_object()?;
    push_part_fields(json, part)?;
    json.close_object()
}

/// Appends the parts of a multi.
fn push_parts(json: &mut JsonText, parts: &[Sub]) -> Result<(), NoMemory>
    ensures { OnOk result (json.new.writer.tokens ≡ json.old.writer.tokens ++ flat_map (λ part. json_tokens (part_of part)) parts.now) }
{
    for part in parts {
        push_part(json, part)?;
    }
    Ok(())
}

fn push_multi_fields(json: &mut JsonText, parts: &[Sub]) -> Result<(), NoMemory>
    ensures { OnOk result (json.new.writer.tokens ≡ json.old.writer.tokens ++ fields_tokens (multi_fields parts.now)) }
{
    push_text_field(json, "type", "multi")?;
    json.push_name("ops")?;
    json.open_array()?;
    push_parts(json, parts)?;
    json.close_array()
}
