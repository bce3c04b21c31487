//! The line of an object whose fields hold no other objects.
ghost use Rattle.std.specs.Prelude.{◌≡◌, ◌++◌, OnOk, map};
ghost use Rattle.std.specs.String.{string_bytes};
ghost use Rattle.json.specs.Tree.{json_tokens};
ghost use Rattle.zk_json.specs.Json.{AppendsLineOf, fields_tokens, object_of};
ghost use Rattle.zk_json.specs.Objects.{field_of, named, value_of};

use crate::fields::id_text;
use crate::json_text::{JsonText, push_text_line};
use zk_path::NoMemory;

/// The value of a field.
#[derive(Clone, Copy, Debug)]
pub enum Value<'a> {
    Null,
    Text(&'a str),
    Count(u64),
    /// A zxid or a session id.
    Id(i64),
    Flag(bool),
}

/// Appends a value.
fn push_value(json: &mut JsonText, value: Value<'_>) -> Result<(), NoMemory>
    ensures { OnOk result (json.new.writer.tokens ≡ json.old.writer.tokens ++ json_tokens (value_of value.entry)) }
{
    match value {
        Value::Null => json.push_null(),
        Value::Text(text) => json.push_string(text),
        Value::Count(count) => json.push_unsigned(count),
        Value::Id(id) => {
            let text = id_text(json.alloc, id)?;
            json.push_string(text.as_str())
        }
        Value::Flag(flag) => json.push_boolean(flag),
    }
}

/// Appends a field.
fn push_field(json: &mut JsonText, name: &str, value: Value<'_>) -> Result<(), NoMemory>
    ensures { OnOk result (json.new.writer.tokens ≡ json.old.writer.tokens ++ fields_tokens (named name.now value.entry)) }
{
    json.push_name(name)?;
    push_value(json, value)
}

/// Appends fields.
fn push_fields(json: &mut JsonText, fields: &[(&str, Value<'_>)]) -> Result<(), NoMemory>
    ensures { OnOk result (json.new.writer.tokens ≡ json.old.writer.tokens ++ fields_tokens (map field_of fields.now)) }
{
    for (name, value) in fields {
        push_field(json, name, *value)?;
    }
    Ok(())
}

/// Appends an object.
fn push_object(json: &mut JsonText, fields: &[(&str, Value<'_>)]) -> Result<(), NoMemory>
    ensures { OnOk result (json.new.writer.tokens ≡ json.old.writer.tokens ++ json_tokens (object_of (map field_of fields.now))) }
{
    json.open_object()?;
    push_fields(json, fields)?;
    json.close_object()
}

/// Appends the line of an object with these fields, in order.
///
/// RFC 8259.
pub fn push_object_line(text: &mut String, fields: &[(&str, Value<'_>)]) -> Result<(), NoMemory>
    ensures { OnOk result (AppendsLineOf (object_of (map field_of fields.now)) (string_bytes text.old) (string_bytes text.new)) }
{
    let mut json = JsonText::new(*text.allocator())?;
    push_object(&mut json, fields)?;
    push_text_line(text, json)
}
