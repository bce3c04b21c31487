//! The fields of objects.
ghost use Rattle.std.specs.Prelude.{◌≡◌, ◌++◌, ◌∷◌, [], IfOk, OnOk, decimal};
ghost use Rattle.std.specs.String.{string_bytes};
ghost use Rattle.json.specs.Json as values;
ghost use Rattle.zk_json.specs.Json.{fields_tokens, id_of, id_text, number_of};

use crate::json_text::JsonText;
use std::alloc::Global;
use zk_path::NoMemory;

/// Appends a field whose value is a string.
pub(crate) fn push_text_field(json: &mut JsonText, name: &str, text: &str) -> Result<(), NoMemory>
    ensures { OnOk result (json.new.writer.tokens ≡ json.old.writer.tokens ++ fields_tokens ((name.now, values.string text.now) ∷ [])) }
{
    json.push_name(name)?;
    json.push_string(text)
}

/// Appends a field whose value is a number.
pub(crate) fn push_number_field(
    json: &mut JsonText,
    name: &str,
    number: i32,
) -> Result<(), NoMemory>
    ensures { OnOk result (json.new.writer.tokens ≡ json.old.writer.tokens ++ fields_tokens ((name.now, number_of number) ∷ [])) }
{
    json.push_name(name)?;
    json.push_signed(i64::from(number))
}

/// Appends a field whose value is a count.
pub(crate) fn push_count_field(json: &mut JsonText, name: &str, count: u64) -> Result<(), NoMemory>
    ensures { OnOk result (json.new.writer.tokens ≡ json.old.writer.tokens ++ fields_tokens ((name.now, values.number (decimal count)) ∷ [])) }
{
    json.push_name(name)?;
    json.push_unsigned(count)
}

/// Appends a field whose value is true or false.
pub(crate) fn push_boolean_field(
    json: &mut JsonText,
    name: &str,
    value: bool,
) -> Result<(), NoMemory>
    ensures { OnOk result (json.new.writer.tokens ≡ json.old.writer.tokens ++ fields_tokens ((name.now, values.boolean value) ∷ [])) }
{
    json.push_name(name)?;
    json.push_boolean(value)
}

/// The hexadecimal digits of a zxid or a session id.
#[tactic(auto, unfolding(crate::specs::Json::id_text))]
pub(crate) fn id_text(alloc: Global, id: i64) -> Result<String, NoMemory>
    ensures { IfOk result (λ text. string_bytes text ≡ id_text id) }
{
    let mut text = String::new(alloc);
    write!(text, "0x{:x}", id.cast_unsigned())?;
    Ok(text)
}

/// Appends a field whose value is a zxid or a session id.
pub(crate) fn push_id_field(json: &mut JsonText, name: &str, id: i64) -> Result<(), NoMemory>
    ensures { OnOk result (json.new.writer.tokens ≡ json.old.writer.tokens ++ fields_tokens ((name.now, id_of id) ∷ [])) }
{
    let text = id_text(json.alloc, id)?;
    push_text_field(json, name, text.as_str())
}
