//! The lines of a node's history, and of who writes most.
ghost use Rattle.std.specs.Prelude.{◌≡◌, ◌++◌, ◌∷◌, [], OnOk, codes, map};
ghost use Rattle.std.specs.List.{flat_map};
ghost use Rattle.std.specs.String.{string_bytes};
ghost use Rattle.json.specs.Json as values;
ghost use Rattle.json.specs.Tree.{json_tokens};
ghost use Rattle.zk_json.specs.Incidents.{AppendsHistoryLine, change_fields, count_of, history_of};
ghost use Rattle.zk_json.specs.Json.{AppendsLineOf, fields_tokens, strings_of};

use crate::fields::{push_boolean_field, push_count_field, push_text_field};
use crate::json_text::{JsonText, push_text_line};
use crate::records::{push_record_fields, time_text};
use zk_path::NoMemory;
use zk_table::Txn;

/// Appends the items of an array of strings.
fn push_strings(json: &mut JsonText, texts: &[&str]) -> Result<(), NoMemory>
    ensures { OnOk result (json.new.writer.tokens ≡ json.old.writer.tokens ++ flat_map (λ text. json_tokens (values.string text)) (map (λ text. text.now) texts.now)) }
{
    for text in texts {
        json.push_string(text)?;
    }
    Ok(())
}

/// Appends the field of paths.
fn push_paths_field(json: &mut JsonText, paths: &[&str]) -> Result<(), NoMemory>
    ensures { OnOk result (json.new.writer.tokens ≡ json.old.writer.tokens
        ++ fields_tokens ((codes "paths", strings_of (map (λ path. path.now) paths.now)) ∷ [])) }
{
    json.push_name("paths")?;
    json.open_array()?;
    push_strings(json, paths)?;
    json.close_array()
}

/// Appends the fields of a change: the nodes, its kind, and whether a session expired.
fn push_change_fields(
    json: &mut JsonText,
    paths: &[&str],
    kind: &str,
    expired: bool,
) -> Result<(), NoMemory>
    ensures { OnOk result (json.new.writer.tokens ≡ json.old.writer.tokens
        ++ fields_tokens (change_fields (map (λ path. path.now) paths.now) kind.now expired)) }
{
    push_paths_field(json, paths)?;
    push_text_field(json, "kind", kind)?;
    push_boolean_field(json, "expired", expired)
}

/// Appends a transaction of a history.
fn push_history(
    json: &mut JsonText,
    time: &str,
    paths: &[&str],
    kind: &str,
    expired: bool,
    txn: &Txn,
) -> Result<(), NoMemory>
    ensures { OnOk result (json.new.writer.tokens ≡ json.old.writer.tokens
        ++ json_tokens (history_of time.now (map (λ path. path.now) paths.now) kind.now expired txn.now)) }
{
    json.open_object()?;
    push_change_fields(json, paths, kind, expired)?;
    push_record_fields(json, time, txn)?;
    json.close_object()
}

/// Appends the line of a transaction that creates, changes or deletes the nodes at these paths: an
/// object with `paths`, `kind` and `expired`, and the fields of
/// [`push_record_line`](crate::push_record_line).
pub fn push_history_line(
    text: &mut String,
    paths: &[&str],
    kind: &str,
    expired: bool,
    txn: &Txn,
) -> Result<(), NoMemory>
    ensures { OnOk result (AppendsHistoryLine (map (λ path. path.now) paths.now) kind.now expired txn.now (string_bytes text.old) (string_bytes text.new)) }
{
    let time = time_text(*text.allocator(), txn.time)?;
    push_timed_history(text, time.as_str(), paths, kind, expired, txn)
}

/// Appends the line of a transaction of a history, with the text of its time.
fn push_timed_history(
    text: &mut String,
    time: &str,
    paths: &[&str],
    kind: &str,
    expired: bool,
    txn: &Txn,
) -> Result<(), NoMemory>
    ensures { OnOk result (AppendsLineOf (history_of time.now (map (λ path. path.now) paths.now) kind.now expired txn.now) (string_bytes text.old) (string_bytes text.new)) }
{
    let mut json = JsonText::new(*text.allocator())?;
    push_history(&mut json, time, paths, kind, expired, txn)?;
    push_text_line(text, json)
}

/// Appends a count.
#[tactic(auto, using(crate::proofs::Tokens::object_tokens))]
fn push_count(json: &mut JsonText, name: &str, counted: &str, count: u64) -> Result<(), NoMemory>
    ensures { OnOk result (json.new.writer.tokens ≡ json.old.writer.tokens ++ json_tokens (count_of name.now counted.now count)) }
{
    json.open_object()?;
    push_count_field(json, "writes", count)?;
    push_text_field(json, name, counted)?;
    json.close_object()
}

/// Appends the line of what was counted: an object with `writes`, and a field of this name that
/// says whose.
pub fn push_count_line(
    text: &mut String,
    name: &str,
    counted: &str,
    count: u64,
) -> Result<(), NoMemory>
    ensures { OnOk result (AppendsLineOf (count_of name.now counted.now count) (string_bytes text.old) (string_bytes text.new)) }
{
    let mut json = JsonText::new(*text.allocator())?;
    push_count(&mut json, name, counted, count)?;
    push_text_line(text, json)
}
