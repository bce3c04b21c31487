//! The line of a node that was created, changed or deleted.
ghost use Rattle.std.specs.Prelude.{◌≡◌, ◌++◌, OnOk, option_map};
ghost use Rattle.std.specs.String.{string_bytes};
ghost use Rattle.json.specs.Tree.{json_tokens};
ghost use Rattle.zk_json.specs.Changes.{AppendsChange, AppendsChangeLine, AppendsHeld, AppendsLast, AppendsSide, held_of, last_fields, last_of};
ghost use Rattle.zk_json.specs.Json.{fields_tokens};

use crate::fields::{push_id_field, push_text_field};
use crate::json_text::{JsonText, push_text_line};
use crate::nodes::push_node;
use crate::records::time_text;
use zk_acl::Stat;
use zk_path::{NoMemory, Path};
use zk_table::Node;

/// A node with its stat.
#[derive(Clone, Copy, Debug)]
pub struct Held<'a> {
    pub node: &'a Node,
    pub stat: &'a Stat,
}

/// The last transaction that changed a node.
#[derive(Clone, Copy, Debug)]
pub struct LastChange {
    pub zxid: i64,
    /// Milliseconds since 1970.
    pub time: i64,
}

/// Appends a node.
fn push_held(json: &mut JsonText, path: &Path, node: &Node, stat: &Stat) -> Result<(), NoMemory>
    ensures { OnOk result (AppendsHeld path.now node.now stat.now json.old.writer.tokens json.new.writer.tokens) }
{
    let ctime = time_text(json.alloc, stat.ctime)?;
    let mtime = time_text(json.alloc, stat.mtime)?;
    push_node(json, ctime.as_str(), mtime.as_str(), path, node, stat)
}

/// Appends a node, or null.
fn push_side(json: &mut JsonText, path: &Path, held: Option<Held<'_>>) -> Result<(), NoMemory>
    ensures { OnOk result (AppendsSide path.now (option_map held_of held.entry) json.old.writer.tokens json.new.writer.tokens) }
{
    match held {
        Some(held) => push_held(json, path, held.node, held.stat),
        None => json.push_null(),
    }
}

fn push_last_fields(json: &mut JsonText, zxid: i64, time: &str) -> Result<(), NoMemory>
    ensures { OnOk result (json.new.writer.tokens ≡ json.old.writer.tokens ++ fields_tokens (last_fields zxid time.now)) }
{
    push_id_field(json, "zxid", zxid)?;
    push_text_field(json, "time", time)
}

/// Appends a transaction, with the text of its time.
fn push_timed(json: &mut JsonText, zxid: i64, time: &str) -> Result<(), NoMemory>
    ensures { OnOk result (json.new.writer.tokens ≡ json.old.writer.tokens ++ json_tokens (last_of zxid time.now)) }
{
    json.open_object()?;
    push_last_fields(json, zxid, time)?;
    json.close_object()
}

/// Appends a transaction, or null.
fn push_last(json: &mut JsonText, last: Option<LastChange>) -> Result<(), NoMemory>
    ensures { OnOk result (AppendsLast last json.old.writer.tokens json.new.writer.tokens) }
{
    match last {
        Some(last) => {
            let time = time_text(json.alloc, last.time)?;
            push_timed(json, last.zxid, time.as_str())
        }
        None => json.push_null(),
    }
}

/// Appends a change.
fn push_change(
    json: &mut JsonText,
    path: &Path,
    last: Option<LastChange>,
    before: Option<Held<'_>>,
    after: Option<Held<'_>>,
) -> Result<(), NoMemory>
    ensures { OnOk result (AppendsChange path.now last (option_map held_of before.entry) (option_map held_of after.entry)
        json.old.writer.tokens json.new.writer.tokens) }
{
    json.open_object()?;
    push_text_field(json, "path", path.text())?;
    json.push_name("last")?;
    push_last(json, last)?;
    json.push_name("before")?;
    push_side(json, path, before)?;
    json.push_name("after")?;
    push_side(json, path, after)?;
    json.close_object()
}

/// Appends the line of what became of the node at a path: an object with its `path`, the `last`
/// transaction that changed it (null where it is not known), and the node `before` and `after`, each
/// null where there is none.
///
/// RFC 8259; a node is that of [`push_node_line`](crate::push_node_line).
pub fn push_change_line(
    text: &mut String,
    path: &Path,
    last: Option<LastChange>,
    before: Option<Held<'_>>,
    after: Option<Held<'_>>,
) -> Result<(), NoMemory>
    ensures { OnOk result (AppendsChangeLine path.now last (option_map held_of before.entry) (option_map held_of after.entry)
        (string_bytes text.old) (string_bytes text.new)) }
{
    let mut json = JsonText::new(*text.allocator())?;
    push_change(&mut json, path, last, before, after)?;
    push_text_line(text, json)
}
