//! The line of a node.
ghost use Rattle.std.specs.Prelude.{◌≡◌, ◌++◌, OnOk};
ghost use Rattle.std.specs.String.{string_bytes};
ghost use Rattle.json.specs.Tree.{json_tokens};
ghost use Rattle.zk_json.specs.Json.{AppendsLineOf, fields_tokens};
ghost use Rattle.zk_json.specs.Nodes.{AppendsNodeLine, change_fields, held_fields, node_of, version_fields};

use crate::contents::{push_acl_field, push_content_fields};
use crate::fields::{push_id_field, push_number_field, push_text_field};
use crate::json_text::{JsonText, push_text_line};
use crate::records::time_text;
use zk_acl::Stat;
use zk_path::{NoMemory, Path};
use zk_table::Node;

/// Appends the fields of a stat that say when the node was created and changed.
fn push_change_fields(
    json: &mut JsonText,
    ctime: &str,
    mtime: &str,
    stat: &Stat,
) -> Result<(), NoMemory>
    ensures { OnOk result (json.new.writer.tokens ≡ json.old.writer.tokens ++ fields_tokens (change_fields ctime.now mtime.now stat.now)) }
{
    push_id_field(json, "czxid", stat.czxid)?;
    push_id_field(json, "mzxid", stat.mzxid)?;
    push_id_field(json, "pzxid", stat.pzxid)?;
    push_text_field(json, "ctime", ctime)?;
    push_text_field(json, "mtime", mtime)
}

/// Appends the versions of a stat, and the session that owns the node.
fn push_version_fields(json: &mut JsonText, stat: &Stat) -> Result<(), NoMemory>
    ensures { OnOk result (json.new.writer.tokens ≡ json.old.writer.tokens ++ fields_tokens (version_fields stat.now)) }
{
    push_number_field(json, "version", stat.version)?;
    push_number_field(json, "cversion", stat.cversion)?;
    push_number_field(json, "aversion", stat.aversion)?;
    push_id_field(json, "ephemeralOwner", stat.ephemeral_owner)
}

/// Appends the path, the content and the access control list of a node.
fn push_held_fields(json: &mut JsonText, path: &Path, node: &Node) -> Result<(), NoMemory>
    ensures { OnOk result (json.new.writer.tokens ≡ json.old.writer.tokens ++ fields_tokens (held_fields path.now node.now)) }
{
    push_text_field(json, "path", path.text())?;
    push_content_fields(json, &node.content)?;
    push_acl_field(json, &node.acl)
}

/// Appends a node, with the texts of the stat's times.
pub(crate) fn push_node(
    json: &mut JsonText,
    ctime: &str,
    mtime: &str,
    path: &Path,
    node: &Node,
    stat: &Stat,
) -> Result<(), NoMemory>
    ensures { OnOk result (json.new.writer.tokens ≡ json.old.writer.tokens
        ++ json_tokens (node_of ctime.now mtime.now path.now node.now stat.now)) }
{
    json.open_object()?;
    push_held_fields(json, path, node)?;
    push_change_fields(json, ctime, mtime, stat)?;
    push_version_fields(json, stat)?;
    json.close_object()
}

/// Appends the line of a node: an object with its `path`, `data`, `text` and `acl`, and the fields
/// of its stat but for the two that count.
///
/// RFC 8259; ZooKeeper Programmer's Guide, "ZooKeeper Stat Structure".
pub fn push_node_line(
    text: &mut String,
    path: &Path,
    node: &Node,
    stat: &Stat,
) -> Result<(), NoMemory>
    ensures { OnOk result (AppendsNodeLine path.now node.now stat.now (string_bytes text.old) (string_bytes text.new)) }
{
    let alloc = *text.allocator();
    let ctime = time_text(alloc, stat.ctime)?;
    let mtime = time_text(alloc, stat.mtime)?;
    push_timed_node(text, ctime.as_str(), mtime.as_str(), path, node, stat)
}

/// Appends the line of a node, with the texts of the stat's times.
fn push_timed_node(
    text: &mut String,
    ctime: &str,
    mtime: &str,
    path: &Path,
    node: &Node,
    stat: &Stat,
) -> Result<(), NoMemory>
    ensures { OnOk result (AppendsLineOf (node_of ctime.now mtime.now path.now node.now stat.now) (string_bytes text.old) (string_bytes text.new)) }
{
    let mut json = JsonText::new(*text.allocator())?;
    push_node(&mut json, ctime, mtime, path, node, stat)?;
    push_text_line(text, json)
}
