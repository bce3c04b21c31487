//! The lines of a node.
ghost use Rattle.std.specs.Prelude.{◌≡◌, ◌++◌, None, OnOk, codes, option_map};
ghost use Rattle.std.specs.String.{string_bytes};
ghost use Rattle.zk_format.specs.Spelling.{id_digits};
ghost use Rattle.zk_tree_changes.specs.Lines.{is_own, is_root, lasting_lines, lines_by, lines_of, node_lines, note, with_content, without_content};

use crate::acl::acl_word;
use crate::line::{push_create, push_create_null, push_note, push_set, push_set_acl};
use crate::word::{content_word, word_of};
use zk_format::push_id;
use zk_path::NoMemory;
use zk_table::{Content, Node};

/// What is left out.
const CONTENT: &str = "no word has its content, which is left out";

const PATH: &str = "no word has its path; the node is left out";

const ACL: &str = "no word has its access control list; the node is left out";

const OWN: &str = "each server has it; the node is left out";

fn is_root(path: &str) -> bool
    ensures { result ≡ is_root path.now }
{
    path == "/"
}

/// Whether each server has the node at a path.
fn is_own(path: &str) -> bool
    ensures { result ≡ is_own path.now }
{
    path == "/zookeeper" || path == "/zookeeper/quota" || path == "/zookeeper/config"
}

/// Appends the lines of a node: those that create it, or a comment.
#[tactic(auto, unfolding(crate::specs::Lines::node_lines))]
pub(crate) fn push_node(text: &mut String, path: &str, node: &Node) -> Result<(), NoMemory>
    ensures { OnOk result (string_bytes text.new ≡ string_bytes text.old ++ node_lines path.now node.now) }
{
    if is_own(path) {
        return push_note(text, path, OWN);
    }
    if node.owner != 0 {
        return push_ephemeral(text, path, node.owner);
    }
    let path_word = word_of(*text.allocator(), path)?;
    let acl_word = acl_word(*text.allocator(), node.acl.as_slice())?;
    push_lasting(text, path, &node.content, &path_word, &acl_word)
}

/// Appends the comment on an ephemeral node.
#[tactic(auto, unfolding(crate::specs::Lines::note))]
fn push_ephemeral(text: &mut String, path: &str, owner: i64) -> Result<(), NoMemory>
    ensures { OnOk result (string_bytes text.new ≡ string_bytes text.old ++ note path.now (codes "ephemeral, of the session " ++ id_digits owner ++ codes "; the node is left out")) }
{
    let mut what = String::from_str(*text.allocator(), "ephemeral, of the session ")?;
    push_id(&mut what, owner)?;
    what.push_str("; the node is left out")?;
    push_note(text, path, what.as_str())
}

/// Appends the lines of a node that no session owns, by the words of its path and its list.
fn push_lasting(
    text: &mut String,
    path: &str,
    content: &Option<Content>,
    path_word: &Option<String>,
    acl_word: &Option<String>,
) -> Result<(), NoMemory>
    ensures { OnOk result (string_bytes text.new ≡ string_bytes text.old
        ++ lasting_lines path.now content.now (option_map string_bytes path_word.now) (option_map string_bytes acl_word.now)) }
{
    let Some(path_word) = path_word else {
        return push_note(text, path, PATH);
    };
    let Some(acl_word) = acl_word else {
        return push_note(text, path, ACL);
    };
    push_lines(text, path, content, path_word.as_str(), acl_word.as_str())
}

/// Appends the lines that create a node, or set the root.
fn push_lines(
    text: &mut String,
    path: &str,
    content: &Option<Content>,
    path_word: &str,
    acl_word: &str,
) -> Result<(), NoMemory>
    ensures { OnOk result (string_bytes text.new ≡ string_bytes text.old
        ++ lines_of path.now (is_root path.now) content.now path_word.now acl_word.now) }
{
    let is_root = is_root(path);
    match content {
        Some(content) => {
            let word = content_word(*text.allocator(), content.as_slice())?;
            push_lines_by(text, path, is_root, &word, path_word, acl_word)
        }
        None if is_root => push_unread(text, path, true, path_word, acl_word),
        None => push_without_content(text, false, path_word, acl_word),
    }
}

/// Appends the lines of a node by the word of its content.
fn push_lines_by(
    text: &mut String,
    path: &str,
    is_root: bool,
    content: &Option<String>,
    path_word: &str,
    acl_word: &str,
) -> Result<(), NoMemory>
    ensures { OnOk result (string_bytes text.new ≡ string_bytes text.old
        ++ lines_by path.now is_root (option_map string_bytes content.now) path_word.now acl_word.now) }
{
    match content {
        Some(content) => push_with_content(text, is_root, path_word, content.as_str(), acl_word),
        None => push_unread(text, path, is_root, path_word, acl_word),
    }
}

/// Appends the lines of a node whose content is left out.
fn push_unread(
    text: &mut String,
    path: &str,
    is_root: bool,
    path_word: &str,
    acl_word: &str,
) -> Result<(), NoMemory>
    ensures { OnOk result (string_bytes text.new ≡ string_bytes text.old
        ++ lines_by path.now is_root None path_word.now acl_word.now) }
{
    push_note(text, path, CONTENT)?;
    push_without_content(text, is_root, path_word, acl_word)
}

/// Appends the lines of a node with content.
fn push_with_content(
    text: &mut String,
    is_root: bool,
    path: &str,
    content: &str,
    acl: &str,
) -> Result<(), NoMemory>
    ensures { OnOk result (string_bytes text.new ≡ string_bytes text.old ++ with_content is_root path.now content.now acl.now) }
{
    if is_root {
        push_set(text, path, content)?;
        return push_set_acl(text, path, acl);
    }
    push_create(text, path, content, acl)
}

/// Appends the lines of a node without content.
fn push_without_content(
    text: &mut String,
    is_root: bool,
    path: &str,
    acl: &str,
) -> Result<(), NoMemory>
    ensures { OnOk result (string_bytes text.new ≡ string_bytes text.old ++ without_content is_root path.now acl.now) }
{
    if !is_root {
        push_create_null(text, path)?;
    }
    push_set_acl(text, path, acl)
}
