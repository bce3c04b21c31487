//! The lines of a script.
ghost use Rattle.std.specs.Prelude.{◌≡◌, ◌++◌, OnOk};
ghost use Rattle.std.specs.String.{string_bytes};
ghost use Rattle.zk_tree_changes.specs.Lines.{create, create_null, note, set, set_acl};

use zk_format::push_quoted;
use zk_path::NoMemory;

/// Appends a comment: a path, and what is left out.
#[tactic(auto, unfolding(crate::specs::Lines::note))]
pub(crate) fn push_note(text: &mut String, path: &str, what: &str) -> Result<(), NoMemory>
    ensures { OnOk result (string_bytes text.new ≡ string_bytes text.old ++ note path.now what.now) }
{
    text.push_str("# ")?;
    push_quoted(text, path)?;
    text.push_str(": ")?;
    text.push_str(what)?;
    text.push('\n')?;
    Ok(())
}

/// Appends the line that sets a node's access control list.
#[tactic(auto, unfolding(crate::specs::Lines::set_acl))]
pub(crate) fn push_set_acl(text: &mut String, path: &str, acl: &str) -> Result<(), NoMemory>
    ensures { OnOk result (string_bytes text.new ≡ string_bytes text.old ++ set_acl path.now acl.now) }
{
    text.push_str("setAcl -- ")?;
    text.push_str(path)?;
    text.push(' ')?;
    text.push_str(acl)?;
    text.push('\n')?;
    Ok(())
}

/// Appends the line that sets a node's content.
#[tactic(auto, unfolding(crate::specs::Lines::set))]
pub(crate) fn push_set(text: &mut String, path: &str, content: &str) -> Result<(), NoMemory>
    ensures { OnOk result (string_bytes text.new ≡ string_bytes text.old ++ set path.now content.now) }
{
    text.push_str("set -- ")?;
    text.push_str(path)?;
    text.push(' ')?;
    text.push_str(content)?;
    text.push('\n')?;
    Ok(())
}

/// Appends the line that creates a node.
#[tactic(auto, unfolding(crate::specs::Lines::create))]
pub(crate) fn push_create(
    text: &mut String,
    path: &str,
    content: &str,
    acl: &str,
) -> Result<(), NoMemory>
    ensures { OnOk result (string_bytes text.new ≡ string_bytes text.old ++ create path.now content.now acl.now) }
{
    text.push_str("create -- ")?;
    text.push_str(path)?;
    text.push(' ')?;
    text.push_str(content)?;
    text.push(' ')?;
    text.push_str(acl)?;
    text.push('\n')?;
    Ok(())
}

/// Appends the line that creates a node with null content.
#[tactic(auto, unfolding(crate::specs::Lines::create_null))]
pub(crate) fn push_create_null(text: &mut String, path: &str) -> Result<(), NoMemory>
    ensures { OnOk result (string_bytes text.new ≡ string_bytes text.old ++ create_null path.now) }
{
    text.push_str("create -- ")?;
    text.push_str(path)?;
    text.push('\n')?;
    Ok(())
}
