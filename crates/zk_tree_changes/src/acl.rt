//! The word of an access control list.
ghost use Rattle.std.specs.Prelude.{◌≡◌, ◌++◌, IfOk, OnOk, option_map};
ghost use Rattle.std.specs.List.{flat_map, list_all};
ghost use Rattle.std.specs.String.{string_bytes};
ghost use Rattle.zk_acl.specs.Access.{has_perm};
ghost use Rattle.zk_tree_changes.specs.Words.{acl_text, acl_word, entry_text, has, has_text, is_colon, is_comma, is_plain, letter_of, next_text, perms_text};

use crate::word::word_of;
use std::alloc::Global;
use zk_acl::{ADMIN, Acl, CREATE, DELETE, READ, WRITE};
use zk_path::NoMemory;

/// The word of an access control list; `None` if there is none.
pub(crate) fn acl_word(alloc: Global, acl: &[Acl]) -> Result<Option<String>, NoMemory>
    ensures { IfOk result (λ word. option_map string_bytes word ≡ acl_word acl.now) }
{
    if !has_text(acl) {
        return Ok(None);
    }
    let text = acl_text(alloc, acl)?;
    word_of(alloc, text.as_str())
}

/// Whether the client reads a list back.
fn has_text(acl: &[Acl]) -> bool
    ensures { result ≡ has_text acl.now }
{
    !acl.is_empty() && are_plain(acl)
}

fn are_plain(acl: &[Acl]) -> bool
    ensures { result ≡ list_all is_plain acl.now }
{
    acl.iter().all(|entry| is_plain(entry))
}

/// Whether the client reads an entry back.
fn is_plain(entry: &Acl) -> bool
    ensures { result ≡ is_plain entry.now }
{
    let scheme = entry.id.scheme.as_str();
    !has_colon(scheme)
        && !has_comma(scheme)
        && !has_comma(entry.id.id.as_str())
        && 0 <= entry.perms
        && entry.perms <= 31
}

fn is_colon(c: char) -> bool
    ensures { result ≡ is_colon c }
{
    c == ':'
}

fn is_comma(c: char) -> bool
    ensures { result ≡ is_comma c }
{
    c == ','
}

fn has_colon(text: &str) -> bool
    ensures { result ≡ has is_colon text.now }
{
    text.chars().any(is_colon)
}

fn has_comma(text: &str) -> bool
    ensures { result ≡ has is_comma text.now }
{
    text.chars().any(is_comma)
}

/// The text of a list: its entries, with commas between them.
fn acl_text(alloc: Global, acl: &[Acl]) -> Result<String, NoMemory>
    ensures { IfOk result (λ text. string_bytes text ≡ acl_text acl.now) }
{
    let mut text = String::new(alloc);
    let [first, rest @ ..] = acl else {
        return Ok(text);
    };
    push_entry(&mut text, first)?;
    push_rest(&mut text, rest)?;
    Ok(text)
}

/// Appends the entries after the first one.
fn push_rest(text: &mut String, entries: &[Acl]) -> Result<(), NoMemory>
    ensures { OnOk result (string_bytes text.new ≡ string_bytes text.old ++ flat_map next_text entries.now) }
{
    for entry in entries {
        push_next(text, entry)?;
    }
    Ok(())
}

/// Appends a comma and an entry.
fn push_next(text: &mut String, entry: &Acl) -> Result<(), NoMemory>
    ensures { OnOk result (string_bytes text.new ≡ string_bytes text.old ++ next_text entry.now) }
{
    text.push(',')?;
    push_entry(text, entry)
}

/// Appends an entry.
fn push_entry(text: &mut String, entry: &Acl) -> Result<(), NoMemory>
    ensures { OnOk result (string_bytes text.new ≡ string_bytes text.old ++ entry_text entry.now) }
{
    text.push_str(entry.id.scheme.as_str())?;
    text.push(':')?;
    text.push_str(entry.id.id.as_str())?;
    text.push(':')?;
    push_perms(text, entry)
}

/// Appends the letters of an entry's permissions.
fn push_perms(text: &mut String, entry: &Acl) -> Result<(), NoMemory>
    ensures { OnOk result (string_bytes text.new ≡ string_bytes text.old ++ perms_text entry.now) }
{
    push_letter(text, has_perm(entry, CREATE), "c")?;
    push_letter(text, has_perm(entry, DELETE), "d")?;
    push_letter(text, has_perm(entry, READ), "r")?;
    push_letter(text, has_perm(entry, WRITE), "w")?;
    push_letter(text, has_perm(entry, ADMIN), "a")
}

fn push_letter(text: &mut String, is_there: bool, letter: &str) -> Result<(), NoMemory>
    ensures { OnOk result (string_bytes text.new ≡ string_bytes text.old ++ letter_of is_there letter.now) }
{
    if is_there {
        text.push_str(letter)?;
    }
    Ok(())
}

fn has_perm(entry: &Acl, perm: u32) -> bool
    ensures { result ≡ has_perm perm entry.now }
{
    entry.perms.cast_unsigned() & perm != 0
}
