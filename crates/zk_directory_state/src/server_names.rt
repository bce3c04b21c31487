//! The snapshots and logs that a server reads in a directory.
ghost use Rattle.std.specs.Prelude.{◌≡◌, find, IfOk, OnOk};
ghost use Rattle.std.specs.List.{list_any};
ghost use Rattle.std.specs.Option.{option_copied};
ghost use Rattle.std.specs.String.{string_bytes};
ghost use Rattle.zk_directory.specs.Names.{server_file_of};
ghost use Rattle.zk_directory_state.specs.ServerFiles.{is_named, is_read, is_same, is_some, name_among, server_files, with_file};

use std::alloc::Global;
use zk_directory::{FileName, read_file_name, read_server_name};
use zk_path::NoMemory;

/// The snapshots and logs that a server reads in a directory with files of these names, each once.
pub fn server_files(alloc: Global, names: &[String]) -> Result<Vec<FileName>, NoMemory>
    ensures { IfOk result (λ files. files.items ≡ server_files names.now) }
{
    let mut files = Vec::new(alloc);
    for name in names {
        push_read(&mut files, name)?;
    }
    Ok(files)
}

/// Appends the file that a server reads by this name, unless it is there.
fn push_read(files: &mut Vec<FileName>, name: &String) -> Result<(), NoMemory>
    ensures { OnOk result (files.new.items ≡ with_file files.old.items (server_file_of (string_bytes name.now))) }
{
    push_file(files, read_server_name(name.as_str()))
}

/// Appends a file, unless it is there.
fn push_file(files: &mut Vec<FileName>, file: Option<FileName>) -> Result<(), NoMemory>
    ensures { OnOk result (files.new.items ≡ with_file files.old.items file) }
{
    let Some(file) = file else {
        return Ok(());
    };
    if holds(files.as_slice(), file) {
        return Ok(());
    }
    files.push(file)?;
    Ok(())
}

fn holds(files: &[FileName], file: FileName) -> bool
    ensures { result ≡ list_any (is_same file) files.now }
{
    files.iter().any(|other| is_same(file, *other))
}

fn is_same(file: FileName, other: FileName) -> bool
    ensures { result ≡ is_same file other }
{
    match (file, other) {
        (FileName::Snapshot { zxid }, FileName::Snapshot { zxid: other }) => zxid == other,
        (FileName::Log { zxid }, FileName::Log { zxid: other }) => zxid == other,
        _ => false,
    }
}

fn is_some(file: FileName, other: Option<FileName>) -> bool
    ensures { result ≡ is_some file other }
{
    match other {
        Some(other) => is_same(file, other),
        None => false,
    }
}

/// The name of a file among these: the one that a server writes, if it is there, or else the first
/// that it reads.
pub fn name_among(file: FileName, names: &[String]) -> Option<&String>
    ensures { option_copied result ≡ name_among file names.now }
{
    match name_in(file, names) {
        Some(name) => Some(name),
        None => name_read(file, names),
    }
}

fn name_in(file: FileName, names: &[String]) -> Option<&String>
    ensures { option_copied result ≡ find (is_named file) names.now }
{
    names
        .iter()
        .find(|name| is_some(file, read_file_name(name.as_str())))
}

fn name_read(file: FileName, names: &[String]) -> Option<&String>
    ensures { option_copied result ≡ find (is_read file) names.now }
{
    names
        .iter()
        .find(|name| is_some(file, read_server_name(name.as_str())))
}
