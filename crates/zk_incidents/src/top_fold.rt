//! Who writes most.
ghost use Rattle.std.specs.Prelude.{◌≡◌, ◌++◌, [], IfOk, OnOk, map};
ghost use Rattle.std.specs.List.{flat_map};
ghost use Rattle.std.specs.String.{string_bytes};
ghost use Rattle.zk_incidents.specs.Counts.{counted_all, ranked_all};
ghost use Rattle.zk_incidents.specs.Tops.{Counts as Follows, first_rows, key_text, keys_of, row_text, rows_text};
ghost use Rattle.zk_format.specs.Spelling.{id_digits};

use crate::counts::Counts;
use crate::ranks::Ranks;
use crate::writes::written;
use std::alloc::Global;
use zk_directory_state::Range;
use zk_format::{push_id, push_quoted};
use zk_newer_records::{NewerRecord, RecordFold};
use zk_path::NoMemory;

/// What the writes are counted by.
#[derive(Clone, Copy, Debug, PartialEq, Eq)]
pub enum Key {
    /// The path of the node that is created, changed or deleted.
    Path,
    /// The session that writes.
    Session,
}

/// The writes so far: creates, deletes, and changes of content or access rights, alone or as parts
/// of a multi.
#[derive(Drop)]
pub struct Top {
    alloc: Global,
    range: Range,
    key: Key,
    counts: Counts,
}

impl Top {
    /// No record yet.
    pub fn new(alloc: Global, range: Range, key: Key) -> Top
        ensures range { result.range ≡ range }
        ensures key { result.key ≡ key }
        ensures counts { result.counts ≡ [] }
    {
        Top {
            alloc,
            range,
            key,
            counts: Counts::new(alloc),
        }
    }

    /// A line for each path or session, the one with most writes first; at most `number` lines.
    pub fn text(&self, number: Option<usize>) -> Result<String, NoMemory>
        ensures { IfOk result (λ text. string_bytes text ≡ rows_text self.now.key number self.now.counts) }
    {
        let ranks = self.ranks()?;
        let rows = ranks.rows()?;
        rows_text(self.alloc, self.key, first_rows(rows.as_slice(), number))
    }

    /// The paths or sessions with their writes, in order.
    pub fn ranks(&self) -> Result<Ranks, NoMemory>
        ensures { IfOk result (λ ranks. ranks ≡ ranked_all [] self.now.counts) }
    {
        self.counts.ranks()
    }
}

/// The first `number` rows, or all.
pub fn first_rows<'r, 'a>(rows: &'r [(&'a str, u64)], number: Option<usize>) -> &'r [(&'a str, u64)]
    ensures { map (λ row. (row.0.now, row.1)) result.now ≡ first_rows number (map (λ row. (row.0.now, row.1)) rows.now) }
{
    match number {
        None => rows,
        Some(number) => if number < rows.len() {
            &rows[..number]
        } else {
            rows
        },
    }
}

/// The lines of rows.
fn rows_text(alloc: Global, key: Key, rows: &[(&str, u64)]) -> Result<String, NoMemory>
    ensures { IfOk result (λ text. string_bytes text ≡ flat_map (row_text key) (map (λ row. (row.0.now, row.1)) rows.now)) }
{
    let mut text = String::new(alloc);
    for (shown, count) in rows {
        push_row(&mut text, key, shown, *count)?;
    }
    Ok(text)
}

/// Appends the line of a path or session.
fn push_row(text: &mut String, key: Key, shown: &str, count: u64) -> Result<(), NoMemory>
    ensures { OnOk result (string_bytes text.new ≡ string_bytes text.old ++ row_text key (shown.now, count)) }
{
    write!(text, "{count} ")?;
    push_key(text, key, shown)?;
    text.push('\n')?;
    Ok(())
}

fn push_key(text: &mut String, key: Key, shown: &str) -> Result<(), NoMemory>
    ensures { OnOk result (string_bytes text.new ≡ string_bytes text.old ++ key_text key shown.now) }
{
    match key {
        Key::Path => push_quoted(text, shown),
        Key::Session => {
            text.push_str(shown)?;
            Ok(())
        }
    }
}

/// As many copies of a session's digits as it has writes.
fn repeated<'a>(alloc: Global, digits: &'a str, paths: &[&str]) -> Result<Vec<&'a str>, NoMemory>
    ensures { IfOk result (λ keys. map (λ key. key.now) keys.items ≡ map (λ path. digits.now) (map (λ path. path.now) paths.now)) }
{
    let mut keys = Vec::new(alloc);
    for _path in paths {
        keys.push(digits)?;
    }
    Ok(keys)
}

/// Counts the writes of a session.
fn count_session(
    alloc: Global,
    counts: &mut Counts,
    session: i64,
    paths: &[&str],
) -> Result<(), NoMemory>
    ensures { OnOk result (counts.new ≡ counted_all counts.old (map (λ path. id_digits session) (map (λ path. path.now) paths.now))) }
{
    let mut digits = String::new(alloc);
    push_id(&mut digits, session)?;
    let keys = repeated(alloc, digits.as_str(), paths)?;
    counts.add_all(keys.as_slice())
}

/// Counts the writes of a record.
fn count_record(
    alloc: Global,
    counts: &mut Counts,
    key: Key,
    newer: &NewerRecord,
) -> Result<(), NoMemory>
    ensures { OnOk result (counts.new ≡ counted_all counts.old (keys_of key newer.now)) }
{
    let paths = written(alloc, &newer.txn.op)?;
    match key {
        Key::Path => counts.add_all(paths.as_slice()),
        Key::Session => count_session(alloc, counts, newer.txn.session, paths.as_slice()),
    }
}

impl RecordFold for Top {
    ghost follows = { Follows };

    fn take(&mut self, newer: &NewerRecord) -> Result<(), NoMemory> {
        if self.range.contains(&newer.txn) {
            count_record(self.alloc, &mut self.counts, self.key, newer)?;
        }
        Ok(())
    }
}
