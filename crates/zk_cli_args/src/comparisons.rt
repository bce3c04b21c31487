//! Three or more data directories, each of which is compared with the first.
ghost use Rattle.std.specs.Prelude.{◌≡◌, Some, IfOk, is_some, map, option_map};
ghost use Rattle.std.specs.List.{list_any};
ghost use Rattle.zk_cli_args.specs.Comparisons.{compared_of, comparisons_of, each_after, each_by, each_of, formed_each, has_beyond, parted_all, placed, shown_option_words, shown_parted, value_at, words_of_comparisons, words_of_folder};

use crate::command::values_of;
use crate::form::{Form, form_of};
use crate::parting::part_option;
use std::alloc::Global;
use zk_path::NoMemory;

/// One of several data directories.
#[derive(Clone, Copy, Debug)]
pub struct ComparedFolder<'a> {
    /// The data directory, or its `version-2`.
    pub folder: &'a str,
    /// The directory of its logs, if it is another.
    pub logs: Option<&'a str>,
}

/// Three or more data directories, each of which is compared with the first.
#[derive(Debug, Drop)]
pub struct Comparisons<'a> {
    pub form: Form,
    pub folders: Vec<ComparedFolder<'a>>,
}

/// The values of options, and the other words.
#[derive(Debug, Drop)]
struct PartedLogs<'a> {
    values: Vec<Option<&'a str>>,
    others: Vec<&'a str>,
}

/// The options that name the directories of logs, in the order of the data directories.
const LOGS: [(&str, &str); 9] = [
    ("--logs", "--logs="),
    ("--logs2", "--logs2="),
    ("--logs3", "--logs3="),
    ("--logs4", "--logs4="),
    ("--logs5", "--logs5="),
    ("--logs6", "--logs6="),
    ("--logs7", "--logs7="),
    ("--logs8", "--logs8="),
    ("--logs9", "--logs9="),
];

/// The comparisons of three or more directories that the words of a command line name.
///
/// Those of two are a [`CompareJob`](crate::CompareJob).
pub fn read_comparisons<'a>(
    alloc: Global,
    words: &[&'a str],
) -> Result<Option<Comparisons<'a>>, NoMemory>
    ensures { IfOk result (λ read. option_map words_of_comparisons read ≡ comparisons_of (map (λ word. word.now) words.now)) }
{
    let asked = form_of(alloc, words)?;
    let folders = each_of(alloc, asked.others.as_slice())?;
    Ok(formed(asked.form, folders))
}

/// Directories in a form that a comparison has.
fn formed<'a>(form: Form, folders: Option<Vec<ComparedFolder<'a>>>) -> Option<Comparisons<'a>>
    ensures { option_map words_of_comparisons result ≡ formed_each form (compared_of folders.entry) }
{
    let folders = folders?;
    match form {
        Form::Lines | Form::Json => Some(Comparisons { form, folders }),
        Form::Times => None,
    }
}

/// The directories that words without an option of a form name.
fn each_of<'a>(
    alloc: Global,
    words: &[&'a str],
) -> Result<Option<Vec<ComparedFolder<'a>>>, NoMemory>
    ensures { IfOk result (λ read. compared_of read ≡ each_of (map (λ word. word.now) words.now)) }
{
    let [_, name, rest @ ..] = words else {
        return Ok(None);
    };
    if *name != "compare" {
        return Ok(None);
    }
    each_after(alloc, rest)
}

/// The directories that the words after the command's name name.
fn each_after<'a>(
    alloc: Global,
    words: &[&'a str],
) -> Result<Option<Vec<ComparedFolder<'a>>>, NoMemory>
    ensures { IfOk result (λ read. compared_of read ≡ each_after (map (λ word. word.now) words.now)) }
{
    let parted = part_all(alloc, &LOGS, words)?;
    let Some(values) = values_of(alloc, parted.others.as_slice())? else {
        return Ok(None);
    };
    each_by(alloc, parted.values.as_slice(), values.as_slice())
}

/// The directories of these values, with these options.
fn each_by<'a>(
    alloc: Global,
    logs: &[Option<&'a str>],
    values: &[&'a str],
) -> Result<Option<Vec<ComparedFolder<'a>>>, NoMemory>
    ensures { IfOk result (λ read. compared_of read ≡ each_by (map (option_map (λ word. word.now)) logs.now) (Some (map (λ value. value.now) values.now))) }
{
    if values.len() < 3 || has_beyond(logs, values.len()) {
        return Ok(None);
    }
    Ok(Some(placed(alloc, logs, values)?))
}

/// Whether an option names the logs of a directory that is not there.
#[tactic(auto, using(crate::proofs::ComparisonsLaws::none_beyond))]
fn has_beyond(logs: &[Option<&str>], count: usize) -> bool
    ensures { result ≡ has_beyond count (map (option_map (λ word. word.now)) logs.now) }
{
    if logs.len() <= count {
        return false;
    }
    has_any(&logs[count..])
}

/// Whether one of these options is there.
fn has_any(values: &[Option<&str>]) -> bool
    ensures { result ≡ list_any is_some (map (option_map (λ word. word.now)) values.now) }
{
    for value in values {
        if value.is_some() {
            return true;
        }
    }
    false
}

/// Each directory with that of its logs.
fn placed<'a>(
    alloc: Global,
    logs: &[Option<&'a str>],
    values: &[&'a str],
) -> Result<Vec<ComparedFolder<'a>>, NoMemory>
    ensures { IfOk result (λ folders. map words_of_folder folders.items ≡ placed 0 (map (λ value. value.now) values.now) (map (option_map (λ word. word.now)) logs.now)) }
{
    let mut folders = Vec::new(alloc);
    for place in 0..values.len() {
        folders.push(ComparedFolder {
            folder: values[place],
            logs: value_at(logs, place),
        })?;
    }
    Ok(folders)
}

/// The value of an option, if there is such an option.
fn value_at<'a>(logs: &[Option<&'a str>], place: usize) -> Option<&'a str>
    ensures { option_map (λ word. word.now) result ≡ value_at place (map (option_map (λ word. word.now)) logs.now) }
{
    match logs.get(place) {
        Some(value) => *value,
        None => None,
    }
}

/// The value of each option, if it is there, and the other words.
fn part_all<'a>(
    alloc: Global,
    options: &[(&str, &str)],
    words: &[&'a str],
) -> Result<PartedLogs<'a>, NoMemory>
    ensures { IfOk result (λ parted. shown_parted parted ≡ parted_all (map shown_option_words options.now) (map (λ word. word.now) words.now)) }
{
    let mut values = Vec::new(alloc);
    let mut others = Vec::from_slice(alloc, words)?;
    for (name, prefix) in options {
        let found = part_option(alloc, name, prefix, others.as_slice())?;
        values.push(found.value)?;
        others = found.others;
    }
    Ok(PartedLogs { values, others })
}
