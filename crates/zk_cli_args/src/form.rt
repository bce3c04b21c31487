//! The form in which a command writes what it reads.
ghost use Rattle.std.specs.Prelude.{◌≡◌, ◌≤◌, ◌++◌, IfOk, length, map, option_map};
ghost use Rattle.std.specs.List.{position_or_len};
ghost use Rattle.zk_cli_args.specs.Forms.{asked_at, form_of, is_mark, shown_form, shown_found, times_by};

use std::alloc::Global;
use zk_path::NoMemory;

/// The form of what a command writes.
#[derive(Clone, Copy, Debug, PartialEq, Eq)]
pub enum Form {
    /// The command's own lines.
    Lines,
    /// A JSON object for each line: `--json`.
    Json,
    /// The command's own lines with the times of a clock in UTC: `--time iso`.
    Times,
}

/// The form that words ask for, and the other words.
#[derive(Debug, Drop)]
pub(crate) struct AskedForm<'a> {
    pub form: Form,
    pub others: Vec<&'a str>,
}

/// The form that the words of a command line ask for. The first of `--json`, `--time` and `--`
/// decides; a `--time` without `iso` stays among the other words.
pub(crate) fn form_of<'a>(alloc: Global, words: &[&'a str]) -> Result<AskedForm<'a>, NoMemory>
    ensures { IfOk result (λ asked. shown_form asked ≡ form_of (map (λ word. word.now) words.now)) }
{
    let mark = mark_in(words);
    let mut others = Vec::from_slice(alloc, &words[..mark])?;
    match asked_at(&words[mark..]) {
        Some((form, rest)) => {
            others.extend_from_slice(rest)?;
            Ok(AskedForm { form, others })
        }
        None => {
            others.extend_from_slice(&words[mark..])?;
            Ok(AskedForm {
                form: Form::Lines,
                others,
            })
        }
    }
}

/// The position of the word that decides, or the number of words.
fn mark_in(words: &[&str]) -> usize
    ensures mark { result ≡ position_or_len is_mark (map (λ word. word.now) words.now) }
    ensures within { result ≤ length words.now }
{
    for at in 0..words.len() {
        if is_mark(words[at]) {
            return at;
        }
    }
    words.len()
}

fn is_mark(word: &str) -> bool
    ensures { result ≡ is_mark word.now }
{
    word == "--json" || word == "--time" || word == "--time=iso" || word == "--"
}

/// The form that words ask for at their beginning, and the words after these.
fn asked_at<'w, 'a>(words: &'w [&'a str]) -> Option<(Form, &'w [&'a str])>
    ensures { option_map shown_found result ≡ asked_at (map (λ word. word.now) words.now) }
{
    let [word, rest @ ..] = words else {
        return None;
    };
    if *word == "--json" {
        return Some((Form::Json, rest));
    }
    if *word == "--time=iso" {
        return Some((Form::Times, rest));
    }
    if *word == "--time" {
        return times_by(rest);
    }
    None
}

/// The form by the words after `--time`.
fn times_by<'w, 'a>(words: &'w [&'a str]) -> Option<(Form, &'w [&'a str])>
    ensures { option_map shown_found result ≡ times_by (map (λ word. word.now) words.now) }
{
    let [word, rest @ ..] = words else {
        return None;
    };
    if *word == "iso" {
        return Some((Form::Times, rest));
    }
    None
}
