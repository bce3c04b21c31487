//! The command line as `clap` reads it.

use crate::helps::{
    ASKING, EXPLAIN, FlagHelp, HOLDING, LIVES, OptionHelp, OrderHelp, READING, RUNNING, ValueHelp,
};
use crate::notes::FAULTS;
use clap::{Arg, ArgAction, Command};
use std::alloc::{AllocError, Global};

pub(crate) fn command<'a>(alloc: Global) -> Result<Command<'a>, AllocError> {
    let reading = with_reading(alloc, program(alloc)?)?;
    let asking = with_asking(alloc, reading)?;
    let living = with_lives(alloc, asking)?;
    let holding = with_holding(alloc, living)?;
    with_running(alloc, holding)
}

/// Adds the commands that read data directories and logs.
fn with_reading<'a>(alloc: Global, command: Command<'a>) -> Result<Command<'a>, AllocError> {
    with_orders(alloc, command, &READING)
}

/// Adds the commands that say what happened in a data directory.
fn with_asking<'a>(alloc: Global, command: Command<'a>) -> Result<Command<'a>, AllocError> {
    with_orders(alloc, command, &ASKING)
}

/// Adds the commands that say what sessions did in a data directory.
fn with_lives<'a>(alloc: Global, command: Command<'a>) -> Result<Command<'a>, AllocError> {
    with_orders(alloc, command, &LIVES)
}

/// Adds the commands that compare data directories, or write what one holds.
fn with_holding<'a>(alloc: Global, command: Command<'a>) -> Result<Command<'a>, AllocError> {
    with_orders(alloc, command, &HOLDING)
}

/// Adds the commands that run servers.
fn with_running<'a>(alloc: Global, command: Command<'a>) -> Result<Command<'a>, AllocError> {
    with_orders(alloc, command, &RUNNING)
}

/// Adds commands.
fn with_orders<'a>(
    alloc: Global,
    mut command: Command<'a>,
    orders: &[OrderHelp],
) -> Result<Command<'a>, AllocError> {
    for order in orders {
        command = with_order(command, order_command(alloc, order))?;
    }
    Ok(command)
}

/// The version, and the commit: 40 zeros, which a release replaces (`release/build.py`), as a text
/// cannot name its own commit.
const VERSION: &str = "0.1.0, commit 0000000000000000000000000000000000000000";

/// The program without its commands.
fn program<'a>(alloc: Global) -> Result<Command<'a>, AllocError> {
    Ok(
        Command::new(alloc, "zk")
            .bin_name("zk")?
            .version(VERSION)
            .about(
                "Reads data directories and logs of ZooKeeper, and runs ensembles of its servers",
            )
            .after_help(FAULTS)
            .subcommand_required(true),
    )
}

/// Adds a command.
fn with_order<'a>(
    command: Command<'a>,
    order: Result<Command<'a>, AllocError>,
) -> Result<Command<'a>, AllocError> {
    command.subcommand(order?)
}

pub(crate) fn order_command<'a>(
    alloc: Global,
    order: &OrderHelp,
) -> Result<Command<'a>, AllocError> {
    let command = Command::new(alloc, order.name)
        .about(order.about)
        .after_help(order.notes);
    let command = with_flags(alloc, command, order.flags)?;
    let command = with_options(alloc, command, order.options)?;
    let command = with_flags(alloc, command, &[EXPLAIN])?;
    with_values(alloc, command, order.values)
}

/// Adds positional values.
fn with_values<'a>(
    alloc: Global,
    mut command: Command<'a>,
    values: &[ValueHelp],
) -> Result<Command<'a>, AllocError> {
    for value in values {
        command = command.arg(value_arg(alloc, value))?;
    }
    Ok(command)
}

fn value_arg<'a>(alloc: Global, value: &ValueHelp) -> Arg<'a> {
    named_arg(alloc, value.name)
        .required(value.required)
        .help(value.help)
}

/// A value of this name, or before `..` any number of values.
fn named_arg<'a>(alloc: Global, name: &'static str) -> Arg<'a> {
    match name.strip_suffix("..") {
        Some(name) => Arg::new(alloc, name)
            .action(ArgAction::Append)
            .num_args(1..),
        None => Arg::new(alloc, name),
    }
}

/// Adds options that take no value.
fn with_flags<'a>(
    alloc: Global,
    mut command: Command<'a>,
    flags: &[FlagHelp],
) -> Result<Command<'a>, AllocError> {
    for flag in flags {
        command = command.arg(flag_arg(alloc, flag)?)?;
    }
    Ok(command)
}

fn flag_arg<'a>(alloc: Global, flag: &FlagHelp) -> Result<Arg<'a>, AllocError> {
    let arg = option_arg(alloc, flag.name, flag.help).action(ArgAction::SetTrue);
    if flag.without.is_empty() {
        return Ok(arg);
    }
    arg.conflicts_with(flag.without)
}

/// An option of a name, or of one letter.
fn option_arg<'a>(alloc: Global, name: &'static str, help: &'static str) -> Arg<'a> {
    let arg = Arg::new(alloc, name).help(help);
    match letter_of(name) {
        Some(letter) => arg.short(letter),
        None => arg.long(name),
    }
}

/// The only letter of a name.
fn letter_of(name: &str) -> Option<char> {
    match name.as_bytes() {
        [letter] => Some(char::from(*letter)),
        _ => None,
    }
}

/// Adds options that take a value.
fn with_options<'a>(
    alloc: Global,
    mut command: Command<'a>,
    options: &[OptionHelp],
) -> Result<Command<'a>, AllocError> {
    for option in options {
        command = command.arg(value_option_arg(alloc, option))?;
    }
    Ok(command)
}

fn value_option_arg<'a>(alloc: Global, option: &OptionHelp) -> Arg<'a> {
    option_arg(alloc, option.name, option.help).value_name(option.value)
}
