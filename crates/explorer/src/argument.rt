//! The arguments of commands, as rows of a table, and as clap takes them.

use clap::{Arg, ArgAction, value_parser};
use std::alloc::{AllocError, Global};

/// The names of the changes of the step table.
static VARIANT_NAMES: [&str; 3] = ["no-look", "late-count", "plain-less"];

/// The kinds of texts whose form is told.
static KIND_NAMES: [&str; 2] = ["scenario", "lock"];

/// What an argument takes.
#[derive(Clone, Copy)]
pub(crate) enum Takes {
    /// Nothing: it is asked for by its name alone.
    Nothing,
    /// A number from one to another.
    Number(Numbers),
    /// Which change of the step table is made.
    Variant,
    /// The kind of text whose form is told.
    Kind,
    /// The schedule that is told; it may be left out where an argument of that name is given.
    Schedule { other: &'static str },
    /// A file; where an argument of that name is given too, it is a mistake.
    File { other: Option<&'static str> },
}

/// The numbers that an argument takes.
#[derive(Clone, Copy)]
pub(crate) struct Numbers {
    pub(crate) letter: &'static str,
    pub(crate) least: i64,
    pub(crate) most: i64,
    pub(crate) required: bool,
    pub(crate) action: ArgAction,
}

/// An argument, by its name and what the help says of it.
#[derive(Clone, Copy)]
pub(crate) struct Argument {
    pub(crate) name: &'static str,
    /// Words give its name; it is no file that a command reads.
    pub(crate) is_named: bool,
    pub(crate) takes: Takes,
    pub(crate) help: &'static str,
}

/// A command, by its name and what the help says of it, with its arguments in their order.
pub(crate) struct Row {
    pub(crate) name: &'static str,
    pub(crate) about: &'static str,
    pub(crate) arguments: &'static [Argument],
    /// What stands below its help.
    pub(crate) below: Option<&'static str>,
}

/// A number from one to another.
fn number<'a>(named: Arg<'a>, numbers: Numbers) -> Arg<'a> {
    named
        .value_name(numbers.letter)
        .value_parser(value_parser!(u32).range(numbers.least..=numbers.most))
        .required(numbers.required)
        .action(numbers.action)
}

/// One of these names, which the help of the argument tells.
fn one_of<'a>(named: Arg<'a>, letter: &'static str, names: &'a [&'static str]) -> Arg<'a> {
    named
        .value_name(letter)
        .value_parser(names)
        .hide_possible_values(true)
}

/// The schedule that is told.
fn schedule<'a>(named: Arg<'a>, other: &'static str) -> Result<Arg<'a>, AllocError> {
    named
        .value_name("S")
        .allow_hyphen_values(true)
        .required_unless_present(other)
}

/// A file.
fn file<'a>(named: Arg<'a>, other: Option<&'static str>) -> Result<Arg<'a>, AllocError> {
    let file = named.value_name("FILE");
    match other {
        Some(other) => file.conflicts_with(other),
        None => Ok(file),
    }
}

/// An argument with what it takes.
fn taking<'a>(named: Arg<'a>, takes: Takes) -> Result<Arg<'a>, AllocError> {
    match takes {
        Takes::Nothing => Ok(named.action(ArgAction::SetTrue)),
        Takes::Number(numbers) => Ok(number(named, numbers)),
        Takes::Variant => Ok(one_of(named, "V", VARIANT_NAMES.as_slice())),
        Takes::Kind => Ok(one_of(named, "KIND", KIND_NAMES.as_slice())),
        Takes::Schedule { other } => schedule(named, other),
        Takes::File { other } => file(named, other),
    }
}

/// An argument as clap takes it: all have a name that words give, but the file that a command reads.
pub(crate) fn made_argument<'a>(alloc: Global, row: &Argument) -> Result<Arg<'a>, AllocError> {
    let plain = Arg::new(alloc, row.name).help(row.help);
    let named = if row.is_named {
        plain.long(row.name)
    } else {
        plain
    };
    taking(named, row.takes)
}
