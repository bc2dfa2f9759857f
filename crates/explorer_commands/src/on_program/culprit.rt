//! Which name on a line isn't declared further up, and as what it had to be.

use crate::on_program::expected::{expected, first_word};
use std::{fmt, str};

/// What a name stands for.
#[derive(Clone, Copy)]
enum Wanted {
    Word,
    Counter,
    WordOrCounter,
    List,
    Section,
    Register,
    Program,
    /// A number's.
    Constant,
    /// A constant or a register.
    Operand,
}

/// A name that isn't declared as what it must be.
#[derive(Clone, Copy)]
pub(crate) struct Culprit<'t> {
    name: &'t str,
    wanted: Wanted,
}

impl fmt::Display for Wanted {
    fn fmt<W: fmt::Write>(&self, f: &mut fmt::Formatter<W>) -> fmt::Result {
        f.write_str(match self {
            Wanted::Word => "word",
            Wanted::Counter => "counter",
            Wanted::WordOrCounter => "word or counter",
            Wanted::List => "list",
            Wanted::Section => "section",
            Wanted::Register => "register",
            Wanted::Program => "program",
            Wanted::Constant => "constant",
            Wanted::Operand => "constant or register",
        })
    }
}

impl fmt::Display for Culprit<'_> {
    fn fmt<W: fmt::Write>(&self, f: &mut fmt::Formatter<W>) -> fmt::Result {
        let Culprit { name, wanted } = self;
        match wanted {
            Wanted::Program => write!(f, "{name} is no program whose lines end further up"),
            _ => write!(f, "{name} is no {wanted} that is declared further up"),
        }
    }
}

impl Wanted {
    /// What a word of a form stands for, in lines with this first word; letters of other words are no names.
    fn of(first: &str, letter: &str) -> Option<Wanted> {
        Some(match (first, letter) {
            ("finally", "C") => Wanted::WordOrCounter,
            ("do" | "seats", "N") => Wanted::Program,
            (_, "W") => Wanted::Word,
            (_, "C") => Wanted::Counter,
            (_, "L") => Wanted::List,
            (_, "S" | "T") => Wanted::Section,
            (_, "r") => Wanted::Register,
            (_, "V") => Wanted::Constant,
            (_, "e" | "f") => Wanted::Operand,
            _ => return None,
        })
    }

    /// Whether lines with this first word declare such names.
    fn is_declared_by(self, first: &str) -> bool {
        match self {
            Wanted::Word => first == "word",
            Wanted::Counter => first == "counter",
            Wanted::WordOrCounter => first == "word" || first == "counter",
            Wanted::List => first == "list",
            Wanted::Section => first == "section",
            Wanted::Register => first == "register",
            Wanted::Program => first == "program",
            Wanted::Constant => first == "const",
            Wanted::Operand => first == "const" || first == "register",
        }
    }
}

/// What stands before a comment.
pub(crate) fn said(line: &str) -> &str {
    match line.split_once('#') {
        Some((said, _)) => said,
        None => line,
    }
}

/// A name without its index, and the index.
fn parted(word: &str) -> (&str, Option<&str>) {
    match word.split_once('[') {
        Some((name, index)) => (name, index.strip_suffix(']')),
        None => (word, None),
    }
}

/// Whether the word is no name: a number, or the seat's own.
fn is_no_name(word: &str) -> bool {
    word == "me" || word.starts_with(|c: char| c == '-' || c.is_ascii_digit())
}

/// Whether a line declares the name as what is wanted.
fn declares(line: &str, name: &str, wanted: Wanted) -> bool {
    let mut words = said(line).split_whitespace();
    let Some(first) = words.next() else {
        return false;
    };
    wanted.is_declared_by(first) && words.any(|word| parted(word).0 == name)
}

/// Whether one of the first lines of a text declares the name as what is wanted.
fn is_declared(text: &str, lines: usize, name: &str, wanted: Wanted) -> bool {
    text.lines()
        .take(lines)
        .any(|line| declares(line, name, wanted))
}

/// How many lines stand above the program that the last of the first lines of a text is in.
fn above_program(text: &str, lines: usize) -> usize {
    let mut above = lines;
    for (number, line) in text.lines().take(lines).enumerate() {
        if first_word(line) == "program" {
            above = number;
        }
    }
    above
}

impl<'t> Culprit<'t> {
    /// The name, where it isn't declared in the first lines of a text as what is wanted.
    fn of(text: &str, lines: usize, name: &'t str, wanted: Wanted) -> Option<Culprit<'t>> {
        if is_no_name(name) || is_declared(text, lines, name, wanted) {
            None
        } else {
            Some(Culprit { name, wanted })
        }
    }

    /// The name of a word of a line or of its index, where that isn't declared so.
    fn of_word(text: &str, lines: usize, word: &'t str, wanted: Wanted) -> Option<Culprit<'t>> {
        let (name, index) = parted(word);
        let found = Culprit::of(text, lines, name, wanted);
        match (found, index) {
            (None, Some(index)) => Culprit::of(text, lines, index, Wanted::Operand),
            _ => found,
        }
    }

    /// The first name on the line of this number, which is spelled as its form, that isn't declared above it as
    /// what it must be.
    pub(crate) fn on_line(text: &'t [u8], number: usize) -> Option<Culprit<'t>> {
        let text = str::from_utf8(text).ok()?;
        let above = number.checked_sub(1)?;
        let line = said(text.lines().nth(above)?);
        let form = last_form(expected(line)?);
        let first = form.split_whitespace().next()?;
        // a program doesn't do itself
        let above = match first {
            "do" => above_program(text, above),
            _ => above,
        };
        for (word, letter) in line.split_whitespace().zip(form.split_whitespace()) {
            if let Some(wanted) = Wanted::of(first, letter) {
                let found = Culprit::of_word(text, above, word, wanted);
                if found.is_some() {
                    return found;
                }
            }
        }
        None
    }
}

/// Of the forms of a line that with the most words, which is the last.
fn last_form(spelled: &'static str) -> &'static str {
    match spelled.rsplit_once(", ") {
        Some((_, last)) => last,
        None => spelled,
    }
}
