//! The words of one line of a text.

use program_text::first_line;
use std::alloc::{AllocError, Global};

/// The line of this number, from 1 on.
fn line_at(text: &[u8], number: usize) -> &[u8] {
    let mut rest = text;
    let mut line: &[u8] = &[];
    for _ in 0..number {
        if rest.is_empty() {
            return &[];
        }
        let (bytes, after, _) = first_line(rest);
        line = bytes;
        rest = after;
    }
    line
}

/// The words of the line of this number, one space apart, without its comment.
pub(crate) fn words_of_line(
    alloc: Global,
    text: &[u8],
    number: usize,
) -> Result<String, AllocError> {
    let mut words = String::new(alloc);
    let mut is_behind_space = false;
    for byte in line_at(text, number) {
        match *byte {
            b'#' => return Ok(words),
            b' ' => is_behind_space = true,
            letter => {
                if is_behind_space && !words.is_empty() {
                    words.push(' ')?;
                }
                is_behind_space = false;
                words.push(char::from(letter))?;
            }
        }
    }
    Ok(words)
}

/// Writes the words of a line that is about an array, with this for the index of its member.
fn spell_indexed(text: &mut String, words: &str, index: i64) -> Result<(), AllocError> {
    match words.split_once("[") {
        Some((name, behind)) => {
            write!(text, "{name}[{index}]")?;
            match behind.split_once("]") {
                Some((_, rest)) => text.push_str(rest),
                None => Ok(()),
            }
        }
        None => text.push_str(words),
    }
}

/// Writes the words of a line, with the number of the member where it is about an array's.
pub(crate) fn spell_words(
    text: &mut String,
    words: &str,
    index: Option<i64>,
) -> Result<(), AllocError> {
    match index {
        Some(index) => spell_indexed(text, words, index),
        None => text.push_str(words),
    }
}
