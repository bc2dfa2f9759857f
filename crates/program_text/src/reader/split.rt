//! The words of a line.

ghost use Rattle.std.specs.Prelude.{◌≡◌, [], ◌∷◌, ◌++◌, IfOk, OnOk};
ghost use Rattle.program_text.specs.Words.{without_comment, words_of, not_empty, texts};

use std::alloc::{AllocError, Global};

/// What stands before the first `#`.
pub(crate) fn before_comment(line: &str) -> &str
    ensures { result.now ≡ without_comment line.now }
{
    match line.split_once('#') {
        Some((before, _)) => before,
        None => line,
    }
}

/// Puts the part behind the words, unless it is empty.
fn push_part<'t>(words: &mut Vec<&'t str>, part: &'t str) -> Result<(), AllocError>
    ensures { OnOk result (texts words.new.items ≡ texts words.old.items ++ not_empty (part.now ∷ [])) }
{
    if part.is_empty() {
        return Ok(());
    }
    words.push(part)?;
    Ok(())
}

/// The words: runs of bytes other than the space.
pub(crate) fn split_words<'t>(alloc: Global, line: &'t str) -> Result<Vec<&'t str>, AllocError>
    ensures { IfOk result (λ words. texts words.items ≡ words_of line.now) }
{
    let mut words = Vec::new(alloc);
    let mut rest = line;
    while let Some((word, after)) = rest.split_once(' ') {
        push_part(&mut words, word)?;
        rest = after;
    }
    push_part(&mut words, rest)?;
    Ok(words)
}
