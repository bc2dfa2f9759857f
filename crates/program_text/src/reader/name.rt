//! Names.

ghost use Rattle.std.specs.Prelude.{◌≡◌};
ghost use Rattle.scenario_text.specs.Phrases.{ReadsAs};
ghost use Rattle.program_text.specs.Words as words;
ghost use Rattle.program_text.specs.Words.{IsName};

use crate::words::Name;

/// How many bytes a name has at most.
const LONGEST: usize = 24;

fn is_letter(byte: u8) -> bool
    ensures { result ≡ words.is_letter byte }
{
    (byte >= b'a' && byte <= b'z') || (byte >= b'A' && byte <= b'Z')
}

fn is_inside(byte: u8) -> bool
    ensures { result ≡ words.is_inside byte }
{
    is_letter(byte) || (byte >= b'0' && byte <= b'9') || byte == b'_'
}

/// Whether each byte may stand in a name.
fn are_inside(bytes: &[u8]) -> bool
    ensures { result ≡ words.are_inside bytes.now }
{
    bytes.iter().all(|byte| is_inside(*byte))
}

/// Whether the word is spelled as a name is, `me` too.
fn is_plain(word: &str) -> bool
    ensures { result ≡ words.is_plain word.now }
{
    let bytes = word.as_bytes();
    match bytes.first() {
        None => false,
        Some(first) => is_letter(*first) && are_inside(bytes) && bytes.len() <= LONGEST,
    }
}

/// The name that the word is.
pub(crate) fn read_name<'t>(word: &'t str) -> Option<Name<'t>>
    ensures { ReadsAs (IsName word.now) result }
{
    if is_plain(word) && word != "me" {
        return Some(Name::new(word));
    }
    None
}
