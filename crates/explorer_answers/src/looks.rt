//! What stands in a line, as far as it is told from other lines.

ghost use Rattle.std.specs.Prelude.{◌≡◌, ◌==◌, IsTrue};
ghost use Rattle.std.specs.List.{list_any, list_all};
ghost use Rattle.explorer_answers.specs.Explained.{ends_in_return, is_digit, is_of_lock, HasDigits};

/// Whether its last byte is a carriage return.
pub fn ends_in_return(line: &[u8]) -> bool
    ensures { result ≡ ends_in_return line.now }
{
    match line.last() {
        Some(byte) => *byte == b'\r',
        None => false,
    }
}

/// Whether a semicolon stands in it.
pub(crate) fn has_semicolon(text: &[u8]) -> bool
    ensures { result ≡ list_any (λ byte. byte == 59) text.now }
{
    text.iter().any(|byte| *byte == b';')
}

/// Whether it begins as lines of lock programs do, and those of scenarios don't.
pub(crate) fn is_of_lock(line: &[u8]) -> bool
    ensures { result ≡ is_of_lock line.now }
{
    line.starts_with(b"#")
        || line.starts_with(b"const ")
        || line.starts_with(b"word ")
        || line.starts_with(b"register ")
        || line.starts_with(b"section ")
        || line.starts_with(b"program ")
}

/// Whether it is of digits alone.
fn are_digits(text: &[u8]) -> bool
    ensures { result ≡ list_all is_digit text.now }
{
    text.iter().all(|byte| *byte >= 48 && *byte <= 57)
}

/// Whether so many digits stand in a row in it.
pub(crate) fn has_digits(text: &[u8], count: usize) -> bool
    ensures { IsTrue result → HasDigits count text.now }
{
    for rest in 0..text.len() {
        if count <= text.len() - rest && are_digits(&text[rest..rest + count]) {
            return true;
        }
    }
    false
}
