//! A line as it is shown: its beginning, as far as that can be printed.

ghost use Rattle.std.specs.Prelude.{◌≡◌, ◌≤◌, length, not, position};
ghost use Rattle.std.specs.List.{position_or_len};
ghost use Rattle.scenario_text.specs.Causes.{is_printable};
ghost use Rattle.explorer_answers.specs.Explained.{shown};

use scenario_text::printable;

/// How many bytes of a line are shown at most.
const MOST_SHOWN: usize = 80;

/// The place of the first byte that can't be printed.
fn unprintable(line: &[u8]) -> Option<usize>
    ensures { result ≡ position (λ byte. not (is_printable byte)) line.now }
{
    line.iter().position(|byte| *byte < 32 || *byte > 126)
}

/// How many bytes at the beginning of the line can be printed.
fn printable_length(line: &[u8]) -> usize
    ensures all { result ≡ position_or_len (λ byte. not (is_printable byte)) line.now }
    ensures within { result ≤ length line.now }
{
    match unprintable(line) {
        Some(place) => place,
        None => line.len(),
    }
}

/// The beginning of the line that is shown: as far as it can be printed, 80 bytes at most.
pub fn shown(line: &[u8]) -> &str
    ensures { result.now ≡ shown line.now }
{
    let end = printable_length(line).min(MOST_SHOWN);
    match printable(&line[..end]) {
        Some(text) => text,
        None => "",
    }
}
