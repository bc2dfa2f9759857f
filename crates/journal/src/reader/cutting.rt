//! Where a text's first line ends.

ghost use Rattle.std.specs.Prelude.{◌≡◌, ◌<◌, ◌≤◌, ◌+◌, ◌∷◌, ◌++◌, length, take, IfSome, position, ◌==◌};
ghost use Rattle.journal.specs.Cutting.{first_lines, lines};

fn line_feed(text: &[u8]) -> Option<usize>
    ensures at { result ≡ position (λ byte. byte == 10) text.now }
    ensures within { IfSome result (λ end. end < length text.now) }
{
    text.iter().position(|byte| *byte == b'\n')
}

/// The first line, with the byte that ends it, and what stands behind it.
pub(crate) fn first_line(text: &[u8]) -> (&[u8], &[u8])
    requires { 0 < length text.now }
    ensures line { lines text.now ≡ result.0.now ∷ lines result.1.now }
    ensures parts { text.now ≡ result.0.now ++ result.1.now }
    ensures shorter { length result.1.now < length text.now }
    ensures whole { length result.0.now + length result.1.now ≡ length text.now }
{
    match line_feed(text) {
        Some(end) => text.split_at(end + 1),
        None => (text, &[]),
    }
}

/// How many bytes the first so many lines of the text have, or all where it has fewer.
pub fn lines_length(text: &[u8], count: usize) -> usize
    ensures within { result ≤ length text.now }
    ensures lines { take result text.now ≡ first_lines count text.now }
{
    let mut rest = text;
    let mut left = count;
    while left > 0 && !rest.is_empty() {
        rest = first_line(rest).1;
        left -= 1;
    }
    text.len() - rest.len()
}
