//! Where a text's lines end.

ghost use Rattle.std.specs.Prelude.{◌≡◌, ◌<◌, ◌-◌, ◌∷◌, length, IfSome, position, ◌==◌};
ghost use Rattle.scenario_text.specs.Pieces.{pieces, text_at};

fn line_feed(text: &[u8]) -> Option<usize>
    ensures at { result ≡ position (λ byte. byte == 10) text.now }
    ensures within { IfSome result (λ end. end < length text.now) }
{
    text.iter().position(|byte| *byte == b'\n')
}

/// The first line, what stands behind it, and whether it is ended.
pub(crate) fn first_line(text: &[u8]) -> (&[u8], &[u8], bool)
    requires { 0 < length text.now }
    ensures line { pieces text.now ≡ record { text = result.0.now; ended = result.2 } ∷ pieces result.1.now }
    ensures shorter { length result.1.now < length text.now }
{
    match line_feed(text) {
        Some(end) => (&text[..end], &text[end + 1..], true),
        None => (text, &[], false),
    }
}

/// The bytes of the line of this number, of which the first is 1: none behind the last line.
pub fn line_at(text: &[u8], number: usize) -> &[u8]
    ensures { result.now ≡ text_at (number - 1) (pieces text.now) }
{
    let mut rest = text;
    let mut left = number;
    while left > 1 {
        if rest.is_empty() {
            return rest;
        }
        rest = first_line(rest).1;
        left -= 1;
    }
    if rest.is_empty() {
        return rest;
    }
    first_line(rest).0
}
