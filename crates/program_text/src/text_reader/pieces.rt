//! Where a text's lines end.

ghost use Rattle.std.specs.Prelude.{◌≡◌, ◌<◌, ◌∷◌, length, IfSome, position, ◌==◌};
ghost use Rattle.scenario_text.specs.Pieces.{pieces};

fn line_feed(text: &[u8]) -> Option<usize>
    ensures at { result ≡ position (λ byte. byte == 10) text.now }
    ensures within { IfSome result (λ end. end < length text.now) }
{
    text.iter().position(|byte| *byte == b'\n')
}

/// The first line, what stands behind it, and whether it is ended.
pub fn first_line(text: &[u8]) -> (&[u8], &[u8], bool)
    requires { 0 < length text.now }
    ensures line { pieces text.now ≡ record { text = result.0.now; ended = result.2 } ∷ pieces result.1.now }
    ensures shorter { length result.1.now < length text.now }
{
    match line_feed(text) {
        Some(end) => (&text[..end], &text[end + 1..], true),
        None => (text, &[], false),
    }
}
