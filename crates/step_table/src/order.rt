//! Words of tickets. They wrap, as do the 32-bit numbers of Go's `notifyList`.

ghost use Rattle.std.specs.Prelude.{◌≡◌, ◌↔◌, IsTrue};
ghost use Rattle.step_table.specs.Wrapping.{next_word, minus, IsBefore, less};

/// The least word that is below 0 as a signed number.
const HALF: u64 = 1 << 63;

/// The word of the next ticket.
pub fn next_word(word: u64) -> u64
    ensures { result ≡ next_word word }
{
    word.wrapping_add(1)
}

/// How many tickets there are from `b` up to `a`.
pub fn minus(a: u64, b: u64) -> u64
    ensures { result ≡ minus a b }
{
    a.wrapping_sub(b)
}

/// Whether the ticket with the word `a` comes before that with the word `b`: their difference, as a signed
/// number, is below 0. So tickets keep their order where their words wrap, as long as fewer than 2^63 of them
/// are between.
pub fn less(a: u64, b: u64) -> bool
    ensures signed { IsTrue result ↔ IsBefore a b }
    ensures less { result ≡ less a b }
{
    a.wrapping_sub(b) >= HALF
}
