//! Numbers behind words.

ghost use Rattle.std.specs.Prelude.{◌≡◌, ◌++◌, List, ℕ, MatchOption};
ghost use Rattle.std.specs.Option.{option_map};
ghost use Rattle.journal.specs.JournalLine.{IsShort, IsOneOf};
ghost use Rattle.journal.specs.Reading.{ReadsAs, EndsNumber, PartsNumbers, IsAfter, IsLast, IsLastTwo};
ghost use Rattle.journal.specs.Reading.{IsLastThree, IsIndexed, IsIndexedTwo, IsIndexedThree};

use crate::reader::number::{number, split_digits};

/// What stands behind the word.
fn behind<'a>(text: &'a [u8], word: &[u8]) -> Option<&'a [u8]>
    ensures { MatchOption result ((rest : List ℕ) → text.now ≡ word.now ++ rest → ⊥)
        (λ rest. text.now ≡ word.now ++ rest.now) }
{
    text.strip_prefix(word)
}

/// The number behind the word, and what stands behind it.
fn number_after<'a>(text: &'a [u8], word: &[u8]) -> Option<(u128, &'a [u8])>
    ensures { ReadsAs (IsAfter IsShort word.now text.now) (option_map (λ z. (z.0, z.1.now)) result) }
{
    let rest = behind(text, word)?;
    let (digits, rest) = split_digits(rest);
    let n = number(digits)?;
    Some((n, rest))
}

/// The number behind the keyword, if so many things are declared, and what stands behind it.
fn index_after<'a>(text: &'a [u8], keyword: &[u8], count: usize) -> Option<(usize, &'a [u8])>
    ensures { ReadsAs (IsAfter (IsOneOf count) keyword.now text.now)
        (option_map (λ z. (z.0, z.1.now)) result) }
{
    let (n, rest) = number_after(text, keyword)?;
    if n >= count as u128 {
        return None;
    }
    Some((n as usize, rest))
}

/// The number between the word and the end.
pub(crate) fn last(text: &[u8], word: &[u8], end: &[u8]) -> Option<u128>
    requires { EndsNumber end.now }
    ensures { ReadsAs (IsLast word.now end.now text.now) result }
{
    let (n, rest) = number_after(text, word)?;
    if rest != end {
        return None;
    }
    Some(n)
}

fn last_two(text: &[u8], first: &[u8], second: &[u8], end: &[u8]) -> Option<(u128, u128)>
    requires end { EndsNumber end.now }
    requires parts { PartsNumbers second.now }
    ensures { ReadsAs (IsLastTwo first.now second.now end.now text.now) result }
{
    let (n, rest) = number_after(text, first)?;
    let more = last(rest, second, end)?;
    Some((n, more))
}

fn last_three(
    text: &[u8],
    first: &[u8],
    second: &[u8],
    third: &[u8],
    end: &[u8],
) -> Option<(u128, (u128, u128))>
    requires end { EndsNumber end.now }
    requires second { PartsNumbers second.now }
    requires third { PartsNumbers third.now }
    ensures { ReadsAs (IsLastThree first.now second.now third.now end.now text.now) result }
{
    let (n, rest) = number_after(text, first)?;
    let more = last_two(rest, second, third, end)?;
    Some((n, more))
}

/// The number of something declared, and one number.
pub(crate) fn indexed(
    text: &[u8],
    keyword: &[u8],
    count: usize,
    first: &[u8],
    end: &[u8],
) -> Option<(usize, u128)>
    requires end { EndsNumber end.now }
    requires first { PartsNumbers first.now }
    ensures { ReadsAs (IsIndexed count keyword.now first.now end.now text.now) result }
{
    let (index, rest) = index_after(text, keyword, count)?;
    let more = last(rest, first, end)?;
    Some((index, more))
}

/// The number of something declared, and two numbers.
pub(crate) fn indexed_two(
    text: &[u8],
    keyword: &[u8],
    count: usize,
    first: &[u8],
    second: &[u8],
    end: &[u8],
) -> Option<(usize, (u128, u128))>
    requires end { EndsNumber end.now }
    requires first { PartsNumbers first.now }
    requires second { PartsNumbers second.now }
    ensures { ReadsAs (IsIndexedTwo count keyword.now first.now second.now end.now text.now) result }
{
    let (index, rest) = index_after(text, keyword, count)?;
    let more = last_two(rest, first, second, end)?;
    Some((index, more))
}

/// The number of something declared, and three numbers.
pub(crate) fn indexed_three(
    text: &[u8],
    keyword: &[u8],
    count: usize,
    first: &[u8],
    second: &[u8],
    third: &[u8],
    end: &[u8],
) -> Option<(usize, (u128, (u128, u128)))>
    requires end { EndsNumber end.now }
    requires first { PartsNumbers first.now }
    requires second { PartsNumbers second.now }
    requires third { PartsNumbers third.now }
    ensures { ReadsAs (IsIndexedThree count keyword.now first.now second.now third.now end.now text.now) result }
{
    let (index, rest) = index_after(text, keyword, count)?;
    let more = last_three(rest, first, second, third, end)?;
    Some((index, more))
}
