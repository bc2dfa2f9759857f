//! Numbers, and the words around them.

ghost use Rattle.std.specs.Prelude.{◌<◌, ◌≤◌};
ghost use Rattle.std.specs.Option.{option_map};
ghost use Rattle.scenario_text.specs.Phrases.{ReadsAs, IsNumber, IsKeyed, IsFlagged, IsNumbered, IsPair};

/// How many digits a number has at most, but for a list's first ticket.
pub(crate) const DIGITS: usize = 10;

/// The number that the text spells in at most `most` digits, without a leading zero.
pub(crate) fn number(text: &str, most: usize) -> Option<u128>
    requires some { 0 < most }
    requires few { most ≤ 20 }
    ensures { ReadsAs (IsNumber most text.now) result }
{
    let digits = text.as_bytes();
    if digits.is_empty() || digits.len() > most {
        return None;
    }
    let first = digits[0];
    if first == b'+' || (first == b'0' && digits.len() > 1) {
        return None;
    }
    text.parse::<u128>().ok()
}

/// The number behind a keyword.
pub(crate) fn keyed(text: &str, keyword: &str, most: usize) -> Option<u128>
    requires some { 0 < most }
    requires few { most ≤ 20 }
    ensures { ReadsAs (IsKeyed most keyword.now text.now) result }
{
    number(text.strip_prefix(keyword)?, most)
}

/// The number between a keyword and a flag.
pub(crate) fn flagged(text: &str, keyword: &str, flag: &str) -> Option<u128>
    ensures { ReadsAs (IsFlagged keyword.now flag.now text.now) result }
{
    keyed(text.strip_suffix(flag)?, keyword, DIGITS)
}

/// The number behind a keyword, and what stands behind it and a space.
pub(crate) fn numbered<'text>(text: &'text str, keyword: &str) -> Option<(u128, &'text str)>
    ensures { ReadsAs (IsNumbered keyword.now text.now) (option_map (λ x. (x.0, x.1.now)) result) }
{
    let (first, rest) = text.strip_prefix(keyword)?.split_once(' ')?;
    let first = short_number(first)?;
    Some((first, rest))
}

/// The two numbers behind a keyword, with a space and another word between them.
pub(crate) fn pair(text: &str, keyword: &str, between: &str) -> Option<(u128, u128)>
    ensures { ReadsAs (IsPair keyword.now between.now text.now) result }
{
    let (first, second) = numbered(text, keyword)?;
    let second = keyed(second, between, DIGITS)?;
    Some((first, second))
}

/// The number that the text spells in at most ten digits.
pub(crate) fn short_number(text: &str) -> Option<u128>
    ensures { ReadsAs (IsNumber 10 text.now) result }
{
    number(text, DIGITS)
}
