//! The limits of the lines that begin with a word.

/// Which numbers may stand on them.
pub(crate) fn range_of(first: &str) -> &'static str {
    match first {
        "word" => "a word starts at -2^63 to 2^63 - 1, and an array has 1 to 16 members",
        "counter" => "a counter starts at 0 to 4294967295, and an array has 1 to 16 members",
        "seats" => "seats are 1 or more",
        "most" => "most is 0 or more",
        "passed" => "passed is 0 to 255",
        "finally" => "an index is within its array, and a number -2^63 to 2^63 - 1",
        _ => "numbers are -2^63 to 2^63 - 1",
    }
}

/// How many there may be at most of what they make.
pub(crate) fn most_of(first: &str) -> &'static str {
    match first {
        "const" => "at most 32 constants",
        "word" => "at most 32 words with the members of arrays",
        "counter" => "at most 16 counters with the members of arrays",
        "list" => "at most 4 lists",
        "register" => "at most 8 registers",
        "section" => "at most 8 sections",
        "program" => "at most 16 programs",
        "seats" => "at most 16 seats",
        "most" | "apart" | "passed" | "finally" => "at most 16 properties",
        _ => "at most 128 lines of a program, 255 with those of do",
    }
}
