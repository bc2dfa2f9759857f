//! How the lines of a lock program are spelled, by their first words.

use crate::on_program::culprit::said;

/// The lines that begin with a word, and how they are spelled.
struct Form {
    /// Their first word.
    word: &'static str,
    /// How they are spelled.
    spelled: &'static str,
}

/// All lines but labels, in the order in which a text has them.
static FORMS: [Form; 36] = [
    Form {
        word: "const",
        spelled: "const N V",
    },
    Form {
        word: "word",
        spelled: "word N V, word N[K] V",
    },
    Form {
        word: "counter",
        spelled: "counter N V, counter N[K] V",
    },
    Form {
        word: "list",
        spelled: "list N",
    },
    Form {
        word: "register",
        spelled: "register N, register N N ..",
    },
    Form {
        word: "section",
        spelled: "section N",
    },
    Form {
        word: "program",
        spelled: "program N",
    },
    Form {
        word: "load",
        spelled: "load W r",
    },
    Form {
        word: "store",
        spelled: "store W e",
    },
    Form {
        word: "swap",
        spelled: "swap W e, swap W e r",
    },
    Form {
        word: "add",
        spelled: "add W e, add W e r",
    },
    Form {
        word: "exchange",
        spelled: "exchange W e f, exchange W e f r",
    },
    Form {
        word: "await",
        spelled: "await W REL e, await W REL e r",
    },
    Form {
        word: "acquire",
        spelled: "acquire C, acquire C lifo",
    },
    Form {
        word: "release",
        spelled: "release C, release C handoff, release C many e",
    },
    Form {
        word: "ticket",
        spelled: "ticket L",
    },
    Form {
        word: "wait",
        spelled: "wait L",
    },
    Form {
        word: "one",
        spelled: "one L",
    },
    Form {
        word: "all",
        spelled: "all L",
    },
    Form {
        word: "park",
        spelled: "park W e",
    },
    Form {
        word: "unpark",
        spelled: "unpark W e",
    },
    Form {
        word: "ask",
        spelled: "ask S",
    },
    Form {
        word: "in",
        spelled: "in S",
    },
    Form {
        word: "out",
        spelled: "out S",
    },
    Form {
        word: "let",
        spelled: "let r e, let r e OP f with OP one of + - & | ^ << >>",
    },
    Form {
        word: "if",
        spelled: "if e REL f goto A with REL one of == != < <= > >=",
    },
    Form {
        word: "goto",
        spelled: "goto A",
    },
    Form {
        word: "assert",
        spelled: "assert e REL f with REL one of == != < <= > >=",
    },
    Form {
        word: "fail",
        spelled: "fail",
    },
    Form {
        word: "do",
        spelled: "do N",
    },
    Form {
        word: "return",
        spelled: "return",
    },
    Form {
        word: "seats",
        spelled: "seats K N",
    },
    Form {
        word: "most",
        spelled: "most S N",
    },
    Form {
        word: "apart",
        spelled: "apart S T",
    },
    Form {
        word: "passed",
        spelled: "passed S N",
    },
    Form {
        word: "finally",
        spelled: "finally W REL V, finally C REL V",
    },
];

/// The first word of a line; nothing stands before it but spaces, and a comment is none.
pub(crate) fn first_word(line: &str) -> &str {
    said(line).split_whitespace().next().unwrap_or("")
}

/// How a line is spelled that begins as this one, if any is.
pub(crate) fn expected(line: &str) -> Option<&'static str> {
    let word = first_word(line);
    for form in &FORMS {
        if form.word == word {
            return Some(form.spelled);
        }
    }
    None
}
