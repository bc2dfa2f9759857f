//! The first words of lines.

ghost use Rattle.std.specs.Prelude.{◌≡◌, ◌≢◌, ℕ, ◌<◌, length, slice_index_or};
ghost use Rattle.std.specs.Option.{MatchOption};
ghost use Rattle.scenario_text.specs.Phrases.{ReadsAs};
ghost use Rattle.program_text.specs.Verb.{verb_text, IsVerb};
ghost use Rattle.program_text.specs.declared.reader.verb.Verb.TheVariants as verb;

/// The first word of a line.
#[derive(Clone, Copy)]
pub(crate) enum Verb {
    Const,
    Word,
    Counter,
    List,
    Section,
    Program,
    Seats,
    Most,
    Apart,
    Passed,
    Finally,
    Load,
    Store,
    Swap,
    Add,
    Exchange,
    Await,
    Acquire,
    Release,
    Ticket,
    Wait,
    One,
    All,
    Park,
    Unpark,
    Out,
    Let,
    If,
    Goto,
    In,
    Ask,
    Assert,
    Fail,
    Do,
    Return,
}

/// All of them.
static VERBS: [Verb; 35] = [
    Verb::Const,
    Verb::Word,
    Verb::Counter,
    Verb::List,
    Verb::Section,
    Verb::Program,
    Verb::Seats,
    Verb::Most,
    Verb::Apart,
    Verb::Passed,
    Verb::Finally,
    Verb::Load,
    Verb::Store,
    Verb::Swap,
    Verb::Add,
    Verb::Exchange,
    Verb::Await,
    Verb::Acquire,
    Verb::Release,
    Verb::Ticket,
    Verb::Wait,
    Verb::One,
    Verb::All,
    Verb::Park,
    Verb::Unpark,
    Verb::Out,
    Verb::Let,
    Verb::If,
    Verb::Goto,
    Verb::In,
    Verb::Ask,
    Verb::Assert,
    Verb::Fail,
    Verb::Do,
    Verb::Return,
];

impl Verb {
    /// How it is spelled.
    fn text(self) -> &'static str
        ensures { result.now ≡ verb_text self }
    {
        match self {
            Verb::Const => "const",
            Verb::Word => "word",
            Verb::Counter => "counter",
            Verb::List => "list",
            Verb::Section => "section",
            Verb::Program => "program",
            Verb::Seats => "seats",
            Verb::Most => "most",
            Verb::Apart => "apart",
            Verb::Passed => "passed",
            Verb::Finally => "finally",
            Verb::Load => "load",
            Verb::Store => "store",
            Verb::Swap => "swap",
            Verb::Add => "add",
            Verb::Exchange => "exchange",
            Verb::Await => "await",
            Verb::Acquire => "acquire",
            Verb::Release => "release",
            Verb::Ticket => "ticket",
            Verb::Wait => "wait",
            Verb::One => "one",
            Verb::All => "all",
            Verb::Park => "park",
            Verb::Unpark => "unpark",
            Verb::Out => "out",
            Verb::Let => "let",
            Verb::If => "if",
            Verb::Goto => "goto",
            Verb::In => "in",
            Verb::Ask => "ask",
            Verb::Assert => "assert",
            Verb::Fail => "fail",
            Verb::Do => "do",
            Verb::Return => "return",
        }
    }
}

/// The first of these verbs that the word spells.
fn find_verb(verbs: &[Verb], word: &str) -> Option<Verb>
    ensures { MatchOption result
        ((k : ℕ) → k < length verbs.now → word.now ≢ verb_text (slice_index_or verbs.now k verb.Const))
        (λ found. word.now ≡ verb_text found) }
{
    for verb in verbs {
        if verb.text() == word {
            return Some(*verb);
        }
    }
    None
}

/// The verb that the word spells.
pub(crate) fn read_verb(word: &str) -> Option<Verb>
    ensures { ReadsAs (IsVerb word.now) result }
{
    find_verb(&VERBS, word)
}
