ghost use Rattle.std.specs.Prelude.{Some};
ghost use Rattle.journal.specs.Texts.{rule_text};

use std::fmt;

/// What an entry may break, in the order in which it is told.
#[derive(Clone, Copy, Drop)]
pub enum Rule {
    /// A unit is taken where there is none.
    NoUnit,
    /// The wait that leaves isn't the first of its counter's list.
    NotFirst,
    /// The wait that is withdrawn isn't in its counter's list.
    NotQueued,
    /// No ticket is granted that wasn't passed before.
    GrantedBefore,
    /// The ticket that goes was passed before.
    PassedBefore,
    /// The ticket that goes has gone before.
    GoneBefore,
    /// A ticket is granted, or goes, that wasn't handed out.
    NotHandedOut,
    /// The wait was queued before.
    QueuedTwice,
    /// The wait has left before, or was withdrawn.
    LeftTwice,
    /// No unit of the seat's own last release, on this counter, is left for the wait that leaves.
    NoRelease,
}

impl fmt::Display for Rule {
    ghost output = { λ rule. Some (rule_text rule) };

    fn fmt<W: fmt::Write>(&self, f: &mut fmt::Formatter<W>) -> fmt::Result {
        f.write_str(match self {
            Rule::NoUnit => "no unit",
            Rule::NotFirst => "not first",
            Rule::NotQueued => "not queued",
            Rule::GrantedBefore => "granted before",
            Rule::PassedBefore => "passed before",
            Rule::GoneBefore => "gone before",
            Rule::NotHandedOut => "not handed out",
            Rule::QueuedTwice => "queued twice",
            Rule::LeftTwice => "left twice",
            Rule::NoRelease => "no release",
        })
    }
}
