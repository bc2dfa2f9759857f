//! Where a line may stand.

ghost use Rattle.std.specs.Prelude.{◌≡◌};
ghost use Rattle.program.specs.Places as places;

use program_text::SpelledLine;

/// What the last line was that says something.
#[derive(Clone, Copy)]
pub(crate) enum Stage {
    /// None, or a declaration.
    Declarations,
    /// A program's head or a line of it.
    Programs,
    /// Seats.
    Seats,
    /// A property.
    Properties,
}

/// The groups of lines that stand together.
#[derive(Clone, Copy)]
pub(crate) enum LineGroup {
    /// A line that says nothing.
    Blank,
    /// It declares something.
    Declaration,
    /// The head of a program.
    Program,
    /// A line of a program.
    Statement,
    /// Seats.
    Seats,
    /// What must hold.
    Property,
}

impl LineGroup {
    /// The group of the line.
    pub(crate) fn of(line: &SpelledLine<'_>) -> Self
        ensures { result ≡ places.group_of line.now }
    {
        match line {
            SpelledLine::Blank => LineGroup::Blank,
            SpelledLine::Const(_, _) | SpelledLine::Word(_, _) | SpelledLine::Counter(_, _) =>
                LineGroup::Declaration,
            SpelledLine::List(_) | SpelledLine::Registers(_) | SpelledLine::Section(_) =>
                LineGroup::Declaration,
            SpelledLine::Program(_) => LineGroup::Program,
            SpelledLine::Seats(_, _) => LineGroup::Seats,
            SpelledLine::Most(_, _) | SpelledLine::Apart(_, _) => LineGroup::Property,
            SpelledLine::Passed(_, _) | SpelledLine::Finally(_, _, _) => LineGroup::Property,
            _ => LineGroup::Statement,
        }
    }

    /// Whether it may stand behind the lines of this stage.
    pub(crate) fn may_stand(self, behind: Stage) -> bool
        ensures { result ≡ places.may_stand behind self }
    {
        match (behind, self) {
            (_, LineGroup::Blank) => true,
            (Stage::Declarations, LineGroup::Declaration | LineGroup::Program) => true,
            (Stage::Programs, LineGroup::Program | LineGroup::Statement | LineGroup::Seats) => true,
            (Stage::Seats, LineGroup::Seats | LineGroup::Property) => true,
            (Stage::Properties, LineGroup::Property) => true,
            _ => false,
        }
    }

    /// The stage behind it.
    pub(crate) fn stage_after(self, behind: Stage) -> Stage
        ensures { result ≡ places.stage_after behind self }
    {
        match self {
            LineGroup::Blank => behind,
            LineGroup::Declaration => Stage::Declarations,
            LineGroup::Program | LineGroup::Statement => Stage::Programs,
            LineGroup::Seats => Stage::Seats,
            LineGroup::Property => Stage::Properties,
        }
    }
}
