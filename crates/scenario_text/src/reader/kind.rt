//! The kinds of lines, and how many lines there are of each.

ghost use Rattle.std.specs.Prelude.{◌≡◌, map};
ghost use Rattle.scenario_text.specs.Causes as causes;
ghost use Rattle.scenario_text.specs.Phrases.{line_of};

use crate::reader::line::Line;

/// The kinds of lines, in the order in which they come.
#[derive(Clone, Copy)]
pub(crate) enum LineKind {
    Roots,
    Counter,
    NotifyList,
    Group,
    Seat,
    Property,
}

impl LineKind {
    /// The kind of the line.
    pub(crate) fn of(line: &Line) -> Self
        ensures { result ≡ causes.kind (line_of line.now) }
    {
        match line {
            Line::Roots(_) => LineKind::Roots,
            Line::Counter(_) => LineKind::Counter,
            Line::NotifyList(_) => LineKind::NotifyList,
            Line::Group => LineKind::Group,
            Line::Seat(_, _) => LineKind::Seat,
            Line::Settled | Line::Value(_, _) | Line::NoMisuse | Line::NoLost => {
                LineKind::Property
            }
        }
    }

    /// Its place in the order.
    fn rank(self) -> u8
        ensures { result ≡ causes.rank self }
    {
        match self {
            LineKind::Roots => 0,
            LineKind::Counter => 1,
            LineKind::NotifyList => 2,
            LineKind::Group => 3,
            LineKind::Seat => 4,
            LineKind::Property => 5,
        }
    }
}

/// How many of the lines are of this kind.
pub(crate) fn count(lines: &[Line], kind: LineKind) -> usize
    ensures { result ≡ causes.count_of kind (map line_of lines.now) }
{
    lines
        .iter()
        .filter(|line| LineKind::of(line).rank() == kind.rank())
        .count()
}

/// How many of the lines are of later kinds.
pub(crate) fn count_later(lines: &[Line], kind: LineKind) -> usize
    ensures { result ≡ causes.count_later kind (map line_of lines.now) }
{
    lines
        .iter()
        .filter(|line| kind.rank() < LineKind::of(line).rank())
        .count()
}
