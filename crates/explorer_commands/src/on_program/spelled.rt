//! What is told of who may be passed over in a lock program, and how often, as text.

ghost use Rattle.std.specs.Prelude.{◌≡◌, [], Some, slice_index_or};
ghost use Rattle.explorer_answers.specs.FoundText.{seats_text};
ghost use Rattle.explorer_commands.specs.OutlookTexts.{passes_text, round_text, section_text, sections_text};
ghost use Rattle.explorer_commands.specs.OutlookTexts.{broken_text, starved_text, told_bad};

use program_search::{FirstStarving, Passes, SectionPasses};
use program_text::Name;
use std::fmt;
use waiters::SeatId;

/// Seats, one space apart.
#[derive(Clone, Copy)]
struct Seats<'a>(&'a [SeatId]);

impl fmt::Display for Seats<'_> {
    ghost output = { λ seats. Some (seats_text seats.0.now) };

    fn fmt<W: fmt::Write>(&self, f: &mut fmt::Formatter<W>) -> fmt::Result {
        if let [first, rest @ ..] = self.0 {
            write!(f, "{first}")?;
            for next in rest {
                write!(f, " {next}")?;
            }
        }
        Ok(())
    }
}

/// A schedule, and the round behind it.
#[derive(Clone, Copy)]
struct Round<'a> {
    schedule: &'a [SeatId],
    round: &'a [SeatId],
}

impl fmt::Display for Round<'_> {
    ghost output = { λ told. Some (round_text told.schedule.now told.round.now) };

    fn fmt<W: fmt::Write>(&self, f: &mut fmt::Formatter<W>) -> fmt::Result {
        let round = Seats(self.round);
        if self.schedule.is_empty() {
            write!(f, "({round})")
        } else {
            let schedule = Seats(self.schedule);
            write!(f, "{schedule} ({round})")
        }
    }
}

/// That the seat is passed over.
#[derive(Clone, Copy, Drop)]
pub(crate) struct Starved(pub(crate) SeatId);

impl fmt::Display for Starved {
    ghost output = { λ starved. Some (starved_text starved.0) };

    fn fmt<W: fmt::Write>(&self, f: &mut fmt::Formatter<W>) -> fmt::Result {
        let Starved(seat) = self;
        write!(f, "starved, seat {seat}")
    }
}

/// That a line `passed` of this number is broken.
#[derive(Clone, Copy, Drop)]
pub(crate) struct BrokenAt(pub(crate) usize);

impl fmt::Display for BrokenAt {
    ghost output = { λ broken. Some (broken_text broken.0) };

    fn fmt<W: fmt::Write>(&self, f: &mut fmt::Formatter<W>) -> fmt::Result {
        let BrokenAt(line) = self;
        write!(f, "passed, line {line}")
    }
}

/// A round that passes a seat over, where that is what is bad.
#[derive(Clone, Copy)]
pub(crate) struct BadRound<'a>(pub(crate) &'a FirstStarving);

impl fmt::Display for BadRound<'_> {
    ghost output = { λ told. Some (told_bad (starved_text told.0.now.seat)
        (round_text told.0.now.schedule.items told.0.now.round.items)) };

    fn fmt<W: fmt::Write>(&self, f: &mut fmt::Formatter<W>) -> fmt::Result {
        let starved = Starved(self.0.seat);
        let seats = Round {
            schedule: self.0.schedule.as_slice(),
            round: self.0.round.as_slice(),
        };
        write!(f, "bad: {starved}\nschedule: {seats}\n")
    }
}

/// How often a seat is passed, and by which schedule.
#[derive(Clone, Copy)]
struct Often<'a>(&'a Passes);

impl fmt::Display for Often<'_> {
    ghost output = { λ often. Some (passes_text often.0.now) };

    fn fmt<W: fmt::Write>(&self, f: &mut fmt::Formatter<W>) -> fmt::Result {
        match self.0 {
            Passes::Never => f.write_str("never\n"),
            Passes::AtMost(count, schedule, seat) => {
                let seats = Seats(schedule.as_slice());
                write!(f, "at most {count}, seat {seat}\nschedule: {seats}\n")
            }
            Passes::Endless(schedule, round, seat) => {
                let seats = Round {
                    schedule: schedule.as_slice(),
                    round: round.as_slice(),
                };
                write!(f, "without end, seat {seat}\nschedule: {seats}\n")
            }
        }
    }
}

/// The section's name.
fn name_of<'a>(names: &'a [Name<'_>], section: usize) -> &'a str
    ensures { result.now ≡ slice_index_or names.now section [] }
{
    match names.get(section) {
        Some(name) => name.as_str(),
        None => "",
    }
}

/// How often seats are passed for a section.
#[derive(Clone, Copy)]
struct OfSection<'a, 'n> {
    names: &'a [Name<'n>],
    told: &'a SectionPasses,
}

impl fmt::Display for OfSection<'_, '_> {
    ghost output = { λ one. Some (section_text one.names.now one.told.now) };

    fn fmt<W: fmt::Write>(&self, f: &mut fmt::Formatter<W>) -> fmt::Result {
        let name = name_of(self.names, self.told.section);
        let often = Often(&self.told.passes);
        write!(f, "passed: {name}, {often}")
    }
}

/// How often seats are passed for each of these sections.
#[derive(Clone, Copy)]
pub(crate) struct OfSections<'a, 'n> {
    /// The names of all sections.
    pub(crate) names: &'a [Name<'n>],
    /// What is told of some.
    pub(crate) all: &'a [SectionPasses],
}

impl fmt::Display for OfSections<'_, '_> {
    ghost output = { λ told. Some (sections_text told.names.now told.all.now) };

    fn fmt<W: fmt::Write>(&self, f: &mut fmt::Formatter<W>) -> fmt::Result {
        for told in self.all {
            let one = OfSection {
                names: self.names,
                told,
            };
            write!(f, "{one}")?;
        }
        Ok(())
    }
}
