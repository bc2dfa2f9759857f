ghost use Rattle.std.specs.Prelude.{Some};
ghost use Rattle.sema_table.specs.Texts.{setup_error_text};

use std::error::Error;
use std::fmt;

/// Why settings make no table, by number: the least that holds is answered. Nothing was made then.
#[derive(Clone, Copy, Debug, PartialEq, Eq, Drop)]
pub enum SetupError {
    /// There are not 1 to 65,536 counters.
    Counters = 1,
    /// There are not 1 to 65,536 seats.
    Seats = 2,
    /// There are not 1 to 251 roots.
    Roots = 3,
    /// The release limit is not 1 to 2^54, or that of all seats together is above 2^62.
    ReleaseLimit = 4,
    /// Memory was refused.
    NoMemory = 5,
}

impl fmt::Display for SetupError {
    ghost output = { λ refused. Some (setup_error_text refused) };

    fn fmt<W: fmt::Write>(&self, f: &mut fmt::Formatter<W>) -> fmt::Result {
        f.write_str(match self {
            SetupError::Counters => "counters",
            SetupError::Seats => "seats",
            SetupError::Roots => "roots",
            SetupError::ReleaseLimit => "release limit",
            SetupError::NoMemory => "no memory",
        })
    }
}

impl Error for SetupError {}
