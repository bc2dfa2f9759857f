ghost use Rattle.std.specs.Prelude.{Some};
ghost use Rattle.notify_list.specs.Texts.{setup_error_text};

use std::error::Error;
use std::fmt;

/// Why a number of seats makes no list, by number. Nothing was made then.
#[derive(Clone, Copy, Debug, PartialEq, Eq, Drop)]
pub enum SetupError {
    /// There are not 1 to 65,536 seats.
    Seats = 2,
    /// Memory was refused.
    NoMemory = 5,
}

impl fmt::Display for SetupError {
    ghost output = { λ refused. Some (setup_error_text refused) };

    fn fmt<W: fmt::Write>(&self, f: &mut fmt::Formatter<W>) -> fmt::Result {
        f.write_str(match self {
            SetupError::Seats => "seats",
            SetupError::NoMemory => "no memory",
        })
    }
}

impl Error for SetupError {}
