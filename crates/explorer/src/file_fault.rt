//! Why a file that words name can't be read.

ghost use Rattle.std.specs.Prelude.{Some};
ghost use Rattle.explorer.specs.FileFault.{fault_text};

use std::fmt;
use std::io::{self, ErrorKind};

/// Why a file can't be read.
#[derive(Clone, Copy, Debug, Drop)]
pub enum FileFault {
    /// There is none of this name.
    Missing,
    /// Its reader may not read it.
    Forbidden,
    /// It is a folder.
    Folder,
    /// Something on its path is no folder.
    NoFolder,
    /// For another reason.
    Other,
}

impl FileFault {
    /// Why a file couldn't be opened.
    pub fn of(error: &io::Error) -> FileFault {
        match error.kind() {
            ErrorKind::NotFound => FileFault::Missing,
            ErrorKind::PermissionDenied => FileFault::Forbidden,
            ErrorKind::IsADirectory => FileFault::Folder,
            ErrorKind::NotADirectory => FileFault::NoFolder,
            _ => FileFault::Other,
        }
    }
}

impl fmt::Display for FileFault {
    ghost output = { λ fault. Some (fault_text fault) };

    fn fmt<W: fmt::Write>(&self, f: &mut fmt::Formatter<W>) -> fmt::Result {
        f.write_str(match self {
            FileFault::Missing => "there is no such file",
            FileFault::Forbidden => "permission denied",
            FileFault::Folder => "it is a folder",
            FileFault::NoFolder => "its path leads through a file",
            FileFault::Other => "it can't be opened",
        })
    }
}
