//! The commands on the text of a scenario.

pub(crate) mod alone_io;
pub(crate) mod command;
pub(crate) mod failed;
pub(crate) mod input;
pub(crate) mod plain;
pub(crate) mod replay;
