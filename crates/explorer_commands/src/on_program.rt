//! The commands on the text of a lock program.

pub(crate) mod beside;
pub(crate) mod command;
pub(crate) mod culprit;
pub(crate) mod expected;
pub(crate) mod help;
pub(crate) mod limits;
pub(crate) mod looking;
pub(crate) mod reading;
pub(crate) mod refusal;
pub(crate) mod replies;
pub(crate) mod retracing;
pub(crate) mod round_text;
pub(crate) mod searched;
pub(crate) mod spelled;
pub(crate) mod trying;
