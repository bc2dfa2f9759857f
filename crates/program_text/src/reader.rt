//! The reader of one line, part by part.

mod access;
mod declaration;
mod flow;
mod form;
mod keyword;
mod layer;
pub(crate) mod line;
mod name;
mod number;
mod operand;
mod part;
mod property;
mod shape;
mod split;
mod verb;
