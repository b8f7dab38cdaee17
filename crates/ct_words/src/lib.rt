//! The words of the command line: which command they are, and what it is told.
//!
//! [`said_in`] reads the words by a table, [`COMMANDS`]: a command, its positional words and its options are one row of
//! it. `specs/` has the rules: what a word is, what the words are together, and when they are a command.
#![tactic(auto)]

mod command;
mod parts;
mod role;
mod said;
mod table;

pub use role::{Given, Value};
pub use said::{Positional, Said, said_by, said_in};
pub use table::{Bounds, COMMANDS, CommandName, CommandRow, OptionRow, Takes};
