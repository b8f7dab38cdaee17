//! Instance and session texts: their grammars, their readers, and the first fault of a bad text.
//!
//! [`read_instance`] and [`read_sessions`] go once over the tokens of a text. The grammar is a definition of
//! `specs/`, data that says what may stand next, and each reader's clause says that it gives what the grammar
//! gives or names the first fault. [`push_fault`] writes a fault as one line. A further text is read with a
//! [`Reader`], by [`numbers`], [`signeds`] and [`costs_in`].
#![tactic(auto)]

mod draft;
mod fault;
mod instance_text;
pub mod laws;
pub mod limits;
mod lists;
mod path;
mod print;
mod reader;
mod script;
mod sessions;

pub use draft::Draft;
pub use fault::{Fault, InputStop, TextReason};
pub use instance_text::{costs_in, read_instance, refused};
pub use lists::{numbers, signeds};
pub use path::{JsonReason, Name, PathStep};
pub use print::push_fault;
pub use reader::Reader;
pub use script::{Phase, Request, Script};
pub use sessions::read_sessions;
