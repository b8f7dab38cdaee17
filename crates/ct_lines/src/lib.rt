//! Texts of lines: words parted by one space, each line ended by LF.
//!
//! A grammar of a line is data (`Wording`): what may stand next, and what follows it. `Words` reads a line of it, one word
//! ahead. A text is read line by line, where the value so far says what the next line may be (`read_from`; `read_text` by
//! the steps of a `LineReader`). `IsFaultLine`
//! says in the words of a text's reader which line is at fault, and `Machine` in `proofs` has what a text owes to get
//! the laws: it is read exactly where it is written, its fault line is exact, no text is a proper prefix of another.
#![tactic(auto)]

mod print;
mod reader;
mod stop;
mod words;

pub use print::{push_number, push_numbers, push_signeds, push_walk};
pub use reader::{LineReader, read_text};
pub use stop::{LineStop, TextStop};
pub use words::Words;
