//! Ledgers of critical pairs: moves, and for each of their jobs up to a grade why its two ends meet.
//!
//! A `Ledger` is seen as its parts, all within the limits of its text. It is printed as one text and read back from it:
//! `read` gives a ledger exactly where the bytes are its text, and names the first line at fault exactly where they are
//! the text of none. Whether a ledger is to be believed is another question, which `ct_checker` answers.
#![tactic(auto)]

mod entries;
pub mod laws;
mod ledgers;
mod print;
mod reading;
mod stage;

pub use ct_lines::TextStop as LedgerStop;
pub use entries::LedgerEntry;
pub use ledgers::Ledger;
