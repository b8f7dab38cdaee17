//! The spelling of tokens and numbers.
//!
//! [`Tokens`] goes once over the bytes of a text and gives its tokens, each with its line and column.
//! [`natural`] and [`signed`] tell a number from what is spelled otherwise and from what is over a limit.
//! [`push_natural`] and [`push_signed`] write the one decimal text of a number. [`Pieces`] goes over what stands between
//! separators.
#![tactic(auto)]

pub mod laws;
mod number;
mod pieces;
mod place;
mod print;
mod token;

pub use number::{NumberFault, natural, natural_wide, signed, signed_wide};
pub use pieces::Pieces;
pub use place::Place;
pub use print::{push_natural, push_signed};
pub use token::{Token, Tokens};
