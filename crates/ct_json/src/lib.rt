//! JSON files of instances and sessions: their shapes, their readers, and the first fault with its path.
//!
//! A shape is a definition of `specs/` over JSON values: it says in which order a value is looked through, what stands
//! where, and what it then says. [`read_instance_json`] and [`read_sessions_json`] read a file as a JSON value and
//! then by its shape, and their clauses say that they give what the shape gives or name its first fault. [`is_json`] says
//! which files are read so.
#![tactic(auto)]

mod files;
mod here;
mod instance_shape;
pub mod laws;
mod number_shapes;
mod session_shape;
mod shape;
mod values;

pub use files::{is_json, read_instance_json, read_sessions_json};
