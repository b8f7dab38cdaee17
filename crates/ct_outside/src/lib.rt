//! What the program reads and writes, as traits that contracts can speak of.
//!
//! A `Shelf` gives files by their names, and a `Sink` takes bytes. Each counts its faults, so that a
//! caller's contract can say that it answers with a fault only where there was one. `MemShelf` and
//! `MemSink` tell what they hold, and can be made to fail at a chosen call. `FileShelf` reads the files
//! that a `Folder` opens, and `StdSink` writes to a writer of std; each tells what those tell. Over the
//! real ones, `Disk` and standard output, they tell no content: these are the trusted edge.
//! `write_whole` writes a text in as many pieces as the sink takes.
#![tactic(auto)]

mod failed_names;
mod fetch_fault;
mod file_shelf;
mod folder;
mod mem_shelf;
mod mem_sink;
mod shelf;
mod sink;
mod std_sink;
#[cfg(test)]
mod tests;
mod writing;

pub use fetch_fault::FetchFault;
pub use file_shelf::FileShelf;
pub use folder::{Disk, Folder};
pub use mem_shelf::MemShelf;
pub use mem_sink::MemSink;
pub use shelf::Shelf;
pub use sink::{Sink, SinkFailed};
pub use std_sink::StdSink;
pub use writing::write_whole;
