//! Which command the words are, and what it is told.
ghost use Rattle.std.specs.Prelude.{◌≡◌, ◌==◌, ◌∷◌, length, option_map, map, find, string_bytes, IfOk};
ghost use Rattle.std.specs.List.{list_any};
ghost use Rattle.std.specs.Str.{bytes_eq};
ghost use Rattle.ct_words.specs.Table.{command_seen, commands};
ghost use Rattle.ct_words.specs.Parts.{parts_seen};
ghost use Rattle.ct_words.specs.Reading.{told_as};
ghost use Rattle.ct_words.specs.Said.{place_of, place_seen, places_of, named_of, said_of, seen};

use crate::parts::{Parts, is_named, parts_in, text_named, value_named};
use crate::role::{Given, number_of};
use crate::table::{Bounds, COMMANDS, CommandName, CommandRow};
use std::alloc::{AllocError, Global};

/// A positional word.
#[derive(Clone, Copy, Debug)]
pub enum Positional<'a> {
    /// As it was said.
    Text(&'a str),
    /// A number within the bounds of its place.
    Number(u64),
}

/// A command with its positional words, in their order, and its options, in the order in which they were given.
#[derive(Drop)]
pub struct Said<'a> {
    pub command: CommandName,
    pub places: Vec<Positional<'a>>,
    pub given: Vec<Given<'a>>,
}

impl<'a> Said<'a> {
    ghost use Rattle.std.specs.Prelude.{◌≡◌, map, option_map};
    ghost use Rattle.ct_words.specs.Role.{given_seen};
    ghost use Rattle.ct_words.specs.Parts.{has_name, text_of, value_of};

    /// Whether the option of this name, without its dashes, was given.
    pub fn has(&self, name: &str) -> bool
        ensures { result ≡ has_name name.now (map given_seen self.now.given.items) }
    {
        is_named(&self.given, name)
    }

    /// The number that the option of this name, without its dashes, was given; `None` where it wasn't given or takes no
    /// number.
    pub fn value(&self, name: &str) -> Option<u64>
        ensures { result ≡ value_of name.now (map given_seen self.now.given.items) }
    {
        value_named(&self.given, name)
    }

    /// As [`Said::value`], of an option that takes a name.
    pub fn text(&self, name: &str) -> Option<&'a str>
        ensures { option_map (λ word. word.now) result ≡ text_of name.now (map given_seen self.now.given.items) }
    {
        text_named(&self.given, name)
    }
}

fn place_in<'a>(bounds: Option<Bounds>, word: &'a str) -> Option<Positional<'a>>
    ensures { option_map place_seen result ≡ place_of bounds word.entry.now }
{
    match bounds {
        None => Some(Positional::Text(word)),
        Some(bounds) => match number_of(bounds, word.as_bytes()) {
            Some(number) => Some(Positional::Number(number)),
            None => None,
        },
    }
}

// The positional words by what the places want, as many as there are places.
fn places_in<'a>(
    alloc: Global,
    wanted: &[Option<Bounds>],
    words: &[&'a str],
) -> Result<Option<Vec<Positional<'a>>>, AllocError>
    ensures { IfOk result (λ places. option_map (λ list. map place_seen list.items) places ≡ places_of wanted.now (map (λ word. word.now) words.now)) }
{
    if wanted.len() != words.len() {
        return Ok(None);
    }
    let mut places = Vec::new(alloc);
    for (i, word) in words.iter().enumerate() {
        match place_in(wanted[i], word) {
            Some(place) => places.push(place)?,
            None => return Ok(None),
        }
    }
    Ok(Some(places))
}

// What the command is told by these parts, of which no option stands twice.
fn told_by<'a>(
    alloc: Global,
    row: CommandRow,
    parts: Parts<'a>,
) -> Result<Option<Said<'a>>, AllocError>
    ensures { IfOk result (λ said. option_map seen said ≡ told_as (command_seen row) (parts_seen parts.entry)) }
{
    match places_in(alloc, row.places, &parts.places)? {
        Some(places) => Ok(Some(Said {
            command: row.command,
            places,
            given: parts.given,
        })),
        None => Ok(None),
    }
}

fn first_named(table: &[CommandRow], name: &str) -> Option<CommandRow>
    ensures { result ≡ find (λ row. bytes_eq row.name.now name.now) table.now }
{
    table.iter().copied().find(|row| row.name == name)
}

fn row_of(table: &[CommandRow], name: &str) -> Option<CommandRow>
    ensures { option_map command_seen result ≡ find (λ row. bytes_eq row.name name.now) (map command_seen table.now) }
{
    first_named(table, name)
}

fn has_one_empty(words: &[String]) -> bool
    ensures { result ≡ list_any (λ word. length (string_bytes word) == 0) words.now }
{
    words.iter().any(|word| word.as_bytes().is_empty())
}

fn has_empty(words: &[String]) -> bool
    ensures { result ≡ list_any (λ word. length word == 0) (map string_bytes words.now) }
{
    has_one_empty(words)
}

// The command of this name, and what the other words tell it.
fn named_in<'a>(
    alloc: Global,
    table: &[CommandRow],
    name: &str,
    others: &'a [String],
) -> Result<Option<Said<'a>>, AllocError>
    ensures { IfOk result (λ said. option_map seen said ≡ named_of (map command_seen table.now) (name.now ∷ map string_bytes others.entry.now)) }
{
    let Some(row) = row_of(table, name) else {
        return Ok(None);
    };
    match parts_in(alloc, row, others)? {
        Some(parts) => told_by(alloc, row, parts),
        None => Ok(None),
    }
}

/// As [`said_in`], by any table.
pub fn said_by<'a>(
    alloc: Global,
    table: &[CommandRow],
    words: &'a [String],
) -> Result<Option<Said<'a>>, AllocError>
    ensures { IfOk result (λ said. option_map seen said ≡ said_of (map command_seen table.now) (map string_bytes words.entry.now)) }
{
    if words.is_empty() || has_empty(words) {
        return Ok(None);
    }
    named_in(alloc, table, words[0].as_str(), &words[1..])
}

/// What the words after the program's name say, by [`COMMANDS`]; `None` where they are no command. An `Err` is want of
/// memory. The words after the first are read by one `clap` command, made from the row of the first. Memory is linear
/// in the words, and each option is compared with those of the command.
pub fn said_in<'a>(alloc: Global, words: &'a [String]) -> Result<Option<Said<'a>>, AllocError>
    ensures { IfOk result (λ said. option_map seen said ≡ said_of commands (map string_bytes words.entry.now)) }
{
    said_by(alloc, &COMMANDS, words)
}
