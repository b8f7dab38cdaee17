//! The positional words and the options among the words after a command's name, as clap finds them.
ghost use Rattle.std.specs.Prelude.{◌≡◌, ◌&&◌, not, find, map, option_map, string_bytes, true, IfOk, None};
ghost use Rattle.std.specs.Str.{bytes_eq};
ghost use Rattle.std.specs.List.{list_any};
ghost use Rattle.clap.specs.Words.{app_of, is_simple};
ghost use Rattle.clap.specs.Faults.{is_simple_and_free};
ghost use Rattle.clap.specs.Walk.{first_of};
ghost use Rattle.ct_words.specs.Table.{option_seen};
ghost use Rattle.ct_words.specs.Role.{given_seen};
ghost use Rattle.ct_words.specs.Parts.{parts_of, parts_seen, has_name, text_of, value_of};
ghost use Rattle.ct_words.specs.Items.{given_by, has_single, is_single};
ghost use Rattle.ct_words.specs.Command.{places_id};
ghost use Rattle.ct_words.specs.Reading.{IsParsedAs, distinct, given_in, is_command_line, is_said, parts_read, places_in, rows_found};

use crate::command::{PLACES, command_of};
use crate::role::{Given, Value, given_by};
use crate::table::{CommandRow, OptionRow};
use clap::error::ErrorKind;
use clap::parser::ValueSource;
use clap::{ArgMatches, Command};
use std::alloc::{AllocError, Global};

/// The positional words, and the options that were given, each in their order.
#[derive(Drop)]
pub struct Parts<'a> {
    pub places: Vec<&'a str>,
    pub given: Vec<Given<'a>>,
}

fn is_single(word: &[u8]) -> bool
    ensures { result ≡ is_single word.now }
{
    match word {
        [b'-', second, ..] => *second != b'-',
        _ => false,
    }
}

// Whether a word before the first `--` has one dash in front of another byte: clap would read it as short flags.
fn has_single(words: &[String]) -> bool
    ensures { result ≡ has_single (map string_bytes words.now) }
{
    for word in words {
        if word.as_str() == "--" {
            return false;
        }
        if is_single(word.as_bytes()) {
            return true;
        }
    }
    false
}

// The matches of the words, where the command takes them.
fn matches_in<'a>(
    command: Command<'a>,
    words: &'a [String],
) -> Result<Option<ArgMatches<'a>>, AllocError>
    ensures { is_simple (app_of command.entry) ≡ true → is_simple_and_free (app_of command.entry) ≡ true → IfOk result (IsParsedAs (app_of command.entry) (map string_bytes words.entry.now)) }
{
    match command.try_get_matches_from(words) {
        Ok(matches) => Ok(Some(matches)),
        Err(error) => {
            if error.kind() == ErrorKind::OutOfMemory {
                Err(AllocError)
            } else {
                Ok(None)
            }
        }
    }
}

fn is_command_line(source: Option<ValueSource>) -> bool
    ensures { result ≡ is_command_line source }
{
    match source {
        None | Some(ValueSource::DefaultValue) => false,
        Some(ValueSource::CommandLine) => true,
    }
}

// Whether the words gave it, and not a default.
fn is_said(matches: &ArgMatches<'_>, id: &str) -> bool
    ensures { result ≡ is_said id.now (rows_found matches.now) }
{
    is_command_line(matches.value_source(id))
}

// Whether it is an option that the words gave.
fn is_given(matches: &ArgMatches<'_>, id: &str) -> bool
    ensures { result ≡ (not (bytes_eq id.now places_id) && is_said id.now (rows_found matches.now)) }
{
    id != PLACES && is_said(matches, id)
}

fn option_given<'a>(rows: &[OptionRow], matches: &ArgMatches<'a>, id: &str) -> Option<Given<'a>>
    ensures { option_map given_seen result ≡ given_by (map option_seen rows.now) id.now (first_of id.now (rows_found matches.now)) }
{
    given_by(rows, id, matches.get_str(id))
}

// The options in the order in which they were given.
fn given_in<'a>(
    alloc: Global,
    rows: &[OptionRow],
    matches: &ArgMatches<'a>,
) -> Result<Option<Vec<Given<'a>>>, AllocError>
    ensures { IfOk result (λ given. option_map (λ list. map given_seen list.items) given ≡ given_in (map option_seen rows.now) (rows_found matches.now) (map (λ row. row.id) (rows_found matches.now))) }
{
    let mut given = Vec::new(alloc);
    for id in matches.ids() {
        if is_given(matches, id) {
            match option_given(rows, matches, id) {
                Some(one) => given.push(one)?,
                None => return Ok(None),
            }
        }
    }
    Ok(Some(given))
}

fn copied<'a>(alloc: Global, words: &[&'a str]) -> Result<Vec<&'a str>, AllocError>
    ensures { IfOk result (λ copy. map (λ word. word.now) copy.items ≡ map (λ word. word.now) words.now) }
{
    let mut copy = Vec::new(alloc);
    for word in words {
        copy.push(*word)?;
    }
    Ok(copy)
}

fn places_in<'a>(alloc: Global, matches: &ArgMatches<'a>) -> Result<Vec<&'a str>, AllocError>
    ensures { IfOk result (λ places. map (λ word. word.now) places.items ≡ places_in (rows_found matches.now)) }
{
    if !is_said(matches, PLACES) {
        return Ok(Vec::new(alloc));
    }
    match matches.get_raw(PLACES) {
        Some(words) => copied(alloc, words),
        None => Ok(Vec::new(alloc)),
    }
}

fn parts_read<'a>(
    alloc: Global,
    rows: &[OptionRow],
    matches: &ArgMatches<'a>,
) -> Result<Option<Parts<'a>>, AllocError>
    ensures { IfOk result (λ parts. option_map parts_seen parts ≡ parts_read (map option_seen rows.now) (rows_found matches.now)) }
{
    let places = places_in(alloc, matches)?;
    match given_in(alloc, rows, matches)? {
        Some(given) => Ok(Some(Parts { places, given })),
        None => Ok(None),
    }
}

/// The parts of the words after a command's name, unless one of them is no word of the command or an option is given
/// twice.
pub fn parts_in<'a>(
    alloc: Global,
    row: CommandRow,
    words: &'a [String],
) -> Result<Option<Parts<'a>>, AllocError>
    ensures { IfOk result (λ parts. option_map parts_seen parts ≡ distinct (parts_of (map option_seen row.options.now) None (map string_bytes words.entry.now))) }
{
    if has_single(words) {
        return Ok(None);
    }
    let command = command_of(alloc, row)?;
    match matches_in(command, words)? {
        Some(matches) => parts_read(alloc, row.options, &matches),
        None => Ok(None),
    }
}

fn has_one_named(given: &[Given<'_>], name: &str) -> bool
    ensures { result ≡ list_any (λ one. bytes_eq one.name.now name.now) given.now }
{
    given.iter().any(|one| one.name == name)
}

/// Whether an option of this name is among those that were given.
pub fn is_named(given: &[Given<'_>], name: &str) -> bool
    ensures { result ≡ has_name name.now (map given_seen given.now) }
{
    has_one_named(given, name)
}

fn first_named<'a>(given: &[Given<'a>], name: &str) -> Option<Given<'a>>
    ensures { result ≡ find (λ one. bytes_eq one.name.now name.now) given.now }
{
    given.iter().copied().find(|one| one.name == name)
}

fn one_named<'a>(given: &[Given<'a>], name: &str) -> Option<Given<'a>>
    ensures { option_map given_seen result ≡ find (λ one. bytes_eq one.name name.now) (map given_seen given.now) }
{
    first_named(given, name)
}

/// The number that the option of this name was given.
pub fn value_named(given: &[Given<'_>], name: &str) -> Option<u64>
    ensures { result ≡ value_of name.now (map given_seen given.now) }
{
    match one_named(given, name)?.value {
        Value::Number(number) => Some(number),
        Value::Nothing | Value::Text(_) => None,
    }
}

/// The text that the option of this name was given.
pub fn text_named<'a>(given: &[Given<'a>], name: &str) -> Option<&'a str>
    ensures { option_map (λ word. word.now) result ≡ text_of name.now (map given_seen given.now) }
{
    match one_named(given, name)?.value {
        Value::Text(text) => Some(text),
        Value::Nothing | Value::Number(_) => None,
    }
}
