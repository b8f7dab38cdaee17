//! An option that was given, with its value.
ghost use Rattle.std.specs.Prelude.{◌≡◌, find, map, option_map};
ghost use Rattle.std.specs.Str.{bytes_eq};
ghost use Rattle.ct_words.specs.Table.{option_seen};
ghost use Rattle.ct_words.specs.Role.{given_seen, is_name, number_in, value_in, value_seen};
ghost use Rattle.ct_words.specs.Items.{given_by, given_with};

use crate::table::{Bounds, OptionRow, Takes};
use ct_text::natural;

/// What an option was given.
#[derive(Clone, Copy, Debug)]
pub enum Value<'a> {
    /// It takes nothing.
    Nothing,
    /// A number within the option's bounds.
    Number(u64),
    /// A name, as it was said.
    Text(&'a str),
}

/// An option that was given: its name without the dashes, and its value.
#[derive(Clone, Copy, Debug)]
pub struct Given<'a> {
    pub name: &'static str,
    pub value: Value<'a>,
}

/// The number that the word spells, if it is within the bounds.
pub fn number_of(bounds: Bounds, word: &[u8]) -> Option<u64>
    ensures { result ≡ number_in bounds word.now }
{
    match natural(word, bounds.high) {
        Ok(number) => {
            if number < bounds.low {
                None
            } else {
                Some(number)
            }
        }
        Err(_) => None,
    }
}

fn first_named(rows: &[OptionRow], name: &str) -> Option<OptionRow>
    ensures { result ≡ find (λ row. bytes_eq row.name.now name.now) rows.now }
{
    rows.iter().copied().find(|row| row.name == name)
}

fn row_named(rows: &[OptionRow], name: &str) -> Option<OptionRow>
    ensures { option_map option_seen result ≡ find (λ row. bytes_eq row.name name.now) (map option_seen rows.now) }
{
    first_named(rows, name)
}

// Whether it isn't empty and doesn't begin with a dash.
fn is_name(word: &[u8]) -> bool
    ensures { result ≡ is_name word.now }
{
    match word {
        [first, ..] => *first != b'-',
        [] => false,
    }
}

// What the word gives to an option.
fn value_in<'a>(takes: Takes, word: &'a str) -> Option<Value<'a>>
    ensures { option_map value_seen result ≡ value_in takes word.entry.now }
{
    match takes {
        Takes::Nothing => Some(Value::Nothing),
        Takes::Number(bounds) => match number_of(bounds, word.as_bytes()) {
            Some(number) => Some(Value::Number(number)),
            None => None,
        },
        Takes::Name => {
            if is_name(word.as_bytes()) {
                Some(Value::Text(word))
            } else {
                None
            }
        }
    }
}

// The option of this row, with its value as it was said.
fn given_with<'a>(row: OptionRow, text: Option<&'a str>) -> Option<Given<'a>>
    ensures { option_map given_seen result ≡ given_with row.name.now row.takes (option_map (λ said. said.now) text.entry) }
{
    match value_in(row.takes, text?) {
        Some(value) => Some(Given {
            name: row.name,
            value,
        }),
        None => None,
    }
}

/// The option of this name, with its value as it was said; `None` where it isn't what the option takes.
pub fn given_by<'a>(rows: &[OptionRow], name: &str, text: Option<&'a str>) -> Option<Given<'a>>
    ensures { option_map given_seen result ≡ given_by (map option_seen rows.now) name.now (option_map (λ said. said.now) text.entry) }
{
    match row_named(rows, name) {
        Some(row) => given_with(row, text),
        None => None,
    }
}
