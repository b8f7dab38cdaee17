//! Trials: words and files for a run, and what it must come to.
//!
//! A trial is an object of a file of trials. Its `name` is printed with its verdict. `words` are those after the program's
//! name, parted by blanks or in a list; `files` has a text for each name. The run must end with the number `status`, 0 where
//! it isn't said, and write `writes` or one of the texts in `or_writes`; or no more than its first `taken` bytes.

use crate::texts::{Texts, list, number, string};
use anyhow::{Context, Result};
use ct_outside::MemShelf;
use serde_json::Value;
use std::alloc::{AllocError, Global};
use std::collections::BTreeMap;
use std::rt::Files;

// A file that is on each shelf beside those of the trial.
const COUNTED: &str = "counted";

/// A trial with its texts.
#[derive(Drop)]
pub struct Trial<'v> {
    pub name: &'v str,
    pub value: &'v Value,
    pub words: Vec<String>,
    files: BTreeMap<String, Vec<u8>>,
    writes: Vec<Vec<u8>>,
}

impl<'v> Trial<'v> {
    /// The trial that an object says.
    pub fn of<R: Files + AllocGlobal>(
        rt: &R,
        texts: &Texts<'_>,
        value: &'v Value,
    ) -> Result<Trial<'v>> {
        let mut trial = Trial {
            name: string(value, "name").context("a trial has no name")?,
            value,
            words: words_of(rt.alloc(), value.get("words").context("no words")?)?,
            files: BTreeMap::new(rt.alloc()),
            writes: Vec::new(rt.alloc()),
        };
        if let Some(Value::Object(files)) = value.get("files") {
            for (name, file) in files {
                let bytes = texts.text(rt, file)?;
                trial.files.insert(name.clone()?, bytes)?;
            }
        }
        if let Some(text) = value.get("writes") {
            trial.writes.push(texts.text(rt, text)?)?;
        }
        for text in list(value, "or_writes").unwrap_or(&[]) {
            trial.writes.push(texts.text(rt, text)?)?;
        }
        Ok(trial)
    }

    /// A number that it says.
    pub fn number(&self, name: &str) -> Option<u64> {
        number(self.value, name)
    }

    /// A shelf with its files, of which one that `cut` names has only so many bytes.
    pub fn shelf(&self, alloc: Global, length: usize) -> Result<MemShelf, AllocError> {
        let cut = string(self.value, "cut");
        let mut shelf = MemShelf::new(alloc);
        for (name, bytes) in &self.files {
            let all = bytes.as_slice();
            let kept = if cut == Some(name.as_str()) {
                all.get(..length).unwrap_or(all)
            } else {
                all
            };
            shelf.add(alloc, name, kept)?;
        }
        shelf.add(alloc, COUNTED, &[])?;
        Ok(shelf)
    }

    /// The length of the file that is cut.
    pub fn cut_length(&self) -> Option<usize> {
        let name = string(self.value, "cut")?;
        self.files.get(name).map(Vec::len)
    }

    /// Whether what it writes is said by another run alone.
    pub fn is_free(&self) -> bool {
        self.value.get("like").is_some() || self.value.get("then").is_some()
    }

    /// Whether this is a text that it must write, or as much of it as is taken.
    pub fn allows(&self, text: &[u8]) -> bool {
        let taken = self.number("taken").unwrap_or(u64::MAX) as usize;
        let is_empty = self.writes.is_empty() && text.is_empty();
        is_empty || self.writes.iter().any(|it| text == front(it, taken))
    }

    /// Whether this is a front of so many bytes of what it must write.
    pub fn has_front(&self, text: &[u8], taken: u64) -> bool {
        self.writes
            .iter()
            .any(|it| text == front(it, taken as usize))
    }
}

fn front(text: &[u8], length: usize) -> &[u8] {
    text.get(..length).unwrap_or(text)
}

/// Words that are parted by blanks, or in a list.
pub fn words_of(alloc: Global, value: &Value) -> Result<Vec<String>> {
    let mut words = Vec::new(alloc);
    match value {
        Value::String(line) => {
            for word in line.split(' ') {
                words.push(String::from_str(alloc, word)?)?;
            }
        }
        Value::Array(list) => {
            for word in list {
                let word = word.as_str().context("a word is no string")?;
                words.push(String::from_str(alloc, word)?)?;
            }
        }
        _ => {}
    }
    Ok(words)
}
