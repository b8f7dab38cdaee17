//! Texts as a file of trials says them: a string, or a list of lines and pieces.
//!
//! A string in a list is a line, to which its end is added. A piece is `{"text": NAME}`, a text that has a name in the same
//! file; `{"file": NAME}`, a file beside it; or `{"bytes": STRING}`. It may say `"from"` and `"to"`: the first of these two
//! strings, which stands in it, gives way to the other; `"first"`: only so many bytes of it; and `"times"`: so often.

use anyhow::{Context, Result, bail};
use serde_json::Value;
use std::collections::BTreeMap;
use std::rt::Files;
use std::{fs, str};

/// The texts that have names in a file of trials, in a folder.
#[derive(Drop)]
pub struct Texts<'a> {
    folder: &'a str,
    named: BTreeMap<String, Vec<u8>>,
}

impl<'a> Texts<'a> {
    /// Those of a list of names and texts, each of which may use those before it.
    pub fn of<R: Files + AllocGlobal>(rt: &R, folder: &'a str, list: &[Value]) -> Result<Self> {
        let mut texts = Texts {
            folder,
            named: BTreeMap::new(rt.alloc()),
        };
        for value in list {
            let name = string(value, "name").context("a text has no name")?;
            let text = texts.text(rt, value.get("text").context("no text")?)?;
            texts
                .named
                .insert(String::from_str(rt.alloc(), name)?, text)?;
        }
        Ok(texts)
    }

    /// What a text is.
    pub fn text<R: Files + AllocGlobal>(&self, rt: &R, value: &Value) -> Result<Vec<u8>> {
        let mut text = Vec::new(rt.alloc());
        match value {
            Value::String(bytes) => text.extend_from_slice(bytes.as_bytes())?,
            Value::Array(parts) => {
                for part in parts {
                    self.push_part(rt, &mut text, part)?;
                }
            }
            _ => self.push_part(rt, &mut text, value)?,
        }
        Ok(text)
    }

    fn push_part<R: Files + AllocGlobal>(
        &self,
        rt: &R,
        text: &mut Vec<u8>,
        part: &Value,
    ) -> Result<()> {
        if let Value::String(line) = part {
            text.extend_from_slice(line.as_bytes())?;
            text.push(b'\n')?;
            return Ok(());
        }
        let piece = self.changed_piece(rt, part)?;
        let first = number(part, "first").unwrap_or(u64::MAX);
        let kept = piece.get(..first as usize).unwrap_or(&piece);
        for _ in 0..number(part, "times").unwrap_or(1) {
            text.extend_from_slice(kept)?;
        }
        Ok(())
    }

    fn changed_piece<R: Files + AllocGlobal>(&self, rt: &R, part: &Value) -> Result<Vec<u8>> {
        let piece = self.piece(rt, part)?;
        let (Some(from), Some(to)) = (string(part, "from"), string(part, "to")) else {
            return Ok(piece);
        };
        let (above, below) = str::from_utf8(&piece)?
            .split_once(from)
            .context("not there")?;
        let mut changed = Vec::from_slice(rt.alloc(), above.as_bytes())?;
        changed.extend_from_slice(to.as_bytes())?;
        changed.extend_from_slice(below.as_bytes())?;
        Ok(changed)
    }

    fn piece<R: Files + AllocGlobal>(&self, rt: &R, part: &Value) -> Result<Vec<u8>> {
        let alloc = rt.alloc();
        if let Some(name) = string(part, "text") {
            let text = self.named.get(name).context("no text has this name")?;
            return Ok(Vec::from_slice(alloc, text)?);
        }
        if let Some(name) = string(part, "file") {
            return Ok(fs::read(rt, format!(in alloc; "{}/{name}", self.folder)?)?);
        }
        if let Some(bytes) = string(part, "bytes") {
            return Ok(Vec::from_slice(alloc, bytes.as_bytes())?);
        }
        bail!("a piece is none")
    }
}

/// The string that an object has under this name.
pub fn string<'v>(value: &'v Value, name: &str) -> Option<&'v str> {
    value.get(name).and_then(Value::as_str)
}

/// The number that an object has under this name.
pub fn number(value: &Value, name: &str) -> Option<u64> {
    value.get(name).and_then(Value::as_u64)
}

/// The list that an object has under this name.
pub fn list<'v>(value: &'v Value, name: &str) -> Option<&'v [Value]> {
    value.get(name).and_then(Value::as_array).map(Vec::as_slice)
}
