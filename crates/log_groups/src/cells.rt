//! Fields that may stand in quotes, as in CSV.
use crate::fields::Place;
use crate::lines::len_before;
use std::alloc::{AllocError, Global};

/// The fields of a line with quotes, without these.
#[derive(Drop)]
pub struct Cells {
    text: Vec<u8>,
    /// Where each field ends in the text.
    ends: Vec<usize>,
}

impl Cells {
    /// Creates the fields of no line.
    pub fn new(alloc: Global) -> Self {
        Cells {
            text: Vec::new(alloc),
            ends: Vec::new(alloc),
        }
    }

    /// Returns how many fields there are.
    pub fn len(&self) -> usize {
        self.ends.len()
    }

    /// Returns the field at a place, or an empty one.
    pub fn at(&self, place: Place) -> &[u8] {
        let behind = match place {
            Place::Front(number) => number,
            Place::Back(number) => (self.ends.len() + 1).saturating_sub(number),
        };
        let Some(i) = behind.checked_sub(1) else {
            return &[];
        };
        let start = i.checked_sub(1).and_then(|before| self.ends.get(before));
        let end = self.ends.get(i).copied().unwrap_or(0);
        self.text
            .get(start.copied().unwrap_or(0)..end)
            .unwrap_or(&[])
    }

    /// Splits a line, and returns whether its quotes are closed. Blanks before a field's first quote
    /// are ignored; a separator within quotes is part of the field, and two quotes there stand for
    /// one.
    pub fn split(&mut self, line: &[u8], separator: u8) -> Result<bool, AllocError> {
        self.text.clear();
        self.ends.clear();
        let mut rest = line;
        for _ in 0..u64::MAX {
            let Some(behind) = self.take_quotes(from_quote(rest))? else {
                return Ok(false);
            };
            let len = len_before(behind, separator);
            self.text.extend_from_slice(&behind[..len])?;
            self.ends.push(self.text.len())?;
            if len == behind.len() {
                return Ok(true);
            }
            rest = &behind[len + 1..];
        }
        Ok(false)
    }

    /// Takes what stands in quotes at the front of a text, and returns the text behind it, or None
    /// if a quote isn't closed.
    fn take_quotes<'t>(&mut self, text: &'t [u8]) -> Result<Option<&'t [u8]>, AllocError> {
        let mut rest = text;
        while let [b'"', inside @ ..] = rest {
            let len = len_before(inside, b'"');
            if len == inside.len() {
                return Ok(None);
            }
            self.text.extend_from_slice(&inside[..len])?;
            rest = &inside[len + 1..];
            if let [b'"', ..] = rest {
                self.text.push(b'"')?;
            }
        }
        Ok(Some(rest))
    }
}

/// Returns the text from its first quote on, if only blanks are before it.
fn from_quote(text: &[u8]) -> &[u8] {
    let mut rest = text;
    while let [b' ' | b'\t', behind @ ..] = rest {
        rest = behind;
    }
    match rest {
        [b'"', ..] => rest,
        _ => text,
    }
}
