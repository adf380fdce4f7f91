//! The fields of a line that make its key and its number.
ghost use Rattle.std.specs.Prelude.{◌≡◌, ◌++◌, false, OnOk};
ghost use Rattle.log_groups.specs.Fields.{IsPlain, joined, key_of};

use crate::cells::Cells;
use crate::fields::{Place, Separator, count_fields, field};
use crate::lines::len_before;
use crate::number::{Reading, read_number};
use crate::text::push_in_quotes;
use std::alloc::{AllocError, Global};

/// Which fields of a line are its key and its number.
#[derive(Drop)]
pub struct Columns {
    pub separator: Separator,
    pub groups: Vec<Place>,
    pub value: Place,
    /// The field that holds the number's weight.
    pub weight: Option<Place>,
    /// How many decimals of the number are kept.
    pub decimals: u8,
    /// What the last line says as its weight.
    pub weighs: Reading,
    /// The fields of a line that has quotes.
    cells: Cells,
}

impl Columns {
    /// Creates columns that make a key of no field, without a weight.
    pub fn new(alloc: Global, separator: Separator, value: Place, decimals: u8) -> Self {
        Columns {
            separator,
            groups: Vec::new(alloc),
            value,
            weight: None,
            decimals,
            weighs: Reading::NoNumber,
            cells: Cells::new(alloc),
        }
    }

    /// Reads the number of a line, and adds its key to `key`: the field, or several with the
    /// separator between them, or a space if it is blanks. Returns None if a quote isn't closed.
    #[inline(always)]
    pub fn read(&mut self, line: &[u8], key: &mut Vec<u8>) -> Result<Option<Reading>, AllocError>
        ensures key { IsPlain self.old.separator line.now → OnOk result (key.new.items
            ≡ key.old.items ++ key_of self.old.separator self.old.groups.items line.now) }
        ensures separator { self.new.separator ≡ self.old.separator }
        ensures groups { self.new.groups ≡ self.old.groups }
    {
        if self.has_quotes(line) {
            return self.read_quoted(line, key);
        }
        if let Some(weight) = self.weight {
            self.weighs = read_number(field(line, self.separator, weight), 0);
        }
        push_key(line, self.separator, &self.groups, key)?;
        let number = field(line, self.separator, self.value);
        Ok(Some(read_number(number, self.decimals)))
    }

    /// Returns whether a line has quotes that mean something.
    #[inline(always)]
    fn has_quotes(&self, line: &[u8]) -> bool
        ensures plain { IsPlain self.now.separator line.now → result ≡ false }
    {
        match self.separator {
            Separator::Byte(b',' | b';') => len_before(line, b'"') < line.len(),
            _ => false,
        }
    }

    /// Does what `read` does with a line that has quotes: one of several fields of a key that holds
    /// the separator or a quote stands in quotes.
    #[inline(never)]
    fn read_quoted(&mut self, line: &[u8], key: &mut Vec<u8>) -> Result<Option<Reading>, AllocError>
        ensures separator { self.new.separator ≡ self.old.separator }
        ensures groups { self.new.groups ≡ self.old.groups }
    {
        let joint = self.joint();
        if !self.cells.split(line, joint)? {
            return Ok(None);
        }
        if let Some(weight) = self.weight {
            self.weighs = read_number(self.cells.at(weight), 0);
        }
        if let [only] = self.groups.as_slice() {
            key.extend_from_slice(self.cells.at(*only))?;
        } else {
            for (i, place) in self.groups.iter().enumerate() {
                if i > 0 {
                    key.push(joint)?;
                }
                push_part(key, self.cells.at(*place), joint)?;
            }
        }
        Ok(Some(read_number(self.cells.at(self.value), self.decimals)))
    }

    /// Returns what joins the fields of a key.
    pub fn joint(&self) -> u8 {
        self.separator.joint()
    }

    /// Returns the fields of a line, as of a header; None if a quote isn't closed.
    pub fn names(
        &mut self,
        alloc: Global,
        line: &[u8],
    ) -> Result<Option<Vec<Vec<u8>>>, AllocError> {
        let (is_quoted, joint) = (self.has_quotes(line), self.joint());
        if is_quoted && !self.cells.split(line, joint)? {
            return Ok(None);
        }
        let count = if is_quoted {
            self.cells.len()
        } else {
            count_fields(line, self.separator)
        };
        let mut names = Vec::new(alloc);
        for i in 0..count {
            let place = Place::Front(i.saturating_add(1));
            let name = if is_quoted {
                self.cells.at(place)
            } else {
                field(line, self.separator, place)
            };
            names.push(Vec::from_slice(alloc, name)?)?;
        }
        Ok(Some(names))
    }
}

/// Adds the fields of a line at these places to a key, with what joins them between them.
#[inline(always)]
fn push_key(
    line: &[u8],
    separator: Separator,
    places: &[Place],
    key: &mut Vec<u8>,
) -> Result<(), AllocError>
    ensures key { OnOk result (key.new.items
        ≡ key.old.items ++ key_of separator places.now line.now) }
{
    let [first, rest @ ..] = places else {
        return Ok(());
    };
    key.extend_from_slice(field(line, separator, *first))?;
    push_joined(line, separator, rest, key)
}

/// Adds the fields of a line at these places to a key, with what joins them in front of each.
#[inline(always)]
fn push_joined(
    line: &[u8],
    separator: Separator,
    places: &[Place],
    key: &mut Vec<u8>,
) -> Result<(), AllocError>
    ensures key { OnOk result (key.new.items
        ≡ key.old.items ++ joined separator places.now line.now) }
{
    for place in places {
        key.push(separator.joint())?;
        key.extend_from_slice(field(line, separator, *place))?;
    }
    Ok(())
}

/// Adds one of several fields to a key: in quotes if it holds the separator or a quote.
pub fn push_part(key: &mut Vec<u8>, part: &[u8], joint: u8) -> Result<(), AllocError> {
    if len_before(part, joint) == part.len() && len_before(part, b'"') == part.len() {
        return key.extend_from_slice(part);
    }
    push_in_quotes(key, part)
}
