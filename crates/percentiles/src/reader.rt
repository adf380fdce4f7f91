//! How a line is read: its key and its number, by fields or as an object of JSON.
ghost use Rattle.std.specs.Prelude.{◌≡◌, ◌++◌, OnOk};
ghost use Rattle.log_groups.specs.Fields.{IsPlain, key_of};
ghost use Rattle.percentiles.specs.Reads.{reads};

use crate::failure::Failure;
use crate::options::{Form, Reading};
use crate::reports::{Position, Reason, Reports};
use json::{Error as JsonError, Scratch, Value};
use log_groups::columns::{Columns, push_part};
use log_groups::fault::Fault;
use log_groups::fields::{Place, Separator};
use log_groups::number::{Reading as Number, read_number};
use log_groups::summary::ReadLine;
use std::alloc::{AllocError, Global};

/// Reads lines, and keeps what is to be told of them.
#[derive(Drop)]
pub struct Reader<'o> {
    pub reading: &'o Reading<'o>,
    columns: Columns,
    pub position: Position,
    pub reports: Reports,
    scratch: Scratch,
}

impl ReadLine for Reader<'_> {
    ghost reads = { λ reader line found. reads reader line found };

    #[inline(always)]
    fn read(&mut self, line: &[u8], key: &mut Vec<u8>) -> Result<Option<i64>, Fault> {
        let line = self.position.next(line);
        key.clear();
        if self.reading.by_file {
            self.begin_key(key)?;
        }
        let number = match self.reading.form {
            Form::Separated(_) => self.read_fields(line, key)?,
            Form::Json => self.read_object(line, key)?,
        };
        Ok(number)
    }
}

impl<'o> Reader<'o> {
    /// Creates what reads lines.
    pub fn new(alloc: Global, reading: &'o Reading<'o>) -> Result<Self, AllocError> {
        let separator = match reading.form {
            Form::Separated(separator) => separator,
            Form::Json => Separator::Byte(b','),
        };
        let value = numbered(reading.value);
        let mut columns = Columns::new(alloc, separator, value, reading.decimals);
        for name in &reading.groups {
            columns.groups.push(numbered(name))?;
        }
        columns.weight = reading.weight.map(|name| numbered(name));
        Ok(Reader {
            reading,
            columns,
            position: Position::new(alloc),
            reports: Reports::new(alloc),
            scratch: Scratch::new(alloc),
        })
    }

    /// Begins a key with the name of the file.
    fn begin_key(&self, key: &mut Vec<u8>) -> Result<(), AllocError> {
        let name = self.position.file.as_bytes();
        if self.reading.groups.is_empty() {
            return key.extend_from_slice(name);
        }
        push_part(key, name, self.columns.joint())?;
        Ok(key.push(self.columns.joint())?)
    }

    /// Finds the fields by the names of a header.
    pub fn read_header(&mut self, alloc: Global, line: &[u8]) -> Result<(), Failure> {
        let line = self.position.next(line);
        let Some(names) = self.columns.names(alloc, line)? else {
            return Err(Failure::OpenQuote);
        };
        self.columns.value = found(self.reading.value, &names)?;
        self.columns.groups.clear();
        for name in &self.reading.groups {
            self.columns.groups.push(found(name, &names)?)?;
        }
        if let Some(name) = self.reading.weight {
            self.columns.weight = Some(found(name, &names)?);
        }
        Ok(())
    }

    /// Counts a line for this reason.
    #[inline(never)]
    pub fn report(&mut self, reason: Reason, line: &[u8]) -> Result<(), AllocError>
        ensures columns { self.new.columns ≡ self.old.columns }
        ensures reading { self.new.reading ≡ self.old.reading }
    {
        self.reports.add(reason, &self.position, line)
    }

    /// Reads a line whose fields are separated, and adds its key.
    #[inline(always)]
    fn read_fields(&mut self, line: &[u8], key: &mut Vec<u8>) -> Result<Option<i64>, AllocError>
        ensures key { IsPlain self.old.columns.separator line.now → OnOk result (key.new.items
            ≡ key.old.items ++ key_of self.old.columns.separator self.old.columns.groups.items line.now) }
        ensures separator { self.new.columns.separator ≡ self.old.columns.separator }
        ensures groups { self.new.columns.groups ≡ self.old.columns.groups }
        ensures reading { self.new.reading ≡ self.old.reading }
    {
        match self.columns.read(line, key)? {
            Some(Number::Exact(number)) => Ok(Some(number)),
            Some(other) => self.told(other, line),
            None => {
                self.report(Reason::OpenQuote, line)?;
                Ok(None)
            }
        }
    }

    /// Reports a line that has no number, or one that isn't kept exactly. Returns what is kept.
    fn told(&mut self, number: Number, line: &[u8]) -> Result<Option<i64>, AllocError>
        ensures columns { self.new.columns ≡ self.old.columns }
        ensures reading { self.new.reading ≡ self.old.reading }
    {
        let reason = match number {
            Number::Exact(_) => return Ok(number.number()),
            Number::Rounded(_) => Reason::Rounded,
            Number::OutOfRange => Reason::OutOfRange,
            Number::NoNumber => Reason::NoNumber,
        };
        self.report(reason, line)?;
        Ok(number.number())
    }

    /// Returns the weight of the line that was read last, or reports it and returns None.
    pub fn weight_of(&mut self, line: &[u8]) -> Result<Option<u64>, AllocError> {
        if let Number::Exact(weight @ 1..=MOST_WEIGHT) = self.columns.weighs {
            return Ok(Some(weight as u64));
        }
        self.report(Reason::NoWeight, line)?;
        Ok(None)
    }

    /// Reads a line that is an object of JSON, and adds its key.
    #[inline(never)]
    fn read_object(&mut self, line: &[u8], key: &mut Vec<u8>) -> Result<Option<i64>, AllocError>
        ensures separator { self.new.columns.separator ≡ self.old.columns.separator }
        ensures groups { self.new.columns.groups ≡ self.old.columns.groups }
        ensures reading { self.new.reading ≡ self.old.reading }
    {
        let number = match Value::from_slice(*key.allocator(), line, &mut self.scratch) {
            Ok(object) if matches!(object, Value::Object(_)) => {
                push_members(key, &object, &self.reading.groups)?;
                if let Some(name) = self.reading.weight {
                    self.columns.weighs = read_number(text_of(object.get(name)), 0);
                }
                let text = text_of(object.get(self.reading.value));
                read_number(text, self.reading.decimals)
            }
            Err(JsonError::OutOfMemory) => return Err(AllocError),
            _ => {
                self.reports.add(Reason::NoObject, &self.position, line)?;
                return Ok(None);
            }
        };
        self.told(number, line)
    }
}

/// Adds the members of an object that make its key. Of several one that holds a comma or a quote
/// stands in quotes.
fn push_members(key: &mut Vec<u8>, object: &Value<'_>, names: &[&str]) -> Result<(), AllocError> {
    for (i, name) in names.iter().enumerate() {
        if i > 0 {
            key.push(b',')?;
        }
        if names.len() > 1 {
            push_part(key, text_of(object.get(name)), b',')?;
        } else {
            key.extend_from_slice(text_of(object.get(name)))?;
        }
    }
    Ok(())
}

/// The greatest weight of a number.
const MOST_WEIGHT: i64 = (1 << 61) - 1;

/// Returns the place of a field that has a number.
fn numbered(name: &str) -> Place {
    Place::parse(name).unwrap_or(Place::Front(1))
}

/// Returns the place of the field of this name, or of this number if no field has the name.
fn found(wanted: &str, names: &[Vec<u8>]) -> Result<Place, Failure> {
    let mut place = None;
    for (i, name) in names.iter().enumerate() {
        if name.as_slice() == wanted.as_bytes() {
            if place.is_some() {
                return Err(Failure::TwoFields);
            }
            place = Some(Place::Front(i.saturating_add(1)));
        }
    }
    match place.or_else(|| Place::parse(wanted)) {
        Some(place) => Ok(place),
        None => Err(Failure::NoField),
    }
}

/// Returns the text of a value of JSON: of a number its digits, and of null, a list or an object
/// nothing.
fn text_of<'v>(value: Option<&Value<'v>>) -> &'v [u8] {
    match value {
        Some(Value::String(text)) => text.as_bytes(),
        Some(Value::Number(digits)) => digits.as_bytes(),
        Some(Value::Bool(true)) => b"true",
        Some(Value::Bool(false)) => b"false",
        _ => &[],
    }
}
