//! How the lines of files go into the sketches of their groups, and tables are written meanwhile.
ghost use Rattle.std.specs.Prelude.{⊤};

use crate::failure::Failure;
use crate::images::write_images;
use crate::options::{Making, Reading, Showing};
use crate::reader::Reader;
use crate::table::Table;
use log_groups::answers::Surety;
use log_groups::fault::Fault;
use log_groups::groups::Groups;
use log_groups::lines::{TakeLine, next_line, take_lines};
use log_groups::summary::{Form, ReadLine, Summary, sum_up};
use std::alloc::Global;
use std::io::{BufReader, Read, Write};

/// Takes lines, and writes a table after so many of them each.
#[derive(Drop)]
pub struct Lines<'o, W: Write + Drop> {
    pub summary: Summary<Reader<'o>>,
    showing: &'o Showing<'o>,
    /// There is a column for the group.
    has_keys: bool,
    has_weights: bool,
    /// How many lines were taken since the last table.
    taken: u64,
    /// The key of a line with a weight.
    key: Vec<u8>,
    pub output: W,
}

impl<W: Write + Drop> TakeLine for Lines<'_, W> {
    ghost takes = { λ s l t. ⊤ };

    ghost leaves = { λ s t. ⊤ };

    fn take_line(&mut self, alloc: Global, line: &[u8]) -> Result<(), Fault> {
        if self.has_weights {
            self.take_weighted(alloc, line)?;
        } else {
            self.summary.take_line(alloc, line)?;
        }
        self.taken = self.taken.saturating_add(1);
        if Some(self.taken) == self.showing.every {
            self.taken = 0;
            self.write_table(alloc)?;
            self.output.write_all(b"\n")?;
            self.output.flush()?;
        }
        Ok(())
    }
}

/// What reads files.
pub trait TakeFile {
    /// Takes the lines of a file of this name.
    fn take_file<R: Read + Drop>(
        &mut self,
        alloc: Global,
        name: &str,
        input: R,
    ) -> Result<(), Failure>;
}

impl<W: Write + Drop> TakeFile for Lines<'_, W> {
    /// Takes the lines of a file, of which the first one may be a header.
    fn take_file<R: Read + Drop>(
        &mut self,
        alloc: Global,
        name: &str,
        input: R,
    ) -> Result<(), Failure> {
        self.summary.reader.position.begin(name)?;
        let mut input = BufReader::with_capacity(alloc, MOST_AHEAD, input).map_err(Fault::Input)?;
        if self.summary.reader.reading.has_header {
            let mut line = Vec::new(alloc);
            if next_line(&mut input, &mut line).map_err(Fault::Input)? {
                self.summary.reader.read_header(alloc, &line)?;
            }
        }
        Ok(self.take_rest(alloc, &mut input)?)
    }
}

impl<'o, W: Write + Drop> Lines<'o, W> {
    /// Creates what takes lines.
    pub fn new(
        alloc: Global,
        (reading, making, showing): (&'o Reading<'o>, Making, &'o Showing<'o>),
        seed: u64,
        output: W,
    ) -> Result<Self, Fault> {
        let form = Form {
            kind: making.kind,
            decimals: reading.decimals,
        };
        let groups = Groups::new(alloc, seed, making.most_groups);
        Ok(Lines {
            summary: Summary::new(alloc, Reader::new(alloc, reading)?, groups, form),
            showing,
            has_keys: reading.by_file || !reading.groups.is_empty(),
            has_weights: reading.weight.is_some(),
            taken: 0,
            key: Vec::new(alloc),
            output,
        })
    }

    /// Takes the lines that are left of an input.
    fn take_rest<R: Read>(&mut self, alloc: Global, input: &mut BufReader<R>) -> Result<(), Fault> {
        if self.has_weights || self.showing.every.is_some() {
            take_lines(alloc, input, self)?;
        } else {
            sum_up(alloc, input, &mut self.summary)?;
        }
        Ok(())
    }

    /// Takes a line that has a weight.
    fn take_weighted(&mut self, alloc: Global, line: &[u8]) -> Result<(), Fault> {
        let Some(item) = self.summary.reader.read(line, &mut self.key)? else {
            return Ok(());
        };
        let Some(weight) = self.summary.reader.weight_of(line)? else {
            return Ok(());
        };
        let form = self.summary.form;
        let groups = &mut self.summary.groups;
        groups.add_weighted(alloc, &self.key, (item, weight), form)
    }

    /// Writes an image of each group.
    pub fn write_images(&mut self, alloc: Global) -> Result<(), Fault> {
        write_images(alloc, &mut self.output, &self.summary.groups, true)
    }

    /// Writes a table of what was taken so far, and returns how many keys had bytes replaced.
    pub fn write_table(&mut self, alloc: Global) -> Result<u64, Fault> {
        self.summary.groups.sort()?;
        let surety = if self.has_weights {
            Surety::Merges
        } else {
            Surety::Updates
        };
        let groups = &self.summary.groups;
        let table = Table::new(alloc, groups, self.showing, self.has_keys, surety)?;
        table.write(&mut self.output)
    }
}

/// The most bytes that are read ahead.
pub const MOST_AHEAD: usize = 65_536;
