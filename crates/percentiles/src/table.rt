//! Tables of percentiles.
use crate::chart::Scale;
use crate::options::{Format, Showing};
use log_groups::answers::{Answer, Cell, Column, Surety, cell_of, error_of, push_number};
use log_groups::fault::Fault;
use log_groups::groups::{Group, Groups};
use log_groups::number::MOST_DECIMALS;
use log_groups::text::{columns_of, push_escaped, push_json, push_quoted, push_shown, push_spaces};
use std::alloc::{AllocError, Global};
use std::io::Write;

/// A line of the table.
#[derive(Drop)]
pub struct Row<'a> {
    pub key: &'a [u8],
    pub decimals: u8,
    pub cells: Vec<Cell>,
    /// By how much the rank of each percentile may be off, in millionths, if that is proved.
    errors: Vec<Option<u64>>,
}

impl<'a> Row<'a> {
    /// Makes the row of a group.
    fn new(
        alloc: Global,
        (key, group): (&'a [u8], &Group),
        showing: &Showing<'_>,
        surety: Surety,
    ) -> Result<Self, Fault> {
        let mut cells = Vec::with_capacity(alloc, showing.columns.len())?;
        let mut errors = Vec::new(alloc);
        for column in &showing.columns {
            cells.push(cell_of(group, column, surety)?)?;
            if let Column::Point(_, fraction) = column
                && showing.format == Format::Json
            {
                errors.push(error_of(&group.sketch, *fraction, surety))?;
            }
        }
        Ok(Row {
            key,
            decimals: group.decimals.unwrap_or(0).min(MOST_DECIMALS),
            cells,
            errors,
        })
    }
}

/// The table.
#[derive(Drop)]
pub struct Table<'a> {
    rows: Vec<Row<'a>>,
    showing: &'a Showing<'a>,
    /// There is a column for the group.
    has_keys: bool,
    /// How many decimals all numbers are shown with.
    shown: u8,
}

impl<'a> Table<'a> {
    /// Makes the table of groups.
    pub fn new(
        alloc: Global,
        groups: &'a Groups,
        showing: &'a Showing<'a>,
        has_keys: bool,
        surety: Surety,
    ) -> Result<Self, Fault> {
        let mut rows = Vec::with_capacity(alloc, groups.by_key().len())?;
        let mut shown = 0;
        for (key, group) in groups.by_key().iter() {
            let row = Row::new(alloc, (key, group), showing, surety)?;
            for cell in &row.cells {
                shown = shown.max(cell.answer.decimals_needed(row.decimals));
            }
            rows.push(row)?;
        }
        Ok(Table {
            rows,
            showing,
            has_keys,
            shown,
        })
    }

    /// Writes the table as a whole, and returns how many keys had bytes replaced.
    pub fn write<W: Write>(&self, out: &mut W) -> Result<u64, Fault> {
        let mut text = Vec::new(*self.rows.allocator());
        let mut spoilt = 0;
        if self.showing.format == Format::Json {
            spoilt = self.push_json(&mut text)?;
        } else {
            self.push_lines(&mut text)?;
        }
        out.write_all(text.as_slice())?;
        Ok(spoilt)
    }
}

/// Adds the head of a column.
fn push_head(out: &mut Vec<u8>, column: &Column<'_>) -> Result<(), AllocError> {
    let (before, name, behind) = match column {
        Column::Count => ("count", "", ""),
        Column::Min => ("min", "", ""),
        Column::Max => ("max", "", ""),
        Column::Sum => ("sum", "", ""),
        Column::Point(name, _) => ("p", *name, ""),
        Column::AtMost(limit) => ("<=", *limit, ""),
        Column::Share(limit) => ("<=", *limit, "%"),
    };
    out.extend_from_slice(before.as_bytes())?;
    out.extend_from_slice(name.as_bytes())?;
    out.extend_from_slice(behind.as_bytes())
}

impl Table<'_> {
    /// Returns whether the table has columns of one width.
    fn is_aligned(&self) -> bool {
        matches!(self.showing.format, Format::Table | Format::Chart)
    }

    /// Adds what stands in a column of a row, or without a row its head. Column 0 is the group's.
    fn push_text(
        &self,
        out: &mut Vec<u8>,
        row: Option<&Row<'_>>,
        column: usize,
    ) -> Result<(), AllocError> {
        let Some(i) = column.checked_sub(1) else {
            return match row {
                Some(row) => self.push_key(out, row.key),
                None => out.extend_from_slice(b"group"),
            };
        };
        match (row, self.showing.columns.get(i)) {
            (None, Some(column)) => push_head(out, column),
            (Some(row), Some(_)) => self.push_cell(out, row, i),
            (_, None) => Ok(()),
        }
    }

    /// Adds a cell: in an aligned table with ~ before an estimate, and - for nothing.
    fn push_cell(&self, out: &mut Vec<u8>, row: &Row<'_>, i: usize) -> Result<(), AllocError> {
        let Some(cell) = row.cells.get(i) else {
            return Ok(());
        };
        if self.is_aligned() && cell.answer == Answer::None {
            return Ok(out.push(b'-')?);
        }
        if self.is_aligned() && !cell.is_exact {
            out.push(b'~')?;
        }
        cell.answer.push(out, row.decimals, self.shown)
    }

    /// Adds a key.
    fn push_key(&self, out: &mut Vec<u8>, key: &[u8]) -> Result<(), AllocError> {
        match self.showing.format {
            Format::Csv => push_quoted(out, key),
            Format::Tsv => push_escaped(out, key),
            _ => push_shown(out, key),
        }
    }

    /// Returns the columns of the table.
    fn columns(&self) -> std::ops::Range<usize> {
        let first = if self.has_keys { 0 } else { 1 };
        first..self.showing.columns.len().saturating_add(1)
    }

    /// Returns the widths of the columns. They are 0 unless the table is aligned.
    fn widths(&self) -> Result<Vec<usize>, AllocError> {
        let alloc = *self.rows.allocator();
        let mut widths = Vec::new(alloc);
        let mut text = Vec::new(alloc);
        for column in 0..self.columns().end {
            let mut width = 0;
            if self.is_aligned() {
                self.push_text(&mut text, None, column)?;
                width = columns_of(&text);
                for row in &self.rows {
                    text.clear();
                    self.push_text(&mut text, Some(row), column)?;
                    width = width.max(columns_of(&text));
                }
                text.clear();
            }
            widths.push(width)?;
        }
        Ok(widths)
    }

    /// Adds the lines of the table.
    fn push_lines(&self, out: &mut Vec<u8>) -> Result<(), AllocError> {
        let widths = self.widths()?;
        self.push_line(out, None, &widths)?;
        out.push(b'\n')?;
        let scale = Scale::of(&self.rows, &self.showing.columns);
        for row in &self.rows {
            self.push_line(out, Some(row), &widths)?;
            if self.showing.format == Format::Chart {
                scale.push_bar(out, row, &self.showing.columns)?;
            }
            out.push(b'\n')?;
        }
        Ok(())
    }

    /// Adds the texts of a row, or without a row the heads.
    fn push_line(
        &self,
        line: &mut Vec<u8>,
        row: Option<&Row<'_>>,
        widths: &[usize],
    ) -> Result<(), AllocError> {
        let mut text = Vec::new(*self.rows.allocator());
        for column in self.columns() {
            if column > self.columns().start {
                line.extend_from_slice(self.between())?;
            }
            text.clear();
            self.push_text(&mut text, row, column)?;
            let width = widths.get(column).copied().unwrap_or(0);
            let spaces = width.saturating_sub(columns_of(&text));
            if column == 0 {
                line.extend_from_slice(&text)?;
                push_spaces(line, spaces)?;
            } else {
                push_spaces(line, spaces)?;
                line.extend_from_slice(&text)?;
            }
        }
        Ok(())
    }

    /// Returns what stands between two columns.
    fn between(&self) -> &'static [u8] {
        match self.showing.format {
            Format::Csv => b",",
            Format::Tsv => b"\t",
            _ => b"  ",
        }
    }

    /// Adds a list of objects, and returns how many keys had bytes that aren't UTF-8.
    fn push_json(&self, out: &mut Vec<u8>) -> Result<u64, AllocError> {
        let mut spoilt = 0u64;
        out.push(b'[')?;
        for (i, row) in self.rows.iter().enumerate() {
            out.extend_from_slice(if i > 0 { b",\n{" } else { b"\n{" })?;
            if self.has_keys {
                let text = String::from_utf8_lossy(*out.allocator(), row.key)?;
                spoilt = spoilt.saturating_add((text.as_bytes() != row.key) as u64);
                out.extend_from_slice(b"\"group\":\"")?;
                push_json(out, text.as_bytes())?;
                out.extend_from_slice(b"\",")?;
            }
            self.push_members(out, row)?;
        }
        out.extend_from_slice(b"\n]\n")?;
        Ok(spoilt)
    }

    /// Adds a row's answers by their heads, which of them are exact, and by how much the ranks of
    /// the others may be off.
    fn push_members(&self, line: &mut Vec<u8>, row: &Row<'_>) -> Result<(), AllocError> {
        let alloc = *self.rows.allocator();
        let (mut exact, mut errors) = (Vec::new(alloc), Vec::new(alloc));
        let mut known = row.errors.iter();
        for (column, cell) in self.showing.columns.iter().zip(&row.cells) {
            push_name(line, column)?;
            if cell.answer == Answer::None {
                line.extend_from_slice(b"null")?;
            }
            cell.answer.push(line, row.decimals, self.shown)?;
            line.push(b',')?;
            let error = match column {
                Column::Point(..) => known.next().copied().unwrap_or(None),
                _ => None,
            };
            if cell.is_exact {
                exact.extend_from_slice(if exact.is_empty() { b"\"" } else { b",\"" })?;
                push_head(&mut exact, column)?;
                exact.push(b'"')?;
            } else if let Some(error) = error {
                if !errors.is_empty() {
                    errors.push(b',')?;
                }
                push_name(&mut errors, column)?;
                push_number(&mut errors, error as u128, ERROR_DECIMALS, ERROR_DECIMALS)?;
            }
        }
        line.extend_from_slice(b"\"exact\":[")?;
        line.extend_from_slice(&exact)?;
        line.extend_from_slice(b"],\"error\":{")?;
        line.extend_from_slice(&errors)?;
        line.extend_from_slice(b"}}")
    }
}

/// The decimals of an error.
const ERROR_DECIMALS: u8 = 6;

/// Adds the head of a column as the name of a member.
fn push_name(out: &mut Vec<u8>, column: &Column<'_>) -> Result<(), AllocError> {
    out.push(b'"')?;
    push_head(out, column)?;
    out.extend_from_slice(b"\":")
}
