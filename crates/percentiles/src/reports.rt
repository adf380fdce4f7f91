//! What is told of lines that are left out or rounded.
ghost use Rattle.std.specs.Prelude.{◌≡◌};
ghost use Rattle.std.specs.Io.BufRead.{strip_last};
ghost use Rattle.percentiles.specs.Reads.{IsUnmarked};

use log_groups::lines::without_return;
use log_groups::text::push_printable;
use std::alloc::{AllocError, Global};
use std::io::Write;

/// The most bytes of a line that a message shows.
const MOST_SHOWN: usize = 200;

/// Where a line is.
#[derive(Drop)]
pub struct Position {
    /// The file's name, or 'standard input'.
    pub file: String,
    /// The line's number, counted from 1.
    pub line: u64,
}

impl Position {
    /// Creates the position before any file.
    pub fn new(alloc: Global) -> Self {
        Position {
            file: String::new(alloc),
            line: 0,
        }
    }

    /// Returns the next line of the file without what isn't part of its fields: a byte order mark in
    /// front of the first line, and a carriage return at the end.
    #[inline(always)]
    pub fn next<'l>(&mut self, line: &'l [u8]) -> &'l [u8]
        ensures line { IsUnmarked line.now → result.now ≡ strip_last 13 line.now }
        ensures file { self.new.file ≡ self.old.file }
    {
        self.line = self.line.saturating_add(1);
        without_return(if self.line == 1 {
            without_mark(line)
        } else {
            line
        })
    }

    /// Begins a file of this name.
    pub fn begin(&mut self, name: &str) -> Result<(), AllocError> {
        self.line = 0;
        self.file.clear();
        self.file.push_str(shown_name(name))
    }
}

/// Returns a line without the byte order mark that it may begin with.
fn without_mark(line: &[u8]) -> &[u8]
    ensures { IsUnmarked line.now → result.now ≡ line.now }
{
    match line {
        [0xEF, 0xBB, 0xBF, behind @ ..] => behind,
        _ => line,
    }
}

/// Returns how messages name a file.
pub fn shown_name(file: &str) -> &str {
    if file == "-" { "standard input" } else { file }
}

/// Why a line is told of.
#[derive(Clone, Copy, PartialEq, Eq)]
pub enum Reason {
    NoNumber,
    OpenQuote,
    OutOfRange,
    Rounded,
    NoObject,
    NoWeight,
}

impl Reason {
    /// Returns what lines of this reason have, and what is done with them.
    fn told(self) -> (&'static str, &'static str) {
        match self {
            Reason::NoNumber => ("without a number", "left out"),
            Reason::OpenQuote => ("with a quote that isn't closed", "left out"),
            Reason::OutOfRange => ("with a number out of range", "left out"),
            Reason::Rounded => ("with more decimals than are kept", "rounded"),
            Reason::NoObject => ("without an object of JSON", "left out"),
            Reason::NoWeight => ("without a weight that can be taken", "left out"),
        }
    }
}

/// How many lines are told of for one reason, and the first of them.
#[derive(Drop)]
struct Tally {
    reason: Reason,
    count: u64,
    first: Vec<u8>,
}

/// The lines that are told of, by the reason.
#[derive(Drop)]
pub struct Reports {
    tallies: Vec<Tally>,
}

impl Reports {
    /// Creates reports of no lines.
    pub fn new(alloc: Global) -> Self {
        Reports {
            tallies: Vec::new(alloc),
        }
    }

    /// Counts a line.
    pub fn add(&mut self, reason: Reason, at: &Position, line: &[u8]) -> Result<(), AllocError> {
        for tally in self.tallies.iter_mut() {
            if tally.reason == reason {
                tally.count = tally.count.saturating_add(1);
                return Ok(());
            }
        }
        let mut first = Vec::new(*self.tallies.allocator());
        push_line(&mut first, at, line)?;
        Ok(
            self.tallies.push(Tally {
                reason,
                count: 1,
                first,
            })?,
        )
    }

    /// Tells of all lines.
    pub fn tell<E: Write>(&self, name: &str, errors: &mut E) {
        for tally in &self.tallies {
            let (what, done) = tally.reason.told();
            let (s, is) = if tally.count == 1 {
                ("", "is")
            } else {
                ("s", "are")
            };
            let _told = write!(
                errors,
                "{name}: {} line{s} {what} {is} {done}; the first: ",
                tally.count
            );
            let _told = errors.write_all(tally.first.as_slice());
            let _told = errors.write_all(b"\n");
        }
    }

    /// Returns whether no line was left out. Those without a number don't count if they may be.
    pub fn are_none(&self, ignores: bool) -> bool {
        self.tallies.iter().all(|tally| match tally.reason {
            Reason::NoNumber => ignores,
            Reason::Rounded => true,
            _ => false,
        })
    }
}

/// Adds a line's file, number and text.
fn push_line(out: &mut Vec<u8>, at: &Position, line: &[u8]) -> Result<(), AllocError> {
    let told = format!(in *out.allocator(); ", line {}: ", at.line)?;
    push_printable(out, at.file.as_bytes())?;
    out.extend_from_slice(told.as_bytes())?;
    push_cut(out, line)
}

/// Adds the front of a text, as a terminal may get it.
pub fn push_cut(out: &mut Vec<u8>, text: &[u8]) -> Result<(), AllocError> {
    let shown = text.len().min(MOST_SHOWN);
    push_printable(out, &text[..shown])?;
    if shown < text.len() {
        out.extend_from_slice(b"..")?;
    }
    Ok(())
}
