//! How lines of images are merged by their keys, and written.
ghost use Rattle.std.specs.Prelude.{◌≡◌, false, IfNone, IfOk, IfSome, OnErr};
ghost use Rattle.log_groups.specs.Found.{AreKept};
ghost use Rattle.log_groups.specs.Joined.{IfTaken, IsLineJoined};
ghost use Rattle.percentiles.specs.Merges.{TakesImage};

use crate::failure::Failure;
use crate::lines::{MOST_AHEAD, TakeFile};
use crate::options::{Options, Task};
use crate::reports::{Position, push_cut};
use log_groups::fault::Fault;
use log_groups::groups::{Groups, Joined, Refusal};
use log_groups::images::{Merging, parts_of, push_line};
use log_groups::lines::{TakeLine, len_before, take_lines};
use log_groups::text::push_printable;
use md5::{Digest, Md5};
use std::alloc::{AllocError, Global};
use std::collections::BTreeSet;
use std::io::{BufReader, Read, Write};

/// Takes lines 'KEY<tab>IMAGE<tab>DECIMALS<tab>CHECKSUM', and merges their images by key.
#[derive(Drop)]
pub struct Images {
    name: &'static str,
    merging: Merging,
    /// The same line may come again.
    again: bool,
    position: Position,
    pub groups: Groups,
    /// The digests of the lines so far.
    seen: BTreeSet<[u8; 16]>,
    /// How many lines of this file are left out.
    refused: u64,
    /// No line was left out, of any file.
    pub is_whole: bool,
    /// How many lines are of another accuracy than those before of their key.
    unlike: u64,
    /// What is to be told.
    pub told: Vec<u8>,
}

/// The most lines of a file that are told of.
const MOST_TOLD: u64 = 10;

impl TakeLine for Images {
    ghost takes = { λ s line t. TakesImage s line t };

    ghost leaves = { λ s t. AreKept s.groups t.groups };

    fn take_line(&mut self, alloc: Global, line: &[u8]) -> Result<(), Fault> {
        let line = self.position.next(line);
        match self.join(alloc, line)? {
            Some(Joined::Taken) => Ok(()),
            Some(Joined::OtherAccuracy) => {
                self.unlike = self.unlike.saturating_add(1);
                Ok(())
            }
            Some(Joined::Refused(why)) => self.refuse(line, told_of(why)),
            None => self.refuse(line, "came before (--again takes such lines, too)"),
        }
    }
}

/// Returns what is told of a line that is left out.
fn told_of(why: Refusal) -> &'static str {
    match why {
        Refusal::NoImage => "is no image",
        Refusal::Changed => "has another checksum than it says",
        Refusal::NoDecimals => "doesn't say its decimals: give them with -d",
        Refusal::OtherKind => "is of another kind of sketch than those before",
        Refusal::OtherDecimals => "has other decimals than those before",
        Refusal::TooHeavy => "would take its key's weight over 2^64",
    }
}

impl TakeFile for Images {
    fn take_file<R: Read + Drop>(
        &mut self,
        alloc: Global,
        name: &str,
        input: R,
    ) -> Result<(), Failure> {
        self.position.begin(name)?;
        self.refused = 0;
        let mut input = BufReader::with_capacity(alloc, MOST_AHEAD, input).map_err(Fault::Input)?;
        take_lines(alloc, &mut input, self)?;
        if self.position.line == 0 && name != "-" {
            self.is_whole = false;
            self.tell(" is empty: check whether the summarize that wrote it failed\n")?;
        }
        match self.refused.saturating_sub(MOST_TOLD) {
            0 => {}
            1 => self.tell(": 1 more line is left out\n")?,
            more => {
                let text = format!(in alloc; ": {more} more lines are left out\n")?;
                self.tell(text.as_str())?;
            }
        }
        Ok(())
    }
}

impl Images {
    /// Creates what takes lines.
    pub fn new(alloc: Global, options: &Options<'_>, seed: u64) -> Self {
        Images {
            name: options.task.name(),
            merging: Merging {
                decimals: options.taking.decimals,
                for_table: options.task == Task::Percentiles,
            },
            again: options.taking.again,
            position: Position::new(alloc),
            groups: Groups::new(alloc, seed, options.making.most_groups),
            seen: BTreeSet::new(alloc),
            refused: 0,
            is_whole: true,
            unlike: 0,
            told: Vec::new(alloc),
        }
    }

    /// Tells what is to be told.
    pub fn tell_all<E: Write>(&self, errors: &mut E) {
        let (name, count) = (self.name, self.unlike);
        let _told = errors.write_all(self.told.as_slice());
        if count > 0 {
            let _told = write!(
                errors,
                "{name}: lines of another K than those before of their key: {count}; the result is as accurate as the least K\n"
            );
        }
    }

    /// Merges the image of a line, and says what came of it, or None for a line that came before.
    fn join(&mut self, alloc: Global, line: &[u8]) -> Result<Option<Joined>, Fault>
        ensures joined { IfOk result (λ found. IfSome found (IfTaken
            (IsLineJoined self.old.merging.for_table self.old.groups line.now self.new.groups)
            (AreKept self.old.groups self.new.groups))) }
        ensures again { IfOk result (λ found. IfNone found (self.new.groups ≡ self.old.groups)) }
        ensures kept { OnErr result (AreKept self.old.groups self.new.groups) }
        ensures merging { self.new.merging ≡ self.old.merging }
    {
        let is_image = parts_of(alloc, line)?.is_ok();
        if is_image && !self.again && !self.seen.insert(Md5::digest(line))? {
            return Ok(None);
        }
        Ok(Some(self.groups.join_line(alloc, line, self.merging)?))
    }

    /// Tells something of a file.
    fn tell(&mut self, what: &str) -> Result<(), AllocError>
        ensures whole { self.new.is_whole ≡ self.old.is_whole }
        ensures groups { self.new.groups ≡ self.old.groups }
        ensures merging { self.new.merging ≡ self.old.merging }
    {
        self.told.extend_from_slice(self.name.as_bytes())?;
        self.told.extend_from_slice(b": ")?;
        push_printable(&mut self.told, self.position.file.as_bytes())?;
        self.told.extend_from_slice(what.as_bytes())
    }

    /// Reports a line that is left out.
    #[inline(never)]
    fn refuse(&mut self, line: &[u8], why: &str) -> Result<(), Fault>
        ensures told { self.new.is_whole ≡ false }
        ensures groups { self.new.groups ≡ self.old.groups }
        ensures merging { self.new.merging ≡ self.old.merging }
    {
        self.refused = self.refused.saturating_add(1);
        self.is_whole = false;
        if self.refused > MOST_TOLD {
            return Ok(());
        }
        let text = format!(in *self.told.allocator(); ", line {}, key '", self.position.line)?;
        self.tell(text.as_str())?;
        let len = len_before(line, b'\t');
        if len < line.len() {
            push_cut(&mut self.told, &line[..len])?;
        }
        self.told.extend_from_slice(b"': ")?;
        self.told.extend_from_slice(why.as_bytes())?;
        Ok(self.told.extend_from_slice(b"; it is left out\n")?)
    }
}

/// Writes a line 'KEY<tab>IMAGE<tab>DECIMALS<tab>CHECKSUM' for each group.
pub fn write_images<W: Write>(
    alloc: Global,
    out: &mut W,
    groups: &Groups,
    escapes: bool,
) -> Result<(), Fault> {
    let mut line = Vec::new(alloc);
    for (key, group) in groups.by_key().iter() {
        line.clear();
        push_line(alloc, &mut line, key, group, escapes)?;
        out.write_all(line.as_slice())?;
    }
    Ok(())
}
