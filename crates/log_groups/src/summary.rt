//! The groups of the lines of an input.
ghost use Rattle.std.specs.Prelude.{◌≡◌, ◌+◌, ℕ, ℤ, List, Option, None, OnOk, OnErr, IfOk, IfSome, length};
ghost use Rattle.std.specs.Option.{option_map};
ghost use Rattle.log_groups.specs.Fed.{FedIsOneRun};
ghost use Rattle.log_groups.specs.Found.{group_of};
ghost use Rattle.sketch_base.specs.TextLines.{lines};
ghost use Rattle.log_groups.specs.Summary.{Took, Left, AddsUp, IsSummaryOf, LinesAddUp, RowsAreExact};

use crate::fault::Fault;
use crate::groups::Groups;
use crate::lines::{TakeLine, take_lines};
use crate::sketch::Kind;
use sketch_base::error::{Error, ErrorKind};
use std::alloc::Global;
use std::io::{BufReader, Read};

/// How lines are read.
pub trait ReadLine {
    // What a line may be read as: its key and its number, or None if it is left out.
    ghost reads: { Self → List ℕ → Option (List ℕ × ℤ) → Type 0 };

    /// Reads a line: puts its key into `key`, and returns its number, or None if it is left out. A
    /// reader may count and keep what it left out, but goes on to read lines alike.
    fn read(&mut self, line: &[u8], key: &mut Vec<u8>) -> Result<Option<i64>, Fault>
        ensures answer { IfOk result (λ found.
            reads self.old line.now (option_map (λ x. (key.new.items, x)) found)) }
        ensures alike { (l : List ℕ) (o : Option (List ℕ × ℤ)) → reads self.new l o → reads self.old l o };
}

/// How new groups are made.
#[derive(Clone, Copy)]
pub struct Form {
    pub kind: Kind,
    /// How many of the digits of each number are decimals.
    pub decimals: u8,
}

/// What takes lines and adds their numbers to the groups of their keys.
#[derive(Drop)]
pub struct Summary<T> {
    pub reader: T,
    pub groups: Groups,
    pub form: Form,
    /// How many lines were left out.
    pub left_out: u64,
    key: Vec<u8>,
}

impl<T: ReadLine> Summary<T> {
    /// Creates a summary of no lines.
    pub fn new(alloc: Global, reader: T, groups: Groups, form: Form) -> Self {
        Summary {
            reader,
            groups,
            form,
            left_out: 0,
            key: Vec::new(alloc),
        }
    }

    /// Counts a line that is left out.
    fn leave_out(&mut self) -> Result<(), Fault>
        ensures counted { OnOk result (self.new.left_out ≡ self.old.left_out + 1) }
        ensures kept { OnErr result (self.new.left_out ≡ self.old.left_out) }
        ensures groups { self.new.groups ≡ self.old.groups }
        ensures form { self.new.form ≡ self.old.form }
        ensures reader { self.new.reader ≡ self.old.reader }
    {
        match self.left_out.checked_add(1) {
            Some(left_out) => {
                self.left_out = left_out;
                Ok(())
            }
            None => Err(Fault::Sketch(Error::new(ErrorKind::InvalidArgument))),
        }
    }
}

impl<T: ReadLine> TakeLine for Summary<T> {
    ghost takes = { λ old line new. Took T.reads old line new };

    ghost leaves = { λ old new. Left T.reads old new };

    fn take_line(&mut self, alloc: Global, line: &[u8]) -> Result<(), Fault> {
        let found = self.reader.read(line, &mut self.key)?;
        match found {
            Some(item) => self.groups.add(alloc, self.key.as_slice(), item, self.form),
            None => self.leave_out(),
        }
    }
}

/// Adds the numbers of all lines that are left of an input, and returns how many lines there are.
pub fn sum_up<R: Read, T: ReadLine>(
    alloc: Global,
    input: &mut BufReader<R>,
    summary: &mut Summary<T>,
) -> Result<u64, Fault>
    ensures all { IfOk result (λ count. IfSome (⟦<BufReader<R> as Read>⟧.remaining input.old)
        (λ text. AddsUp T.reads summary.old (lines text) summary.new)) }
    ensures count { IfOk result (λ count. IfSome (⟦<BufReader<R> as Read>⟧.remaining input.old)
        (λ text. count ≡ length (lines text))) }
    ensures whole { ((key : List ℕ) → group_of summary.old.groups key ≡ None)
        → IfOk result (λ count. IfSome (⟦<BufReader<R> as Read>⟧.remaining input.old)
        (λ text. IsSummaryOf summary.old.form.kind (T.reads summary.old.reader) text
        summary.new.groups)) }
{
    take_lines(alloc, input, summary)
}

/// Lines that are taken one after another add up.
pub fn lines_add_up<T: ReadLine>()
    ensures lines { LinesAddUp T.reads }
{}

/// In a summary, each group has the count, the least and the greatest of its key's numbers.
pub fn rows_are_exact()
    ensures rows { RowsAreExact }
{}

/// A sketch that was fed numbers is the sketch that its family makes of their list, under one word of
/// coins.
pub fn fed_is_one_run()
    ensures run { FedIsOneRun }
{}
