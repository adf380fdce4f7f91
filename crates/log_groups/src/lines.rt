//! The lines of an input, taken one after another.
ghost use Rattle.std.specs.Prelude.{◌≡◌, ℕ, ◌≤◌, ◌==◌, ◌⊎◌, false, true, List, IfOk, IfSome, OnOk, OnErr, length};
ghost use Rattle.std.specs.Io.BufRead.{strip_last};
ghost use Rattle.std.specs.Io.KnownBytes.{IsAtEnd};
ghost use Rattle.std.specs.List.{position_or_len};
ghost use Rattle.sketch_base.specs.TextLines.{lines, TakesLine};
ghost use Rattle.log_groups.specs.Lines.{NextTaken, AllTaken, FirstTaken};

use crate::fault::Fault;
use memchr::memchr;
use std::alloc::Global;
use std::io::{self, BufRead, BufReader, ErrorKind, Read};

/// What takes lines.
pub trait TakeLine {
    // What a line that was taken makes of it.
    ghost takes: { Self → List ℕ → Self → Type 0 };
    // What a line that wasn't taken leaves.
    ghost leaves: { Self → Self → Type 0 };

    /// Takes a line, without its line feed.
    fn take_line(&mut self, alloc: Global, line: &[u8]) -> Result<(), Fault>
        ensures taken { OnOk result (takes self.old line.now self.new) }
        ensures left { OnErr result (leaves self.old self.new) };
}

/// Returns the place of the first `byte`, or the length if there is none.
pub fn len_before(text: &[u8], byte: u8) -> usize
    ensures value { result ≡ position_or_len (λ b. b == byte) text.now }
    ensures within { result ≤ length text.now }
{
    memchr(byte, text).unwrap_or(text.len())
}

/// Reads the next line without its line feed, and returns whether there is one. A line ends with a
/// line feed or at the end of the input.
pub fn next_line<R: Read>(input: &mut BufReader<R>, line: &mut Vec<u8>) -> io::Result<bool>
    ensures line { IfOk result (λ found. found ≡ true → TakesLine
        (⟦<BufReader<R> as Read>⟧.remaining input.old) line.new.items
        (⟦<BufReader<R> as Read>⟧.remaining input.new)) }
    ensures end { IfOk result (λ found. found ≡ false
        → IsAtEnd (⟦<BufReader<R> as Read>⟧.remaining input.old)) }
{
    line.clear();
    match input.read_until(b'\n', line) {
        Ok(0) => Ok(false),
        Ok(_) => {
            strip_feed(line);
            Ok(true)
        }
        Err(error) => Err(error),
    }
}

/// Cuts the line feed off that a line ends with, if it does.
fn strip_feed(line: &mut Vec<u8>)
    ensures { line.new.items ≡ strip_last 10 line.old.items }
{
    let len = line.len();
    if len > 0 && line[len - 1] == b'\n' {
        line.truncate(len - 1);
    }
}

/// Returns a line without the carriage return that it ends with, if it does.
#[inline(always)]
pub fn without_return(line: &[u8]) -> &[u8]
    ensures { result.now ≡ strip_last 13 line.now }
{
    let len = line.len();
    if len > 0 && line[len - 1] == b'\r' {
        &line[..len - 1]
    } else {
        line
    }
}

/// Takes each line that is left of an input, and returns how many there were.
pub fn take_lines<R: Read, T: TakeLine>(
    alloc: Global,
    input: &mut BufReader<R>,
    taker: &mut T,
) -> Result<u64, Fault>
    ensures all { IfOk result (λ count. IfSome (⟦<BufReader<R> as Read>⟧.remaining input.old)
        (λ text. AllTaken T.takes taker.old (lines text) taker.new)) }
    ensures count { IfOk result (λ count. IfSome (⟦<BufReader<R> as Read>⟧.remaining input.old)
        (λ text. count ≡ length (lines text))) }
    ensures first { OnErr result (IfSome (⟦<BufReader<R> as Read>⟧.remaining input.old)
        (λ text. FirstTaken T.takes T.leaves taker.old (lines text) taker.new)) }
{
    let mut line = Vec::new(alloc);
    for count in 0..u64::MAX {
        let more = take_next(alloc, input, taker, &mut line)?;
        if !more {
            return Ok(count);
        }
    }
    Err(Fault::Input(io::Error::from(ErrorKind::Other)))
}

/// Takes the next line, and returns whether there is one. `line` is room for a line that the buffer
/// cuts.
fn take_next<R: Read, T: TakeLine>(
    alloc: Global,
    input: &mut BufReader<R>,
    taker: &mut T,
    line: &mut Vec<u8>,
) -> Result<bool, Fault>
    ensures next { IfOk result (λ found. found ≡ true → NextTaken T.takes
        (⟦<BufReader<R> as Read>⟧.remaining input.old)
        (⟦<BufReader<R> as Read>⟧.remaining input.new) taker.old taker.new) }
    ensures end { IfOk result (λ found. found ≡ false
        → IsAtEnd (⟦<BufReader<R> as Read>⟧.remaining input.old) × (taker.new ≡ taker.old)) }
    ensures left { OnErr result ((taker.new ≡ taker.old) ⊎ T.leaves taker.old taker.new) }
{
    if take_buffered(alloc, input, taker)? {
        return Ok(true);
    }
    match next_line(input, line) {
        Ok(true) => {
            taker.take_line(alloc, line.as_slice())?;
            Ok(true)
        }
        Ok(false) => Ok(false),
        Err(error) => Err(Fault::Input(error)),
    }
}

/// Takes the next line if all of it is in the buffer, and returns whether it is. It copies and reads
/// nothing.
fn take_buffered<R: Read, T: TakeLine>(
    alloc: Global,
    input: &mut BufReader<R>,
    taker: &mut T,
) -> Result<bool, Fault>
    ensures next { IfOk result (λ found. found ≡ true → NextTaken T.takes
        (⟦<BufReader<R> as Read>⟧.remaining input.old)
        (⟦<BufReader<R> as Read>⟧.remaining input.new) taker.old taker.new) }
    ensures none { IfOk result (λ found. found ≡ false
        → (taker.new ≡ taker.old) × (input.new ≡ input.old)) }
    ensures left { OnErr result (T.leaves taker.old taker.new) }
{
    let len = len_before(input.buffer(), b'\n');
    if len == input.buffer().len() {
        return Ok(false);
    }
    taker.take_line(alloc, &input.buffer()[..len])?;
    input.consume(len + 1);
    Ok(true)
}
