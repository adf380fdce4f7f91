//! How bytes are written: they wait in a vector, and go out together. At all times a beginning of
//! what is owed is out and the rest waits, even if memory or the output fails.
ghost use Rattle.std.specs.Prelude.{◌≡◌, ◌≤◌, ◌<◌, ◌+◌, ◌++◌, length, take, drop, [], IfOk, OnOk, OnErr};
ghost use Rattle.std.specs.Io.KnownBytes.{Appends, Keeps};
ghost use Rattle.std.specs.Fmt.{decimal};
ghost use Rattle.quantile_sketches.specs.Output.{Writes};

use std::io::{self, ErrorKind, Write};

/// Room for two numbers of at most 20 digits, with a byte after each.
pub const ROOM: usize = 42;

/// The most bytes that wait to be written.
pub const MOST_WAITING: usize = 16384;

/// Adds bytes to those that wait. If there is no room for them, all bytes go out, and nothing
/// grows.
pub fn add<W: Write>(output: &mut W, waiting: &mut Vec<u8>, bytes: &[u8]) -> io::Result<()>
    ensures { Writes result (W.contents output.old) (W.contents output.new)
        (waiting.old.items ++ bytes.now) waiting.new.items }
{
    let is_room = bytes.len() <= waiting.capacity() - waiting.len();
    if is_room && waiting.extend_from_slice(bytes).is_ok() {
        return Ok(());
    }
    write_through(output, waiting, bytes)
}

/// Writes out all bytes that wait, and then `bytes`.
fn write_through<W: Write>(output: &mut W, waiting: &mut Vec<u8>, bytes: &[u8]) -> io::Result<()>
    ensures { Writes result (W.contents output.old) (W.contents output.new)
        (waiting.old.items ++ bytes.now) waiting.new.items }
{
    write_out(output, waiting)?;
    write_bytes(output, bytes)
}

/// Writes out all bytes that wait, and flushes.
pub fn write_out<W: Write>(output: &mut W, waiting: &mut Vec<u8>) -> io::Result<()>
    ensures written { Writes result (W.contents output.old) (W.contents output.new)
        waiting.old.items [] }
    ensures nothing_waits { OnOk result (waiting.new.items ≡ []) }
{
    write_bytes(output, waiting.as_slice())?;
    waiting.clear();
    output.flush()
}

/// Writes all bytes, or, on an error, a beginning of them.
pub fn write_bytes<W: Write>(output: &mut W, bytes: &[u8]) -> io::Result<()>
    ensures { Writes result (W.contents output.old) (W.contents output.new) bytes.now [] }
{
    let mut written = 0;
    for _ in 0..u64::MAX {
        if written == bytes.len() {
            return Ok(());
        }
        written += write_some(output, &bytes[written..])?;
    }
    Err(io::Error::from(ErrorKind::Other))
}

/// Writes once, and returns the number of bytes taken: 0 if a signal interrupted the write.
fn write_some<W: Write>(output: &mut W, bytes: &[u8]) -> io::Result<usize>
    ensures within { IfOk result (λ count. count ≤ length bytes.now) }
    ensures out { IfOk result (λ count. Appends (W.contents output.old) (W.contents output.new)
        (take count bytes.now)) }
    ensures err { OnErr result (Keeps (W.contents output.old) (W.contents output.new)) }
{
    match output.write(bytes) {
        Ok(0) => Err(io::Error::from(ErrorKind::WriteZero)),
        Ok(count) => Ok(count),
        Err(error) if error.kind() == ErrorKind::Interrupted => Ok(0),
        Err(error) => Err(error),
    }
}

/// Writes the digits of a number so that they end before `end`, and returns the place of the first.
pub fn put_digits(number: u64, room: &mut [u8; ROOM], end: usize) -> usize
    requires some { 20 ≤ end }
    requires within { end ≤ ROOM }
    ensures digits { drop result room.new ≡ decimal number ++ drop end room.old }
    ensures few { end ≤ result + 20 }
    ensures within { result < end }
{
    let mut rest = number;
    let mut start = end - 1;
    while rest >= 10 {
        room[start] = b'0' + (rest % 10) as u8;
        rest /= 10;
        start -= 1;
    }
    room[start] = b'0' + rest as u8;
    start
}
