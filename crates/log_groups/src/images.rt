//! Images of sketches as lines of text: 'KEY<tab>IMAGE<tab>DECIMALS<tab>CHECKSUM'.
ghost use Rattle.std.specs.Prelude.{◌≡◌, ◌==◌, IfOk, OnErr, take};
ghost use Rattle.std.specs.List.{position_or_len};
ghost use Rattle.log_groups.specs.Found.{AreKept};
ghost use Rattle.log_groups.specs.Joined.{IfTaken, IsLineJoined};

use crate::fault::Fault;
use crate::groups::{Group, Groups, Joined, Refusal};
use crate::lines::len_before;
use crate::sketch::Sketch;
use crate::text::{push_escaped, push_unescaped};
use hex::FromHexError;
use md5::{Digest, Md5};
use sketch_base::error::{Error, ErrorKind};
use std::alloc::{AllocError, Global};

/// The parts of such a line.
#[derive(Clone, Copy)]
pub struct Parts<'l> {
    /// The key, as it is written.
    pub key: &'l [u8],
    /// The image, in hex digits.
    pub image: &'l [u8],
    pub decimals: Option<u8>,
}

/// The number of hex digits of a checksum.
const CHECK_LEN: usize = 8;

/// Returns the checksum of a line: the first eight hex digits of its MD5.
pub fn checksum(alloc: Global, line: &[u8]) -> Result<String, AllocError> {
    let digest = Md5::digest(line);
    hex::encode(alloc, &digest[..CHECK_LEN / 2])
}

/// Adds the line of a group, with its line feed. With `escapes`, a tab of the key is written \t and
/// a backslash \\.
pub fn push_line(
    alloc: Global,
    out: &mut Vec<u8>,
    key: &[u8],
    group: &Group,
    escapes: bool,
) -> Result<(), Error> {
    let mut line = Vec::new(alloc);
    if escapes {
        push_escaped(&mut line, key)?;
    } else {
        line.extend_from_slice(key)?;
    }
    line.push(b'\t')?;
    let image = group.sketch.image()?;
    line.extend_from_slice(hex::encode(alloc, image.as_slice())?.as_bytes())?;
    line.push(b'\t')?;
    if let Some(decimals) = group.decimals {
        line.push(b'0' + decimals.min(9))?;
    }
    let check = checksum(alloc, &line)?;
    out.extend_from_slice(&line)?;
    out.push(b'\t')?;
    out.extend_from_slice(check.as_bytes())?;
    out.push(b'\n')?;
    Ok(())
}

/// Splits a line, without its line feed, and tests its checksum if it has one.
pub fn parts_of(alloc: Global, line: &[u8]) -> Result<Result<Parts<'_>, Refusal>, AllocError>
    ensures key { IfOk result (λ parts. IfOk parts (λ p. p.key.now
        ≡ take (position_or_len (λ c. c == 9) line.now) line.now)) }
{
    let (key, Some(rest)) = split_tab(line) else {
        return Ok(Err(Refusal::NoImage));
    };
    let (image, rest) = split_tab(rest);
    let (digit, check) = split_tab(rest.unwrap_or(&[]));
    if let Some(check) = check {
        let checked = &line[..line.len().saturating_sub(check.len() + 1)];
        if checksum(alloc, checked)?.as_bytes() != check {
            return Ok(Err(Refusal::Changed));
        }
    }
    let decimals = match digit {
        [] if rest.is_none() || check.is_some() => None,
        [digit @ b'0'..=b'9'] => Some(*digit - b'0'),
        _ => return Ok(Err(Refusal::NoImage)),
    };
    Ok(Ok(Parts {
        key,
        image,
        decimals,
    }))
}

/// Splits at the first tab, if there is one.
fn split_tab(text: &[u8]) -> (&[u8], Option<&[u8]>)
    ensures front { result.0.now ≡ take (position_or_len (λ c. c == 9) text.now) text.now }
{
    let len = len_before(text, b'\t');
    match &text[len..] {
        [_, behind @ ..] => (&text[..len], Some(behind)),
        [] => (text, None),
    }
}

/// How lines of images are read.
#[derive(Clone, Copy)]
pub struct Merging {
    /// The decimals of lines that don't say theirs.
    pub decimals: Option<u8>,
    /// Each image has to say its decimals, and keys are shown without escapes.
    pub for_table: bool,
}

impl Groups {
    /// Merges the image of a line into the group of its key, or begins a group with it, and says
    /// what became of the line.
    pub fn join_line(&mut self, alloc: Global, line: &[u8], how: Merging) -> Result<Joined, Fault>
        ensures joined { IfOk result (IfTaken
            (IsLineJoined how.for_table self.old line.now self.new) (AreKept self.old self.new)) }
        ensures kept { OnErr result (AreKept self.old self.new) }
    {
        let parts = match parts_of(alloc, line)? {
            Ok(parts) => parts,
            Err(why) => return Ok(Joined::Refused(why)),
        };
        let Some(coming) = group_of(alloc, parts, how)? else {
            return Ok(Joined::Refused(Refusal::NoImage));
        };
        if coming.decimals.is_none() && how.for_table {
            return Ok(Joined::Refused(Refusal::NoDecimals));
        }
        let mut key = Vec::new(alloc);
        if how.for_table {
            push_unescaped(&mut key, parts.key)?;
        } else {
            key.extend_from_slice(parts.key)?;
        }
        self.join(alloc, &key, coming)
    }
}

/// Returns the group of a line's image, or None if that is none.
fn group_of(alloc: Global, parts: Parts<'_>, how: Merging) -> Result<Option<Group>, Error> {
    let bytes = match hex::decode(alloc, parts.image) {
        Ok(bytes) => bytes,
        Err(FromHexError::OutOfMemory) => return Err(Error::new(ErrorKind::OutOfMemory)),
        Err(_) => return Ok(None),
    };
    let Some(sketch) = Sketch::load(alloc, &bytes)? else {
        return Ok(None);
    };
    Ok(Some(Group {
        sketch,
        decimals: parts.decimals.or(how.decimals),
        sum: None,
    }))
}
