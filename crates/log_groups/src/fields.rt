//! Fields of a line.
ghost use Rattle.std.specs.Prelude.{◌≡◌, ◌+◌, ◌≤◌, ◌==◌, drop, length, reverse};
ghost use Rattle.std.specs.List.{position_or_len, slice_split};
ghost use Rattle.log_groups.specs.Fields.{joint_of, field_at, fields_of, nth_field, words_of, is_blank, is_no_blank};

use crate::lines::len_before;

/// What separates fields.
#[derive(Clone, Copy, PartialEq, Eq)]
pub enum Separator {
    /// Any run of spaces and tabs; also in front of the first field, and behind the last.
    Blanks,
    /// Each byte of this value, so that fields may be empty.
    Byte(u8),
}

impl Separator {
    /// Returns what joins the fields of a key: the separator, or a space.
    #[inline(always)]
    pub fn joint(self) -> u8
        ensures value { result ≡ joint_of self }
    {
        match self {
            Separator::Blanks => b' ',
            Separator::Byte(byte) => byte,
        }
    }
}

/// Which of its fields is asked of a line.
#[derive(Clone, Copy, PartialEq, Eq)]
pub enum Place {
    /// The field of this number, counted from 1.
    Front(usize),
    /// The field of this number, counted from 1 from the last field back.
    Back(usize),
}

impl Place {
    /// Returns the place that a text names: 1 is the first field of a line, and -1 the last one.
    pub fn parse(text: &str) -> Option<Self> {
        match text.parse::<i32>() {
            Ok(number) if number > 0 && !text.starts_with('+') => Some(Place::Front(
                number.unsigned_abs() as usize,
            )),
            Ok(number) if number < 0 => Some(Place::Back(number.unsigned_abs() as usize)),
            _ => None,
        }
    }
}

/// Returns a field of a line. A field that the line lacks is empty.
#[inline(always)]
pub fn field(line: &[u8], separator: Separator, place: Place) -> &[u8]
    ensures value { result.now ≡ field_at place (fields_of separator line.now) }
{
    match place {
        Place::Front(number) => field_from_front(line, separator, number),
        Place::Back(number) => field_from_back(line, separator, number),
    }
}

/// Returns the field of this number, counted from 1 from the last field back.
fn field_from_back(line: &[u8], separator: Separator, number: usize) -> &[u8]
    ensures value { result.now ≡ nth_field number (reverse (fields_of separator line.now)) }
{
    let (count, number) = (count_fields(line, separator), number.max(1));
    if number > count {
        return &[];
    }
    field_from_front(line, separator, count - number + 1)
}

/// Returns the field of this number, counted from 1.
#[inline(always)]
fn field_from_front(line: &[u8], separator: Separator, number: usize) -> &[u8]
    ensures value { result.now ≡ nth_field number (fields_of separator line.now) }
{
    match separator {
        Separator::Blanks => word(line, number),
        Separator::Byte(byte) => part(line, byte, number),
    }
}

/// Returns how many fields a line has.
pub fn count_fields(line: &[u8], separator: Separator) -> usize
    ensures value { result ≡ length (fields_of separator line.now) }
{
    match separator {
        Separator::Blanks => count_words(line),
        Separator::Byte(byte) => count_parts(line, byte),
    }
}

/// Returns how many words a line has.
fn count_words(line: &[u8]) -> usize
    ensures value { result ≡ length (words_of line.now) }
{
    let mut rest = without_blanks(line);
    let mut count = 0;
    while !rest.is_empty() {
        count += 1;
        rest = without_blanks(behind_word(rest));
    }
    count
}

/// Returns how many parts between separators a line has.
fn count_parts(line: &[u8], separator: u8) -> usize
    ensures value { result ≡ length (slice_split (λ c. c == separator) line.now) }
{
    let mut count = 1;
    for i in 0..line.len() {
        if line[i] == separator {
            count += 1;
        }
    }
    count
}

/// Returns whether a byte is a space or a tab.
#[inline(always)]
fn is_blank(byte: u8) -> bool
    ensures value { result ≡ is_blank byte }
{
    byte == b' ' || byte == b'\t'
}

/// Returns the word of this number.
#[inline(always)]
fn word(line: &[u8], number: usize) -> &[u8]
    ensures value { result.now ≡ nth_field number (words_of line.now) }
{
    let mut rest = without_blanks(line);
    for passed in 1..number {
        if rest.is_empty() {
            return rest;
        }
        rest = without_blanks(behind_word(rest));
    }
    &rest[..word_len(rest)]
}

/// Returns a text without the blanks that it begins with.
#[inline(always)]
fn without_blanks(text: &[u8]) -> &[u8]
    ensures value { result.now ≡ drop (position_or_len is_no_blank text.now) text.now }
{
    &text[blanks_len(text)..]
}

/// Returns a text without the word that it begins with.
#[inline(always)]
fn behind_word(text: &[u8]) -> &[u8]
    ensures value { result.now ≡ drop (position_or_len is_blank text.now) text.now }
{
    &text[word_len(text)..]
}

/// Returns the number of blanks that a text begins with.
#[inline(always)]
fn blanks_len(text: &[u8]) -> usize
    ensures value { result ≡ position_or_len is_no_blank text.now }
    ensures within { result ≤ length text.now }
{
    for i in 0..text.len() {
        if !is_blank(text[i]) {
            return i;
        }
    }
    text.len()
}

/// Returns the number of bytes before the first blank.
#[inline(always)]
fn word_len(text: &[u8]) -> usize
    ensures value { result ≡ position_or_len is_blank text.now }
    ensures within { result ≤ length text.now }
{
    for i in 0..text.len() {
        if is_blank(text[i]) {
            return i;
        }
    }
    text.len()
}

/// Returns the part of this number between separators.
fn part(line: &[u8], separator: u8, number: usize) -> &[u8]
    ensures value { result.now ≡ nth_field number (slice_split (λ c. c == separator) line.now) }
{
    let mut rest = line;
    for passed in 1..number {
        if rest.is_empty() {
            return rest;
        }
        rest = behind_part(rest, separator);
    }
    &rest[..len_before(rest, separator)]
}

/// Returns what stands behind the first separator of a text, or nothing.
#[inline(always)]
fn behind_part(text: &[u8], separator: u8) -> &[u8]
    ensures value { result.now
        ≡ drop (position_or_len (λ c. c == separator) text.now + 1) text.now }
{
    let len = len_before(text, separator);
    if len == text.len() {
        return &[];
    }
    &text[len + 1..]
}
