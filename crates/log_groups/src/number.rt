//! Numbers in text. A number is kept as an integer: the number times ten to the power `decimals`.
ghost use Rattle.std.specs.Prelude.{◌<◌, ◌≤◌, length};

use sketch_base::common::Rank;

/// The most decimals that are kept.
pub const MOST_DECIMALS: u8 = 9;

/// The number of digits that every 64-bit integer has room for.
const SAFE_DIGITS: usize = 18;

/// What a field says as a number.
#[derive(Clone, Copy, PartialEq, Eq)]
pub enum Reading {
    /// The number has no more decimals than are kept.
    Exact(i64),
    /// The number has more decimals: this is the nearest one, a half away from zero.
    Rounded(i64),
    /// The number is out of range.
    OutOfRange,
    /// The field is no number.
    NoNumber,
}

impl Reading {
    /// Returns the number, if there is one.
    pub fn number(self) -> Option<i64> {
        match self {
            Reading::Exact(number) => Some(number),
            Reading::Rounded(number) => Some(number),
            _ => None,
        }
    }
}

/// Reads a number.
#[inline(always)]
pub fn read_number(text: &[u8], decimals: u8) -> Reading {
    match plain_number(text, decimals) {
        Some(number) => Reading::Exact(number),
        None => read_any_number(text, decimals),
    }
}

/// Reads a number that is written as most are: a minus sign or none, digits, and maybe a point with
/// at most `decimals` digits behind it. Returns None for any other text, and for many digits.
#[inline(always)]
fn plain_number(text: &[u8], decimals: u8) -> Option<i64> {
    let (negative, digits) = match text {
        [b'-', behind @ ..] => (true, behind),
        _ => (false, text),
    };
    if decimals > MOST_DECIMALS || digits.len() > SAFE_DIGITS - decimals as usize {
        return None;
    }
    let (whole, len) = digits_ahead(digits, 0);
    if len == 0 {
        return None;
    }
    let size = match &digits[len..] {
        [] => whole.checked_mul(power_of_ten(decimals))?,
        [b'.', fraction @ ..] => {
            let (number, places) = digits_ahead(fraction, whole);
            if places == 0 || places < fraction.len() || places > decimals as usize {
                return None;
            }
            number.checked_mul(power_of_ten(decimals - places as u8))?
        }
        _ => return None,
    };
    let size = i64::try_from(size).ok()?;
    Some(if negative { -size } else { size })
}

/// Returns a power of ten up to the ninth.
#[inline(always)]
fn power_of_ten(power: u8) -> u64
    ensures above { 0 < result }
{
    match power {
        0 => 1,
        1 => 10,
        2 => 100,
        3 => 1_000,
        4 => 10_000,
        5 => 100_000,
        6 => 1_000_000,
        7 => 10_000_000,
        8 => 100_000_000,
        _ => 1_000_000_000,
    }
}

/// Reads the digits that a text begins with. Returns the number that they write behind the digits
/// of `before`, and how many they are.
#[inline(always)]
fn digits_ahead(text: &[u8], before: u64) -> (u64, usize)
    ensures { result.1 ≤ length text.now }
{
    let mut number = before;
    let mut len = 0;
    while len < text.len() && text[len].is_ascii_digit() {
        number = number
            .wrapping_mul(10)
            .wrapping_add((text[len] - b'0') as u64);
        len += 1;
    }
    (number, len)
}

/// A number as it is written: its sign, its digits before and behind the point, and the power of
/// ten that it is multiplied by.
#[derive(Drop)]
struct Decimal<'a> {
    negative: bool,
    whole: &'a [u8],
    fraction: &'a [u8],
    power: i64,
}

/// Reads a number in any form that a number may have.
#[inline(never)]
fn read_any_number(text: &[u8], decimals: u8) -> Reading {
    match decimal_of(without_blanks(text)) {
        Some(decimal) => scale(&decimal, decimals),
        None => Reading::NoNumber,
    }
}

/// Returns the text without the spaces and tabs around it.
fn without_blanks(text: &[u8]) -> &[u8] {
    let mut rest = text;
    while let [b' ' | b'\t', behind @ ..] = rest {
        rest = behind;
    }
    while let [before @ .., b' ' | b'\t'] = rest {
        rest = before;
    }
    rest
}

/// Returns the parts of a number, or None for a text that is none.
fn decimal_of(text: &[u8]) -> Option<Decimal<'_>> {
    let (negative, rest) = without_sign(text);
    let (whole, rest) = split_digits(rest);
    let (fraction, rest) = match rest {
        [b'.', behind @ ..] => split_digits(behind),
        _ => (&rest[..0], rest),
    };
    if whole.is_empty() && fraction.is_empty() {
        return None;
    }
    let power = match rest {
        [] => 0,
        [b'e' | b'E', exponent @ ..] => power_of(exponent)?,
        _ => return None,
    };
    Some(Decimal {
        negative,
        whole,
        fraction,
        power,
    })
}

/// Splits at most one sign off, and returns whether it is a minus.
fn without_sign(text: &[u8]) -> (bool, &[u8]) {
    match text {
        [b'-', behind @ ..] => (true, behind),
        [b'+', behind @ ..] => (false, behind),
        _ => (false, text),
    }
}

/// Splits the digits off that a text begins with.
fn split_digits(text: &[u8]) -> (&[u8], &[u8]) {
    let mut len = 0;
    while len < text.len() && text[len].is_ascii_digit() {
        len += 1;
    }
    text.split_at(len)
}

/// The greatest power that is told apart from greater ones: no text has as many digits.
const MOST_POWER: i64 = 1 << 61;

/// Returns the power that an exponent spells, or None for a text that is none.
fn power_of(exponent: &[u8]) -> Option<i64> {
    let (negative, digits) = without_sign(exponent);
    if digits.is_empty() {
        return None;
    }
    let mut power = 0i64;
    for digit in digits {
        if !digit.is_ascii_digit() {
            return None;
        }
        power = power
            .saturating_mul(10)
            .saturating_add((*digit - b'0') as i64)
            .min(MOST_POWER);
    }
    Some(if negative {
        power.saturating_neg()
    } else {
        power
    })
}

/// Multiplies a number by ten to the power `decimals`, and rounds it.
fn scale(decimal: &Decimal<'_>, decimals: u8) -> Reading {
    let point = (decimal.whole.len() as i64)
        .saturating_add(decimal.power)
        .saturating_add(decimals as i64);
    let mut size = Some(0u64);
    let mut rest = Rest::Nothing;
    let mut place = 0i64;
    for digit in decimal.whole.iter().chain(decimal.fraction) {
        let digit = digit.wrapping_sub(b'0');
        if place < point {
            size = with_digit(size, digit);
        } else {
            rest = rest.with_digit(digit, place == point);
        }
        place = place.saturating_add(1);
    }
    if rest == Rest::Half {
        size = size.and_then(|size| size.checked_add(1));
    }
    if size != Some(0) {
        size = with_zeros(size, point.saturating_sub(place));
    }
    signed(size, decimal.negative, rest)
}

/// Returns the number with one more digit, or None if it doesn't fit.
fn with_digit(number: Option<u64>, digit: u8) -> Option<u64> {
    number?.checked_mul(10)?.checked_add(digit as u64)
}

/// Returns the number with more zeros behind it, or None if it doesn't fit.
fn with_zeros(number: Option<u64>, count: i64) -> Option<u64> {
    if count > SAFE_DIGITS as i64 {
        return None;
    }
    let mut number = number?;
    for _ in 0..count {
        number = number.checked_mul(10)?;
    }
    Some(number)
}

/// What the digits that are not kept say.
#[derive(Clone, Copy, PartialEq, Eq)]
enum Rest {
    /// All of them are 0.
    Nothing,
    /// They are below a half, and not all 0.
    Below,
    /// They are a half or more.
    Half,
}

impl Rest {
    /// Adds one more digit, which is the first one or not.
    fn with_digit(self, digit: u8, is_first: bool) -> Self {
        match self {
            Rest::Nothing if is_first && digit >= 5 => Rest::Half,
            Rest::Nothing if digit > 0 => Rest::Below,
            _ => self,
        }
    }
}

/// Returns the number of this size and sign.
fn signed(size: Option<u64>, negative: bool, rest: Rest) -> Reading {
    let number = match size {
        Some(size) if negative => 0i64.checked_sub_unsigned(size),
        Some(size) => i64::try_from(size).ok(),
        None => None,
    };
    match number {
        Some(number) if rest == Rest::Nothing => Reading::Exact(number),
        Some(number) => Reading::Rounded(number),
        None => Reading::OutOfRange,
    }
}

/// The most decimals of a percentile.
const POINT_DECIMALS: usize = 12;

/// Returns the fraction that a percentile is, as 999 of 1000 for 99.9.
pub fn fraction_of(text: &str) -> Option<Rank> {
    let (whole, places) = text.split_once('.').unwrap_or((text, "0"));
    if whole.len() > 3 || places.len() > POINT_DECIMALS || whole.starts_with('+') {
        return None;
    }
    let mut weight = whole.parse::<u64>().ok()?;
    let mut total = 100u64;
    if places.is_empty() {
        return None;
    }
    for digit in places.as_bytes() {
        if !digit.is_ascii_digit() {
            return None;
        }
        weight = weight.checked_mul(10)?.checked_add((*digit - b'0') as u64)?;
        total = total.checked_mul(10)?;
    }
    let is_percentile = weight <= total && (whole.len() < 3 || whole == "100");
    is_percentile.then_some(Rank { weight, total })
}
