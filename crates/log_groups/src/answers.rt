//! What the sketch of a group answers, and how sure that is.
ghost use Rattle.std.specs.Prelude.{◌≡◌, ◌⊎◌, IfOk, IsTrue};
ghost use Rattle.log_groups.specs.Exact.{IsNearTopOf};
ghost use Rattle.log_groups.specs.Shown.{IsAnswer, IsSure, IsWhole, answer_of};
ghost use Rattle.log_groups.specs.declared.answers.Surety.TheVariants.{Updates};

use crate::groups::Group;
use crate::number::{Reading, read_number};
use crate::sketch::Sketch;
use itoa::Buffer;
use sketch_base::common::Rank;
use sketch_base::error::Error;
use std::alloc::AllocError;

/// What is asked of each group.
#[derive(Clone, Copy, PartialEq, Eq)]
pub enum Column<'a> {
    /// How many numbers there are.
    Count,
    /// A percentile: its name, and the fraction that it is.
    Point(&'a str, Rank),
    /// The least number.
    Min,
    /// The greatest number.
    Max,
    /// The sum of the numbers.
    Sum,
    /// How many numbers are at most a limit.
    AtMost(&'a str),
    /// How many of 100 numbers are at most a limit.
    Share(&'a str),
}

/// What is known of how sketches were made.
#[derive(Clone, Copy, PartialEq, Eq)]
pub enum Surety {
    /// By updates alone.
    Updates,
    /// By updates with weights, or by merging images, which may be of unlike accuracies.
    Merges,
}

/// What stands in a cell of a table.
#[derive(Clone, Copy, PartialEq, Eq)]
pub enum Answer {
    /// Nothing: there are no numbers, or the limit isn't kept.
    None,
    /// How many numbers.
    Count(u64),
    /// A number, or a sum of numbers.
    Number(i128),
    /// A share, in thousandths of a percent.
    Share(u32),
}

/// A cell of a table.
#[derive(Clone, Copy)]
pub struct Cell {
    pub answer: Answer,
    /// The answer is the one that sorting gives.
    pub is_exact: bool,
}

/// The decimals of a share in percent.
const SHARE_DECIMALS: u8 = 3;

/// Thousandths of a percent in the whole.
const WHOLE: u128 = 100_000;

impl Answer {
    /// Returns the answer that a number is, if there is one.
    fn of(number: Option<i64>) -> Self
        ensures { result ≡ answer_of number }
    {
        match number {
            Some(number) => Answer::Number(number as i128),
            None => Answer::None,
        }
    }

    /// Returns the answer that a sum is, if it is known.
    fn of_sum(sum: Option<i128>) -> Self
        ensures { result ≡ answer_of sum }
    {
        match sum {
            Some(sum) => Answer::Number(sum),
            None => Answer::None,
        }
    }

    /// Returns the share that a part is, rounded down.
    fn share(rank: Rank) -> Self {
        match (rank.weight as u128 * WHOLE).checked_div(rank.total as u128) {
            Some(share) => Answer::Share(u32::try_from(share).unwrap_or(u32::MAX)),
            None => Answer::None,
        }
    }

    /// Returns how many decimals the answer needs, of those that its number has.
    pub fn decimals_needed(self, decimals: u8) -> u8 {
        let Answer::Number(mut rest) = self else {
            return 0;
        };
        for needless in 0..decimals {
            if rest % 10 != 0 {
                return decimals - needless;
            }
            rest /= 10;
        }
        0
    }

    /// Adds the answer, whose number has these decimals and is shown with so many.
    pub fn push(self, out: &mut Vec<u8>, decimals: u8, shown: u8) -> Result<(), AllocError> {
        match self {
            Answer::None => Ok(()),
            Answer::Count(count) => push_number(out, count as u128, 0, 0),
            Answer::Share(share) => push_number(out, share as u128, SHARE_DECIMALS, SHARE_DECIMALS),
            Answer::Number(number) => {
                if number < 0 {
                    out.push(b'-')?;
                }
                push_number(out, number.unsigned_abs(), decimals, shown)
            }
        }
    }
}

impl Cell {
    /// Returns a cell that is exact.
    fn exact(answer: Answer) -> Self
        ensures { result.answer ≡ answer }
    {
        Cell {
            answer,
            is_exact: true,
        }
    }
}

/// Adds a number with `shown` of its decimals.
pub fn push_number(
    out: &mut Vec<u8>,
    number: u128,
    decimals: u8,
    shown: u8,
) -> Result<(), AllocError> {
    let mut buffer = Buffer::new();
    let digits = buffer.format(number).as_bytes();
    let places = decimals as usize;
    let (whole, fraction) = digits.split_at(digits.len().saturating_sub(places));
    out.extend_from_slice(if whole.is_empty() { b"0" } else { whole })?;
    if shown > 0 {
        out.push(b'.')?;
    }
    let zeros = places.saturating_sub(fraction.len());
    for place in 0..shown as usize {
        let digit = place.checked_sub(zeros).and_then(|i| fraction.get(i));
        out.push(digit.copied().unwrap_or(b'0'))?;
    }
    Ok(())
}

/// Returns what stands in a column for a group.
pub fn cell_of(group: &Group, column: &Column<'_>, surety: Surety) -> Result<Cell, Error>
    ensures answer { IfOk result (λ cell. IsAnswer group.now column.now cell.answer) }
    ensures sure { IfOk result (λ cell. IsTrue cell.is_exact → IsSure group.now column.now surety) }
{
    let sketch = &group.sketch;
    match column {
        Column::Count => Ok(Cell::exact(Answer::Count(sketch.n()))),
        Column::Min => Ok(Cell::exact(Answer::of(sketch.min()))),
        Column::Max => Ok(Cell::exact(Answer::of(sketch.max()))),
        Column::Sum => Ok(Cell::exact(Answer::of_sum(group.sum))),
        Column::Point(_, fraction) => {
            let number = sketch.quantile(*fraction)?;
            Ok(Cell {
                answer: Answer::of(number),
                is_exact: is_exact(sketch, *fraction, surety),
            })
        }
        Column::AtMost(limit) => Ok(limit_cell(group, limit, surety, false)),
        Column::Share(limit) => Ok(limit_cell(group, limit, surety, true)),
    }
}

/// Returns how many numbers are at most a limit, or what share of them.
fn limit_cell(group: &Group, limit: &str, surety: Surety, is_share: bool) -> Cell {
    let Some(rank) = rank_of(group, limit) else {
        return Cell::exact(Answer::None);
    };
    Cell {
        answer: if is_share {
            Answer::share(rank)
        } else {
            Answer::Count(rank.weight)
        },
        is_exact: is_exact(&group.sketch, rank, surety),
    }
}

/// Returns how many numbers are at most a limit, if its decimals are kept and there are numbers.
fn rank_of(group: &Group, limit: &str) -> Option<Rank> {
    match read_number(limit.as_bytes(), group.decimals.unwrap_or(0)) {
        Reading::Exact(limit) => group.sketch.rank(limit),
        _ => None,
    }
}

/// Returns whether the answer at a fraction of the numbers is the one that sorting gives.
fn is_exact(sketch: &Sketch, fraction: Rank, surety: Surety) -> bool
    ensures { IsTrue result → IsWhole sketch.now
        ⊎ ((surety ≡ Updates) × IsNearTopOf sketch.now fraction) }
{
    sketch.is_whole() || surety == Surety::Updates && sketch.is_exact_at(fraction)
}

/// Millionths in the whole.
const MILLION: u64 = 1_000_000;

/// Returns by how much a percentile's rank may be off, in millionths of the numbers, if that is
/// proved: for KLL the bound that all but one word of coins in 2,000 keep, for REQ the standard
/// error.
pub fn error_of(sketch: &Sketch, fraction: Rank, surety: Surety) -> Option<u64> {
    match sketch {
        _ if surety != Surety::Updates => None,
        Sketch::Kll(sketch) => Some((9 * MILLION).div_ceil(sketch.min_k().max(8) as u64)),
        Sketch::Req(sketch) => {
            let top = sketch.iter().map(|pair| pair.1).max().unwrap_or(1);
            let relative = relative_error(sketch.k(), top.max(1).ilog2())?;
            let beyond = fraction.total.saturating_sub(fraction.weight);
            let error = beyond as u128 * relative as u128;
            u64::try_from(error.div_ceil(fraction.total.max(1) as u128)).ok()
        }
    }
}

/// Returns the relative standard error in millionths after compactions of so many levels:
/// the root of `(1 + 1 / 3k^2)^levels - 1`, rounded up.
fn relative_error(k: u16, levels: u32) -> Option<u64> {
    let trillion = MILLION * MILLION;
    let step = trillion.div_ceil((3 * k as u64).saturating_mul(k as u64).max(1));
    let mut square = 0u64;
    for _ in 0..levels {
        let more = (square as u128)
            .saturating_mul(step as u128)
            .div_ceil(trillion as u128);
        square = square
            .checked_add(u64::try_from(more).ok()?)?
            .checked_add(step)?;
    }
    square.isqrt().checked_add(1)
}
