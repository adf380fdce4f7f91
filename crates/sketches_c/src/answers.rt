//! What calls answer, and how they hand over what they found.
ghost use Rattle.std.specs.Prelude.{◌≡◌, ◌↔◌, IsOk, IfErr, map, length};
ghost use Rattle.sketches_c.specs.Calls.{criteria_of, refusal};
ghost use Rattle.sketches_c.specs.Codes.{ok, code_of};

use crate::floats::any_nan;
use sketch_base::common::{Rank, SearchCriteria};
use sketch_base::error::{Error, ErrorKind};

pub(crate) const OK: i32 = 0;

/// The sketch is empty, so there is no answer.
pub(crate) const EMPTY: i32 = 1;

pub(crate) const INVALID_ARGUMENT: i32 = -1;

pub(crate) const INVALID_DATA: i32 = -2;

pub(crate) const OUT_OF_MEMORY: i32 = -3;

/// The handle holds no sketch.
pub(crate) const NO_SKETCH: i32 = -4;

/// The sketch holds items of the other kind, or is of the other family.
pub(crate) const OTHER_KIND: i32 = -5;

/// A buffer has a wrong size.
pub(crate) const WRONG_SIZE: i32 = -6;

pub(crate) const NOT_A_NUMBER: i32 = -7;

/// Returns the answer that stands for the outcome of a call of the library.
pub(crate) fn code(outcome: Result<(), Error>) -> i32
    ensures done { result ≡ ok ↔ IsOk outcome }
    ensures refused { IfErr outcome (λ e. result ≡ code_of e) }
{
    match outcome {
        Ok(()) => OK,
        Err(error) => code_of(error),
    }
}

pub(crate) fn code_of(error: Error) -> i32
    ensures { result ≡ code_of error }
{
    match error.kind() {
        ErrorKind::InvalidArgument => INVALID_ARGUMENT,
        ErrorKind::InvalidData => INVALID_DATA,
        ErrorKind::OutOfMemory => OUT_OF_MEMORY,
    }
}

/// Returns what a sketch answers before it is asked about items: OK if it may be.
#[tactic(auto, unfolding(crate::specs::Calls::refusal))]
pub(crate) fn refusal(own: bool, floats: bool, items: &[i64]) -> i32
    ensures { result ≡ refusal own floats items.now }
{
    if own != floats {
        return OTHER_KIND;
    }
    if floats && any_nan(items) {
        return NOT_A_NUMBER;
    }
    OK
}

pub(crate) fn criteria(inclusive: bool) -> SearchCriteria
    ensures { result ≡ criteria_of inclusive }
{
    if inclusive {
        SearchCriteria::Inclusive
    } else {
        SearchCriteria::Exclusive
    }
}

/// Copies the weights of ranks.
pub(crate) fn copy_weights(ranks: &[Rank], weights: &mut [u64])
    requires { length weights.old ≡ length ranks.now }
    ensures { weights.new ≡ map (λ (r : Rank). r.weight) ranks.now }
{
    for i in 0..weights.len() {
        weights[i] = ranks[i].weight;
    }
}
