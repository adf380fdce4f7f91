//! Floats by their bits, as whole numbers in the same order.
ghost use Rattle.std.specs.Prelude.{◌≡◌, pos, IfOk, map};
ghost use Rattle.sketches_c.specs.FloatLaws.{NumbersAreInOrder};
ghost use Rattle.sketches_c.specs.Floats.{any_nan, is_nan, key, keys, magnitude, number, number_in, shown};

use std::alloc::{AllocError, Global};

const INFINITY: i64 = 0x7FF0_0000_0000_0000;

/// Returns the bits without the sign.
fn magnitude(bits: i64) -> i64
    ensures { result ≡ pos (magnitude bits) }
{
    if bits >= 0 { bits } else { bits - i64::MIN }
}

fn is_nan(bits: i64) -> bool
    ensures { result ≡ is_nan bits }
{
    magnitude(bits) > INFINITY
}

/// Returns the number that stands for a float that is taken in: -0.0 counts as 0.0.
#[tactic(auto, unfolding(crate::specs::Floats::number_in))]
fn number_in(bits: i64) -> i64
    ensures { result ≡ number_in bits }
{
    if bits >= 0 {
        return bits;
    }
    if bits == i64::MIN {
        0
    } else {
        -1 - magnitude(bits)
    }
}

/// Returns the float for which a number stands.
fn float_of(value: i64) -> i64
    ensures { number result ≡ value }
{
    if value >= 0 {
        value
    } else {
        -1 - magnitude(value)
    }
}

/// The numbers that stand for floats are in the order of the floats, as IEEE 754 has it.
#[tactic(auto, using(crate::proofs::FloatOrder::in_order))]
pub fn numbers_are_in_order()
    ensures order { NumbersAreInOrder }
{}

/// Returns an item as it is taken in: itself, or the number that stands for the float.
pub(crate) fn key(floats: bool, item: i64) -> i64
    ensures { result ≡ key floats item }
{
    if floats { number_in(item) } else { item }
}

/// Returns the item that is answered for a number.
pub(crate) fn shown(floats: bool, value: i64) -> i64
    ensures { shown floats result ≡ value }
{
    if floats { float_of(value) } else { value }
}

pub(crate) fn any_nan(items: &[i64]) -> bool
    ensures { result ≡ any_nan items.now }
{
    let mut rest = items;
    while let Some((bits, more)) = rest.split_first() {
        if is_nan(*bits) {
            return true;
        }
        rest = more;
    }
    false
}

/// Returns the numbers that stand for floats that are taken in.
pub(crate) fn numbers_in(alloc: Global, floats: &[i64]) -> Result<Vec<i64>, AllocError>
    ensures { IfOk result (λ numbers. numbers.items ≡ map number_in floats.now) }
{
    floats.iter().map(|bits| number_in(*bits)).collect(alloc)
}
