//! What no line can say of KLL sketches: estimates and the sizes of views, items that have no
//! spelling, `==`. The worked updates, merges, weights, quantiles and images of numbers are in
//! `tests/lines`, the greatest weights in `tests/program`, and the images of texts in
//! `text::tests`.
ghost use Rattle.std.proofs.lemmas.Bool.{false≢true};
ghost use Rattle.std.specs.Prelude.{None};

use super::calls::are_equal;
use super::runs::is_invalid;
use super::sketches::Numbered;
use crate::text::image_bytes;
use sketch_base::codec::{SketchBytes, SketchSlice};
use sketch_base::common::random::WordBits;
use sketch_base::error::{Error, ErrorKind};
use sketch_kll::capacity::{level_capacity, total_capacity};
use sketch_kll::sketch::KllSketch;
use sketch_kll::value::KllValue;
use std::alloc::{AllocError, Global};

const NINE: &[i64] = &[1, 2, 3, 4, 5, 6, 7, 8, 9];

/// Returns a sketch of k 8 and some items under coins that are false.
fn filled(alloc: Global, items: &[i64]) -> Result<KllSketch<i64>, Error> {
    let mut sketch = KllSketch::new(alloc, 8)?;
    sketch.update_all(items, &mut WordBits::new(&[]))?;
    Ok(sketch)
}

/// Whether a sketch gives estimates, the number of items that its view has, and their weight.
type Seen = (bool, usize, u64);

fn is_seen(sketch: &KllSketch<i64>, wanted: Seen) -> bool {
    match sketch.sorted_view() {
        Ok(view) => (sketch.is_estimation_mode(), view.len(), view.total_weight()) == wanted,
        Err(_) => false,
    }
}

/// Returns whether a sketch of some items is seen as `wanted`.
fn shows(alloc: Global, items: &[i64], wanted: Seen) -> bool {
    match filled(alloc, items) {
        Ok(sketch) => is_seen(&sketch, wanted),
        Err(_) => false,
    }
}

#[test]
fn a_view_has_each_item_that_is_kept(rt: HostRuntime) {
    let alloc = rt.alloc();
    assert!(rt;
        shows(alloc, &[], (false, 0, 0))
            && shows(alloc, &[5, 5, 7], (false, 3, 3))
            && shows(alloc, &NINE[..8], (false, 8, 8))
            && shows(alloc, NINE, (true, 5, 9))
    );
}

#[test]
fn capacities(rt: HostRuntime) {
    let totals = [
        total_capacity(200, 8, 2),
        total_capacity(200, 8, 3),
        total_capacity(8, 8, 2),
    ];
    assert!(rt; level_capacity(200, 2, 0, 8) == 133 && totals == [333, 422, 16]);
}

/// A value that has no spelling.
#[derive(Clone, Copy, PartialEq, Eq, PartialOrd, Ord)]
pub(crate) struct Unspelled;

impl KllValue for Unspelled {
    const MIN_SERIALIZED_SIZE: usize = 1;

    ghost MIN_SERIALIZED_SIZE = { 1 };

    ghost spelling = { λ x. None };

    ghost is_prefix_free = { λ x y text rest others h. absurd (false≢true h.spelled) };

    ghost is_long = { λ x h. absurd (false≢true h) };

    fn serialized_size(_value: &Self) -> usize {
        1
    }

    fn serialize(_value: &Self, _bytes: &mut SketchBytes) -> Result<(), Error> {
        Err(Error::new(ErrorKind::InvalidArgument))
    }

    fn deserialize(_alloc: Global, _input: &mut SketchSlice<'_>) -> Result<Self, Error> {
        Err(Error::new(ErrorKind::InvalidData))
    }
}

impl Numbered for Unspelled {
    fn numbered(_alloc: Global, _number: u32) -> Result<Unspelled, AllocError> {
        Ok(Unspelled)
    }
}

/// A byte whose spelling is itself; 0 has none.
#[derive(Clone, Copy, PartialEq, Eq, PartialOrd, Ord)]
struct Nonzero {
    byte: u8,
}

impl KllValue for Nonzero {
    ghost use Rattle.quantile_sketches.specs.NonzeroBytes.{spelling_of, is_prefix_free_by, is_long};

    const MIN_SERIALIZED_SIZE: usize = 1;

    ghost MIN_SERIALIZED_SIZE = { 1 };

    ghost spelling = { λ x. spelling_of x.byte };

    ghost is_prefix_free = { is_prefix_free_by (λ x. x.byte) };

    ghost is_long = { λ x. is_long x.byte };

    fn serialized_size(_value: &Self) -> usize {
        1
    }

    fn serialize(value: &Self, bytes: &mut SketchBytes) -> Result<(), Error> {
        ErrorKind::InvalidArgument.unless(value.byte != 0)?;
        bytes.write_u8(value.byte)
    }

    fn deserialize(_alloc: Global, input: &mut SketchSlice<'_>) -> Result<Self, Error> {
        let byte = input.read_u8()?;
        ErrorKind::InvalidData.unless(byte != 0)?;
        Ok(Nonzero { byte })
    }
}

fn takes(sketch: &mut KllSketch<Nonzero>, byte: u8) -> bool {
    sketch
        .update(Nonzero { byte }, &mut WordBits::new(&[]))
        .is_ok()
}

fn is_refused_as_it_was(sketch: &KllSketch<Nonzero>) -> bool {
    match sketch.clone() {
        Ok(before) => is_invalid(sketch.serialize()) && *sketch == before,
        Err(_) => false,
    }
}

/// Returns whether a sketch that takes the bytes 1 and 0 has no image, and stays as it was.
fn refuses_image(sketch: &mut KllSketch<Nonzero>) -> bool {
    takes(sketch, 1)
        && sketch.serialize().is_ok()
        && takes(sketch, 0)
        && is_refused_as_it_was(sketch)
}

fn refuses_unspelled(alloc: Global) -> bool {
    match KllSketch::new(alloc, 200) {
        Ok(mut sketch) => refuses_image(&mut sketch),
        Err(_) => false,
    }
}

#[test]
fn refuses_an_item_without_a_spelling(rt: HostRuntime) {
    assert!(rt; refuses_unspelled(rt.alloc()));
}

/// Returns the sketch of an image.
fn read(alloc: Global, image: &str) -> Result<KllSketch<i64>, Error> {
    let bytes = image_bytes(alloc, image)?.ok_or(Error::new(ErrorKind::InvalidArgument))?;
    KllSketch::deserialize(alloc, &bytes)
}

/// Images of sketches that differ: by an item, and only by the flag that level 0 counts as sorted,
/// with no item and with 1 and 2.
static DIFFERENT: [(&str, &str); 3] = [
    ("02010f01c8000800", "02020f04c80008000700000000000000"),
    ("02010f01c8000800", "02010f03c8000800"),
    (
        "05010f0009000800020000000000000008000100070000000100000000000000020000000000000002000000000000000100000000000000",
        "05010f0209000800020000000000000008000100070000000100000000000000020000000000000001000000000000000200000000000000",
    ),
];

/// Returns whether the sketches of two images are the same.
fn are_same(alloc: Global, image: &str, other: &str) -> bool {
    are_equal(read(alloc, image), read(alloc, other))
}

/// Returns whether two images are read as different sketches, and each of them as the same.
fn are_told_apart(alloc: Global, image: &str, other: &str) -> bool {
    !are_same(alloc, image, other) && are_same(alloc, image, image) && are_same(alloc, other, other)
}

#[test]
fn different_sketches_are_not_equal(rt: HostRuntime) {
    for (image, other) in &DIFFERENT {
        assert!(rt; are_told_apart(rt.alloc(), image, other));
    }
}
