//! Large sketches: with ample memory, calls don't start to fail at some size. `audit` has the long
//! runs.
use super::calls::{CRITERIA, View, are_equal, double, fill_with, fraction, ranks_alike};
use super::sketches::Tried;
use crate::text::image_text;
use crate::text::tests::are_bytes_of;
use sketch_base::common::random::SplitMix64;
use sketch_base::common::{Rank, SearchCriteria};
use sketch_kll::sketch::KllSketch;
use sketch_req::RankAccuracy;
use sketch_req::sketch::ReqSketch;
use std::alloc::{AllocError, Global};

const MANY: u32 = 100_000;

/// Returns every tenth item.
fn points<S: Tried>(alloc: Global) -> Result<Vec<S::Item>, AllocError> {
    let mut points = Vec::new(alloc);
    for number in 0..MANY / 10 {
        points.push(S::item_of(alloc, number.wrapping_mul(10))?)?;
    }
    Ok(points)
}

/// Returns the fractions of the whole, the first and the last included.
fn fractions(alloc: Global) -> Result<Vec<Rank>, AllocError> {
    let mut fractions = Vec::new(alloc);
    for weight in 0..=MANY as u64 {
        fractions.push(fraction(weight, MANY as u64))?;
    }
    Ok(fractions)
}

/// Returns whether a fraction of a sketch, 0 or 1, names the item of a number.
fn names<S: Tried>(alloc: Global, sketch: &S, weight: u64, number: u32) -> bool
    requires { S.Asks }
{
    match (
        S::item_of(alloc, number),
        sketch.quantile_of(fraction(weight, 1), CRITERIA),
    ) {
        (Ok(item), Ok(found)) => found == Some(item),
        _ => false,
    }
}

/// Returns whether a sketch ranks the item of a number as the whole of its weight.
fn ranks_last<S: Tried>(alloc: Global, sketch: &S, number: u32, count: u64) -> bool {
    match S::item_of(alloc, number) {
        Ok(item) => sketch.rank_of(&item, CRITERIA) == Some(fraction(count, count)),
        Err(_) => false,
    }
}

/// Returns whether a sketch took `count` items, of which the first is the least and the last the
/// greatest.
fn is_whole<S: Tried>(alloc: Global, sketch: &S, count: u64) -> bool
    requires { S.Asks }
{
    ranks_last(alloc, sketch, MANY, count)
        && names(alloc, sketch, 0, 1)
        && names(alloc, sketch, 1, MANY)
}

/// Returns whether a view has the distributions of its sketch.
fn distributes_alike<S: Tried>(sketch: &S, view: &View<S>, points: &[S::Item]) -> bool
    requires { S.Asks }
{
    are_equal(sketch.cdf_of(points, CRITERIA), view.cdf(points, CRITERIA))
        && are_equal(sketch.pmf_of(points, CRITERIA), view.pmf(points, CRITERIA))
}

/// Returns whether all quantiles were found, and the middle one equals the one that is found alone.
fn has_middle<S: Tried>(
    sketch: &S,
    found: &[S::Item],
    count: usize,
    criteria: SearchCriteria,
) -> bool
    requires { S.Asks }
{
    match sketch.quantile_of(fraction(MANY as u64 / 2, MANY as u64), criteria) {
        Ok(middle) => found.len() == count && found.get(MANY as usize / 2) == middle.as_ref(),
        Err(_) => false,
    }
}

/// Returns whether a sketch has one quantile for each fraction, the same as its view.
fn finds_alike<S: Tried>(
    sketch: &S,
    view: &View<S>,
    fractions: &[Rank],
    criteria: SearchCriteria,
) -> bool
    requires { S.Asks }
{
    let found = sketch.quantiles_of(fractions, criteria);
    match (found, S::quantiles_in(view, fractions, criteria)) {
        (Ok(Some(found)), Ok(Some(others))) => {
            found == others && has_middle(sketch, found.as_slice(), fractions.len(), criteria)
        }
        _ => false,
    }
}

/// Returns whether the text of an image reads back as the image.
fn is_read_as_text(alloc: Global, image: &[u8]) -> bool {
    match image_text(alloc, image) {
        Ok(text) => are_bytes_of(alloc, image, text.as_str()),
        Err(_) => false,
    }
}

fn is_image_of<S: Tried>(sketch: &S, image: &[u8]) -> bool {
    match sketch.image() {
        Ok(written) => written.as_slice() == image,
        Err(_) => false,
    }
}

/// Returns whether what is read from a sketch's image took `count` items, and is written as it was
/// read.
fn is_read_as<S: Tried>(alloc: Global, image: &[u8], count: u64) -> bool
    requires { S.Asks }
{
    match S::load(alloc, image) {
        Ok(read) => is_image_of(&read, image) && is_whole(alloc, &read, count),
        Err(_) => false,
    }
}

/// Returns whether a sketch's image, also as a text, is read as a sketch that took `count` items.
fn reads_back<S: Tried>(alloc: Global, sketch: &S, count: u64) -> bool
    requires { S.Asks }
{
    match sketch.image() {
        Ok(image) => {
            is_read_as::<S>(alloc, image.as_slice(), count)
                && is_read_as_text(alloc, image.as_slice())
        }
        Err(_) => false,
    }
}

/// Returns whether a large sketch answers these queries as a view of it does.
fn asks_alike<S: Tried>(
    alloc: Global,
    sketch: &S,
    view: &View<S>,
    points: &[S::Item],
    fractions: &[Rank],
) -> bool
    requires { S.Asks }
{
    ranks_alike(alloc, sketch, view, 61)
        && finds_alike(sketch, view, fractions, SearchCriteria::Inclusive)
        && finds_alike(sketch, view, fractions, SearchCriteria::Exclusive)
        && distributes_alike(sketch, view, points)
}

/// Returns whether a large sketch answers many queries at once as a view of it does.
fn answers_as<S: Tried>(alloc: Global, sketch: &S, view: &View<S>) -> bool
    requires { S.Asks }
{
    match (points::<S>(alloc), fractions(alloc)) {
        (Ok(points), Ok(fractions)) => {
            asks_alike(alloc, sketch, view, points.as_slice(), fractions.as_slice())
        }
        _ => false,
    }
}

fn answers_as_a_copy<S: Tried>(alloc: Global, sketch: &S, view: &View<S>) -> bool
    requires { S.Asks }
{
    match S::copy_of(view) {
        Ok(copy) => answers_as(alloc, sketch, &copy),
        Err(_) => false,
    }
}

/// Returns whether a large sketch answers many queries at once as a copy of its view does.
fn answers_many<S: Tried>(alloc: Global, sketch: &S) -> bool
    requires { S.Asks }
{
    match sketch.view_of() {
        Ok(view) => answers_as_a_copy(alloc, sketch, &view),
        Err(_) => false,
    }
}

/// Returns whether a large sketch answers all that it is asked, after a copy of it was merged in.
fn answers_all<S: Tried>(alloc: Global, sketch: &S) -> bool
    requires { S.Asks }
{
    answers_many(alloc, sketch)
        && is_whole(alloc, sketch, 200_000)
        && reads_back(alloc, sketch, 200_000)
}

/// Returns whether a sketch of these settings takes many items and a copy of itself, and answers.
fn holds_many<S: Tried>(alloc: Global, config: S::Config) -> bool
    requires { S.Asks }
{
    match fill_with::<S, SplitMix64>(alloc, config, MANY, &mut SplitMix64::new(1)) {
        Ok(mut sketch) => {
            is_whole(alloc, &sketch, 100_000)
                && double(alloc, &mut sketch, &mut SplitMix64::new(2)).is_ok()
                && answers_all(alloc, &sketch)
                && S::default_of(alloc).is_ok()
        }
        Err(_) => false,
    }
}

#[test]
fn large_kll_of_i64_answers(rt: HostRuntime) {
    assert!(rt; holds_many::<KllSketch<i64>>(rt.alloc(), 4096));
}

#[test]
fn large_kll_of_text_answers(rt: HostRuntime) {
    assert!(rt; holds_many::<KllSketch<String>>(rt.alloc(), 4096));
}

fn large_req(alloc: Global, rank_accuracy: RankAccuracy) -> bool {
    holds_many::<ReqSketch<i32>>(alloc, (1024, rank_accuracy))
}

#[test]
fn large_req_answers(rt: HostRuntime) {
    assert!(rt; large_req(rt.alloc(), RankAccuracy::HighRank));
}

#[test]
fn large_req_of_low_ranks_answers(rt: HostRuntime) {
    assert!(rt; large_req(rt.alloc(), RankAccuracy::LowRank));
}
