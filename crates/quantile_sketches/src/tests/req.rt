//! REQ sketches: what no line of the program shows of their calls.
ghost use Rattle.std.specs.Prelude.{◌≡◌};
ghost use Rattle.std.specs.declared.cmp.Ordering.TheVariants.{Equal};
ghost use Rattle.sketch_base.specs.Spelling.{SpellingsTie};

use super::calls::{CRITERIA, fraction};
use crate::text::image_text;
use sketch_base::codec::{SketchBytes, SketchSlice};
use sketch_base::common::random::WordBits;
use sketch_base::common::{Rank, SearchCriteria};
use sketch_base::error::Error;
use sketch_kll::sketch::KllSketch;
use sketch_req::compactor::Compactor;
use sketch_req::iter::ReqSketchIterator;
use sketch_req::serialization::{
    nearest_even_section_size, section_size, validate_compactor_state,
};
use sketch_req::sketch::ReqSketch;
use sketch_req::sorted_view::SortedView;
use sketch_req::value::ReqValue;
use sketch_req::{RankAccuracy, serialization as layout};
use std::alloc::Global;
use std::fmt::Debug;
use std::iter::FusedIterator;

#[test]
fn sections_are_even(rt: HostRuntime) {
    let sizes = [
        section_size(12, 0),
        section_size(12, 1),
        section_size(12, 2),
        section_size(12, 3),
        section_size(12, 4),
        section_size(12, 5),
        section_size(4, 5),
    ];
    assert!(rt; sizes == [12, 8, 6, 4, 4, 2, 0]);
    let evens = [
        nearest_even_section_size(0),
        nearest_even_section_size(1),
        nearest_even_section_size(2),
        nearest_even_section_size(3),
        nearest_even_section_size(4),
        nearest_even_section_size(13),
    ];
    assert!(rt; evens == [0, 2, 2, 4, 4, 14]);
}

#[test]
fn constants(rt: HostRuntime) {
    assert!(rt;
        [
            layout::SERIAL_VERSION,
            layout::PREAMBLE_INTS_EXACT,
            layout::PREAMBLE_INTS_ESTIMATION
        ] == [1, 2, 4]
            && [layout::FLAG_IS_EMPTY, layout::FLAG_IS_HIGH_RANK] == [4, 8]
            && [layout::FLAG_RAW_ITEMS, layout::FLAG_IS_LEVEL_ZERO_SORTED] == [16, 32]
            && layout::RAW_ITEMS_THRESHOLD == 4
            && RankAccuracy::default() == RankAccuracy::HighRank
    );
}

/// Returns whether a value is shown under this name.
fn is_shown<X: Debug>(alloc: Global, value: &X, name: &str) -> bool {
    match format!(in alloc; "{value:?}") {
        Ok(text) => text.as_str().starts_with(name),
        Err(_) => false,
    }
}

fn is_view_shown(alloc: Global, sketch: &ReqSketch<i32>) -> bool {
    match sketch.sorted_view() {
        Ok(view) => is_shown(alloc, &view, "SortedView"),
        Err(_) => false,
    }
}

fn is_req_shown(alloc: Global) -> bool {
    match filled(alloc) {
        Ok(sketch) => is_shown(alloc, &sketch, "ReqSketch") && is_view_shown(alloc, &sketch),
        Err(_) => false,
    }
}

fn is_kll_shown(alloc: Global) -> bool {
    match KllSketch::<i64>::new(alloc, 8) {
        Ok(sketch) => is_shown(alloc, &sketch, "KllSketch"),
        Err(_) => false,
    }
}

fn is_level_shown(alloc: Global) -> bool {
    let level: Compactor<i32> = Compactor::new(alloc, 0, 4, RankAccuracy::LowRank);
    is_shown(alloc, &level, "Compactor")
}

#[test]
fn all_are_shown(rt: HostRuntime) {
    let alloc = rt.alloc();
    assert!(rt; is_kll_shown(alloc) && is_level_shown(alloc) && is_req_shown(alloc));
}

/// Returns whether a level of k 12 in a state, with 24 sections of 4, may be in an image.
fn is_layout(state: u64) -> bool {
    validate_compactor_state(12, 0, state, 4, 0, 24).is_ok()
}

#[test]
fn images_are_checked(rt: HostRuntime) {
    assert!(rt; is_layout(2048) && !is_layout(2047));
}

/// Returns whether a value is written into an empty buffer as these bytes, and says how many they
/// are.
fn writes<T: ReqValue>(mut bytes: SketchBytes, value: &T, spelling: &[u8]) -> bool {
    value.serialize_value(&mut bytes).is_ok()
        && bytes.into_bytes().as_slice() == spelling
        && T::serialize_size(value) == spelling.len()
}

fn is_written_as<T: ReqValue>(alloc: Global, value: &T, spelling: &[u8]) -> bool {
    match SketchBytes::with_capacity(alloc, 0) {
        Ok(bytes) => writes(bytes, value, spelling),
        Err(_) => false,
    }
}

/// Returns whether what is read is this value.
fn is_read_as<T: ReqValue + PartialEq + Drop>(
    alloc: Global,
    input: &mut SketchSlice<'_>,
    value: &T,
) -> bool {
    match T::deserialize_value(alloc, input) {
        Ok(read) => read == *value,
        Err(_) => false,
    }
}

/// Returns whether these bytes are read as a value, and no second value is read.
fn is_spelled<T: ReqValue + PartialEq + Drop>(alloc: Global, value: &T, spelling: &[u8]) -> bool {
    let mut input = SketchSlice::new(spelling);
    is_read_as(alloc, &mut input, value)
        && input.remaining().is_empty()
        && T::deserialize_value(alloc, &mut input).is_err()
        && is_written_as(alloc, value, spelling)
}

#[test]
fn each_type_of_item_is_spelled(rt: HostRuntime) {
    let alloc = rt.alloc();
    assert!(rt;
        is_spelled(alloc, &-2i32, &[254, 255, 255, 255])
            && is_spelled(alloc, &0x0102_0304u32, &[4, 3, 2, 1])
            && is_spelled(alloc, &-1i64, &[255; 8])
            && is_spelled(alloc, &500u64, &[244, 1, 0, 0, 0, 0, 0, 0])
    );
}

const NUMBERS: [i32; 24] = [
    1, 2, 3, 4, 5, 6, 7, 8, 9, 10, 11, 12, 13, 14, 15, 16, 17, 18, 19, 20, 21, 22, 23, 24,
];

/// Returns a sketch of k 4 that took 1 to 24 at once, under a false coin.
fn filled(alloc: Global) -> Result<ReqSketch<i32>, Error> {
    let mut sketch = ReqSketch::new(alloc, 4, RankAccuracy::HighRank)?;
    sketch.update_all(&NUMBERS, &mut WordBits::new(&[]))?;
    Ok(sketch)
}

/// Returns whether no pair is left, for good.
fn is_at_its_end(pairs: &mut ReqSketchIterator<'_, i32>) -> bool {
    pairs.len() == 0 && pairs.next().is_none() && pairs.next().is_none()
}

/// Returns whether std may assume that nothing comes after the end.
fn is_fused<I: FusedIterator>(_items: &I) -> bool {
    true
}

/// Returns whether 1 to 24 under a k of 4 give 22 pairs, from 5 on, and 3 is the last.
fn iterates_over(sketch: &ReqSketch<i32>) -> bool {
    let mut pairs = sketch.iter();
    is_fused(&pairs)
        && pairs.size_hint() == (22, Some(22))
        && pairs.next() == Some((&5, 1))
        && pairs.by_ref().nth(20) == Some((&3, 2))
        && is_at_its_end(&mut pairs)
}

#[test]
fn iterates(rt: HostRuntime) {
    let sketch = filled(rt.alloc());
    assert!(rt; matches!(&sketch, Ok(sketch) if iterates_over(sketch)));
}

/// Returns whether a view of 5, 1, 9, 3 and twice 3 more joins what is equal, and ranks by weights.
fn ranks_weights(view: &SortedView<i32>) -> bool {
    (view.len(), view.total_weight(), view.is_empty()) == (4, 6, false)
        && view.rank(&3, CRITERIA) == Some(fraction(4, 6))
        && view.rank(&3, SearchCriteria::Exclusive) == Some(fraction(1, 6))
}

fn joins_equal_items(alloc: Global) -> bool {
    match vec![in alloc; (5, 1), (1, 1), (9, 1), (3, 1), (3, 2)] {
        Ok(weighted) => match SortedView::new(weighted, Some(1), Some(9)) {
            Ok(view) => ranks_weights(&view),
            Err(_) => false,
        },
        Err(_) => false,
    }
}

#[test]
fn a_view_joins_equal_items(rt: HostRuntime) {
    assert!(rt; joins_equal_items(rt.alloc()));
}

/// Returns whether a view has these ranks among 5, by each criteria.
fn ranks(view: &SortedView<i32>, item: i32, at_most: u64, below: u64) -> bool {
    view.rank(&item, CRITERIA) == Some(fraction(at_most, 5))
        && view.rank(&item, SearchCriteria::Exclusive) == Some(fraction(below, 5))
}

/// Returns whether ranks were found, out of 5, with these weights.
fn are_weights(found: Result<Option<Vec<Rank>>, Error>, weights: [u64; 3]) -> bool {
    let [first, second, third] = weights;
    match found {
        Ok(Some(ranks)) => {
            ranks.as_slice()
                == [fraction(first, 5), fraction(second, 5), fraction(third, 5)].as_slice()
        }
        _ => false,
    }
}

fn is_quantile(view: &SortedView<i32>, fraction: Rank, item: Option<i32>) -> bool {
    matches!(view.quantile(fraction, CRITERIA), Ok(found) if found == item)
}

/// Returns whether a view of 1, 3, 5, 7 and 9 answers.
fn answers_of_five(view: &SortedView<i32>) -> bool {
    (view.len(), view.total_weight()) == (5, 5)
        && ranks(view, 0, 0, 0)
        && ranks(view, 1, 1, 0)
        && ranks(view, 2, 1, 1)
        && ranks(view, 6, 3, 3)
        && ranks(view, 10, 5, 5)
        && are_weights(view.cdf(&[3, 7], CRITERIA), [2, 4, 5])
        && are_weights(view.pmf(&[3, 7], CRITERIA), [2, 2, 1])
        && is_quantile(view, fraction(0, 1), Some(1))
        && is_quantile(view, fraction(1, 1), Some(9))
}

/// Returns whether a view of nothing answers.
fn answers_of_none(view: &SortedView<i32>) -> bool {
    (view.len(), view.total_weight()) == (0, 0)
        && view.rank(&1, CRITERIA).is_none()
        && is_quantile(view, fraction(1, 2), None)
}

fn views_five(alloc: Global) -> bool {
    match vec![in alloc; (1, 1), (3, 1), (5, 1), (7, 1), (9, 1)] {
        Ok(weighted) => match SortedView::new(weighted, Some(1), Some(9)) {
            Ok(view) => answers_of_five(&view),
            Err(_) => false,
        },
        Err(_) => false,
    }
}

fn views_none(alloc: Global) -> bool {
    match SortedView::new(Vec::new(alloc), None, None) {
        Ok(view) => answers_of_none(&view),
        Err(_) => false,
    }
}

#[test]
fn views_of_five_pairs_and_of_none(rt: HostRuntime) {
    assert!(rt; views_five(rt.alloc()) && views_none(rt.alloc()));
}

/// Returns a sketch of k 12 that took some items, and then those from 1 to `last`, one by one.
fn filled_by(alloc: Global, items: &[i32], last: i32) -> Result<ReqSketch<i32>, Error> {
    let mut sketch = ReqSketch::new(alloc, 12, RankAccuracy::HighRank)?;
    let mut coins = WordBits::new(&[]);
    for item in items {
        sketch.update(*item, &mut coins)?;
    }
    for item in 0..last {
        sketch.update(item.saturating_add(1), &mut coins)?;
    }
    Ok(sketch)
}

fn is_view_of_two(sketch: &ReqSketch<i32>) -> bool {
    matches!(sketch.sorted_view(), Ok(view) if (view.len(), view.total_weight()) == (2, 3))
}

#[test]
fn a_sketch_of_5_5_7_shows_two_items(rt: HostRuntime) {
    let sketch = filled_by(rt.alloc(), &[5, 5, 7], 0);
    assert!(rt; matches!(&sketch, Ok(sketch) if is_view_of_two(sketch)));
}

/// Returns whether a sketch's image begins with the bytes of this text, and has this length.
fn has_image(alloc: Global, sketch: &ReqSketch<i32>, text: &str, len: usize) -> bool {
    match sketch.serialize() {
        Ok(image) => image.len() == len && begins_with(alloc, &image, text),
        Err(_) => false,
    }
}

fn begins_with(alloc: Global, image: &[u8], text: &str) -> bool {
    matches!(image_text(alloc, image), Ok(whole) if whole.as_str().starts_with(text))
}

fn is_written<T: ReqValue + Clone + Ord>(sketch: &ReqSketch<T>, image: &[u8]) -> bool {
    matches!(sketch.serialize(), Ok(written) if written.as_slice() == image)
}

/// Returns whether the sketch of an image is written as that image.
fn rereads<T: ReqValue + Clone + Ord>(alloc: Global, image: &[u8]) -> bool
    requires clones { (x y : T) → T.is_clone x y → T.cmp x y ≡ Equal }
    requires codec { SpellingsTie T.cmp T.spelling }
{
    match ReqSketch::<T>::deserialize(alloc, image) {
        Ok(sketch) => is_written(&sketch, image),
        Err(_) => false,
    }
}

/// Some items, then those from 1 to a last one; what the image begins with, and its length.
static IMAGES: [(&[i32], i32, &str, usize); 5] = [
    (&[], 0, "0201113c0c000000", 8),
    (&[7], 0, "020111380c00010107000000", 12),
    (&[5, 3], 0, "020111180c0001020500000003000000", 16),
    (
        &[],
        5,
        "020111080c00010000000000000000000c00000000030000050000000100000002000000030000000400000005000000",
        48,
    ),
    (
        &[],
        72,
        "040111280c0002004800000000000000010000004800000001000000000000000c000000000300003c0000000d0000000e000000",
        328,
    ),
];

fn is_imaged(alloc: Global, row: (&[i32], i32, &str, usize)) -> bool {
    let (items, last, text, len) = row;
    match filled_by(alloc, items, last) {
        Ok(sketch) => has_image(alloc, &sketch, text, len),
        Err(_) => false,
    }
}

#[test]
fn images_of_i32(rt: HostRuntime) {
    for row in &IMAGES {
        assert!(rt; is_imaged(rt.alloc(), *row), "{}", row.2);
    }
}

/// Returns the image of a sketch of k 12 that took some items.
fn image_of<T: ReqValue + Clone + Ord>(alloc: Global, items: &[T]) -> Result<Vec<u8>, Error>
    requires { (x y : T) → T.is_clone x y → T.cmp x y ≡ Equal }
{
    let mut sketch = ReqSketch::new(alloc, 12, RankAccuracy::HighRank)?;
    sketch.update_all(items, &mut WordBits::new(&[]))?;
    sketch.serialize()
}

/// Returns whether the image of some items has this length and reads back.
fn reads_back<T: ReqValue + Clone + Ord>(alloc: Global, items: &[T], len: usize) -> bool
    requires clones { (x y : T) → T.is_clone x y → T.cmp x y ≡ Equal }
    requires codec { SpellingsTie T.cmp T.spelling }
{
    match image_of(alloc, items) {
        Ok(image) => image.len() == len && rereads::<T>(alloc, &image),
        Err(_) => false,
    }
}

#[test]
#[tactic(auto, using(sketch_base::specs::SpellingLaws::u32_ties, sketch_base::specs::SpellingLaws::u64_ties))]
fn images_of_u32_and_u64_read_back(rt: HostRuntime) {
    let alloc = rt.alloc();
    assert!(rt; reads_back(alloc, &[0u32, 7, 4294967295], 20));
    assert!(rt; reads_back(alloc, &[0u64, 7, 18446744073709551615], 32));
}
