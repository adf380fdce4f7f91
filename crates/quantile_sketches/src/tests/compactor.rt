//! One level of a REQ sketch, which no line of the program shows alone.
ghost use Rattle.std.specs.Prelude.{◌≡◌, IfOk};
ghost use Rattle.sketch_req.specs.Sections.{IsLegalK};

use sketch_base::codec::{SketchBytes, SketchSlice};
use sketch_base::common::random::WordBits;
use sketch_base::error::Error;
use sketch_req::RankAccuracy;
use sketch_req::compactor::Compactor;
use std::alloc::Global;

type Level = Compactor<i32>;

const HIGH: RankAccuracy = RankAccuracy::HighRank;

const LOW: RankAccuracy = RankAccuracy::LowRank;

/// Returns the image of no items in state 65535, with `sections` sections of a size.
fn image_of(sections: u8, size: u8) -> [u8; 20] {
    [
        255, 255, 0, 0, 0, 0, 0, 0, size, 0, 0, 0, 0, sections, 0, 0, 0, 0, 0, 0,
    ]
}

/// The number of items, the state, the number of sections, their size, and the nominal capacity.
type Numbers = (u32, u64, u8, u32, u32);

fn has_numbers(level: &Level, numbers: Numbers) -> bool {
    let (items, state, sections, size, capacity) = numbers;
    level.num_items() == items
        && level.state() == state
        && level.num_sections() == sections
        && level.section_size() == size
        && level.nominal_capacity() == capacity
}

/// Returns whether a level has these items, and counts as sorted exactly if `is_sorted`.
fn holds(level: &Level, items: &[i32], is_sorted: bool) -> bool {
    level.items_slice() == items && level.is_sorted() == is_sorted
}

/// Returns whether a level has the numbers from one to another, both included, in order.
fn is_range(level: &Level, first: i32, last: i32) -> bool {
    let items = level.items_slice();
    items.first() == Some(&first)
        && items.last() == Some(&last)
        && level.num_items() as i64 == last as i64 - first as i64 + 1
        && level.is_sorted()
}

/// Returns a level of weight 1 with the numbers from 1 to `last`, the greatest first.
fn filled(alloc: Global, k: u16, rank_accuracy: RankAccuracy, last: i32) -> Result<Level, Error>
    requires { IsLegalK k }
    ensures { IfOk result (λ level. level.lg_weight ≡ 0) }
{
    let mut level = Compactor::new(alloc, 0, k, rank_accuracy);
    for item in 0..last {
        level.append(last.saturating_sub(item))?;
    }
    Ok(level)
}

/// Returns a new level of weight 1 that took some items.
fn level_of(alloc: Global, items: &[i32]) -> Result<Level, Error> {
    let mut level = Compactor::new(alloc, 0, 12, HIGH);
    for item in items {
        level.append(*item)?;
    }
    Ok(level)
}

/// Returns whether a new level at place 3 with k 12 has 3 sections of 12, a weight of 8 an item,
/// and counts as sorted.
fn is_new(alloc: Global) -> bool {
    let level: Level = Compactor::new(alloc, 3, 12, LOW);
    holds(&level, &[], true) && level.weight() == 8 && has_numbers(&level, (0, 0, 3, 12, 72))
}

/// Returns whether a level of two items that `said` calls sorted or not counts as sorted exactly if
/// `is_sorted`, and is new otherwise.
fn is_raw(alloc: Global, items: [i32; 2], said: bool, is_sorted: bool) -> bool {
    match Vec::from_array(alloc, items) {
        Ok(given) => {
            let level = Compactor::raw_items_compactor(12, HIGH, given, said);
            holds(&level, &items, is_sorted) && has_numbers(&level, (2, 0, 3, 12, 72))
        }
        Err(_) => false,
    }
}

#[test]
fn new_levels(rt: HostRuntime) {
    let alloc = rt.alloc();
    assert!(rt;
        is_new(alloc)
            && is_raw(alloc, [1, 2], true, true)
            && is_raw(alloc, [1, 2], false, false)
            && is_raw(alloc, [2, 2], true, true)
            && is_raw(alloc, [2, 1], true, false)
            && is_raw(alloc, [2, 1], false, false)
    );
}

/// Returns whether a level counts these numbers of items at most `item`, and below it.
fn counts(level: &Level, item: i32, at_most: usize, below: usize) -> bool {
    level.count_below(&item, true) == at_most && level.count_below(&item, false) == below
}

fn counts_all(level: &Level) -> bool {
    counts(level, 0, 0, 0)
        && counts(level, 1, 1, 0)
        && counts(level, 4, 2, 2)
        && counts(level, 5, 4, 2)
        && counts(level, 6, 4, 4)
}

/// Returns whether `sort` sorts 5, 3, 5, 1, and they are counted alike before and after it.
fn sorts(level: &mut Level) -> bool {
    let is_counted = holds(level, &[5, 3, 5, 1], false) && counts_all(level);
    level.sort();
    is_counted && holds(level, &[1, 3, 5, 5], true) && counts_all(level)
}

/// Returns whether 5 counts as sorted, and 5, 3, 5, 1 are counted in any order.
fn counts_in_any_order(alloc: Global) -> bool {
    match (level_of(alloc, &[5]), level_of(alloc, &[5, 3, 5, 1])) {
        (Ok(one), Ok(mut level)) => one.is_sorted() && sorts(&mut level),
        _ => false,
    }
}

#[test]
fn sorts_and_counts_items_below(rt: HostRuntime) {
    assert!(rt; counts_in_any_order(rt.alloc()));
}

/// Returns whether a level of 5, 1, 3 takes in 2, 4, 6 after a sort.
fn merges_sorted(level: &mut Level) -> bool {
    level.sort();
    level.merge_sorted([2, 4, 6].as_slice()).is_ok()
}

/// Returns whether a copy has the numbers from 1 to 6, and counts as sorted.
fn is_copied(level: &Level) -> bool {
    match level.clone() {
        Ok(copy) => holds(&copy, &[1, 2, 3, 4, 5, 6], true) && copy.iter().count() == 6,
        Err(_) => false,
    }
}

fn merges_in_order(alloc: Global) -> bool {
    match level_of(alloc, &[5, 1, 3]) {
        Ok(mut level) => merges_sorted(&mut level) && is_copied(&level),
        Err(_) => false,
    }
}

/// Returns whether a level of 3, 2, 1 is as it was if nothing was merged in, has five items if 2, 1
/// were merged in, and a level of the numbers from 1 to 20 counts 72 if those to 52 were merged in.
fn is_merged(level: &Level, other: i32) -> bool {
    match other {
        0 => holds(level, &[3, 2, 1], false),
        2 => holds(level, &[1, 1, 2, 2, 3], true) && has_numbers(level, (5, 0, 3, 12, 72)),
        _ => level.is_sorted() && counts(level, 20, 40, 38) && counts(level, 52, 72, 71),
    }
}

/// Returns whether a level of k 12 with the numbers from 1 to `last` merges in those to `other`,
/// from a level of another k and accuracy.
fn merges(alloc: Global, last: i32, other: i32) -> bool {
    match (filled(alloc, 12, HIGH, last), filled(alloc, 4, LOW, other)) {
        (Ok(mut level), Ok(taken)) => level.merge(&taken).is_ok() && is_merged(&level, other),
        _ => false,
    }
}

/// Returns whether a level of weight 8 takes an item.
fn appends_above(alloc: Global) -> bool {
    let mut level: Level = Compactor::new(alloc, 3, 12, LOW);
    level.append(5).is_ok() && holds(&level, &[5], true) && level.weight() == 8
}

#[test]
fn merges_levels(rt: HostRuntime) {
    let alloc = rt.alloc();
    assert!(rt; merges(alloc, 3, 0) && merges(alloc, 3, 2) && merges(alloc, 20, 52));
    assert!(rt; appends_above(alloc) && merges_in_order(alloc));
}

/// A side, the greatest of the numbers from 1 on that a level of k 4 has, a coin, the items that
/// are sent up, and the first and last number kept.
type Compaction<'a> = (RankAccuracy, i32, bool, &'a [i32], i32, i32);

/// The odd numbers below 64.
const ODD: [i32; 32] = [
    1, 3, 5, 7, 9, 11, 13, 15, 17, 19, 21, 23, 25, 27, 29, 31, 33, 35, 37, 39, 41, 43, 45, 47, 49,
    51, 53, 55, 57, 59, 61, 63,
];

/// Returns whether a compacted level has sent these items up and kept its range, and moved its
/// state if anything went up.
fn is_compacted(level: &Level, out: &[i32], compaction: Compaction<'_>) -> bool {
    let (_, _, _, up, first, last) = compaction;
    let moved = if up.is_empty() { 0 } else { 1 };
    out == up && is_range(level, first, last) && level.state() == moved
}

/// Returns whether a compaction does so, and draws a coin if anything goes up.
fn compacts_into(level: &mut Level, out: &mut Vec<i32>, compaction: Compaction<'_>) -> bool {
    let (_, _, coin, up, ..) = compaction;
    let word = [coin];
    let mut coins = WordBits::new(&word);
    level.compact_into(out, &mut coins).is_ok()
        && is_compacted(level, out.as_slice(), compaction)
        && (coins.drawn() == 0) == up.is_empty()
}

fn compacts_to(alloc: Global, compaction: Compaction<'_>) -> bool {
    let (rank_accuracy, count, ..) = compaction;
    match (filled(alloc, 4, rank_accuracy, count), vec![in alloc; 99]) {
        (Ok(mut level), Ok(mut out)) => compacts_into(&mut level, &mut out, compaction),
        _ => false,
    }
}

static COMPACTIONS: [Compaction<'static>; 8] = [
    (HIGH, 24, false, &[1, 3], 5, 24),
    (HIGH, 24, true, &[2, 4], 5, 24),
    (HIGH, 84, false, &ODD, 65, 84),
    (LOW, 24, false, &[21, 23], 1, 20),
    (LOW, 24, true, &[22, 24], 1, 20),
    (HIGH, 23, false, &[1], 3, 23),
    (HIGH, 21, true, &[], 1, 21),
    (HIGH, 20, true, &[], 1, 20),
];

#[test]
fn compacts(rt: HostRuntime) {
    for compaction in &COMPACTIONS {
        assert!(rt; compacts_to(rt.alloc(), *compaction), "to {}", compaction.5);
    }
}

/// Returns whether a level that kept 5 to 24 and a false coin sends up 6, 8, 10 and 12 after 25 to
/// 28, by the complement and without a draw.
fn compacts_again(level: &mut Level, out: &mut Vec<i32>) -> bool {
    let mut coins = WordBits::new(&[]);
    for item in 25..29i32 {
        if level.append(item).is_err() {
            return false;
        }
    }
    level.compact_into(out, &mut coins).is_ok()
        && out.as_slice() == [6, 8, 10, 12].as_slice()
        && is_range(level, 13, 28)
        && (level.state(), coins.drawn()) == (2, 0)
}

fn compacts_twice(alloc: Global) -> bool {
    match (
        filled(alloc, 4, HIGH, 24),
        Vec::from_array(alloc, [0i32; 0]),
    ) {
        (Ok(mut level), Ok(mut out)) => {
            compacts_into(&mut level, &mut out, COMPACTIONS[0])
                && compacts_again(&mut level, &mut out)
        }
        _ => false,
    }
}

#[test]
fn a_second_compaction_takes_the_complement(rt: HostRuntime) {
    assert!(rt; compacts_twice(rt.alloc()));
}

/// Returns the first level of a sketch of k 12, read from its bytes.
fn read(alloc: Global, bytes: &[u8]) -> Result<Level, Error>
    ensures { IfOk result (λ level. level.lg_weight ≡ 0) }
{
    let mut input = SketchSlice::new(bytes);
    let level = Compactor::deserialize(alloc, &mut input, 12, 0, HIGH, true)?;
    Ok(level)
}

fn writes(level: &Level, bytes: &mut SketchBytes) -> bool {
    level.serialize_into(bytes).is_ok()
}

fn is_written_as(alloc: Global, level: &Level, image: &[u8]) -> bool {
    match SketchBytes::with_capacity(alloc, 0) {
        Ok(mut bytes) => writes(level, &mut bytes) && bytes.into_bytes().as_slice() == image,
        Err(_) => false,
    }
}

/// Returns whether a new level gets 24 sections by merging in one that is read.
fn doubles_sections(alloc: Global, level: &mut Level, read: &Level) -> bool
    requires { level.old.lg_weight ≡ read.now.lg_weight }
{
    level.merge(read).is_ok()
        && has_numbers(level, (0, 65535, 24, 4, 192))
        && is_written_as(alloc, level, &image_of(24, 4))
}

fn doubles_sections_of_new(alloc: Global) -> bool {
    match (filled(alloc, 12, HIGH, 0), read(alloc, &image_of(3, 12))) {
        (Ok(mut level), Ok(read)) => doubles_sections(alloc, &mut level, &read),
        _ => false,
    }
}

#[test]
fn a_merge_doubles_the_sections_more_than_once(rt: HostRuntime) {
    assert!(rt; doubles_sections_of_new(rt.alloc()));
}
