//! The levels of a sketch in one vector, the highest first, and how updates change them. What a
//! compaction does to a slice is in `compaction`. General compress is in `compress`, updates by
//! many items are in `taking`, and merges are in `merging`.
ghost use Rattle.std.specs.Prelude.{◌≡◌, ◌+◌, ◌-◌, ◌^◌, ◌<◌, ◌≤◌, [], ◌∷◌, length, map, IfOk, OnOk, OnErr, vec_capacity, if◌then◌else◌, drop, true, false, IsSorted, IsTrue, nat_le};
ghost use Rattle.sketch_base.specs.Query.{counted};
ghost use Rattle.sketch_kll.specs.Capacity.{capacity_at, total_of};
ghost use Rattle.sketch_kll.specs.Flat.{levels_in, IsFlat};
ghost use Rattle.sketch_kll.specs.Levels.{retained_in, weight_in, first_level, compacted, SameLevels, UpperSorted};
ghost use Rattle.sketch_kll.specs.Rank.{counted_weight};
ghost use Rattle.sketch_kll.specs.Steps.{is_full, compacted_if_full, full_level, needs_sorting, put};
ghost use Rattle.sketch_kll.specs.Stored.{KeepsLevels, KeepsRoom};

mod compress;
pub(crate) mod merging;
mod taking;

use crate::capacity::{MINIMUM_CAPACITY, is_surely_least, level_capacity, total_capacity};
use crate::compaction::compact_level;
use sketch_base::common::SearchCriteria;
use sketch_base::common::counting::{count_all, count_in_order};
use sketch_base::common::random::RandomBits;
use sketch_base::common::room::{reserve_next, shrink_if_loose};
use std::alloc::{AllocError, Global};
use std::marker::Model;

/// The number of bounds that levels may need: 62 for 61 levels, and a spare one for general
/// compress.
const MAX_BOUNDS: usize = 63;

/// The levels of a sketch: level h is `items[bounds[h + 1]..bounds[h]]`, so that an update without
/// a compaction is a push. A contract sees them as the record `Stored` of specs/Stored.
#[derive(Debug, Drop)]
pub(crate) struct Levels<T: Ord> {
    pub(crate) k: u16,
    pub(crate) is_level_zero_sorted: bool,
    pub(crate) items: Vec<T>,
    pub(crate) bounds: Vec<usize>,
    pub(crate) total_capacity: u32,
}

impl<T: Ord> Model for Levels<T> {
    ghost use Rattle.std.specs.Prelude.{vec_capacity};
    ghost use Rattle.sketch_kll.specs.Stored.{Stored, AreStored, stored_of};

    ghost Value = { Stored T };

    ghost view = { λ x. stored_of x.k x.is_level_zero_sorted x.items.items x.bounds.items
        (vec_capacity x.items) (vec_capacity x.bounds) };

    ghost invariant = { λ x. AreStored T.cmp x.k x.items.items x.bounds.items x.total_capacity };
}

#[tactic(auto, using(crate::proofs::layout::Flats::bounded, crate::proofs::layout::Full::full_by_levels))]
impl<T: Ord + Drop> Levels<T> {
    /// Creates one empty level, which does not count as sorted.
    pub(crate) fn new(alloc: Global, k: u16) -> Result<Self, AllocError>
        requires k { 8 ≤ k }
        ensures k { IfOk result (λ x. x.k ≡ k) }
        ensures flag { IfOk result (λ x. x.is_sorted ≡ false) }
        ensures levels { IfOk result (λ x. x.levels ≡ [] ∷ []) }
    {
        let bounds = vec![in alloc; 0, 0]?;
        Ok(Levels {
            k,
            is_level_zero_sorted: false,
            items: Vec::new(alloc),
            bounds,
            total_capacity: total_capacity(k, MINIMUM_CAPACITY, 1),
        })
    }

    /// Returns the number of levels.
    pub(crate) fn num_levels(&self) -> usize
        ensures { result ≡ length self.now.levels }
    {
        self.bounds.len() - 1
    }

    /// Resets the levels to what `new` returns.
    pub(crate) fn clear(&mut self)
        ensures k { self.new.k ≡ self.old.k }
        ensures flag { self.new.is_sorted ≡ false }
        ensures levels { self.new.levels ≡ [] ∷ [] }
    {
        self.is_level_zero_sorted = false;
        self.items.clear();
        self.bounds.truncate(2);
        self.bounds.fill(0);
        self.total_capacity = total_capacity(self.k, MINIMUM_CAPACITY, 1);
    }

    /// Frees memory beyond one more level, and beyond an eighth more items if there is room for over
    /// a quarter more.
    pub(crate) fn shrink(&mut self)
        ensures kept { KeepsLevels self.old self.new }
    {
        shrink_if_loose(&mut self.items, 0);
        self.bounds.shrink_to(self.bounds.len() + 1);
    }

    /// Returns whether the levels are at or over their total capacity.
    pub(crate) fn is_full(&self) -> bool
        ensures value { result ≡ is_full self.now.k self.now.levels }
        ensures some { 0 < length self.now.levels }
        ensures few { length self.now.levels ≤ 61 }
        ensures sorted { UpperSorted T.cmp self.now.levels }
    {
        self.items.len() >= self.total_capacity as usize
    }

    /// Makes room for one more item: compacts one level if the levels are at or over their total
    /// capacity. An error leaves the levels and the source of coins unchanged.
    #[inline(never)]
    pub(crate) fn make_place<B: RandomBits>(&mut self, coins: &mut B) -> Result<(), AllocError>
        requires light { weight_in self.old.levels < 2 ^ 64 }
        requires flag { IsTrue self.old.is_sorted → IsSorted T.cmp (first_level self.old.levels) }
        ensures k { self.new.k ≡ self.old.k }
        ensures levels { OnOk result (SameLevels T.cmp
            (compacted_if_full T.cmp self.old.k self.old.is_sorted (B.bit coins.old)
            self.old.levels)
            self.new.levels) }
        ensures sorted { OnOk result (UpperSorted T.cmp self.new.levels) }
        ensures room { OnOk result (retained_in self.new.levels < self.new.items_room) }
        ensures coins { OnOk result (coins.new ≡ (if is_full self.old.k self.old.levels
            then B.next coins.old else coins.old)) }
        ensures err { OnErr result ((KeepsLevels self.old self.new) × (coins.new ≡ coins.old)) }
    {
        if self.items.len() < self.items.capacity() && !self.is_full() {
            return Ok(());
        }
        let most = self.total_capacity as usize;
        reserve_next(&mut self.items, most)?;
        self.bounds.reserve(1)?;
        self.compact_if_full(coins);
        Ok(())
    }

    /// Compacts one level if the levels are at or over their total capacity.
    #[inline(always)]
    pub(crate) fn compact_if_full<B: RandomBits>(&mut self, coins: &mut B)
        requires light { weight_in self.old.levels < 2 ^ 64 }
        requires flag { IsTrue self.old.is_sorted → IsSorted T.cmp (first_level self.old.levels) }
        requires spare { length self.old.levels + 1 < self.old.bounds_room }
        ensures kept { KeepsRoom self.old self.new }
        ensures levels { SameLevels T.cmp
            (compacted_if_full T.cmp self.old.k self.old.is_sorted (B.bit coins.old)
            self.old.levels)
            self.new.levels }
        ensures sorted { UpperSorted T.cmp self.new.levels }
        ensures shorter { retained_in self.new.levels ≤ retained_in self.old.levels }
        ensures coins { coins.new ≡ (if is_full self.old.k self.old.levels
            then B.next coins.old else coins.old) }
    {
        if self.is_full() {
            let level = self.level_to_compact();
            self.compact(level, coins);
        }
    }

    /// Returns the lowest level that is at or over its capacity. The levels together must be at or
    /// over their total capacity.
    fn level_to_compact(&self) -> usize
        requires full { is_full self.now.k self.now.levels ≡ true }
        requires some { 0 < length self.now.levels }
        requires few { length self.now.levels ≤ 61 }
        requires light { weight_in self.now.levels < 2 ^ 64 }
        ensures level { result ≡ full_level self.now.k self.now.levels }
        ensures within { result < length self.now.levels }
        ensures few { result < 60 }
    {
        let mut level = 0;
        while self.level_passes(level) {
            level += 1;
        }
        level
    }

    /// Compacts one level under the next coin. If it is the top one, a level is added above it.
    fn compact<B: RandomBits>(&mut self, level: usize, coins: &mut B)
        requires within { level < length self.old.levels }
        requires few { level < 60 }
        requires flag { IsTrue self.old.is_sorted → level ≡ 0
            → IsSorted T.cmp (first_level self.old.levels) }
        requires spare { length self.old.levels + 1 < self.old.bounds_room }
        ensures kept { KeepsRoom self.old self.new }
        ensures levels { SameLevels T.cmp
            (compacted T.cmp (needs_sorting self.old.is_sorted level) (B.bit coins.old)
            level self.old.levels)
            self.new.levels }
        ensures sorted { UpperSorted T.cmp self.new.levels }
        ensures shorter { retained_in self.new.levels ≤ retained_in self.old.levels }
        ensures coins { coins.new ≡ B.next coins.old }
    {
        if level + 2 == self.bounds.len() {
            self.bounds.push_reserved(0);
            self.total_capacity = total_capacity(self.k, MINIMUM_CAPACITY, level + 2);
        }
        let needs_sorting = needs_sorting(self.is_level_zero_sorted, level);
        let coin = coins.random_bit();
        let (items, bounds) = (&mut self.items, &mut self.bounds);
        let count = compact_level(items, bounds, level, needs_sorting, coin);
        self.items.truncate(self.items.len() - count);
    }

    /// Appends an item to level 0.
    pub(crate) fn push(&mut self, item: T)
        requires spare { retained_in self.old.levels < self.old.items_room }
        ensures k { self.new.k ≡ self.old.k }
        ensures flag { self.new.is_sorted ≡ false }
        ensures levels { self.new.levels ≡ put item self.old.levels }
        ensures room { self.old.items_room ≤ self.new.items_room }
        ensures bounds_room { self.new.bounds_room ≡ self.old.bounds_room }
    {
        self.items.push_reserved(item);
        self.bounds[0] = self.items.len();
        self.is_level_zero_sorted = false;
    }
}

/// Returns the items of one level.
#[tactic(auto, using(crate::proofs::layout::Flats::bounded))]
pub(crate) fn level_slice<'a, T>(items: &'a [T], bounds: &[usize], level: usize) -> &'a [T]
    requires flat { IsFlat items.now bounds.now }
    requires within { level + 1 < length bounds.now }
    ensures { result.now ≡ first_level (drop level (levels_in items.now bounds.now)) }
{
    &items[bounds[level + 1]..bounds[level]]
}

/// Returns the weight of the items that a query counts.
#[tactic(auto, using(crate::proofs::layout::Flats::bounded, crate::proofs::layout::Legal::of_levels))]
pub(crate) fn weight_counted<T: Ord>(
    items: &[T],
    bounds: &[usize],
    query: &T,
    criteria: SearchCriteria,
) -> u64
    requires flat { IsFlat items.now bounds.now }
    requires fits { weight_in (levels_in items.now bounds.now) < 2 ^ 64 }
    requires some_level { 1 < length bounds.now }
    requires upper { UpperSorted T.cmp (levels_in items.now bounds.now) }
    ensures { result ≡ counted_weight (counted T.cmp query.now criteria)
        (levels_in items.now bounds.now) }
{
    let mut weight = 0;
    let mut level = bounds.len() - 1;
    while level > 1 {
        level -= 1;
        let counted = count_in_order(level_slice(items, bounds, level), query, criteria);
        weight = 2 * weight + counted as u64;
    }
    2 * weight + count_all(level_slice(items, bounds, 0), query, criteria) as u64
}

/// Returns whether a level with `count` items is at or over its capacity. The capacity isn't
/// computed for a level with fewer than 8 items, or far below the top.
fn is_at_capacity(k: u16, num_levels: usize, level: usize, count: usize) -> bool
    requires k { 8 ≤ k }
    requires few_levels { num_levels ≤ 61 }
    requires within { level < num_levels }
    ensures { result ≡ nat_le (capacity_at k 8 (num_levels - 1 - level)) count }
{
    count >= MINIMUM_CAPACITY as usize
        && (is_surely_least(k, num_levels - 1 - level)
            || count >= level_capacity(k, num_levels, level, MINIMUM_CAPACITY) as usize)
}

/// Returns whether a level has to be sorted before it is compacted: level 0 if it does not count as
/// sorted.
fn needs_sorting(is_sorted: bool, level: usize) -> bool
    ensures { result ≡ needs_sorting is_sorted level }
{
    level == 0 && !is_sorted
}
