//! Levels that take items one after another.
ghost use Rattle.std.specs.Prelude.{◌≡◌, ◌+◌, ◌<◌, ◌≤◌, ◌++◌, ◌^◌, length, min, vec_len, IsSorted, IsTrue, IfOk, OnOk};
ghost use Rattle.std.specs.declared.cmp.Ordering.TheVariants.{Equal};
ghost use Rattle.std.specs.Option.{option_to_list};
ghost use Rattle.sketch_base.specs.Bag.{SameItems};
ghost use Rattle.sketch_base.specs.Extremes.{IsGreatestOf, IsLeastOf, newer_or};
ghost use Rattle.sketch_kll.specs.Capacity.{total_of};
ghost use Rattle.sketch_kll.specs.Levels.{retained_in, weight_in};
ghost use Rattle.sketch_kll.specs.Stored.{KeepsLevels};
ghost use Rattle.sketch_kll.specs.Take.{AreKept, HaveTaken};

use super::{Levels, MAX_BOUNDS};
use crate::capacity::{MAX_LEVELS, MINIMUM_CAPACITY, total_capacity};
use sketch_base::common::extremes::clone_passing_extremes;
use sketch_base::common::random::RandomBits;
use std::alloc::AllocError;

impl<T: Ord + Drop> Levels<T> {
    /// Takes items one after another, as updates do. The memory that it needs must be there already.
    pub(crate) fn update_all<B: RandomBits>(&mut self, items: Vec<T>, coins: &mut B)
        requires kept { AreKept T.cmp self.old.k self.old.is_sorted self.old.levels }
        requires light { weight_in self.old.levels + length items.items < 2 ^ 64 }
        requires room { min (retained_in self.old.levels + vec_len items) (total_of self.old.k 8 61)
            ≤ self.old.items_room }
        requires spare { 63 ≤ self.old.bounds_room }
        ensures k { self.new.k ≡ self.old.k }
        ensures taken { HaveTaken T.cmp B.bit B.next coins.old coins.new self.old.k
            self.old.is_sorted self.new.is_sorted self.old.levels items.items self.new.levels }
        ensures len { retained_in self.new.levels ≤ retained_in self.old.levels + vec_len items }
        ensures spare { 63 ≤ self.new.bounds_room }
    {
        for item in items {
            self.compact_if_full(coins);
            self.push(item);
        }
    }
}

#[tactic(auto, using(crate::proofs::layout::Flats::bounded))]
impl<T: Clone + Ord> Levels<T> {
    /// Returns clones of the items, and a clone for each extreme that they go beyond, and makes
    /// room for the items that will be kept. Taking the items then needs no more memory.
    pub(crate) fn prepare_all(
        &mut self,
        items: &[T],
        least: &Option<T>,
        greatest: &Option<T>,
    ) -> Result<(Vec<T>, Option<T>, Option<T>), AllocError>
        requires clones { (x y : T) → T.is_clone x y → T.cmp x y ≡ Equal }
        requires some { 0 < length items.now }
        ensures kept { KeepsLevels self.old self.new }
        ensures clones { IfOk result (λ x. SameItems T.cmp items.now x.0.items) }
        ensures room { IfOk result (λ x.
            min (retained_in self.new.levels + vec_len x.0) (total_of self.new.k 8 61)
            ≤ self.new.items_room) }
        ensures spare { OnOk result (63 ≤ self.new.bounds_room) }
        ensures least { IfOk result (λ x. IsLeastOf T.cmp (option_to_list least.now ++ items.now)
            (newer_or x.1 least.now)) }
        ensures greatest { IfOk result (λ x. IsGreatestOf T.cmp
            (option_to_list greatest.now ++ items.now) (newer_or x.2 greatest.now)) }
    {
        let (least, greatest) = clone_passing_extremes(items, least, greatest)?;
        let clones = self.clone_with_room(items)?;
        Ok((clones, least, greatest))
    }

    /// Returns clones of the items, and makes room for those that will be kept.
    fn clone_with_room(&mut self, items: &[T]) -> Result<Vec<T>, AllocError>
        requires clones { (x y : T) → T.is_clone x y → T.cmp x y ≡ Equal }
        ensures kept { KeepsLevels self.old self.new }
        ensures clones { IfOk result (λ clones. SameItems T.cmp items.now clones.items) }
        ensures room { IfOk result (λ clones.
            min (retained_in self.new.levels + vec_len clones) (total_of self.new.k 8 61)
            ≤ self.new.items_room) }
        ensures spare { OnOk result (63 ≤ self.new.bounds_room) }
    {
        let most = total_capacity(self.k, MINIMUM_CAPACITY, MAX_LEVELS) as usize;
        let count = items.len().min(most.saturating_sub(self.items.len()));
        self.items.reserve_exact(count)?;
        self.bounds.reserve_exact(MAX_BOUNDS - self.bounds.len())?;
        items.to_vec(*self.items.allocator())
    }
}
