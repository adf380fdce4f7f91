//! General compress: a walk over the levels from 0 up.
ghost use Rattle.std.specs.Prelude.{◌≡◌, ◌+◌, ◌^◌, ◌<◌, ◌≤◌, length, IsTrue, IsSorted, true, false, ◌⊎◌};
ghost use Rattle.sketch_base.specs.Random.{after_draws};
ghost use Rattle.sketch_base.specs.Trace.{draws_of};
ghost use Rattle.sketch_kll.specs.Capacity.{total_of};
ghost use Rattle.sketch_kll.specs.Compress.{walked, passes, compress_of, IsCompressed};
ghost use Rattle.sketch_kll.specs.Levels.{retained_in, weight_in, first_level, SameLevels, UpperSorted};
ghost use Rattle.sketch_kll.specs.Steps.{is_full};
ghost use Rattle.sketch_kll.specs.Stored.{KeepsRoom};

use super::{Levels, is_at_capacity};
use sketch_base::common::random::RandomBits;

#[tactic(auto, using(crate::proofs::layout::Flats::bounded, crate::proofs::layout::Full::spare_holds))]
impl<T: Ord + Drop> Levels<T> {
    /// Returns whether the walk reaches a level: it exists, and the levels are at or over their
    /// total capacity.
    fn walk_reaches(&self, level: usize) -> bool
        requires fits { level + 1 < 2 ^ 64 }
        ensures within { IsTrue result → level < length self.now.levels }
        ensures full { IsTrue result → is_full self.now.k self.now.levels ≡ true }
        ensures over { result ≡ false → (length self.now.levels ≤ level)
            ⊎ (retained_in self.now.levels < total_of self.now.k 8 (length self.now.levels)) }
        ensures few { length self.now.levels ≤ 61 }
        ensures sorted { UpperSorted T.cmp self.now.levels }
    {
        level + 1 < self.bounds.len() && self.is_full()
    }

    /// Returns whether general compress leaves a level as it is, given levels at or over their
    /// total capacity.
    pub(super) fn level_passes(&self, level: usize) -> bool
        requires full { is_full self.now.k self.now.levels ≡ true }
        requires within { level < length self.now.levels }
        ensures { result ≡ passes self.now.k self.now.levels level }
    {
        let bounds = self.bounds.as_slice();
        let num_levels = bounds.len() - 1;
        !is_at_capacity(self.k, num_levels, level, bounds[level] - bounds[level + 1])
    }

    /// General compress: compacts, from level 0 up, each level that is at or over its capacity,
    /// until the levels are below their total capacity. The walk continues into a level that is
    /// added.
    pub(crate) fn compress<B: RandomBits>(&mut self, coins: &mut B)
        requires light { weight_in self.old.levels < 2 ^ 64 }
        requires flag { IsTrue self.old.is_sorted → IsSorted T.cmp (first_level self.old.levels) }
        requires spare { 63 ≤ self.old.bounds_room }
        ensures kept { KeepsRoom self.old self.new }
        ensures below { retained_in self.new.levels < total_of self.old.k 8 (length self.new.levels) }
        ensures levels { SameLevels T.cmp
            (walked T.cmp B.bit B.next self.old.k self.old.is_sorted 61 0 coins.old
            self.old.levels)
            self.new.levels }
        ensures bag { IsCompressed T.cmp B.bit B.next coins.old self.old.k self.old.is_sorted
            self.old.levels self.new.levels }
        ensures coins { coins.new ≡ after_draws B.next coins.old
            (draws_of (compress_of self.old.k self.old.levels)) }
        ensures few { length self.new.levels ≤ 61 }
        ensures sorted { UpperSorted T.cmp self.new.levels }
    {
        // Read so that the proof knows the invariant.
        let _k = self.k;
        let mut level = 0;
        while self.walk_reaches(level) {
            if !self.level_passes(level) {
                self.compact(level, coins);
            }
            level += 1;
        }
    }
}
