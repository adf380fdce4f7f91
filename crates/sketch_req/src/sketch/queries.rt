//! Quantiles, distributions and the sorted view of a sketch.
ghost use Rattle.std.specs.Prelude.{◌≡◌, ◌≢◌, ◌^◌, ◌<◌, Some, IsSome, IfOk, IfErr, IfSome, length, map, slice_get, sum_by};
ghost use Rattle.std.specs.declared.cmp.Ordering.TheVariants.{Equal};
ghost use Rattle.std.specs.List.Sorted.{IsNonDecreasing};
ghost use Rattle.sketch_base.specs.declared.error.ErrorKind.TheVariants.{OutOfMemory};
ghost use Rattle.sketch_base.specs.Bag.{expanded};
ghost use Rattle.sketch_base.specs.Pairs.{SamePairs, distinct};
ghost use Rattle.sketch_base.specs.Queried.{AreQuantiles, EndsAt, IsCdf, IsPmf, IsQuantile, quantile_of};
ghost use Rattle.sketch_base.specs.Queries.{IsFraction, SameAnswer};
ghost use Rattle.sketch_base.specs.Views.{IsViewOf};
ghost use Rattle.sketch_req.specs.Actions.{bag_of};
ghost use Rattle.sketch_base.specs.Query.{counted};
ghost use Rattle.sketch_req.specs.Level.{criteria_of};
ghost use Rattle.sketch_req.specs.Pairs.{pairs_of};
ghost use Rattle.sketch_req.specs.Rank.{counted_weight};
ghost use Rattle.sketch_req.specs.Schedule.{layouts_of, weight_of};
ghost use Rattle.sketch_req.specs.Views.{queried};

use super::ReqSketch;
use crate::compactor::Compactor;
use crate::sorted_view::SortedView;
use sketch_base::common::extremes::clone_found;
use sketch_base::common::finding::{Ranked, find_in};
use sketch_base::common::{Rank, SearchCriteria, queries};
use sketch_base::error::Error;
use sketch_base::weighted::push_clones;
use std::alloc::{AllocError, Global};

/// The most split points for which `cdf` takes a rank each; for more it makes a sorted view.
const FEW_POINTS: usize = 64;

impl<T: Clone + Ord> ReqSketch<T> {
    /// Returns a sorted snapshot of the items, for many queries. Equal items are joined in it.
    ///
    /// A clone of an item must compare equal to it. An error is `OutOfMemory`.
    pub fn sorted_view(&self) -> Result<SortedView<T>, Error>
        requires clones { (x y : T) → T.is_clone x y → T.cmp x y ≡ Equal }
        ensures view { IfOk result (IsViewOf (queried T.cmp self.now)) }
        ensures joined { IfOk result (λ v. v.held ≡ distinct T.cmp v.entries) }
        ensures memory { IfErr result (λ e. e ≡ OutOfMemory) }
        ensures some { IfErr result (λ e. self.now.n ≢ 0) }
    {
        let least = clone_found(self.min_item.as_ref())?;
        let greatest = clone_found(self.max_item.as_ref())?;
        let levels = &self.levels;
        let alloc = *levels.compactors.allocator();
        let weighted = weigh_levels(alloc, levels.compactors.as_slice(), levels.num_retained)?;
        SortedView::new(weighted, least, greatest)
    }

    /// Returns the item at the quantile given by `fraction`, or None for an empty sketch.
    ///
    /// With each item repeated by its weight and all sorted, it is the one at position
    /// `ceil(weight * n / total)` (`Inclusive`) or `floor(weight * n / total) + 1` (`Exclusive`),
    /// counted from 1. A weight of 0 gives the least item of the stream, a weight of `total` the
    /// greatest.
    ///
    /// A clone of an item must compare equal to it. Returns `InvalidArgument` exactly if `total` is
    /// 0 or `weight` exceeds it, also for an empty sketch; any other error is `OutOfMemory`.
    pub fn quantile(&self, fraction: Rank, criteria: SearchCriteria) -> Result<Option<T>, Error>
        requires clones { (x y : T) → T.is_clone x y → T.cmp x y ≡ Equal }
        ensures { IsQuantile (queried T.cmp self.now) fraction criteria result }
    {
        queries::check_fraction(fraction)?;
        if let Some(item) = self.find(fraction, criteria) {
            return Ok(Some(item.clone()?));
        }
        self.sorted_view()?.quantile(fraction, criteria)
    }

    /// Returns the item at the quantile given by `fraction`, if it is an extreme or a sorted level
    /// holds it. The highest level comes first, since it weighs most.
    fn find(&self, fraction: Rank, criteria: SearchCriteria) -> Option<&T>
        requires { IsFraction fraction }
        ensures same { IfSome result (λ x. SameAnswer T.cmp
            (quantile_of (queried T.cmp self.now) fraction criteria) (Some x.now)) }
        ensures some { IsSome result → self.now.n ≢ 0 }
    {
        match self.n() {
            _ if fraction.weight == 0 => self.min_item(),
            _ if fraction.weight == fraction.total => self.max_item(),
            0 => None,
            n => self.find_at(queries::place_of(fraction, n, criteria)),
        }
    }

    /// Returns the item at `place` among all sorted entries, if a sorted level holds it.
    fn find_at(&self, place: u64) -> Option<&T>
        ensures { IfSome result (λ x. SameAnswer T.cmp
            (slice_get (expanded T.cmp (bag_of self.now.levels)) place) (Some x.now)) }
    {
        let mut levels = self.levels.compactors.as_slice();
        while let Some((level, lower)) = levels.split_last() {
            if let Some(item) = find_in(self, level.items_slice(), place) {
                return Some(item);
            }
            levels = lower;
        }
        None
    }

    /// Returns the item at the quantile given by each fraction, or None for an empty sketch.
    ///
    /// A clone of an item must compare equal to it. Errors are as for `quantile`, for any of them.
    pub fn quantiles(
        &self,
        fractions: &[Rank],
        criteria: SearchCriteria,
    ) -> Result<Option<Vec<T>>, Error>
        requires clones { (x y : T) → T.is_clone x y → T.cmp x y ≡ Equal }
        ensures { AreQuantiles (queried T.cmp self.now) fractions.now criteria result }
    {
        queries::check_fractions(fractions)?;
        self.sorted_view()?.quantiles(fractions, criteria)
    }

    /// Returns the rank of each split point, followed by the whole, or None for an empty sketch.
    /// For at most 64 points it allocates only the answer; for more it makes a sorted view.
    ///
    /// A clone of an item must compare equal to it. Returns `InvalidArgument` exactly if the points
    /// do not strictly increase, also for an empty sketch; any other error is `OutOfMemory`.
    pub fn cdf(&self, points: &[T], criteria: SearchCriteria) -> Result<Option<Vec<Rank>>, Error>
        requires clones { (x y : T) → T.is_clone x y → T.cmp x y ≡ Equal }
        ensures ranks { IsCdf (queried T.cmp self.now) points.now criteria result }
        ensures ends { IfOk result (EndsAt (length points.now) self.now.n) }
        ensures rises { IfOk result (λ found. IfSome found (λ ranks.
            IsNonDecreasing (map (λ (r : Rank). r.weight) ranks.items))) }
    {
        queries::check_points(points)?;
        let total = self.n();
        if total == 0 || points.len() > FEW_POINTS {
            return self.sorted_view()?.cdf(points, criteria);
        }
        let alloc = *self.levels.compactors.allocator();
        let mut ranks = Vec::with_capacity(alloc, points.len() + 1)?;
        for point in points {
            let weight = self.rank_weight(point, criteria);
            ranks.push_reserved(Rank { weight, total });
        }
        let weight = total;
        ranks.push_reserved(Rank { weight, total });
        Ok(Some(ranks))
    }

    /// Returns the weights between the split points, or None for an empty sketch.
    ///
    /// Entry `i` weighs the items above `points[i - 1]` and at most `points[i]` (`Inclusive`), or
    /// at least `points[i - 1]` and below `points[i]` (`Exclusive`). The first entry has no lower
    /// point, and the last no upper one.
    ///
    /// A clone of an item must compare equal to it. Errors are as for `cdf`.
    pub fn pmf(&self, points: &[T], criteria: SearchCriteria) -> Result<Option<Vec<Rank>>, Error>
        requires clones { (x y : T) → T.is_clone x y → T.cmp x y ≡ Equal }
        ensures weights { IsPmf (queried T.cmp self.now) points.now criteria result }
        ensures sums { IfOk result (λ found. IfSome found (λ ranks.
            sum_by (λ (r : Rank). r.weight) ranks.items ≡ self.now.n)) }
    {
        // Read so that the proof knows the invariant.
        let _n = self.n();
        let Some(mut ranks) = self.cdf(points, criteria)? else {
            return Ok(None);
        };
        queries::take_differences(ranks.as_mut_slice());
        Ok(Some(ranks))
    }
}

impl<T: Clone + Ord> Ranked<T> for ReqSketch<T> {
    ghost bag = { λ s. bag_of s.levels };

    fn rank_weight(&self, item: &T, criteria: SearchCriteria) -> u64 {
        let levels = self.levels.compactors.as_slice();
        match criteria {
            SearchCriteria::Inclusive => weight_counted(levels, item, true),
            SearchCriteria::Exclusive => weight_counted(levels, item, false),
        }
    }
}

/// Returns the weight of the items below `item`, or at most `item` if `inclusive` is true.
fn weight_counted<T: Clone + Ord>(levels: &[Compactor<T>], item: &T, inclusive: bool) -> u64
    requires { weight_of (layouts_of levels.now) < 2 ^ 64 }
    ensures { result ≡ counted_weight (counted T.cmp item.now (criteria_of inclusive)) levels.now }
{
    let (mut weight, mut level) = (0, levels.len());
    while level > 0 {
        level -= 1;
        weight = levels[level].count_below(item, inclusive) as u64 + 2 * weight;
    }
    weight
}

/// Returns clones of the items of levels with their weights, level by level. There are `count` of
/// them.
fn weigh_levels<T: Clone + Ord>(
    alloc: Global,
    levels: &[Compactor<T>],
    count: usize,
) -> Result<Vec<(T, u64)>, AllocError>
    requires clones { (x y : T) → T.is_clone x y → T.cmp x y ≡ Equal }
    requires count { count ≡ length (pairs_of levels.now) }
    ensures same { IfOk result (λ weighted.
        SamePairs T.cmp (pairs_of levels.now) weighted.items) }
    ensures some { IfErr result (λ e. 0 < length (pairs_of levels.now)) }
{
    let mut weighted = Vec::with_capacity(alloc, count)?;
    for level in levels {
        push_clones(level.items_slice(), level.weight(), &mut weighted)?;
    }
    Ok(weighted)
}
