//! A sorted snapshot of a sketch's items, for many queries. Each family builds it from what its
//! sketches hold.
ghost use Rattle.std.specs.Prelude.{◌≡◌, ◌↔◌, ◌<◌, ◌^◌, length, map, sum_by, IsTrue, IsSome, IfOk, IfErr, IfSome, if◌then◌else◌, option_copied};
ghost use Rattle.std.specs.declared.cmp.Ordering.TheVariants.{Equal};
ghost use Rattle.std.specs.List.{All};
ghost use Rattle.std.specs.List.Sorted.{IsNonDecreasing};
ghost use Rattle.sketch_base.specs.declared.error.ErrorKind.TheVariants.{OutOfMemory};
ghost use Rattle.sketch_base.specs.Bag.{SameItems, sort};
ghost use Rattle.sketch_base.specs.Pairs.{copies, distinct, extreme_among};
ghost use Rattle.sketch_base.specs.Queried.{AreQuantiles, EndsAt, IsCdf, IsPmf, IsQuantile, IsRank, quantile_of};
ghost use Rattle.sketch_base.specs.Queries.{IsFraction};
ghost use Rattle.sketch_base.specs.Views.{IsView, SameView, queried_view, view_from};

use crate::common::counting::count_near;
use crate::common::extremes::clone_found;
use crate::common::{Rank, SearchCriteria, queries};
use crate::error::Error;
use crate::weighted::cumulate;
use std::alloc::AllocError;
use std::marker::Model;

/// The sorted items of a sketch, with their weights. Each item stands for as many entries as it
/// weighs.
#[derive(Debug, Drop)]
pub struct SortedView<T: Clone + Ord> {
    items: Vec<T>,
    cumulated: Vec<u64>,
    min_item: Option<T>,
    max_item: Option<T>,
}

impl<T: Clone + Ord> Model for SortedView<T> {
    ghost use Rattle.sketch_base.specs.Views.{View, IsView, view_from};

    ghost Value = { View T };

    ghost view = { λ v. view_from v.items.items v.cumulated.items v.min_item v.max_item };

    ghost invariant = { λ v. IsView T.cmp v.items.items v.cumulated.items v.min_item v.max_item };
}

impl<T: Clone + Ord> SortedView<T> {
    /// Builds the view of items with their weights, in any order. Of items that compare equal, one
    /// is kept, with the weight of them all. Each weight must be above 0, and their sum must fit a
    /// `u64`. The extremes are those of the stream; they are ignored if there are no items. An
    /// error is `OutOfMemory`.
    pub fn new(
        weighted: Vec<(T, u64)>,
        min_item: Option<T>,
        max_item: Option<T>,
    ) -> Result<Self, Error>
        requires weights { All (λ pair. 0 < pair.1) weighted.items }
        requires fits { sum_by (λ pair. pair.1) weighted.items < 2 ^ 64 }
        requires least { 0 < length weighted.items → IsSome min_item }
        requires greatest { 0 < length weighted.items → IsSome max_item }
        ensures entries { IfOk result (λ v.
            SameItems T.cmp (sort T.cmp (copies weighted.items)) v.entries) }
        ensures joined { IfOk result (λ v. v.held ≡ distinct T.cmp v.entries) }
        ensures least { IfOk result (λ v. v.least ≡ extreme_among weighted.items min_item) }
        ensures greatest { IfOk result (λ v.
            v.greatest ≡ extreme_among weighted.items max_item) }
        ensures memory { IfErr result (λ e. e ≡ OutOfMemory) }
        ensures none { IfErr result (λ e. 0 < length weighted.items) }
    {
        SortedView::build(weighted, true, min_item, max_item)
    }

    /// Builds the view as `new` does, but joins items that compare equal only if `joins` is true.
    pub fn build(
        mut weighted: Vec<(T, u64)>,
        joins: bool,
        min_item: Option<T>,
        max_item: Option<T>,
    ) -> Result<Self, Error>
        requires weights { All (λ pair. 0 < pair.1) weighted.items }
        requires fits { sum_by (λ pair. pair.1) weighted.items < 2 ^ 64 }
        requires least { 0 < length weighted.items → IsSome min_item }
        requires greatest { 0 < length weighted.items → IsSome max_item }
        ensures entries { IfOk result (λ v.
            SameItems T.cmp (sort T.cmp (copies weighted.items)) v.entries) }
        ensures held { IfOk result (λ v. v.held
            ≡ (if joins then distinct T.cmp v.entries else length weighted.items)) }
        ensures least { IfOk result (λ v. v.least ≡ extreme_among weighted.items min_item) }
        ensures greatest { IfOk result (λ v.
            v.greatest ≡ extreme_among weighted.items max_item) }
        ensures memory { IfErr result (λ e. e ≡ OutOfMemory) }
        ensures none { IfErr result (λ e. 0 < length weighted.items) }
    {
        let alloc = *weighted.allocator();
        let count = weighted.len();
        let mut items = Vec::with_capacity(alloc, count)?;
        let mut cumulated = Vec::with_capacity(alloc, count)?;
        if count == 0 {
            return Ok(SortedView::from_cumulated(items, cumulated, None, None));
        }
        weighted.sort_unstable_by(|a, b| a.0.cmp(&b.0));
        // The greatest comes first, and the least is taken off first.
        weighted.reverse();
        cumulate(&mut weighted, joins, &mut items, &mut cumulated);
        Ok(SortedView::from_cumulated(items, cumulated, min_item, max_item))
    }

    /// Builds the view of sorted items with their cumulative weights, whose stream has these
    /// extremes.
    pub fn from_cumulated(
        items: Vec<T>,
        cumulated: Vec<u64>,
        min_item: Option<T>,
        max_item: Option<T>,
    ) -> Self
        requires { IsView T.cmp items.items cumulated.items min_item max_item }
        ensures { result ≡ view_from items.items cumulated.items min_item max_item }
    {
        SortedView {
            items,
            cumulated,
            min_item,
            max_item,
        }
    }

    /// Returns whether there are no entries.
    pub fn is_empty(&self) -> bool
        ensures value { IsTrue result ↔ (length self.now.entries ≡ 0) }
    {
        self.items.is_empty()
    }

    /// Returns the number of items that the view holds: for a KLL sketch the retained ones, for a
    /// REQ sketch the distinct ones among them, since `new` joins equal items.
    pub fn len(&self) -> usize
        ensures value { result ≡ self.now.held }
    {
        self.items.len()
    }

    /// Returns the number of entries: the weight of all items.
    pub fn total_weight(&self) -> u64
        ensures value { result ≡ length self.now.entries }
    {
        queries::entries_of(self.items.as_slice(), self.cumulated.as_slice())
    }

    /// Returns the number of entries that are at most the item (`Inclusive`) or below it
    /// (`Exclusive`), out of all entries, or None if there are no entries.
    pub fn rank(&self, item: &T, criteria: SearchCriteria) -> Option<Rank>
        ensures { IsRank (queried_view T.cmp self.now) item.now criteria result }
    {
        if self.items.is_empty() {
            return None;
        }
        let (items, cumulated) = (self.items.as_slice(), self.cumulated.as_slice());
        let weight = queries::rank_among(items, cumulated, item, criteria);
        let total = queries::entries_of(items, cumulated);
        Some(Rank { weight, total })
    }

    /// Returns the entry at the quantile given by `fraction`, or None if there are no entries.
    ///
    /// Of `n` entries it is the one at position `ceil(weight * n / total)` (`Inclusive`) or
    /// `floor(weight * n / total) + 1` (`Exclusive`), counted from 1. A weight of 0 gives the least
    /// item of the stream, a weight of `total` the greatest.
    ///
    /// A clone of an item must compare equal to it. Returns `InvalidArgument` exactly if `total` is
    /// 0 or `weight` exceeds it, even if there are no entries; any other error is `OutOfMemory`.
    pub fn quantile(&self, fraction: Rank, criteria: SearchCriteria) -> Result<Option<T>, Error>
        requires clones { (x y : T) → T.is_clone x y → T.cmp x y ≡ Equal }
        ensures { IsQuantile (queried_view T.cmp self.now) fraction criteria result }
    {
        queries::check_fraction(fraction)?;
        Ok(clone_found(self.entry_of(fraction, criteria))?)
    }

    /// Returns the entry at the quantile given by each fraction, or None if there are no entries.
    /// A clone of an item must compare equal to it. Returns `InvalidArgument` exactly if `quantile`
    /// does for one of them, even if there are no entries; any other error is `OutOfMemory`.
    pub fn quantiles(
        &self,
        fractions: &[Rank],
        criteria: SearchCriteria,
    ) -> Result<Option<Vec<T>>, Error>
        requires clones { (x y : T) → T.is_clone x y → T.cmp x y ≡ Equal }
        ensures { AreQuantiles (queried_view T.cmp self.now) fractions.now criteria result }
    {
        queries::check_fractions(fractions)?;
        if self.items.is_empty() {
            return Ok(None);
        }
        let mut found = Vec::with_capacity(*self.items.allocator(), fractions.len())?;
        for fraction in fractions {
            let entry = self.entry_of(*fraction, criteria).unwrap();
            found.push_reserved(entry.clone()?);
        }
        Ok(Some(found))
    }

    /// Returns the rank of each split point, followed by the whole, or None if there are no
    /// entries. Returns `InvalidArgument` exactly if the points do not strictly increase, even if
    /// there are no entries; any other error is `OutOfMemory`.
    pub fn cdf(&self, points: &[T], criteria: SearchCriteria) -> Result<Option<Vec<Rank>>, Error>
        ensures ranks { IsCdf (queried_view T.cmp self.now) points.now criteria result }
        ensures ends { IfOk result (EndsAt (length points.now) (length self.now.entries)) }
        ensures rises { IfOk result (λ found. IfSome found (λ ranks.
            IsNonDecreasing (map (λ (r : Rank). r.weight) ranks.items))) }
    {
        queries::check_points(points)?;
        if self.items.is_empty() {
            return Ok(None);
        }
        let (items, cumulated) = (self.items.as_slice(), self.cumulated.as_slice());
        let total = queries::entries_of(items, cumulated);
        let alloc = *self.items.allocator();
        let mut ranks = Vec::with_capacity(alloc, points.len().saturating_add(1))?;
        let mut count = 0;
        for point in points {
            count = count_near(items, count, point, criteria);
            let weight = queries::entries_before(cumulated, count);
            ranks.push_reserved(Rank { weight, total });
        }
        let weight = total;
        ranks.push_reserved(Rank { weight, total });
        Ok(Some(ranks))
    }

    /// Returns the numbers of entries before, between and after the split points, or None if there
    /// are no entries. Those between two points are above the lower and at most the upper
    /// (`Inclusive`), or at least the lower and below the upper (`Exclusive`). Errors are as for
    /// `cdf`.
    pub fn pmf(&self, points: &[T], criteria: SearchCriteria) -> Result<Option<Vec<Rank>>, Error>
        ensures weights { IsPmf (queried_view T.cmp self.now) points.now criteria result }
        ensures sums { IfOk result (λ found. IfSome found (λ ranks. sum_by (λ (r : Rank).
            r.weight) ranks.items ≡ length self.now.entries)) }
    {
        let Some(mut ranks) = self.cdf(points, criteria)? else {
            return Ok(None);
        };
        queries::take_differences(ranks.as_mut_slice());
        Ok(Some(ranks))
    }

    /// Returns a view of clones of the items. A clone of an item must compare equal to it.
    pub fn clone(&self) -> Result<Self, AllocError>
        requires clones { (x y : T) → T.is_clone x y → T.cmp x y ≡ Equal }
        ensures same { IfOk result (SameView T.cmp self.now) }
    {
        Ok(SortedView {
            items: self.items.clone()?,
            cumulated: self.cumulated.clone()?,
            min_item: clone_found(self.min_item.as_ref())?,
            max_item: clone_found(self.max_item.as_ref())?,
        })
    }

    /// Returns the entry at the quantile given by `fraction`, or None if there are no entries.
    fn entry_of(&self, fraction: Rank, criteria: SearchCriteria) -> Option<&T>
        requires { IsFraction fraction }
        ensures entry { option_copied result
            ≡ quantile_of (queried_view T.cmp self.now) fraction criteria }
        ensures there { IsSome result ↔ (0 < length self.now.entries) }
    {
        if fraction.weight == 0 {
            return self.min_item.as_ref();
        }
        if fraction.weight == fraction.total {
            return self.max_item.as_ref();
        }
        let (items, cumulated) = (self.items.as_slice(), self.cumulated.as_slice());
        let entries = queries::entries_of(items, cumulated);
        if entries == 0 {
            return None;
        }
        let place = queries::place_of(fraction, entries, criteria);
        queries::entry_at(items, cumulated, place)
    }
}
