//! Finds the item of a quantile by ranks, without a view.
ghost use Rattle.std.specs.Prelude.{◌≡◌, IfSome, Some, slice_get};
ghost use Rattle.sketch_base.specs.Bag.{Bag, expanded, weighted_rank};
ghost use Rattle.sketch_base.specs.Query.{counted};
ghost use Rattle.sketch_base.specs.Queries.{SameAnswer};

use crate::common::SearchCriteria::{self, Exclusive, Inclusive};

/// A sketch that answers rank queries.
pub trait Ranked<T: Ord> {
    /// The bag that a sketch holds.
    ghost bag: { Self → Bag T };

    /// Returns the weight of the retained items that a query counts.
    fn rank_weight(&self, item: &T, criteria: SearchCriteria) -> u64
        ensures { result ≡ weighted_rank T.cmp (counted T.cmp item.now criteria) (bag self.now) };
}

/// Returns the item at `place`, counted from 0, among all sorted entries of a sketch, if it is
/// found in `run`. It is found if `run` is one of the sketch's sorted runs and holds it, but the
/// contract allows None even then.
pub fn find_in<'a, T: Ord, S: Ranked<T>>(sketch: &S, run: &'a [T], place: u64) -> Option<&'a T>
    ensures { IfSome result (λ x. SameAnswer T.cmp
        (slice_get (expanded T.cmp (S.bag sketch.now)) place) (Some x.now)) }
{
    let first = run.partition_point(|item| sketch.rank_weight(item, Inclusive) <= place);
    let Some(item) = run.get(first) else {
        return None;
    };
    if sketch.rank_weight(item, Exclusive) <= place && place < sketch.rank_weight(item, Inclusive) {
        return Some(item);
    }
    None
}
