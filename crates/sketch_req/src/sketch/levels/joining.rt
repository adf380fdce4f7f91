//! Joins other levels into a sketch's. What can fail comes before.
ghost use Rattle.std.specs.Prelude.{◌≡◌, ◌+◌, ◌^◌, ◌<◌, max, length, vec_len, vec_capacity, IfOk};
ghost use Rattle.std.specs.declared.cmp.Ordering.TheVariants.{Equal};
ghost use Rattle.sketch_req.specs.Merged.{AreJoined, AreCloned};
ghost use Rattle.sketch_req.specs.Schedule.{layouts_of, retained_of};
ghost use Rattle.sketch_req.specs.Walk.{AreHeld, AreLevels, accuracy_of, k_of};

use super::walk::{add_level, count_at};
use crate::compactor::{Arrivals, Compactor, clone_beside};
use std::alloc::{AllocError, Global};

/// Makes arrivals of clones of the items of each of the other levels in the level at the same place.
pub(super) fn clone_items<T: Clone + Ord>(
    alloc: Global,
    levels: &[Compactor<T>],
    others: &[Compactor<T>],
) -> Result<Vec<Arrivals<T>>, AllocError>
    requires clones { (x y : T) → T.is_clone x y → T.cmp x y ≡ Equal }
    requires few { retained_of (layouts_of levels.now) + retained_of (layouts_of others.now)
        < 2 ^ 32 }
    ensures { IfOk result (λ lists. AreCloned T.cmp levels.now others.now lists.items) }
{
    let mut lists = Vec::with_capacity(alloc, others.len())?;
    for level in 0..others.len() {
        let items = others[level].items_slice();
        lists.push_reserved(clone_beside(alloc, items, count_at(levels, level))?);
    }
    Ok(lists)
}

/// Joins the other levels, clones of whose items arrive, into the levels at the same places. Missing
/// levels are added.
pub(super) fn join_levels<T: Clone + Ord>(
    levels: &mut Vec<Compactor<T>>,
    others: &[Compactor<T>],
    lists: Vec<Arrivals<T>>,
)
    requires levels { AreHeld T.cmp levels.old.items }
    requires others { AreLevels T.cmp (k_of others.now) (accuracy_of levels.old.items) 0
        others.now }
    requires few { retained_of (layouts_of levels.old.items)
        + retained_of (layouts_of others.now) < 2 ^ 32 }
    requires spare { max (length levels.old.items) (length others.now)
        < vec_capacity levels.old }
    requires cloned { AreCloned T.cmp levels.old.items others.now lists.items }
    ensures joined { AreJoined T.cmp (k_of levels.old.items) (accuracy_of levels.old.items)
        levels.old.items others.now levels.new.items }
    ensures count { length levels.new.items ≡ max (length levels.old.items) (length others.now) }
    ensures spare { vec_len levels.new < vec_capacity levels.new }
{
    let mut lists = lists;
    let (k, rank_accuracy) = levels[0].parameters();
    for level in 0..others.len() {
        add_level(levels, level, k, rank_accuracy);
        let arrivals = lists[level].take();
        levels[level].join(&others[level], arrivals);
    }
}
