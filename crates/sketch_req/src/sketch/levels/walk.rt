//! The walk over levels: each full level is compacted into the one above. What can fail comes
//! first, in `reserve`.
ghost use Rattle.std.specs.Prelude.{◌≡◌, ℕ, ◌+◌, ◌*◌, ◌-◌, ◌^◌, ◌<◌, ◌≤◌, [], ◌∷◌, ◌++◌, length, vec_len, vec_capacity, IfOk, IfErr, OnOk, OnErr, true, if◌then◌else◌, ◌==◌};
ghost use Rattle.std.specs.declared.cmp.Ordering.TheVariants.{Equal};
ghost use Rattle.sketch_base.specs.declared.error.ErrorKind.TheVariants.{OutOfMemory};
ghost use Rattle.sketch_req.specs.Level.{fresh};
ghost use Rattle.sketch_req.specs.Schedule.{layouts_of, layout_at, joined_layouts, nominal_sum, retained_of, weight_of};
ghost use Rattle.sketch_req.specs.Sections.{IsLegalK};
ghost use Rattle.sketch_req.specs.Walk.{AreHeld, AreLevels, HaveSpace, AreWalkedIfFull, accuracy_of, appended_first, holding, k_of, taken_if_full, with_more};
ghost use Rattle.sketch_req.specs.declared.RankAccuracy.{RankAccuracy};

use crate::RankAccuracy;
use crate::compactor::{Arrivals, Compactor};
use sketch_base::common::random::RandomBits;
use sketch_base::error::Error;
use std::alloc::{AllocError, Global};

/// Returns the number of items that a level holds, or 0 if there is no such level.
pub(super) fn count_at<T: Clone + Ord>(levels: &[Compactor<T>], level: usize) -> usize
    ensures { result ≡ (layout_at (layouts_of levels.now) level).count }
{
    match levels.get(level) {
        Some(own) => own.num_items() as usize,
        None => 0,
    }
}

/// Returns the number of items that a walk takes from a level if it then holds `len`, after any other
/// level at the same place was joined in. If the sketch lacks the level, `blank` takes its place.
fn count_to_take_at<T: Clone + Ord>(
    levels: &[Compactor<T>],
    others: &[Compactor<T>],
    level: usize,
    len: usize,
    blank: &Compactor<T>,
) -> usize
    requires levels { AreHeld T.cmp levels.now }
    requires blank { blank.now ≡ fresh [] true 0 (k_of levels.now) (accuracy_of levels.now) }
    ensures { result ≡ taken_if_full (k_of levels.now) (holding len (layout_at (joined_layouts
        (k_of levels.now) (layouts_of levels.now) (layouts_of others.now)) level)) }
{
    let own = levels.get(level).unwrap_or(blank);
    match others.get(level) {
        Some(other) => own.count_if_joined(other, len),
        None => own.count_if_full(len),
    }
}

/// Returns the number of items that the levels hold, and the sum of their nominal capacities.
pub(super) fn sums<T: Clone + Ord>(levels: &[Compactor<T>]) -> (usize, usize)
    requires few { length levels.now ≤ 64 }
    ensures retained { result.0 ≡ retained_of (layouts_of levels.now) }
    ensures capacity { (k : ℕ) (accuracy : RankAccuracy) →
        AreLevels T.cmp k accuracy 0 levels.now
        → result.1 ≡ nominal_sum k (layouts_of levels.now) }
{
    let (mut count, mut sum) = (0, 0);
    for level in levels {
        count += level.num_items() as usize;
        sum += level.nominal_capacity() as usize;
    }
    (count, sum)
}

/// Makes room for a walk, if other levels are joined in first or `more` items come into level 0: for
/// each level, what goes up from it as it arrives in the level above.
pub(super) fn reserve<T: Clone + Ord>(
    alloc: Global,
    levels: &[Compactor<T>],
    others: &[Compactor<T>],
    more: usize,
) -> Result<Vec<Arrivals<T>>, AllocError>
    requires levels { AreHeld T.cmp levels.now }
    requires few { retained_of (layouts_of levels.now) + retained_of (layouts_of others.now) + more
        < 2 ^ 32 }
    ensures { IfOk result (λ ups. HaveSpace (k_of levels.now) (with_more more (joined_layouts
        (k_of levels.now) (layouts_of levels.now) (layouts_of others.now))) ups.items) }
{
    let count = levels.len().max(others.len());
    let (k, rank_accuracy) = levels[0].parameters();
    let blank = Compactor::new(alloc, 0, k, rank_accuracy);
    let mut ups = Vec::with_capacity(alloc, count)?;
    let mut here = count_at(levels, 0) + count_at(others, 0) + more;
    for level in 0..count {
        let up = count_to_take_at(levels, others, level, here, &blank) / 2;
        let above = count_at(levels, level + 1) + count_at(others, level + 1);
        let own = if up > 0 { above } else { 0 };
        ups.push_reserved(Arrivals::with_capacity(alloc, up, own)?);
        here = above + up;
    }
    Ok(ups)
}

/// Adds an empty level at the top if `level` is the number of levels.
pub(super) fn add_level<T: Clone + Ord>(
    levels: &mut Vec<Compactor<T>>,
    level: usize,
    k: u16,
    rank_accuracy: RankAccuracy,
)
    requires legal { IsLegalK k }
    requires few { level < 64 }
    requires spare { level ≡ length levels.old.items
        → vec_len levels.old < vec_capacity levels.old }
    ensures items { levels.new.items ≡ (if level == length levels.old.items
        then levels.old.items ++ fresh [] true level k rank_accuracy ∷ []
        else levels.old.items) }
    ensures capacity { vec_capacity levels.old ≤ vec_capacity levels.new }
{
    if level == levels.len() {
        let top = Compactor::new(*levels.allocator(), level as u8, k, rank_accuracy);
        levels.push_reserved(top);
    }
}

/// If the levels together are at or over their nominal capacities, compacts, from level 0 up, each
/// level that is at or over its own at its turn, counting what comes up from the level below. A level
/// that is added isn't compacted.
pub(super) fn walk<T: Clone + Ord, B: RandomBits>(
    levels: &mut Vec<Compactor<T>>,
    ups: Vec<Arrivals<T>>,
    coins: &mut B,
)
    requires levels { AreHeld T.cmp levels.old.items }
    requires fits { weight_of (layouts_of levels.old.items) < 2 ^ 64 }
    requires few_items { retained_of (layouts_of levels.old.items) < 2 ^ 32 }
    requires spare { vec_len levels.old < vec_capacity levels.old }
    requires fit { HaveSpace (k_of levels.old.items) (layouts_of levels.old.items) ups.items }
    ensures acted { AreWalkedIfFull T.cmp B.bit B.next coins.old coins.new (k_of levels.old.items)
        (accuracy_of levels.old.items) levels.old.items levels.new.items }
{
    let (num_retained, capacity) = sums(levels.as_slice());
    if num_retained < capacity {
        return;
    }
    let mut ups = ups;
    let count = levels.len();
    let alloc = *levels.allocator();
    let (items, room) = (Vec::new(alloc), Vec::new(alloc));
    let mut coming = Arrivals { items, room };
    for level in 0..count {
        let up = ups[level].take();
        coming = levels[level].step(coming, up, coins);
    }
    if !coming.items.is_empty() {
        let (k, rank_accuracy) = levels[0].parameters();
        add_level(levels, count, k, rank_accuracy);
        levels[count].absorb(coming);
    }
}

/// Shrinks levels that have too much room. Level 0, which soon grows again, keeps room for `spare`
/// more items.
pub(super) fn shrink<T: Clone + Ord>(levels: &mut Vec<Compactor<T>>, spare: usize)
    ensures { levels.new.items ≡ levels.old.items }
{
    for level in 0..levels.len() {
        levels[level].shrink(if level == 0 { spare } else { 0 });
    }
}

/// Appends an item to level 0, and walks over the levels if they are then full together. An error is
/// `OutOfMemory`, and leaves the levels and the source of coins unchanged.
pub(super) fn append_and_walk<T: Clone + Ord, B: RandomBits>(
    levels: &mut Vec<Compactor<T>>,
    item: T,
    coins: &mut B,
) -> Result<(), Error>
    requires clones { (x y : T) → T.is_clone x y → T.cmp x y ≡ Equal }
    requires levels { AreHeld T.cmp levels.old.items }
    requires fits { weight_of (layouts_of levels.old.items) < 2 ^ 64 - 1 }
    requires few { retained_of (layouts_of levels.old.items) < 4294967295 }
    ensures acted { OnOk result (AreWalkedIfFull T.cmp B.bit B.next coins.old coins.new
        (k_of levels.old.items) (accuracy_of levels.old.items)
        (appended_first levels.old.items item) levels.new.items) }
    ensures err { OnErr result ((levels.new.items ≡ levels.old.items)
        × (coins.new ≡ coins.old)) }
    ensures memory { IfErr result (λ e. e ≡ OutOfMemory) }
{
    levels.reserve_exact(1)?;
    let own = levels.as_slice();
    let ups = reserve(*levels.allocator(), own, &own[..0], 1)?;
    levels[0].append(item)?;
    walk(levels, ups, coins);
    Ok(())
}
