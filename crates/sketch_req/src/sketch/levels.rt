//! The levels of a sketch with the sums over them, and how they take items in. The steps in
//! between, on a vector of levels without its sums, are in `walk` and `joining`.
ghost use Rattle.std.specs.Prelude.{◌≡◌, ℕ, ◌+◌, ◌-◌, ◌^◌, ◌<◌, ◌≤◌, true, [], ◌∷◌, length, vec_capacity, IfErr, IfOk, OnOk, OnErr};
ghost use Rattle.std.specs.List.{AllZip};
ghost use Rattle.std.specs.declared.cmp.Ordering.TheVariants.{Equal};
ghost use Rattle.sketch_base.specs.Query.{counted};
ghost use Rattle.sketch_req.specs.Imaged.{IsSameLevel};
ghost use Rattle.sketch_base.specs.Random.{bits_from, after_draws};
ghost use Rattle.sketch_base.specs.Trace.{draws_of};
ghost use Rattle.sketch_base.specs.declared.error.ErrorKind.TheVariants.{OutOfMemory};
ghost use Rattle.sketch_req.specs.Held.{held_of};
ghost use Rattle.sketch_req.specs.Level.{fresh};
ghost use Rattle.sketch_req.specs.Merged.{AreTakenIn, redrawn_if, redraws_of};
ghost use Rattle.sketch_req.specs.Rank.{counted_weight};
ghost use Rattle.sketch_req.specs.Redrawn.{redrawn};
ghost use Rattle.sketch_req.specs.Schedule.{layouts_of, retained_of, weight_of, nominal_sum, turning_levels};
ghost use Rattle.sketch_req.specs.ScheduleLaws.{updates_actions};
ghost use Rattle.sketch_req.specs.Updates.{AreAllTaken, IsDrawnFrom};
ghost use Rattle.sketch_req.specs.Walk.{AreLevels, AreWalkedIfFull, appended_first};
ghost use Rattle.sketch_req.specs.declared.RankAccuracy.{RankAccuracy};

mod joining;
mod walk;

use crate::RankAccuracy;
use crate::compactor::Compactor;
use joining::{clone_items, join_levels};
use sketch_base::common::random::RandomBits;
use sketch_base::error::Error;
use std::alloc::AllocError;
use std::marker::Model;
use walk::{add_level, append_and_walk, reserve, shrink, sums, walk};

/// The levels of a sketch, from level 0 up, and the sums over them. A contract sees them as the
/// record `Held` of specs/Held.
#[derive(Debug, Drop)]
pub(crate) struct Levels<T: Clone + Ord> {
    pub(crate) k: u16,
    pub(crate) rank_accuracy: RankAccuracy,
    pub(crate) compactors: Vec<Compactor<T>>,
    pub(crate) num_retained: usize,
    /// The sum of the nominal capacities.
    pub(crate) capacity: usize,
}

impl<T: Clone + Ord> Model for Levels<T> {
    ghost use Rattle.sketch_req.specs.Held.{Held, IsHeld, held_of};

    ghost Value = { Held T };

    ghost view = { λ x. held_of x.k x.rank_accuracy x.compactors.items };

    ghost invariant = { λ x. IsHeld T.cmp x.num_retained x.capacity
        (held_of x.k x.rank_accuracy x.compactors.items) };
}

impl<T: Clone + Ord> Levels<T> {
    /// Creates the levels with their sums.
    pub(crate) fn new(k: u16, rank_accuracy: RankAccuracy, compactors: Vec<Compactor<T>>) -> Self
        requires some { 0 < length compactors.items }
        requires levels { AreLevels T.cmp k rank_accuracy 0 compactors.items }
        ensures { result ≡ held_of k rank_accuracy compactors.items }
    {
        let (num_retained, capacity) = sums(compactors.as_slice());
        Levels {
            k,
            rank_accuracy,
            compactors,
            num_retained,
            capacity,
        }
    }

    /// Resets the levels to one empty level.
    pub(crate) fn clear(&mut self)
        ensures { self.new ≡ record self.old {
          levels = fresh [] true 0 self.old.k self.old.accuracy ∷ [];
        } }
    {
        self.compactors.clear();
        add_level(&mut self.compactors, 0, self.k, self.rank_accuracy);
        (self.num_retained, self.capacity) = sums(self.compactors.as_slice());
    }

    /// Appends an item to level 0, and walks over the levels if they are then full together. An
    /// error is `OutOfMemory`, and leaves the levels and the source of coins unchanged.
    #[inline(never)]
    pub(crate) fn append<B: RandomBits>(&mut self, item: T, coins: &mut B) -> Result<(), Error>
        requires clones { (x y : T) → T.is_clone x y → T.cmp x y ≡ Equal }
        requires fits { weight_of (layouts_of self.old.levels) < 2 ^ 64 - 1 }
        requires few { retained_of (layouts_of self.old.levels) < 4294967295 }
        ensures kept { self.new ≡ record self.old { levels = self.new.levels } }
        ensures acted { OnOk result (AreWalkedIfFull T.cmp B.bit B.next coins.old coins.new
            self.old.k self.old.accuracy (appended_first self.old.levels item) self.new.levels) }
        ensures err { OnErr result ((self.new ≡ self.old) × (coins.new ≡ coins.old)) }
        ensures memory { IfErr result (λ e. e ≡ OutOfMemory) }
    {
        if self.num_retained + 1 >= self.capacity {
            return self.append_and_walk(item, coins);
        }
        self.compactors[0].append(item)?;
        self.num_retained += 1;
        Ok(())
    }

    /// Appends an item to level 0, and walks over the levels if they are then full together. An
    /// error is `OutOfMemory`, and leaves the levels and the source of coins unchanged.
    #[cold]
    #[inline(never)]
    fn append_and_walk<B: RandomBits>(&mut self, item: T, coins: &mut B) -> Result<(), Error>
        requires clones { (x y : T) → T.is_clone x y → T.cmp x y ≡ Equal }
        requires fits { weight_of (layouts_of self.old.levels) < 2 ^ 64 - 1 }
        requires few { retained_of (layouts_of self.old.levels) < 4294967295 }
        ensures kept { self.new ≡ record self.old { levels = self.new.levels } }
        ensures acted { OnOk result (AreWalkedIfFull T.cmp B.bit B.next coins.old coins.new
            self.old.k self.old.accuracy (appended_first self.old.levels item) self.new.levels) }
        ensures err { OnErr result ((self.new ≡ self.old) × (coins.new ≡ coins.old)) }
        ensures memory { IfErr result (λ e. e ≡ OutOfMemory) }
    {
        append_and_walk(&mut self.compactors, item, coins)?;
        shrink(&mut self.compactors, (self.num_retained / 8).max(24) - 24);
        (self.num_retained, self.capacity) = sums(self.compactors.as_slice());
        Ok(())
    }

    /// Appends clones of all items, or of none: a copy of the levels takes them and then replaces
    /// the levels. An error is `OutOfMemory`, and leaves the levels unchanged; some coins may then
    /// have been drawn.
    pub(crate) fn append_all<B: RandomBits>(
        &mut self,
        items: &[T],
        coins: &mut B,
    ) -> Result<(), Error>
        requires clones { (x y : T) → T.is_clone x y → T.cmp x y ≡ Equal }
        requires fits { weight_of (layouts_of self.old.levels) + length items.now < 2 ^ 64 }
        requires few { retained_of (layouts_of self.old.levels) < 4294967295 }
        ensures kept { self.new ≡ record self.old { levels = self.new.levels } }
        ensures taken { OnOk result (AreAllTaken T.cmp B.bit B.next coins.old coins.new
            self.old.k self.old.accuracy self.old.levels items.now self.new.levels) }
        ensures err { OnErr result (self.new ≡ self.old) }
        ensures drawn { OnErr result (IsDrawnFrom B.next (draws_of (updates_actions
            self.old.k self.old.accuracy (layouts_of self.old.levels) items.now))
            coins.old coins.new) }
        ensures memory { IfErr result (λ e. e ≡ OutOfMemory) }
    {
        let mut copy = Levels::new(self.k, self.rank_accuracy, copy_levels(&self.compactors)?);
        for item in items {
            copy.append(item.clone()?, coins)?;
        }
        *self = copy;
        Ok(())
    }

    /// Joins other levels in, redraws coins if `redraws` is true, and walks if the levels together
    /// are then at or over their nominal capacities. An error leaves the levels and the source of
    /// coins unchanged.
    pub(crate) fn merge<B: RandomBits>(
        &mut self,
        others: &Self,
        redraws: bool,
        coins: &mut B,
    ) -> Result<(), AllocError>
        requires clones { (x y : T) → T.is_clone x y → T.cmp x y ≡ Equal }
        requires accuracy { self.old.accuracy ≡ others.now.accuracy }
        requires fits { weight_of (layouts_of self.old.levels)
            + weight_of (layouts_of others.now.levels) < 2 ^ 64 }
        requires few { retained_of (layouts_of self.old.levels)
            + retained_of (layouts_of others.now.levels) < 2 ^ 32 }
        ensures kept { self.new ≡ record self.old { levels = self.new.levels } }
        ensures taken_in { OnOk result (AreTakenIn T.cmp B.bit B.next coins.old coins.new
            self.old.k self.old.accuracy redraws self.old.levels others.now.levels
            self.new.levels) }
        ensures err { OnErr result ((self.new ≡ self.old) × (coins.new ≡ coins.old)) }
    {
        let (alloc, more) = (*self.compactors.allocator(), others.compactors.as_slice());
        let lists = clone_items(alloc, self.compactors.as_slice(), more)?;
        let ups = reserve(alloc, self.compactors.as_slice(), more, 0)?;
        let new = more.len().saturating_sub(self.compactors.len());
        self.compactors.reserve_exact(new + 1)?;
        join_levels(&mut self.compactors, more, lists);
        redraw_if(redraws, &mut self.compactors, coins);
        walk(&mut self.compactors, ups, coins);
        shrink(&mut self.compactors, 0);
        (self.num_retained, self.capacity) = sums(self.compactors.as_slice());
        Ok(())
    }

    /// Draws a coin for each level at an odd state, from level 0 up.
    pub(crate) fn redraw_coins<B: RandomBits>(&mut self, coins: &mut B)
        ensures value { self.new ≡ record self.old {
          levels = redrawn (bits_from B.bit B.next coins.old
              (turning_levels (layouts_of self.old.levels))) self.old.levels;
        } }
        ensures coins { coins.new ≡ after_draws B.next coins.old
            (turning_levels (layouts_of self.old.levels)) }
    {
        redraw_if(true, &mut self.compactors, coins);
    }
}

/// If `redraws` is true, draws a coin for each level at an odd state, from level 0 up.
fn redraw_if<T: Clone + Ord, B: RandomBits>(
    redraws: bool,
    levels: &mut Vec<Compactor<T>>,
    coins: &mut B,
)
    ensures levels { levels.new.items ≡ redrawn_if redraws (bits_from B.bit B.next coins.old
        (redraws_of redraws levels.old.items)) levels.old.items }
    ensures coins { coins.new
        ≡ after_draws B.next coins.old (redraws_of redraws levels.old.items) }
    ensures room { vec_capacity levels.new ≡ vec_capacity levels.old }
{
    if !redraws {
        return;
    }
    for level in 0..levels.len() {
        levels[level].redraw_coin(coins);
    }
}

/// Returns copies of the levels, with clones of their items. A clone of an item must compare equal
/// to it.
pub(super) fn copy_levels<T: Clone + Ord>(
    levels: &Vec<Compactor<T>>,
) -> Result<Vec<Compactor<T>>, AllocError>
    requires clones { (x y : T) → T.is_clone x y → T.cmp x y ≡ Equal }
    ensures { IfOk result (λ new. AllZip (IsSameLevel T.cmp) levels.now.items new.items) }
{
    let mut copies = Vec::with_capacity(*levels.allocator(), levels.len())?;
    for level in levels.as_slice() {
        copies.push_reserved(level.clone()?);
    }
    Ok(copies)
}
