//! Items that compare by one field of three values, and whose clones count how often they were
//! cloned.
ghost use Rattle.std.specs.Prelude.{◌≡◌, nat_eq};
ghost use Rattle.std.proofs.Common.{rules, refl};
ghost use Rattle.std.specs.Cmp.{partial_order_from_own_ties};
ghost use Rattle.std.specs.Cmp.Rules.{comparing};
ghost use Rattle.std.specs.Ordering.{nat_cmp, on, as_partial_cmp};

use super::calls::{CRITERIA, fraction};
use sketch_base::common::Rank;
use sketch_base::common::random::SplitMix64;
use sketch_base::error::Error;
use sketch_kll::sketch::KllSketch;
use sketch_req::RankAccuracy;
use sketch_req::sketch::ReqSketch;
use std::alloc::{AllocError, Global};
use std::cmp::Ordering;

#[derive(Drop)]
struct Third {
    class: u8,
    clones: u32,
}

impl Clone for Third {
    ghost is_clone = { λ x y. y.class ≡ x.class };

    fn clone(&self) -> Result<Third, AllocError> {
        Ok(Third {
            class: self.class,
            clones: self.clones.saturating_add(1),
        })
    }
}

impl PartialEq for Third {
    ghost eq = { on (λ x. x.class) nat_eq };

    ghost laws = { Prim.search (comparing, rules) };

    fn eq(&self, other: &Third) -> bool {
        self.class == other.class
    }
}

impl Eq for Third {
    ghost laws = { Prim.search (comparing, rules) };
}

impl PartialOrd for Third {
    ghost partial_cmp = { as_partial_cmp (on (λ x. x.class) nat_cmp) };

    ghost laws = { partial_order_from_own_ties (Prim.search (comparing, rules))
        (Prim.search (comparing, rules)) };

    fn partial_cmp(&self, other: &Third) -> Option<Ordering> {
        Some(self.cmp(other))
    }
}

impl Ord for Third {
    ghost cmp = { on (λ x. x.class) nat_cmp };

    ghost total = { Prim.search (comparing, rules) };

    ghost matches_partial_cmp = { λ x y. refl };

    ghost matches_eq = { Prim.search (comparing, rules) };

    fn cmp(&self, other: &Third) -> Ordering {
        self.class.cmp(&other.class)
    }
}

fn item_of(class: u32) -> Third {
    Third {
        class: (class % 3) as u8,
        clones: 0,
    }
}

/// Returns whether a sketch of `count` items 0, 1, 2, 0, 1 and so on shows that count and the least
/// and the greatest item.
fn is_seen(count: u32, n: u64, least: Option<&Third>, greatest: Option<&Third>) -> bool {
    let last = count.wrapping_sub(1).min(2) as u8;
    match (least, greatest) {
        (Some(least), Some(greatest)) => {
            n == count as u64 && least.class == 0 && greatest.class == last
        }
        _ => false,
    }
}

/// Returns whether a median is the clone of a class's item, and the whole is ranked.
fn is_answered(median: Result<Option<Third>, Error>, rank: Option<Rank>) -> bool {
    match median {
        Ok(Some(item)) => {
            item.class < 3 && item.clones > 0 && rank == Some(fraction(2000, 2000))
        }
        _ => false,
    }
}

/// Returns whether a KLL sketch is as it should be after an item.
fn is_kll_seen(sketch: &KllSketch<Third>, number: u32) -> bool {
    let (least, greatest) = (sketch.min_item(), sketch.max_item());
    is_seen(number.wrapping_add(1), sketch.n(), least, greatest) && sketch.num_retained() <= 80
}

/// Returns whether a sketch takes 1000 items, and each leaves it as it should.
fn fill_kll(sketch: &mut KllSketch<Third>, coins: &mut SplitMix64) -> bool {
    for number in 0..1000u32 {
        if sketch.update(item_of(number), coins).is_err() || !is_kll_seen(sketch, number) {
            return false;
        }
    }
    true
}

/// Returns whether a KLL sketch of 2000 items has a median and ranks the whole.
fn answers_kll(sketch: &KllSketch<Third>) -> bool {
    let rank = sketch.rank(&item_of(2), CRITERIA);
    is_answered(sketch.quantile(fraction(1, 2), CRITERIA), rank)
}

/// Merges a copy of a sketch into it, and returns whether its median and the rank of the whole are
/// as expected.
fn double_kll(sketch: &mut KllSketch<Third>, coins: &mut SplitMix64) -> bool {
    match sketch.clone() {
        Ok(copy) => sketch.merge(&copy, coins).is_ok() && answers_kll(sketch),
        Err(_) => false,
    }
}

/// Returns whether a KLL sketch of k 8 takes 1000 items and a copy of itself.
fn takes_kll(alloc: Global) -> bool {
    let mut coins = SplitMix64::new(0);
    match KllSketch::new(alloc, 8) {
        Ok(mut sketch) => fill_kll(&mut sketch, &mut coins) && double_kll(&mut sketch, &mut coins),
        Err(_) => false,
    }
}

/// Returns whether a REQ sketch is as it should be after an item.
fn is_req_seen(sketch: &ReqSketch<Third>, number: u32) -> bool {
    let (least, greatest) = (sketch.min_item(), sketch.max_item());
    is_seen(number.wrapping_add(1), sketch.n(), least, greatest) && sketch.num_retained() <= 216
}

fn fill_req(sketch: &mut ReqSketch<Third>, coins: &mut SplitMix64) -> bool {
    for number in 0..1000u32 {
        if sketch.update(item_of(number), coins).is_err() || !is_req_seen(sketch, number) {
            return false;
        }
    }
    true
}

/// Returns whether a REQ sketch of 2000 items has a median and ranks the whole.
fn answers_req(sketch: &ReqSketch<Third>) -> bool {
    let rank = sketch.rank(&item_of(2), CRITERIA);
    is_answered(sketch.quantile(fraction(1, 2), CRITERIA), rank)
}

/// Merges a copy of a sketch into it, and returns whether its median and the rank of the whole are
/// as expected.
fn double_req(sketch: &mut ReqSketch<Third>, coins: &mut SplitMix64) -> bool {
    match sketch.clone() {
        Ok(copy) => sketch.merge(&copy, coins).is_ok() && answers_req(sketch),
        Err(_) => false,
    }
}

/// Returns whether a REQ sketch of k 4 takes such items.
fn takes_req(alloc: Global) -> bool {
    let mut coins = SplitMix64::new(0);
    match ReqSketch::new(alloc, 4, RankAccuracy::HighRank) {
        Ok(mut sketch) => fill_req(&mut sketch, &mut coins) && double_req(&mut sketch, &mut coins),
        Err(_) => false,
    }
}

#[test]
fn kll_takes_items_of_three_classes(rt: HostRuntime) {
    assert!(rt; takes_kll(rt.alloc()));
}

#[test]
fn req_takes_items_of_three_classes(rt: HostRuntime) {
    assert!(rt; takes_req(rt.alloc()));
}
