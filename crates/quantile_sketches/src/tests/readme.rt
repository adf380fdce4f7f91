//! The library examples of README.md and docs/FROM_DATASKETCHES.md, which `examples/check` compares
//! with it, and tests that call them.

// --- README.md
use sketch_base::common::random::SplitMix64;
use sketch_base::common::{Rank, SearchCriteria};
use sketch_base::error::Error;
use sketch_req::RankAccuracy;
use sketch_req::sketch::ReqSketch;
use std::alloc::Global;

/// What one host sends: its latencies as the image of a sketch that is exact for the slowest.
fn image_of(alloc: Global, seed: u64, latencies: &[i64]) -> Result<Vec<u8>, Error> {
    let mut coins = SplitMix64::new(seed);
    let mut sketch = ReqSketch::new(alloc, 50, RankAccuracy::HighRank)?;
    for latency in latencies {
        sketch.update(*latency, &mut coins)?;
    }
    sketch.serialize()
}

/// The 99th percentile of the latencies of two hosts.
fn slowest(alloc: Global, first: &[u8], second: &[u8]) -> Result<Option<i64>, Error> {
    let mut coins = SplitMix64::new(0);
    let mut both = ReqSketch::deserialize(alloc, first)?;
    let other = ReqSketch::deserialize(alloc, second)?;
    both.merge_redrawn(&other, &mut coins)?;
    let percentile = Rank {
        weight: 99,
        total: 100,
    };
    both.quantile(percentile, SearchCriteria::Inclusive)
}

fn slowest_of_two(alloc: Global) -> Result<Option<i64>, Error> {
    let first = image_of(alloc, 1, &[12, 15, 11, 90])?;
    let second = image_of(alloc, 2, &[14, 13])?;
    slowest(alloc, first.as_slice(), second.as_slice())
}

// --- docs/FROM_DATASKETCHES.md
use sketch_kll::sketch::KllSketch;
use std::cmp::OrderedFloat;

/// Milliseconds with decimals, in the order of numbers; a NaN comes last.
#[derive(Clone, Debug, PartialEq, Eq, PartialOrd, Ord, Drop)]
struct Millis(OrderedFloat<f64>);

/// How many of the latencies are at most a limit.
fn within(alloc: Global, latencies: &[f64], limit: f64) -> Result<Option<Rank>, Error> {
    let mut coins = SplitMix64::new(1);
    let mut sketch = KllSketch::new(alloc, 200)?;
    for latency in latencies {
        sketch.update(Millis(OrderedFloat(*latency)), &mut coins)?;
    }
    Ok(sketch.rank(&Millis(OrderedFloat(limit)), SearchCriteria::Inclusive))
}
// --- end

#[test]
fn slowest_of_two_hosts(rt: HostRuntime) {
    assert!(rt; matches!(slowest_of_two(rt.alloc()), Ok(Some(90))));
}

#[test]
fn floats_are_counted(rt: HostRuntime) {
    let counted = within(rt.alloc(), &[0.5, 2.25, 1e3, -0.0], 2.25);
    assert!(rt; matches!(counted, Ok(Some(rank)) if rank.weight == 3 && rank.total == 4));
}
