//! A sketch of either family.
ghost use Rattle.std.specs.Prelude.{◌≡◌, ◌↔◌, IsTrue, OnOk, OnErr, IfOk};
ghost use Rattle.sketch_base.specs.Queried.{IsQuantile, IsRank};
ghost use Rattle.sketch_base.specs.declared.common.SearchCriteria.TheVariants.{Inclusive};
ghost use Rattle.log_groups.specs.Exact.{IsNearTop, IsNearTopOf, TopIsExact};
ghost use Rattle.log_groups.specs.Joined.{Merges, Redraws};
ghost use Rattle.log_groups.specs.Shown.{IsWhole};
ghost use Rattle.log_groups.specs.Fed.{Takes, empty_of, n_of, least_of, greatest_of, queried_of};

use sketch_base::common::random::SplitMix64;
use sketch_base::common::{Rank, SearchCriteria};
use sketch_base::error::{Error, ErrorKind};
use sketch_kll::sketch::KllSketch;
use sketch_req::RankAccuracy;
use sketch_req::sketch::ReqSketch;
use std::alloc::Global;

/// What new sketches are made as.
#[derive(Clone, Copy, Debug, PartialEq, Eq)]
pub enum Kind {
    /// REQ sketches that are exact for the greatest numbers, of this accuracy.
    Req(u16),
    /// KLL sketches of this accuracy.
    Kll(u16),
}

/// A sketch of either family.
#[derive(Drop)]
pub enum Sketch {
    Req(ReqSketch<i64>),
    Kll(KllSketch<i64>),
}

impl Sketch {
    /// Creates an empty sketch.
    pub fn new(alloc: Global, kind: Kind) -> Result<Self, Error>
        ensures empty { IfOk result (λ s. s ≡ empty_of kind) }
    {
        match kind {
            Kind::Req(k) => Ok(Sketch::Req(ReqSketch::new(alloc, k, RankAccuracy::HighRank)?)),
            Kind::Kll(k) => Ok(Sketch::Kll(KllSketch::new(alloc, k)?)),
        }
    }

    /// Adds a number. An error leaves the sketch and the source of coins unchanged.
    #[inline(always)]
    pub fn update(&mut self, item: i64, coins: &mut SplitMix64) -> Result<(), Error>
        ensures ok { OnOk result (Takes self.old item self.new) }
        ensures err { OnErr result (self.new ≡ self.old) }
    {
        match self {
            Sketch::Req(sketch) => sketch.update(item, coins),
            Sketch::Kll(sketch) => sketch.update(item, coins),
        }
    }

    /// Returns how many numbers the sketch took.
    pub fn n(&self) -> u64
        ensures value { result ≡ n_of self.now }
    {
        match self {
            Sketch::Req(sketch) => sketch.n(),
            Sketch::Kll(sketch) => sketch.n(),
        }
    }

    /// Returns the least number, or None for an empty sketch.
    pub fn min(&self) -> Option<i64>
        ensures value { result ≡ least_of self.now }
    {
        match self {
            Sketch::Req(sketch) => sketch.min_item().copied(),
            Sketch::Kll(sketch) => sketch.min_item().copied(),
        }
    }

    /// Returns the greatest number, or None for an empty sketch.
    pub fn max(&self) -> Option<i64>
        ensures value { result ≡ greatest_of self.now }
    {
        match self {
            Sketch::Req(sketch) => sketch.max_item().copied(),
            Sketch::Kll(sketch) => sketch.max_item().copied(),
        }
    }

    /// Returns the number at a quantile, or None for an empty sketch.
    pub fn quantile(&self, fraction: Rank) -> Result<Option<i64>, Error>
        ensures { IsQuantile (queried_of self.now) fraction Inclusive result }
    {
        match self {
            Sketch::Req(sketch) => sketch.quantile(fraction, SearchCriteria::Inclusive),
            Sketch::Kll(sketch) => sketch.quantile(fraction, SearchCriteria::Inclusive),
        }
    }

    /// Returns how many of the numbers are at most this one, or None for an empty sketch.
    pub fn rank(&self, item: i64) -> Option<Rank>
        ensures { IsRank (queried_of self.now) item Inclusive result }
    {
        match self {
            Sketch::Req(sketch) => sketch.rank(&item, SearchCriteria::Inclusive),
            Sketch::Kll(sketch) => sketch.rank(&item, SearchCriteria::Inclusive),
        }
    }

    /// Returns the accuracy that the sketch was made with.
    pub fn k(&self) -> u16 {
        match self {
            Sketch::Req(sketch) => sketch.k(),
            Sketch::Kll(sketch) => sketch.k(),
        }
    }

    /// Adds a number that stands for `weight` equal ones. A REQ sketch takes a weight of 1 alone.
    pub fn update_weighted(
        &mut self,
        item: i64,
        weight: u64,
        coins: &mut SplitMix64,
    ) -> Result<(), Error> {
        match self {
            Sketch::Kll(sketch) => sketch.update_weighted(item, weight, coins),
            Sketch::Req(sketch) if weight == 1 => sketch.update(item, coins),
            Sketch::Req(_) => Err(Error::new(ErrorKind::InvalidArgument)),
        }
    }

    /// Returns whether fewer than 3k numbers lie beyond a fraction of a REQ sketch: what it answers
    /// there is exact if it took numbers alone, as `top_is_exact` says.
    pub fn is_exact_at(&self, fraction: Rank) -> bool
        ensures near { IsTrue result → IsNearTopOf self.now fraction }
    {
        match self {
            Sketch::Req(sketch) if sketch.rank_accuracy() == RankAccuracy::HighRank => is_near_top(
                sketch.k(),
                sketch.n(),
                fraction,
            ),
            _ => false,
        }
    }

    /// Returns whether the sketch keeps each number that it took, so that all its answers are exact.
    pub fn is_whole(&self) -> bool
        ensures { IsTrue result → IsWhole self.now }
    {
        match self {
            Sketch::Req(sketch) => !sketch.is_estimation_mode(),
            Sketch::Kll(sketch) => !sketch.is_estimation_mode(),
        }
    }

    /// Returns the sketch whose image these bytes are, or None if they are none.
    #[tactic(auto, using(sketch_base::specs::SpellingLaws::i64_ties))]
    pub fn load(alloc: Global, image: &[u8]) -> Result<Option<Self>, Error> {
        let read = match image.get(FAMILY_BYTE) {
            Some(&KLL_FAMILY) => KllSketch::deserialize(alloc, image).map(Sketch::Kll),
            Some(&REQ_FAMILY) => return Self::load_req(alloc, image),
            _ => return Ok(None),
        };
        match read {
            Ok(sketch) => Ok(Some(sketch)),
            Err(error) if error.kind() == ErrorKind::OutOfMemory => Err(error),
            Err(_) => Ok(None),
        }
    }

    /// Returns the REQ sketch whose image these bytes are, as a whole.
    #[tactic(auto, using(sketch_base::specs::SpellingLaws::i64_ties))]
    fn load_req(alloc: Global, image: &[u8]) -> Result<Option<Self>, Error> {
        match ReqSketch::deserialize(alloc, image) {
            Ok(sketch) if sketch.serialized_size_bytes()? == image.len() => {
                Ok(Some(Sketch::Req(sketch)))
            }
            Err(error) if error.kind() == ErrorKind::OutOfMemory => Err(error),
            _ => Ok(None),
        }
    }

    /// Returns the image of the sketch.
    pub fn image(&self) -> Result<Vec<u8>, Error> {
        match self {
            Sketch::Req(sketch) => sketch.serialize(),
            Sketch::Kll(sketch) => sketch.serialize(),
        }
    }

    /// Draws the coins that an image doesn't hold.
    pub fn redraw(&mut self, coins: &mut SplitMix64)
        ensures { Redraws self.old self.new }
    {
        if let Sketch::Req(sketch) = self {
            sketch.redraw_coins(coins);
        }
    }

    /// Returns whether both sketches are of one family, and exact at the same end.
    pub fn is_of_kind(&self, other: &Sketch) -> bool {
        match (self, other) {
            (Sketch::Req(one), Sketch::Req(two)) => one.rank_accuracy() == two.rank_accuracy(),
            (Sketch::Kll(_), Sketch::Kll(_)) => true,
            _ => false,
        }
    }

    /// Returns whether `merge` refuses the other sketch.
    pub fn refuses(&self, other: &Sketch) -> bool {
        match (self, other) {
            (Sketch::Req(one), Sketch::Req(two)) => one.refuses(two),
            (Sketch::Kll(one), Sketch::Kll(two)) => one.refuses(two),
            _ => true,
        }
    }

    /// Merges another sketch in. An error leaves the sketch as it was.
    pub fn merge(&mut self, other: &Sketch, coins: &mut SplitMix64) -> Result<(), Error>
        ensures ok { OnOk result (Merges self.old other.now self.new) }
        ensures err { OnErr result (self.new ≡ self.old) }
    {
        match (self, other) {
            (Sketch::Req(one), Sketch::Req(two)) => one.merge_redrawn(two, coins),
            (Sketch::Kll(one), Sketch::Kll(two)) => one.merge(two, coins),
            _ => Err(Error::new(ErrorKind::InvalidArgument)),
        }
    }
}

/// The byte of an image that says which family it is of.
const FAMILY_BYTE: usize = 2;

/// How KLL images say their family.
const KLL_FAMILY: u8 = 15;

/// How REQ images say their family.
const REQ_FAMILY: u8 = 17;

/// Returns whether fewer than 3k of n numbers lie beyond a fraction.
fn is_near_top(k: u16, n: u64, fraction: Rank) -> bool
    ensures value { IsTrue result ↔ IsNearTop k n fraction }
{
    let beyond = fraction.total.saturating_sub(fraction.weight) as u128 * n as u128;
    let most = 3 * k as u128;
    let limit = most * fraction.total as u128;
    beyond < limit
}

/// A REQ sketch that was fed numbers answers exactly at a fraction beyond which fewer than 3k of them
/// lie.
pub fn top_is_exact()
    ensures top { TopIsExact }
{}
