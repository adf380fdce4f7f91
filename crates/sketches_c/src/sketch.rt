//! The sketches of both families behind one type.
ghost use Rattle.std.specs.Prelude.{◌≡◌, ◌≢◌, ◌↔◌, Some, IsSome, IsTrue, IsErrOf, IfOk, IfErr, IfSome, map};
ghost use Rattle.sketch_base.specs.Bag.{retained};
ghost use Rattle.sketch_base.specs.Queried.{AreMasses as ArePossibleMasses, IsQuantile, IsRank};
ghost use Rattle.sketch_base.specs.declared.error.ErrorKind.TheVariants.{InvalidArgument, InvalidData};
ghost use Rattle.sketches_c.specs.Calls.{AreMasses, masses_of};
ghost use Rattle.sketches_c.specs.Codes.{ok};
ghost use Rattle.sketches_c.specs.Floats.{number_in};
ghost use Rattle.sketches_c.specs.Sketches.{AreUpdates, HasImage, IsCopy, IsFullFor, IsMerge, IsOfImage, IsOfNoImage, IsUpdate, IsWeightedUpdate, bag_of, emptied, image_of, is_high, is_req, k_of, n_of, queried};

use crate::answers::{
    EMPTY, INVALID_ARGUMENT, OK, OTHER_KIND, OUT_OF_MEMORY, WRONG_SIZE, code, code_of,
    copy_weights, criteria,
};
use crate::floats::numbers_in;
use sketch_base::common::random::SplitMix64;
use sketch_base::common::{Rank, SearchCriteria};
use sketch_base::error::{Error, ErrorKind};
use sketch_kll::sketch::KllSketch;
use sketch_req::RankAccuracy;
use sketch_req::sketch::ReqSketch;
use std::alloc::{AllocError, Global};

/// A sketch of whole numbers, of one of the families.
#[derive(Drop)]
pub enum Sketch {
    Kll(KllSketch<i64>),
    Req(ReqSketch<i64>),
}

impl Sketch {
    pub(crate) fn is_req(&self) -> bool
        ensures { result ≡ is_req self.now }
    {
        match self {
            Sketch::Kll(_) => false,
            Sketch::Req(_) => true,
        }
    }

    /// Returns whether high ranks are exact.
    pub(crate) fn is_high(&self) -> bool
        ensures { result ≡ is_high self.now }
    {
        match self {
            Sketch::Kll(_) => false,
            Sketch::Req(sketch) => match sketch.rank_accuracy() {
                RankAccuracy::HighRank => true,
                RankAccuracy::LowRank => false,
            },
        }
    }

    pub(crate) fn k(&self) -> u16
        ensures { result ≡ k_of self.now }
    {
        match self {
            Sketch::Kll(sketch) => sketch.k(),
            Sketch::Req(sketch) => sketch.k(),
        }
    }

    pub(crate) fn n(&self) -> u64
        ensures { result ≡ n_of self.now }
    {
        match self {
            Sketch::Kll(sketch) => sketch.n(),
            Sketch::Req(sketch) => sketch.n(),
        }
    }

    pub(crate) fn num_retained(&self) -> u64
        ensures { result ≡ retained (bag_of self.now) }
    {
        match self {
            Sketch::Kll(sketch) => sketch.num_retained() as u64,
            Sketch::Req(sketch) => sketch.num_retained() as u64,
        }
    }

    /// Returns the extremes of the stream.
    pub(crate) fn ends(&self) -> Option<(i64, i64)>
        ensures there { IsSome result ↔ (n_of self.now ≢ 0) }
        ensures least { IfSome result (λ ends. (queried self.now).least ≡ Some ends.0) }
        ensures greatest { IfSome result (λ ends. (queried self.now).greatest ≡ Some ends.1) }
    {
        let (least, greatest) = match self {
            Sketch::Kll(sketch) => (sketch.min_item(), sketch.max_item()),
            Sketch::Req(sketch) => (sketch.min_item(), sketch.max_item()),
        };
        Some((*least?, *greatest?))
    }

    pub(crate) fn reset(&mut self)
        ensures { self.new ≡ emptied self.old }
    {
        match self {
            Sketch::Kll(sketch) => sketch.reset(),
            Sketch::Req(sketch) => sketch.reset(),
        }
    }

    pub(crate) fn clone(&self) -> Result<Sketch, AllocError>
        ensures { IfOk result (IsCopy self.now) }
    {
        match self {
            Sketch::Kll(sketch) => Ok(Sketch::Kll(sketch.clone()?)),
            Sketch::Req(sketch) => Ok(Sketch::Req(sketch.clone()?)),
        }
    }

    pub(crate) fn update(&mut self, item: i64, coins: &mut SplitMix64) -> i32
        ensures { IsUpdate item result self.old coins.old self.new coins.new }
    {
        match self {
            Sketch::Kll(sketch) => code(sketch.update(item, coins)),
            Sketch::Req(sketch) => code(sketch.update(item, coins)),
        }
    }

    pub(crate) fn update_all(&mut self, items: &[i64], coins: &mut SplitMix64) -> i32
        ensures { AreUpdates items.now result self.old coins.old self.new coins.new }
    {
        match self {
            Sketch::Kll(sketch) => code(sketch.update_all(items, coins)),
            Sketch::Req(sketch) => code(sketch.update_all(items, coins)),
        }
    }

    /// Returns whether `update_all` refuses so many items.
    pub(crate) fn is_full_for(&self, count: u64) -> bool
        ensures { IsTrue result ↔ IsFullFor count self.now }
    {
        match self {
            Sketch::Kll(sketch) => count > u64::MAX - sketch.n(),
            Sketch::Req(sketch) => {
                count > u64::MAX - sketch.n() || count > 0 && sketch.num_retained() == u32::MAX
            }
        }
    }

    /// Takes in all floats, or none.
    pub(crate) fn update_floats(
        &mut self,
        alloc: Global,
        floats: &[i64],
        coins: &mut SplitMix64,
    ) -> i32
        ensures { AreUpdates (map number_in floats.now) result
            self.old coins.old self.new coins.new }
    {
        if self.is_full_for(floats.len() as u64) {
            return INVALID_ARGUMENT;
        }
        match numbers_in(alloc, floats) {
            Ok(numbers) => self.update_all(&numbers, coins),
            Err(_) => OUT_OF_MEMORY,
        }
    }

    pub(crate) fn update_weighted(&mut self, item: i64, weight: u64, coins: &mut SplitMix64) -> i32
        ensures { IsWeightedUpdate item weight result self.old coins.old self.new coins.new }
    {
        match self {
            Sketch::Kll(sketch) => code(sketch.update_weighted(item, weight, coins)),
            Sketch::Req(_) => OTHER_KIND,
        }
    }

    pub(crate) fn merge(&mut self, other: &Sketch, coins: &mut SplitMix64) -> i32
        ensures { IsMerge other.now result self.old coins.old self.new coins.new }
    {
        match (self, other) {
            (Sketch::Kll(sketch), Sketch::Kll(other)) => code(sketch.merge(other, coins)),
            (Sketch::Req(sketch), Sketch::Req(other)) => code(sketch.merge_redrawn(other, coins)),
            _ => OTHER_KIND,
        }
    }

    pub(crate) fn rank(&self, item: &i64, criteria: SearchCriteria) -> Option<Rank>
        ensures { IsRank (queried self.now) item.now criteria result }
    {
        match self {
            Sketch::Kll(sketch) => sketch.rank(item, criteria),
            Sketch::Req(sketch) => sketch.rank(item, criteria),
        }
    }

    pub(crate) fn quantile(
        &self,
        fraction: Rank,
        criteria: SearchCriteria,
    ) -> Result<Option<i64>, Error>
        ensures { IsQuantile (queried self.now) fraction criteria result }
    {
        match self {
            Sketch::Kll(sketch) => sketch.quantile(fraction, criteria),
            Sketch::Req(sketch) => sketch.quantile(fraction, criteria),
        }
    }

    /// Returns the weights of a pmf, if it goes by `steps`, or of a cdf.
    pub(crate) fn masses(
        &self,
        points: &[i64],
        criteria: SearchCriteria,
        steps: bool,
    ) -> Result<Option<Vec<Rank>>, Error>
        ensures { ArePossibleMasses (queried self.now) points.now
            (masses_of (queried self.now) points.now criteria steps) result }
    {
        match self {
            Sketch::Kll(sketch) if steps => sketch.pmf(points, criteria),
            Sketch::Kll(sketch) => sketch.cdf(points, criteria),
            Sketch::Req(sketch) if steps => sketch.pmf(points, criteria),
            Sketch::Req(sketch) => sketch.cdf(points, criteria),
        }
    }

    /// Hands over the weights, if there is room for exactly one for each point and one more.
    #[tactic(auto, using(crate::proofs::Codes::refused, crate::proofs::Codes::told_apart, crate::proofs::Masses::masses_count, sketch_base::proofs::views::Entries::weights_back))]
    pub(crate) fn hand_masses(
        &self,
        points: &[i64],
        inclusive: bool,
        steps: bool,
        weights: &mut [u64],
    ) -> i32
        ensures kept { result ≢ ok → weights.new ≡ weights.old }
        ensures masses { AreMasses (queried self.now) points.now inclusive steps result weights.new }
    {
        match self.masses(points, criteria(inclusive), steps) {
            Ok(Some(ranks)) => {
                if weights.len() != ranks.len() {
                    return WRONG_SIZE;
                }
                copy_weights(&ranks, weights);
                OK
            }
            Ok(None) => EMPTY,
            Err(error) => code_of(error),
        }
    }

    pub(crate) fn serialize(&self) -> Result<Vec<u8>, Error>
        ensures written { IfOk result (λ v. v.items ≡ image_of self.now) }
        ensures unfit { IsErrOf result InvalidArgument → ¬ HasImage self.now }
        ensures kind { IfErr result (λ e. e ≢ InvalidData) }
    {
        match self {
            Sketch::Kll(sketch) => sketch.serialize(),
            Sketch::Req(sketch) => sketch.serialize(),
        }
    }

    /// Returns the sketch whose image the bytes are, as a whole. The coins that an image of REQ
    /// doesn't hold are drawn anew.
    #[tactic(auto, using(crate::proofs::OneRead::none_kll, crate::proofs::OneRead::none_req, crate::proofs::OneRead::none_whole))]
    pub(crate) fn deserialize(
        alloc: Global,
        req: bool,
        image: &[u8],
        coins: &mut SplitMix64,
    ) -> Result<Sketch, Error>
        ensures family { IfOk result (λ s. is_req s ≡ req) }
        ensures sketch { IfOk result (λ s. IsOfImage image.now coins.old s coins.new) }
        ensures unread { IfErr result (λ e. e ≡ InvalidData
            → IsOfNoImage req image.now coins.old) }
        ensures kind { IfErr result (λ e. e ≢ InvalidArgument) }
    {
        if !req {
            return Ok(Sketch::Kll(KllSketch::deserialize(alloc, image)?));
        }
        let mut sketch = ReqSketch::deserialize(alloc, image)?;
        let whole = match sketch.serialized_size_bytes() {
            Ok(size) => size == image.len(),
            Err(_) => false,
        };
        ErrorKind::InvalidData.unless(whole)?;
        sketch.redraw_coins(coins);
        Ok(Sketch::Req(sketch))
    }
}
