//! REQ sketches as a family.
ghost use Rattle.std.specs.Prelude.{◌≡◌};
ghost use Rattle.std.specs.declared.cmp.Ordering.TheVariants.{Equal};
ghost use Rattle.sketch_base.specs.Spelling.{SpellingsTie};
ghost use Rattle.quantile_sketches.specs.ReqBehaviour.{req};
ghost use Rattle.quantile_sketches.specs.ReqKind.{req_kind};
ghost use Rattle.quantile_sketches.specs.ReqRules.{ReqShape};

use super::Family;
use sketch_base::common::random::RandomBits;
use sketch_base::common::{Rank, SearchCriteria};
use sketch_base::error::{Error, ErrorKind};
use sketch_req::RankAccuracy;
use sketch_req::sketch::ReqSketch;
use sketch_req::value::ReqValue;
use std::alloc::Global;

impl<T: ReqValue + Clone + Ord> Family for ReqSketch<T> {
    type Item = T;

    type Config = (u16, RankAccuracy);

    ghost behaviour = { req T.cmp T.spelling };

    ghost Shape = { ReqShape };

    ghost kind = { req_kind T.cmp T.spelling };

    ghost Asks = { SpellingsTie T.cmp T.spelling
        × ((x y : T) → T.is_clone x y → T.cmp x y ≡ Equal) };

    ghost clones_tie = { λ asks. asks.1 };

    fn obeys_rules<B: RandomBits>() {}

    fn create(alloc: Global, config: (u16, RankAccuracy)) -> Result<Self, Error> {
        ReqSketch::new(alloc, config.0, config.1)
    }

    fn copy(&self) -> Result<Self, Error> {
        self.clone().map_err(Error::from)
    }

    fn reset(&mut self) {
        self.reset();
    }

    fn is_full<B: RandomBits>(&self) -> bool {
        self.is_full()
    }

    fn refuses_weight<B: RandomBits>(&self, _weight: u64) -> bool {
        true
    }

    fn refuses(&self, other: &Self, _redraws: bool) -> bool {
        self.refuses(other)
    }

    fn update<B: RandomBits>(&mut self, item: T, coins: &mut B) -> Result<(), Error> {
        // Read so that the proof knows the invariant.
        let _n = self.n();
        self.update(item, coins)
    }

    fn update_weighted<B: RandomBits>(&mut self, _: T, _: u64, _: &mut B) -> Result<(), Error> {
        Err(Error::new(ErrorKind::InvalidArgument))
    }

    fn redraw<B: RandomBits>(&mut self, coins: &mut B) -> Result<(), Error> {
        self.redraw_coins(coins);
        Ok(())
    }

    type Room = ();

    fn room(_alloc: Global) {}

    fn merge<B: RandomBits>(
        &mut self,
        other: &Self,
        redraws: bool,
        coins: &mut B,
        _room: &mut (),
    ) -> Result<(), Error> {
        if redraws {
            self.merge_redrawn(other, coins)
        } else {
            self.merge(other, coins)
        }
    }

    fn rank_of(&self, item: &T, criteria: SearchCriteria) -> Option<Rank> {
        self.rank(item, criteria)
    }

    fn quantile_of(&self, fraction: Rank, criteria: SearchCriteria) -> Result<Option<T>, Error> {
        self.quantile(fraction, criteria)
    }

    fn cdf_of(&self, points: &[T], criteria: SearchCriteria) -> Result<Option<Vec<Rank>>, Error> {
        self.cdf(points, criteria)
    }

    fn pmf_of(&self, points: &[T], criteria: SearchCriteria) -> Result<Option<Vec<Rank>>, Error> {
        self.pmf(points, criteria)
    }

    fn image(&self) -> Result<Vec<u8>, Error> {
        self.serialize()
    }

    fn load(alloc: Global, bytes: &[u8]) -> Result<Self, Error> {
        ReqSketch::deserialize(alloc, bytes)
    }
}
