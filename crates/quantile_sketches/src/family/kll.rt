//! KLL sketches as a family.
ghost use Rattle.std.specs.Prelude.{◌≡◌};
ghost use Rattle.std.specs.declared.cmp.Ordering.TheVariants.{Equal};
ghost use Rattle.sketch_base.specs.Spelling.{SpellingsTie};
ghost use Rattle.quantile_sketches.specs.KllBehaviour.{kll};
ghost use Rattle.quantile_sketches.specs.KllRules.{KllShape, kll_kind};

use super::Family;
use sketch_base::common::random::RandomBits;
use sketch_base::common::{Rank, SearchCriteria};
use sketch_base::error::{Error, ErrorKind};
use sketch_kll::sketch::KllSketch;
use sketch_kll::value::KllValue;
use std::alloc::Global;

impl<T: KllValue + Ord> Family for KllSketch<T> {
    type Item = T;

    type Config = u16;

    ghost behaviour = { kll T.cmp T.spelling };

    ghost Shape = { KllShape };

    ghost kind = { kll_kind T.cmp T.spelling };

    ghost Asks = { SpellingsTie T.cmp T.spelling
        × ((x y : T) → T.is_clone x y → T.cmp x y ≡ Equal) };

    ghost clones_tie = { λ asks. asks.1 };

    fn obeys_rules<B: RandomBits>() {}

    fn create(alloc: Global, k: u16) -> Result<Self, Error> {
        KllSketch::new(alloc, k)
    }

    fn copy(&self) -> Result<Self, Error> {
        self.clone().map_err(Error::from)
    }

    fn reset(&mut self) {
        self.reset();
    }

    fn is_full<B: RandomBits>(&self) -> bool {
        self.is_full()
    }

    fn refuses_weight<B: RandomBits>(&self, weight: u64) -> bool {
        self.refuses_weight(weight)
    }

    fn refuses(&self, other: &Self, redraws: bool) -> bool {
        redraws || self.refuses(other)
    }

    fn update<B: RandomBits>(&mut self, item: T, coins: &mut B) -> Result<(), Error> {
        // Read so that the proof knows the invariant.
        let _n = self.n();
        self.update(item, coins)
    }

    fn update_weighted<B: RandomBits>(
        &mut self,
        item: T,
        weight: u64,
        coins: &mut B,
    ) -> Result<(), Error> {
        self.update_weighted(item, weight, coins)
    }

    fn redraw<B: RandomBits>(&mut self, _coins: &mut B) -> Result<(), Error> {
        Err(Error::new(ErrorKind::InvalidArgument))
    }

    type Room = ();

    fn room(_alloc: Global) {}

    fn merge<B: RandomBits>(
        &mut self,
        other: &Self,
        redraws: bool,
        coins: &mut B,
        _room: &mut (),
    ) -> Result<(), Error> {
        if redraws {
            return Err(Error::new(ErrorKind::InvalidArgument));
        }
        self.merge(other, coins)
    }

    fn rank_of(&self, item: &T, criteria: SearchCriteria) -> Option<Rank> {
        self.rank(item, criteria)
    }

    fn quantile_of(&self, fraction: Rank, criteria: SearchCriteria) -> Result<Option<T>, Error> {
        self.quantile(fraction, criteria)
    }

    fn cdf_of(&self, points: &[T], criteria: SearchCriteria) -> Result<Option<Vec<Rank>>, Error> {
        self.cdf(points, criteria)
    }

    fn pmf_of(&self, points: &[T], criteria: SearchCriteria) -> Result<Option<Vec<Rank>>, Error> {
        self.pmf(points, criteria)
    }

    fn image(&self) -> Result<Vec<u8>, Error> {
        self.serialize()
    }

    fn load(alloc: Global, bytes: &[u8]) -> Result<Self, Error> {
        KllSketch::deserialize(alloc, bytes)
    }
}
