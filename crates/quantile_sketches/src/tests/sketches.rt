//! The sketches that are tried, with all calls that allocate, and items by number.
use crate::audit::{Audit, Command, Run, audit, audit_req, run, run_req};
use crate::family::Family;
use sketch_base::common::{Rank, SearchCriteria};
use sketch_base::error::Error;
use sketch_base::sorted_view::SortedView;
use sketch_kll::sketch::KllSketch;
use sketch_kll::value::KllValue;
use sketch_req::RankAccuracy;
use sketch_req::sketch::ReqSketch;
use sketch_req::value::ReqValue;
use std::alloc::{AllocError, Global};

/// Items in the order of their numbers.
pub(crate) trait Numbered: Sized {
    fn numbered(alloc: Global, number: u32) -> Result<Self, AllocError>;
}

impl Numbered for i32 {
    fn numbered(_alloc: Global, number: u32) -> Result<i32, AllocError> {
        Ok((number % (1 << 31)) as i32)
    }
}

impl Numbered for i64 {
    fn numbered(_alloc: Global, number: u32) -> Result<i64, AllocError> {
        Ok(number as i64)
    }
}

/// Six digits.
impl Numbered for String {
    fn numbered(alloc: Global, number: u32) -> Result<String, AllocError> {
        format!(in alloc; "{number:06}")
    }
}

/// A sketch with the calls that allocate and that the program has no word for.
pub(crate) trait Tried: Family {
    fn config_of(k: u16) -> Self::Config;

    fn item_of(alloc: Global, number: u32) -> Result<Self::Item, AllocError>;

    fn default_of(alloc: Global) -> Result<Self, Error>;

    /// Returns whether the plain reads of the sketch and of a copy are the same.
    fn reads_as(&self, copy: &Self) -> bool;

    fn view_of(&self) -> Result<SortedView<Self::Item>, Error>
        requires { Self.Asks };

    fn quantiles_of(
        &self,
        fractions: &[Rank],
        criteria: SearchCriteria,
    ) -> Result<Option<Vec<Self::Item>>, Error>
        requires { Self.Asks };

    /// Returns a copy of a view. This and the next calls clone items, which no clause of a family's
    /// allows for every view.
    fn copy_of(view: &SortedView<Self::Item>) -> Result<SortedView<Self::Item>, Error>
        requires { Self.Asks };

    fn quantile_in(
        view: &SortedView<Self::Item>,
        fraction: Rank,
        criteria: SearchCriteria,
    ) -> Result<Option<Self::Item>, Error>
        requires { Self.Asks };

    fn quantiles_in(
        view: &SortedView<Self::Item>,
        fractions: &[Rank],
        criteria: SearchCriteria,
    ) -> Result<Option<Vec<Self::Item>>, Error>
        requires { Self.Asks };

    fn run_of(
        alloc: Global,
        commands: &[Command<Self::Item, Self::Config>],
        word: &[bool],
    ) -> Result<Run<Self>, Error>
        requires { Self.Asks };

    fn audit_of(
        alloc: Global,
        commands: &[Command<Self::Item, Self::Config>],
        slot: u8,
        item: &Self::Item,
        criteria: SearchCriteria,
    ) -> Result<Audit, Error>
        requires { Self.Asks };
}

/// Each `k`, the numbers of items that it stands for and retains, whether it is empty, and whether
/// it gives estimates.
type Numbers = ([u16; 2], [u64; 2], [bool; 2]);

/// Returns the size of a REQ sketch's image, and its last item with its weight.
fn image_of_req<T: ReqValue + Clone + Ord>(
    sketch: &ReqSketch<T>,
) -> (Option<usize>, Option<(&T, u64)>) {
    (sketch.serialized_size_bytes().ok(), sketch.iter().last())
}

fn numbers_of_kll<T: KllValue + Ord>(sketch: &KllSketch<T>) -> Numbers {
    (
        [sketch.k(), sketch.min_k()],
        [sketch.n(), sketch.num_retained() as u64],
        [sketch.is_empty(), sketch.is_estimation_mode()],
    )
}

fn numbers_of_req<T: ReqValue + Clone + Ord>(sketch: &ReqSketch<T>) -> Numbers {
    (
        [sketch.k(), 0],
        [sketch.n(), sketch.num_retained() as u64],
        [sketch.is_empty(), sketch.is_estimation_mode()],
    )
}

impl<T: KllValue + Ord + Numbered> Tried for KllSketch<T> {
    fn config_of(k: u16) -> u16 {
        k
    }

    fn item_of(alloc: Global, number: u32) -> Result<T, AllocError> {
        T::numbered(alloc, number)
    }

    fn default_of(alloc: Global) -> Result<Self, Error> {
        KllSketch::default(alloc)
    }

    fn reads_as(&self, copy: &Self) -> bool {
        self == copy
            && numbers_of_kll(self) == numbers_of_kll(copy)
            && [self.min_item(), self.max_item()] == [copy.min_item(), copy.max_item()]
    }

    fn view_of(&self) -> Result<SortedView<T>, Error> {
        self.sorted_view()
    }

    fn quantiles_of(
        &self,
        fractions: &[Rank],
        criteria: SearchCriteria,
    ) -> Result<Option<Vec<T>>, Error> {
        self.quantiles(fractions, criteria)
    }

    fn copy_of(view: &SortedView<T>) -> Result<SortedView<T>, Error> {
        let copy = view.clone()?;
        Ok(copy)
    }

    fn quantile_in(
        view: &SortedView<T>,
        fraction: Rank,
        criteria: SearchCriteria,
    ) -> Result<Option<T>, Error> {
        view.quantile(fraction, criteria)
    }

    fn quantiles_in(
        view: &SortedView<T>,
        fractions: &[Rank],
        criteria: SearchCriteria,
    ) -> Result<Option<Vec<T>>, Error> {
        view.quantiles(fractions, criteria)
    }

    fn run_of(
        alloc: Global,
        commands: &[Command<T, u16>],
        word: &[bool],
    ) -> Result<Run<Self>, Error> {
        run(alloc, commands, word)
    }

    fn audit_of(
        alloc: Global,
        commands: &[Command<T, u16>],
        slot: u8,
        item: &T,
        criteria: SearchCriteria,
    ) -> Result<Audit, Error> {
        audit(alloc, commands, slot, item, criteria)
    }
}

impl<T: ReqValue + Clone + Ord + Numbered> Tried for ReqSketch<T> {
    fn config_of(k: u16) -> (u16, RankAccuracy) {
        (k, RankAccuracy::HighRank)
    }

    fn item_of(alloc: Global, number: u32) -> Result<T, AllocError> {
        T::numbered(alloc, number)
    }

    fn default_of(alloc: Global) -> Result<Self, Error> {
        ReqSketch::default(alloc)
    }

    fn reads_as(&self, copy: &Self) -> bool {
        let (size, last) = image_of_req(self);
        size.is_some()
            && (size, last) == image_of_req(copy)
            && self.rank_accuracy() == copy.rank_accuracy()
            && numbers_of_req(self) == numbers_of_req(copy)
            && [self.min_item(), self.max_item()] == [copy.min_item(), copy.max_item()]
    }

    fn view_of(&self) -> Result<SortedView<T>, Error> {
        self.sorted_view()
    }

    fn quantiles_of(
        &self,
        fractions: &[Rank],
        criteria: SearchCriteria,
    ) -> Result<Option<Vec<T>>, Error> {
        self.quantiles(fractions, criteria)
    }

    fn copy_of(view: &SortedView<T>) -> Result<SortedView<T>, Error> {
        let copy = view.clone()?;
        Ok(copy)
    }

    fn quantile_in(
        view: &SortedView<T>,
        fraction: Rank,
        criteria: SearchCriteria,
    ) -> Result<Option<T>, Error> {
        view.quantile(fraction, criteria)
    }

    fn quantiles_in(
        view: &SortedView<T>,
        fractions: &[Rank],
        criteria: SearchCriteria,
    ) -> Result<Option<Vec<T>>, Error> {
        view.quantiles(fractions, criteria)
    }

    fn run_of(
        alloc: Global,
        commands: &[Command<T, (u16, RankAccuracy)>],
        word: &[bool],
    ) -> Result<Run<Self>, Error> {
        run_req(alloc, commands, word)
    }

    fn audit_of(
        alloc: Global,
        commands: &[Command<T, (u16, RankAccuracy)>],
        slot: u8,
        item: &T,
        criteria: SearchCriteria,
    ) -> Result<Audit, Error> {
        audit_req(alloc, commands, slot, item, criteria)
    }
}
