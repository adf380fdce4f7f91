//! The groups of lines: a sketch for each key.
ghost use Rattle.std.specs.Prelude.{◌≡◌, OnOk, OnErr, IfOk, None};
ghost use Rattle.log_groups.specs.Fed.{Takes, empty_of};
ghost use Rattle.log_groups.specs.Found.{IsAdded, IsBegun, AreKept, group_of, total_of};
ghost use Rattle.log_groups.specs.Joined.{IfTaken, IsJoined, Merges};

use crate::fault::Fault;
use crate::sketch::{Kind, Sketch};
use crate::summary::Form;
use indexmap::IndexMap;
use sketch_base::common::random::SplitMix64;
use sketch_base::error::Error;
use std::alloc::Global;

/// The numbers of a key.
#[derive(Drop)]
pub struct Group {
    pub sketch: Sketch,
    /// How many of the digits of each number are decimals, if that is known.
    pub decimals: Option<u8>,
    /// The sum of the numbers, if it is known and fits.
    pub sum: Option<i128>,
}

/// A group for each key, in the order in which the keys came.
#[derive(Drop)]
pub struct Groups {
    groups: IndexMap<Vec<u8>, Group>,
    coins: SplitMix64,
    /// The most groups that there may be.
    most: usize,
}

/// What becomes of the line of an image.
#[derive(Clone, Copy, PartialEq, Eq)]
pub enum Joined {
    /// It is merged into the group of its key, or begins one.
    Taken,
    /// It is merged into a sketch of another accuracy.
    OtherAccuracy,
    /// It is left out, and each group stays as it was.
    Refused(Refusal),
}

/// Why the line of an image is left out.
#[derive(Clone, Copy, PartialEq, Eq)]
pub enum Refusal {
    /// It is of another family than the group, or exact at the other end.
    OtherKind,
    /// Its numbers have other decimals than the group's.
    OtherDecimals,
    /// The weight would be over 2^64.
    TooHeavy,
    /// It isn't of the form of such a line, or its image is of no sketch.
    NoImage,
    /// Its checksum is that of another line.
    Changed,
    /// It doesn't say its decimals, which are wanted.
    NoDecimals,
}

impl Groups {
    /// Creates no groups, of which there may be `most` at most.
    pub fn new(alloc: Global, seed: u64, most: usize) -> Self
        ensures none { (key : _) → group_of result key ≡ None }
        ensures total { total_of result ≡ 0 }
    {
        Groups {
            groups: IndexMap::new(alloc),
            coins: SplitMix64::new(seed),
            most,
        }
    }

    /// Adds a number to the group of a key, or begins a group of this form. An error leaves each
    /// group as it was.
    #[inline(always)]
    pub fn add(&mut self, alloc: Global, key: &[u8], item: i64, form: Form) -> Result<(), Fault>
        ensures added { OnOk result (IsAdded form.kind self.old key.now item self.new) }
        ensures kept { OnErr result (AreKept self.old self.new) }
    {
        match self.groups.get_mut(key) {
            Some(group) => group.add(item, &mut self.coins),
            None => self.begin(alloc, key, item, form),
        }
    }

    /// Adds the first number of a group.
    #[inline(never)]
    fn begin(&mut self, alloc: Global, key: &[u8], item: i64, form: Form) -> Result<(), Fault>
        requires new { group_of self.old key.now ≡ None }
        ensures added { OnOk result (IsAdded form.kind self.old key.now item self.new) }
        ensures kept { OnErr result (AreKept self.old self.new) }
    {
        let mut group = Group::new(alloc, form)?;
        group.add(item, &mut self.coins)?;
        self.insert(alloc, key, group)
    }

    /// Adds the group of a new key.
    fn insert(&mut self, alloc: Global, key: &[u8], group: Group) -> Result<(), Fault>
        ensures begun { OnOk result (IsBegun self.old key.now group self.new) }
        ensures kept { OnErr result (AreKept self.old self.new) }
    {
        if self.groups.len() >= self.most {
            return Err(Fault::TooManyGroups);
        }
        let key = Vec::from_slice(alloc, key)?;
        self.groups.insert(key, group)?;
        Ok(())
    }

    /// Puts the groups in the order of their keys.
    pub fn sort(&mut self) -> Result<(), Error>
        ensures kept { AreKept self.old self.new }
    {
        self.groups.sort_keys()?;
        Ok(())
    }

    /// Returns the groups by their keys.
    pub fn by_key(&self) -> &IndexMap<Vec<u8>, Group>
        ensures value { result.now ≡ self.now.groups }
    {
        &self.groups
    }

    /// Adds a number that stands for `weight` equal ones to the group of a key, or begins a group of
    /// this form. REQ sketches take a weight of 1 alone. An error leaves each group as it was.
    pub fn add_weighted(
        &mut self,
        alloc: Global,
        key: &[u8],
        (item, weight): (i64, u64),
        form: Form,
    ) -> Result<(), Fault> {
        match self.groups.get_mut(key) {
            Some(group) => group.add_weighted(item, weight, &mut self.coins),
            None => {
                let mut group = Group::new(alloc, form)?;
                group.add_weighted(item, weight, &mut self.coins)?;
                self.insert(alloc, key, group)
            }
        }
    }

    /// Merges a group into that of a key, or begins one with it, or says why it can't.
    pub fn join(&mut self, alloc: Global, key: &[u8], coming: Group) -> Result<Joined, Fault>
        ensures joined { IfOk result
            (IfTaken (IsJoined self.old key.now coming self.new) (AreKept self.old self.new)) }
        ensures kept { OnErr result (AreKept self.old self.new) }
    {
        match self.groups.get_mut(key) {
            Some(group) => group.join(&coming, &mut self.coins),
            None => self.begin_with(alloc, key, coming),
        }
    }

    /// Begins a group with one that is merged.
    fn begin_with(&mut self, alloc: Global, key: &[u8], coming: Group) -> Result<Joined, Fault>
        requires new { group_of self.old key.now ≡ None }
        ensures joined { IfOk result
            (IfTaken (IsJoined self.old key.now coming self.new) (AreKept self.old self.new)) }
        ensures kept { OnErr result (AreKept self.old self.new) }
    {
        let mut group = coming;
        group.sketch.redraw(&mut self.coins);
        self.insert(alloc, key, group)?;
        Ok(Joined::Taken)
    }
}

impl Group {
    /// Creates an empty group.
    fn new(alloc: Global, form: Form) -> Result<Self, Error>
        ensures sketch { IfOk result (λ g. g.sketch ≡ empty_of form.kind) }
    {
        let sketch = Sketch::new(alloc, form.kind)?;
        let decimals = Some(form.decimals);
        Ok(Group {
            sketch,
            decimals,
            sum: Some(0),
        })
    }

    /// Adds a number. An error leaves the group as it was.
    #[inline(always)]
    fn add(&mut self, item: i64, coins: &mut SplitMix64) -> Result<(), Fault>
        ensures added { OnOk result (Takes self.old.sketch item self.new.sketch) }
        ensures kept { OnErr result (self.new ≡ self.old) }
    {
        self.sketch.update(item, coins)?;
        self.sum = sum_with(self.sum, item);
        Ok(())
    }

    /// Adds a number that stands for `weight` equal ones.
    fn add_weighted(
        &mut self,
        item: i64,
        weight: u64,
        coins: &mut SplitMix64,
    ) -> Result<(), Fault> {
        self.sketch.update_weighted(item, weight, coins)?;
        let added = (item as i128).checked_mul(weight as i128);
        self.sum = match (self.sum, added) {
            (Some(sum), Some(added)) => sum.checked_add(added),
            _ => None,
        };
        Ok(())
    }

    /// Merges another group in, if it is of the same kind and has the same decimals.
    fn join(&mut self, other: &Group, coins: &mut SplitMix64) -> Result<Joined, Fault>
        ensures joined { IfOk result (IfTaken
            (Merges self.old.sketch other.now.sketch self.new.sketch) (self.new ≡ self.old)) }
        ensures kept { OnErr result (self.new ≡ self.old) }
    {
        if !self.sketch.is_of_kind(&other.sketch) {
            return Ok(Joined::Refused(Refusal::OtherKind));
        }
        if self.decimals != other.decimals {
            return Ok(Joined::Refused(Refusal::OtherDecimals));
        }
        if self.sketch.refuses(&other.sketch) {
            return Ok(Joined::Refused(Refusal::TooHeavy));
        }
        self.sketch.merge(&other.sketch, coins)?;
        self.sum = None;
        Ok(if self.sketch.k() == other.sketch.k() {
            Joined::Taken
        } else {
            Joined::OtherAccuracy
        })
    }
}

/// Returns a sum with one more number, if it fits.
#[inline(always)]
fn sum_with(sum: Option<i128>, item: i64) -> Option<i128> {
    sum?.checked_add(item as i128)
}
