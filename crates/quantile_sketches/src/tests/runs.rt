//! Runs and audits as rows: what is run, and what result is expected. The rows are beside `audit`.
use super::calls::CRITERIA;
use super::sketches::Tried;
use crate::audit::{Audit, Command, Run};
use crate::family::Family;
use sketch_base::common::SearchCriteria;
use sketch_base::error::{Error, ErrorKind};
use std::alloc::{AllocError, Global};

/// One command of a run, or many alike.
pub(crate) enum Step<C> {
    New(u8, C),
    /// Updates by the numbers from one to another.
    Updates(u8, u32, u32),
    Weighted(u8, u32, u64),
    Merge(u8, u8),
    Reset(u8),
    RoundTrip(u8),
    Redraw(u8),
    MergeRedrawn(u8, u8),
}

/// It is written by hand, since it is proved faster than a derived one.
impl<C: Copy> Clone for Step<C> {
    fn clone(&self) -> Result<Self, AllocError> {
        Ok(*self)
    }
}

impl<C: Copy> Copy for Step<C> {}

/// The expected result of some steps.
#[derive(Drop)]
pub(crate) enum Trial<'a, C> {
    /// A run under each of these words takes this number of coins, refuses these commands, and
    /// gives these inclusive ranks: slot, number, its weight and the whole.
    Gives(&'a [&'a [bool]], usize, &'a [usize], &'a [(u8, u32, u64, u64)]),
    /// A run wants more coins than this word has.
    WantsMore(&'a [bool]),
    /// A run under each of these words refuses nothing, and leaves this many items in slot 0, of
    /// which this number is the greatest.
    Takes(&'a [&'a [bool]], u64, u32),
    /// A run under this word leaves the same sketch in slot 0 as a run of other steps does.
    LeavesAs(&'a [bool], &'a [Step<C>]),
    /// An audit of a number in a slot takes this number of coins, and gives these inclusive
    /// weights, one for each word, and this true rank.
    Audits(u8, u32, usize, &'a [u64], u64),
    /// An audit of a number in slot 0 gives weights whose distances from the true rank have squares
    /// that sum to this.
    Scatters(u32, u64),
    /// An audit of the ranks of the numbers below this one is unbiased, over three coins.
    IsUnbiased(u32),
    /// An audit of a number in a slot takes sixteen coins, and is unbiased over them.
    HasSixteen(u8, u32),
    /// There are more coins than are audited.
    HasTooMany,
}

/// A name, some steps, and their expected result.
pub(crate) type Row<'a, C> = (&'a str, &'a [Step<C>], Trial<'a, C>);

pub(crate) type Commands<S> = Vec<Command<<S as Family>::Item, <S as Family>::Config>>;

pub(crate) type Steps<'a, S> = &'a [Step<<S as Family>::Config>];

fn push<S: Tried>(
    commands: &mut Commands<S>,
    command: Command<S::Item, S::Config>,
) -> Result<(), AllocError> {
    Ok(commands.push(command)?)
}

fn push_updates<S: Tried>(
    alloc: Global,
    commands: &mut Commands<S>,
    slot: u8,
    first: u32,
    last: u32,
) -> Result<(), AllocError> {
    for number in first..=last {
        let item = S::item_of(alloc, number)?;
        push::<S>(commands, Command::Update { slot, item })?;
    }
    Ok(())
}

fn push_weighted<S: Tried>(
    alloc: Global,
    commands: &mut Commands<S>,
    slot: u8,
    number: u32,
    weight: u64,
) -> Result<(), AllocError> {
    let item = S::item_of(alloc, number)?;
    push::<S>(commands, Command::UpdateWeighted { slot, item, weight })
}

pub(super) fn push_step<S: Tried>(
    alloc: Global,
    commands: &mut Commands<S>,
    step: Step<S::Config>,
) -> Result<(), AllocError> {
    match step {
        Step::Updates(slot, first, last) => push_updates::<S>(alloc, commands, slot, first, last),
        Step::Weighted(slot, number, weight) => push_weighted::<S>(
            alloc, commands, slot, number, weight,
        ),
        Step::New(slot, config) => push::<S>(commands, Command::New { slot, config }),
        Step::Merge(into, source) => push::<S>(commands, Command::Merge { into, source }),
        Step::Reset(slot) => push::<S>(commands, Command::Reset { slot }),
        Step::RoundTrip(slot) => push::<S>(commands, Command::RoundTrip { slot }),
        Step::Redraw(slot) => push::<S>(commands, Command::Redraw { slot }),
        Step::MergeRedrawn(into, source) => {
            push::<S>(commands, Command::MergeRedrawn { into, source })
        }
    }
}

fn commands_of<S: Tried>(alloc: Global, steps: Steps<'_, S>) -> Result<Commands<S>, AllocError> {
    let mut commands = Vec::new(alloc);
    for step in steps {
        push_step::<S>(alloc, &mut commands, *step)?;
    }
    Ok(commands)
}

fn run_of<S: Tried>(alloc: Global, steps: Steps<'_, S>, word: &[bool]) -> Result<Run<S>, Error>
    requires { S.Asks }
{
    let commands = commands_of::<S>(alloc, steps)?;
    S::run_of(alloc, commands.as_slice(), word)
}

/// Returns the weight of an item and the whole, both 0 for an empty sketch, or None for an absent
/// one.
fn rank_in<S: Tried>(run: &Run<S>, slot: u8, item: &S::Item) -> Option<(u64, u64)> {
    match run.slots.get(&slot) {
        Some(sketch) => match sketch.rank_of(item, CRITERIA) {
            Some(rank) => Some((rank.weight, rank.total)),
            None => Some((0, 0)),
        },
        None => None,
    }
}

/// Returns whether a number in a slot has a weight and a whole.
fn is_ranked<S: Tried>(alloc: Global, run: &Run<S>, row: (u8, u32, u64, u64)) -> bool {
    let (slot, number, weight, total) = row;
    match S::item_of(alloc, number) {
        Ok(item) => rank_in(run, slot, &item) == Some((weight, total)),
        Err(_) => false,
    }
}

fn are_ranked<S: Tried>(alloc: Global, run: &Run<S>, rows: &[(u8, u32, u64, u64)]) -> bool {
    for row in rows {
        if !is_ranked(alloc, run, *row) {
            return false;
        }
    }
    true
}

fn are_left_alike<S: Tried>(run: &Run<S>, other: &Run<S>) -> bool {
    match (run.slots.get(&0), other.slots.get(&0)) {
        (Some(sketch), Some(left)) => sketch.reads_as(left),
        _ => false,
    }
}

/// Returns whether some steps leave the same sketch in slot 0 as others do.
fn leaves_alike<S: Tried>(
    alloc: Global,
    steps: Steps<'_, S>,
    others: Steps<'_, S>,
    word: &[bool],
) -> bool
    requires { S.Asks }
{
    match (
        run_of::<S>(alloc, steps, word),
        run_of::<S>(alloc, others, word),
    ) {
        (Ok(run), Ok(other)) => are_left_alike(&run, &other),
        _ => false,
    }
}

fn audit_of<S: Tried>(
    alloc: Global,
    steps: Steps<'_, S>,
    slot: u8,
    number: u32,
    criteria: SearchCriteria,
) -> Result<Audit, Error>
    requires { S.Asks }
{
    let commands = commands_of::<S>(alloc, steps)?;
    let item = S::item_of(alloc, number)?;
    S::audit_of(alloc, commands.as_slice(), slot, &item, criteria)
}

/// Returns whether the weights under all words of `coins` coins sum to the number of words times
/// the true rank.
fn is_even(audit: &Audit, coins: usize, words: u64) -> bool {
    let mut sum = 0u64;
    for weight in audit.weights.iter() {
        sum = sum.wrapping_add(*weight);
    }
    audit.coins == coins
        && audit.weights.len() as u64 == words
        && sum == audit.true_rank.wrapping_mul(words)
}

fn is_even_audit(answer: Result<Audit, Error>, coins: usize, words: u64) -> bool {
    match answer {
        Ok(audit) => is_even(&audit, coins, words),
        Err(_) => false,
    }
}

fn is_unbiased<S: Tried>(
    alloc: Global,
    steps: Steps<'_, S>,
    count: u32,
    criteria: SearchCriteria,
) -> bool
    requires { S.Asks }
{
    for number in 0..count {
        if !is_even_audit(audit_of::<S>(alloc, steps, 0, number, criteria), 3, 8) {
            return false;
        }
    }
    true
}

pub(crate) fn is_invalid<X: Drop>(answer: Result<X, Error>) -> bool {
    match answer {
        Ok(_) => false,
        Err(error) => error.kind() == ErrorKind::InvalidArgument,
    }
}

fn ends<S: Tried>(alloc: Global, run: &Run<S>, trial: &Trial<'_, S::Config>) -> bool {
    match trial {
        Trial::Gives(_, coins, refused, ranks) => {
            run.refused.as_slice() == *refused
                && run.coins == *coins
                && are_ranked(alloc, run, ranks)
        }
        Trial::Takes(_, total, number) => {
            run.refused.is_empty() && is_ranked(alloc, run, (0, *number, *total, *total))
        }
        _ => false,
    }
}

fn runs<S: Tried>(
    alloc: Global,
    steps: Steps<'_, S>,
    word: &[bool],
    trial: &Trial<'_, S::Config>,
) -> bool
    requires { S.Asks }
{
    match run_of::<S>(alloc, steps, word) {
        Ok(run) => ends(alloc, &run, trial),
        Err(_) => false,
    }
}

fn runs_each<S: Tried>(
    alloc: Global,
    steps: Steps<'_, S>,
    words: &[&[bool]],
    trial: &Trial<'_, S::Config>,
) -> bool
    requires { S.Asks }
{
    for word in words {
        if !runs::<S>(alloc, steps, word, trial) {
            return false;
        }
    }
    true
}

/// Returns whether an audit gives these weights under each word, and this true rank.
fn weighs(audit: &Audit, coins: usize, weights: &[u64], true_rank: u64) -> bool {
    audit.coins == coins && audit.weights.as_slice() == weights && audit.true_rank == true_rank
}

/// Returns the sum of the squares of the weights' distances from the true rank.
fn squares_of(audit: &Audit) -> u64 {
    let mut sum = 0u64;
    for weight in audit.weights.iter() {
        let distance = weight.abs_diff(audit.true_rank);
        sum = sum.wrapping_add(distance.wrapping_mul(distance));
    }
    sum
}

fn is_audit<C>(answer: Result<Audit, Error>, trial: &Trial<'_, C>) -> bool {
    match (answer, trial) {
        (Ok(audit), Trial::Audits(_, _, coins, weights, true_rank)) => {
            weighs(&audit, *coins, weights, *true_rank)
        }
        (Ok(audit), Trial::Scatters(_, squares)) => squares_of(&audit) == *squares,
        (Ok(audit), Trial::HasSixteen(..)) => is_even(&audit, 16, 65536),
        (Err(error), Trial::HasTooMany) => error.kind() == ErrorKind::InvalidArgument,
        _ => false,
    }
}

fn audits<S: Tried>(
    alloc: Global,
    steps: Steps<'_, S>,
    slot: u8,
    number: u32,
    trial: &Trial<'_, S::Config>,
) -> bool
    requires { S.Asks }
{
    is_audit(audit_of::<S>(alloc, steps, slot, number, CRITERIA), trial)
}

/// Returns whether a trial holds for these steps.
fn holds<S: Tried>(alloc: Global, steps: Steps<'_, S>, trial: &Trial<'_, S::Config>) -> bool
    requires { S.Asks }
{
    match trial {
        Trial::Gives(words, ..) | Trial::Takes(words, ..) => {
            runs_each::<S>(alloc, steps, words, trial)
        }
        Trial::LeavesAs(word, others) => leaves_alike::<S>(alloc, steps, others, word),
        Trial::WantsMore(word) => is_invalid(run_of::<S>(alloc, steps, word)),
        Trial::IsUnbiased(count) => {
            is_unbiased::<S>(alloc, steps, *count, SearchCriteria::Inclusive)
                && is_unbiased::<S>(alloc, steps, *count, SearchCriteria::Exclusive)
        }
        Trial::Audits(slot, number, ..) | Trial::HasSixteen(slot, number) => audits::<S>(
            alloc, steps, *slot, *number, trial,
        ),
        Trial::Scatters(number, _) => audits::<S>(alloc, steps, 0, *number, trial),
        Trial::HasTooMany => audits::<S>(alloc, steps, 0, 5, trial),
    }
}

/// Returns the name of the first row that isn't as expected.
pub(crate) fn first_wrong<'a, S: Tried>(
    alloc: Global,
    rows: &'a [Row<'a, S::Config>],
) -> Option<&'a str>
    requires { S.Asks }
{
    for (name, steps, trial) in rows {
        if !holds::<S>(alloc, steps, trial) {
            return Some(*name);
        }
    }
    None
}
