//! A call that allocates, as data: what it is made on and with, what it gave, and whether two calls
//! gave the same.
use super::runs::{Commands, Step, push_step};
use super::sketches::Tried;
use crate::audit::{Audit, Run};
use crate::family::Family;
use sketch_base::common::random::{RandomBits, WordBits};
use sketch_base::common::{Rank, SearchCriteria};
use sketch_base::error::{Error, ErrorKind};
use sketch_base::sorted_view::SortedView;
use std::alloc::{AllocError, Global};

pub(super) const WORD: [bool; 8] = [false, true, false, false, true, true, false, true];

pub(super) const CRITERIA: SearchCriteria = SearchCriteria::Inclusive;

#[derive(Clone, Copy, Drop)]
pub(super) enum Call {
    Default,
    New,
    Clone,
    Update,
    UpdateWeighted,
    Merge,
    Quantile,
    Quantiles,
    Cdf,
    Pmf,
    SortedView,
    Serialize,
    Deserialize,
    Run,
    Audit,
}

pub(super) fn name_of(call: Call) -> &'static str {
    match call {
        Call::Default => "Default",
        Call::New => "New",
        Call::Clone => "Clone",
        Call::Update => "Update",
        Call::UpdateWeighted => "UpdateWeighted",
        Call::Merge => "Merge",
        Call::Quantile => "Quantile",
        Call::Quantiles => "Quantiles",
        Call::Cdf => "Cdf",
        Call::Pmf => "Pmf",
        Call::SortedView => "SortedView",
        Call::Serialize => "Serialize",
        Call::Deserialize => "Deserialize",
        Call::Run => "Run",
        Call::Audit => "Audit",
    }
}

/// A call on a sketch of this k and number of items. The last number is the number of items in the
/// sketch that is merged in, or the weight of the item that is put in.
pub(super) type Row = (Call, u16, u32, u32);

/// What a row's call is made on and with.
#[derive(Drop)]
pub(super) struct Subject<S: Tried> {
    pub(super) row: Row,
    pub(super) sketch: S,
    pub(super) points: Vec<S::Item>,
    pub(super) given: Given<S>,
}

/// What else a call takes.
#[derive(Drop)]
pub(super) enum Given<S: Tried> {
    Nothing,
    /// Items to put in, one for each time the call is made.
    Items(Vec<S::Item>),
    /// A sketch to merge in.
    Other(S),
    Image(Vec<u8>),
    Commands(Commands<S>),
}

pub(super) type View<S> = SortedView<<S as Family>::Item>;

/// What a call gave.
#[derive(Drop)]
pub(super) enum Answer<S: Tried> {
    Done,
    Sketch(S),
    Item(Option<S::Item>),
    Items(Option<Vec<S::Item>>),
    Ranks(Option<Vec<Rank>>),
    View(View<S>),
    Bytes(Vec<u8>),
    Run(Run<S>),
    Audit(Audit),
}

/// Puts the items from 1 on into a sketch.
fn feed<S: Tried, B: RandomBits>(
    alloc: Global,
    sketch: &mut S,
    count: u32,
    coins: &mut B,
) -> Result<(), Error>
    requires { S.Asks }
{
    for number in 0..count {
        sketch.update(S::item_of(alloc, number.wrapping_add(1))?, coins)?;
    }
    Ok(())
}

/// Returns a sketch of these settings and of the items from 1 on.
pub(super) fn fill_with<S: Tried, B: RandomBits>(
    alloc: Global,
    config: S::Config,
    count: u32,
    coins: &mut B,
) -> Result<S, Error>
    requires { S.Asks }
{
    let mut sketch = S::create(alloc, config)?;
    feed(alloc, &mut sketch, count, coins)?;
    Ok(sketch)
}

pub(super) fn filled<S: Tried>(alloc: Global, k: u16, count: u32) -> Result<S, Error>
    requires { S.Asks }
{
    fill_with(alloc, S::config_of(k), count, &mut WordBits::new(&WORD))
}

/// Merges a copy of a sketch into it.
pub(super) fn double<S: Tried, B: RandomBits>(
    alloc: Global,
    sketch: &mut S,
    coins: &mut B,
) -> Result<(), Error>
    requires { S.Asks }
{
    let copy = sketch.copy()?;
    sketch.merge(&copy, false, coins, &mut S::room(alloc))
}

fn is_ranked_alike<S: Tried>(sketch: &S, view: &View<S>, item: &S::Item) -> bool {
    view.rank(item, SearchCriteria::Inclusive) == sketch.rank_of(item, SearchCriteria::Inclusive)
        && view.rank(item, SearchCriteria::Exclusive)
            == sketch.rank_of(item, SearchCriteria::Exclusive)
}

/// Returns whether a view ranks the item of a number as its sketch does.
fn ranks_item_alike<S: Tried>(alloc: Global, sketch: &S, view: &View<S>, number: u32) -> bool {
    match S::item_of(alloc, number) {
        Ok(item) => is_ranked_alike(sketch, view, &item),
        Err(_) => false,
    }
}

/// Returns whether a view ranks the items from 0 on as its sketch does.
pub(super) fn ranks_alike<S: Tried>(alloc: Global, sketch: &S, view: &View<S>, count: u32) -> bool {
    for number in 0..count {
        if !ranks_item_alike(alloc, sketch, view, number) {
            return false;
        }
    }
    true
}

/// Returns a step of the commands that leave a sketch of `count` items in slot 0, and in slot 1
/// what is read from the image of a sketch that it was merged into.
fn step_of<S: Tried>(place: u8, k: u16, count: u32) -> Step<S::Config> {
    match place {
        0 | 1 => Step::New(place, S::config_of(k)),
        2 => Step::Updates(0, 1, count),
        3 => Step::Weighted(1, 3, 6),
        4 => Step::Merge(1, 0),
        _ => Step::RoundTrip(1),
    }
}

fn commands<S: Tried>(alloc: Global, k: u16, count: u32) -> Result<Commands<S>, AllocError> {
    let mut commands = Vec::new(alloc);
    for place in 0..6u8 {
        push_step::<S>(alloc, &mut commands, step_of::<S>(place, k, count))?;
    }
    Ok(commands)
}

pub(super) fn items<S: Tried>(alloc: Global, numbers: &[u32]) -> Result<Vec<S::Item>, AllocError> {
    let mut items = Vec::new(alloc);
    for number in numbers {
        items.push(S::item_of(alloc, *number)?)?;
    }
    Ok(items)
}

fn given_of<S: Tried>(alloc: Global, row: Row, sketch: &S) -> Result<Given<S>, Error>
    requires { S.Asks }
{
    let (call, k, count, number) = row;
    let next = count.wrapping_add(1);
    Ok(match call {
        Call::Update | Call::UpdateWeighted => Given::Items(items::<S>(alloc, &[next, next])?),
        Call::Merge => Given::Other(filled(alloc, k, number)?),
        Call::Deserialize => Given::Image(sketch.image()?),
        Call::Run | Call::Audit => Given::Commands(commands::<S>(alloc, k, count)?),
        _ => Given::Nothing,
    })
}

/// Returns the row's sketch, with no room to spare.
pub(super) fn copied<S: Tried>(alloc: Global, row: Row) -> Result<S, Error>
    requires { S.Asks }
{
    filled::<S>(alloc, row.1, row.2)?.copy()
}

pub(super) fn subject_of<S: Tried>(alloc: Global, row: Row) -> Result<Subject<S>, Error>
    requires { S.Asks }
{
    let sketch = copied::<S>(alloc, row)?;
    let points = items::<S>(alloc, &[3, 9, 14])?;
    let given = given_of(alloc, row, &sketch)?;
    Ok(Subject {
        row,
        sketch,
        points,
        given,
    })
}

fn bad_row<X>() -> Result<X, Error> {
    Err(Error::new(ErrorKind::InvalidArgument))
}

/// Puts an item in.
fn take<S: Tried>(row: Row, sketch: &mut S, item: Option<S::Item>) -> Result<(), Error>
    requires { S.Asks }
{
    let mut coins = WordBits::new(&WORD);
    match (row.0, item) {
        (Call::Update, Some(item)) => sketch.update(item, &mut coins),
        (_, Some(item)) => sketch.update_weighted(item, row.3 as u64, &mut coins),
        (_, None) => bad_row(),
    }
}

/// Makes a call that changes the sketch.
fn change<S: Tried>(alloc: Global, subject: &mut Subject<S>) -> Result<(), Error>
    requires { S.Asks }
{
    let (sketch, mut coins) = (&mut subject.sketch, WordBits::new(&WORD));
    match &mut subject.given {
        Given::Items(items) => take(subject.row, sketch, items.pop()),
        Given::Other(other) => sketch.merge(other, false, &mut coins, &mut S::room(alloc)),
        _ => bad_row(),
    }
}

pub(super) fn fraction(weight: u64, total: u64) -> Rank {
    Rank { weight, total }
}

pub(super) fn fractions() -> [Rank; 3] {
    [fraction(0, 5), fraction(2, 5), fraction(1, 1)]
}

/// Asks for items or their ranks.
fn ask_for_items<S: Tried>(call: Call, sketch: &S, points: &[S::Item]) -> Result<Answer<S>, Error>
    requires { S.Asks }
{
    let fractions = fractions();
    Ok(match call {
        Call::Quantile => Answer::Item(sketch.quantile_of(fractions[1], CRITERIA)?),
        Call::Quantiles => Answer::Items(sketch.quantiles_of(&fractions, CRITERIA)?),
        Call::Cdf => Answer::Ranks(sketch.cdf_of(points, CRITERIA)?),
        _ => Answer::Ranks(sketch.pmf_of(points, CRITERIA)?),
    })
}

/// Returns what a call that makes a sketch gave.
fn made<S: Tried>(sketch: Result<S, Error>) -> Result<Answer<S>, Error> {
    match sketch {
        Ok(sketch) => Ok(Answer::Sketch(sketch)),
        Err(error) => Err(error),
    }
}

/// Makes a call that asks the sketch.
fn ask<S: Tried>(call: Call, subject: &Subject<S>) -> Result<Answer<S>, Error>
    requires { S.Asks }
{
    let Subject { sketch, points, .. } = subject;
    match call {
        Call::Clone => made(sketch.copy()),
        Call::SortedView => Ok(Answer::View(sketch.view_of()?)),
        Call::Serialize => Ok(Answer::Bytes(sketch.image()?)),
        _ => ask_for_items(call, sketch, points.as_slice()),
    }
}

/// Runs or audits commands.
fn run<S: Tried>(
    alloc: Global,
    call: Call,
    commands: &Commands<S>,
    points: &[S::Item],
) -> Result<Answer<S>, Error>
    requires { S.Asks }
{
    let commands = commands.as_slice();
    match (call, points.first()) {
        (Call::Run, _) => Ok(Answer::Run(S::run_of(alloc, commands, &WORD)?)),
        (_, Some(item)) => Ok(Answer::Audit(S::audit_of(alloc, commands, 0, item, CRITERIA)?)),
        _ => bad_row(),
    }
}

/// Makes a call that takes no sketch.
fn make<S: Tried>(alloc: Global, subject: &Subject<S>) -> Result<Answer<S>, Error>
    requires { S.Asks }
{
    let (call, k, ..) = subject.row;
    match &subject.given {
        Given::Image(image) => made(S::load(alloc, image.as_slice())),
        Given::Commands(commands) => run(alloc, call, commands, subject.points.as_slice()),
        _ if matches!(call, Call::Default) => made(S::default_of(alloc)),
        _ => made(S::create(alloc, S::config_of(k))),
    }
}

/// Makes the row's call.
pub(super) fn answer_of<S: Tried>(
    alloc: Global,
    subject: &mut Subject<S>,
) -> Result<Answer<S>, Error>
    requires { S.Asks }
{
    match subject.row.0 {
        Call::Update | Call::UpdateWeighted | Call::Merge => {
            change(alloc, subject)?;
            Ok(Answer::Done)
        }
        Call::Default | Call::New | Call::Deserialize | Call::Run | Call::Audit => make(
            alloc, subject,
        ),
        call => ask(call, subject),
    }
}

/// Returns whether two calls gave the same.
pub(super) fn are_equal<X: PartialEq + Drop>(a: Result<X, Error>, b: Result<X, Error>) -> bool {
    match (a, b) {
        (Ok(a), Ok(b)) => a == b,
        _ => false,
    }
}

/// Returns the image of a sketch that took `more` items: it shows states and coins that an image
/// doesn't hold.
fn image_past<S: Tried>(alloc: Global, sketch: &S, more: u32) -> Result<Vec<u8>, Error>
    requires { S.Asks }
{
    let mut copy = sketch.copy()?;
    feed(alloc, &mut copy, more, &mut WordBits::new(&WORD))?;
    copy.image()
}

pub(super) fn are_alike<S: Tried>(alloc: Global, a: &S, b: &S) -> bool
    requires { S.Asks }
{
    for more in [0, 1, 150] {
        if !are_equal(image_past(alloc, a, more), image_past(alloc, b, more)) {
            return false;
        }
    }
    true
}

fn are_slots_alike<S: Tried>(alloc: Global, a: Option<&S>, b: Option<&S>) -> bool
    requires { S.Asks }
{
    match (a, b) {
        (Some(a), Some(b)) => are_alike(alloc, a, b),
        (None, None) => true,
        _ => false,
    }
}

fn are_runs_alike<S: Tried>(alloc: Global, a: &Run<S>, b: &Run<S>) -> bool
    requires { S.Asks }
{
    for slot in 0..3u8 {
        if !are_slots_alike(alloc, a.slots.get(&slot), b.slots.get(&slot)) {
            return false;
        }
    }
    a.coins == b.coins && a.refused.as_slice() == b.refused.as_slice()
}

fn are_views_alike<S: Tried>(a: &View<S>, b: &View<S>, points: &[S::Item]) -> bool
    requires { S.Asks }
{
    let asked = fractions();
    a.len() == b.len()
        && are_equal(a.cdf(points, CRITERIA), b.cdf(points, CRITERIA))
        && are_equal(
            S::quantiles_in(a, &asked, CRITERIA),
            S::quantiles_in(b, &asked, CRITERIA),
        )
}

fn are_audits_alike(a: &Audit, b: &Audit) -> bool {
    a.coins == b.coins && a.weights == b.weights && a.true_rank == b.true_rank
}

/// Returns whether two answers that hold no sketch are the same.
fn are_same_values<S: Tried>(a: &Answer<S>, b: &Answer<S>) -> bool {
    match (a, b) {
        (Answer::Done, Answer::Done) => true,
        (Answer::Item(a), Answer::Item(b)) => a == b,
        (Answer::Items(a), Answer::Items(b)) => a == b,
        (Answer::Ranks(a), Answer::Ranks(b)) => a == b,
        (Answer::Bytes(a), Answer::Bytes(b)) => a == b,
        (Answer::Audit(a), Answer::Audit(b)) => are_audits_alike(a, b),
        _ => false,
    }
}

pub(super) fn is_same<S: Tried>(
    alloc: Global,
    a: &Answer<S>,
    b: &Answer<S>,
    points: &Vec<S::Item>,
) -> bool
    requires { S.Asks }
{
    match (a, b) {
        (Answer::Sketch(a), Answer::Sketch(b)) => are_alike(alloc, a, b),
        (Answer::View(a), Answer::View(b)) => are_views_alike::<S>(a, b, points.as_slice()),
        (Answer::Run(a), Answer::Run(b)) => are_runs_alike(alloc, a, b),
        (a, b) => are_same_values(a, b),
    }
}
