//! Calls whose memory requests are refused one by one.
//!
//! `tests/memory` runs these tests under tests/refuse.c, and each call is then repeated with the
//! first request refused, then the second and so on, until none is refused. Without that library
//! nothing is refused: each call is made once.
use super::calls::{
    Answer, CRITERIA, Call, Row, Subject, View, WORD, answer_of, are_alike, copied, filled,
    fraction, fractions, is_same, items, name_of, subject_of,
};
use super::runs::is_invalid;
use super::sketches::Tried;
use crate::lines::serve;
use sketch_base::common::random::WordBits;
use sketch_base::error::{Error, ErrorKind};
use sketch_kll::sketch::KllSketch;
use sketch_req::sketch::ReqSketch;
use std::alloc::Global;
use std::io::{self, Cursor};

/// Requests of at least this many bytes are only signs to the library. N bytes more have it refuse
/// the Nth request from then on. A request of exactly this many bytes is refused if a request was.
const SIGN: usize = 1 << 24;

fn refuse(alloc: Global, nth: usize) -> bool {
    Vec::<u8>::with_capacity(alloc, SIGN.wrapping_add(nth)).is_ok()
}

fn was_refused(alloc: Global) -> bool {
    Vec::<u8>::with_capacity(alloc, SIGN).is_err()
}

/// Returns whether the library is loaded.
fn is_tried(alloc: Global) -> bool {
    let _is_told = refuse(alloc, 1);
    let _is_asked = Vec::<u8>::with_capacity(alloc, 1).is_ok();
    was_refused(alloc)
}

/// Returns whether a call gives what the same call gives on another sketch, and leaves the same.
fn gives_as<S: Tried>(
    alloc: Global,
    given: &Answer<S>,
    subject: &Subject<S>,
    other: &mut Subject<S>,
) -> bool
    requires { S.Asks }
{
    match answer_of(alloc, other) {
        Ok(wanted) => {
            is_same(alloc, given, &wanted, &other.points)
                && are_alike(alloc, &subject.sketch, &other.sketch)
        }
        Err(_) => false,
    }
}

/// Returns whether a call gave what it gives on a sketch that was never refused memory, and leaves
/// the same.
fn gives_the_same<S: Tried>(alloc: Global, given: &Answer<S>, subject: &Subject<S>) -> bool
    requires { S.Asks }
{
    match subject_of(alloc, subject.row) {
        Ok(mut other) => gives_as(alloc, given, subject, &mut other),
        Err(_) => false,
    }
}

/// Returns whether the call, made again, gives what it gives on a sketch that was never refused
/// memory.
fn answers_again<S: Tried>(alloc: Global, subject: &mut Subject<S>) -> bool
    requires { S.Asks }
{
    match answer_of(alloc, subject) {
        Ok(given) => gives_the_same(alloc, &given, subject),
        Err(_) => false,
    }
}

/// Returns whether the sketch is as it was before the call.
fn is_left<S: Tried>(alloc: Global, subject: &Subject<S>) -> bool
    requires { S.Asks }
{
    match copied::<S>(alloc, subject.row) {
        Ok(before) => are_alike(alloc, &subject.sketch, &before),
        Err(_) => false,
    }
}

/// Returns whether all is as expected after the first try: the call answers, or, if its request was
/// refused, says so, leaves the sketch as it was, and answers when it is made again.
fn is_well<S: Tried>(
    alloc: Global,
    first: &Result<Answer<S>, Error>,
    is_refused: bool,
    subject: &mut Subject<S>,
) -> bool
    requires { S.Asks }
{
    match first {
        Ok(given) => gives_the_same(alloc, given, subject),
        Err(error) => {
            is_refused
                && error.kind() == ErrorKind::OutOfMemory
                && is_left(alloc, subject)
                && answers_again(alloc, subject)
        }
    }
}

/// Makes the row's call on a sketch with the Nth request refused. Returns whether one was, and
/// whether all is as expected. (A refused request to shrink leaves a call as it is.)
fn try_on<S: Tried>(alloc: Global, nth: usize, subject: &mut Subject<S>) -> (bool, bool)
    requires { S.Asks }
{
    let is_told = refuse(alloc, nth);
    let first = answer_of(alloc, subject);
    let is_refused = was_refused(alloc);
    let is_well = is_well(alloc, &first, is_refused, subject);
    (is_refused, (is_told || is_refused) && is_well)
}

/// Makes the row's call with the Nth request refused. Returns whether one was, and whether all is
/// as expected.
fn try_nth<S: Tried>(alloc: Global, row: Row, nth: usize) -> (bool, bool)
    requires { S.Asks }
{
    match subject_of::<S>(alloc, row) {
        Ok(mut subject) => try_on(alloc, nth, &mut subject),
        Err(_) => (false, false),
    }
}

/// Returns the number of requests of the row's call that were refused, if all is as expected for
/// each.
fn try_each<S: Tried>(alloc: Global, row: Row) -> Option<usize>
    requires { S.Asks }
{
    for nth in 1..1000usize {
        let (is_refused, is_well) = try_nth::<S>(alloc, row, nth);
        if !is_refused || !is_well {
            return is_well.then_some(nth.wrapping_sub(1));
        }
    }
    None
}

fn print_row(rt: &impl Print, row: Row, refused: Option<usize>) -> io::Result<()> {
    let (call, k, count, number) = row;
    let name = name_of(call);
    println!(rt; "{name} {k} {count} {number} {refused:?}")
}

/// Tries a row, and prints it under the library, or if it isn't as expected. Returns whether it is
/// as expected.
fn try_row<S: Tried>(rt: &(impl Print + AllocGlobal), row: Row) -> bool
    requires { S.Asks }
{
    let refused = try_each::<S>(rt.alloc(), row);
    let is_silent = refused.is_some() && !is_tried(rt.alloc());
    (is_silent || print_row(rt, row, refused).is_ok()) && refused.is_some()
}

/// Returns whether bad arguments are refused.
fn refuses_arguments<S: Tried>(alloc: Global, sketch: &S, equal: &[S::Item]) -> bool
    requires { S.Asks }
{
    let none = fraction(0, 0);
    is_invalid(sketch.quantile_of(none, CRITERIA))
        && is_invalid(sketch.quantiles_of(&[none], CRITERIA))
        && is_invalid(sketch.cdf_of(equal, CRITERIA))
        && is_invalid(sketch.pmf_of(equal, CRITERIA))
        && is_invalid(S::create(alloc, S::config_of(3)))
}

/// Returns whether an empty sketch answers None.
fn answers_none<S: Tried>(sketch: &S, points: &[S::Item]) -> bool
    requires { S.Asks }
{
    let fractions = fractions();
    is_none(sketch.quantile_of(fractions[1], CRITERIA))
        && is_none(sketch.quantiles_of(&fractions, CRITERIA))
        && is_none(sketch.cdf_of(points, CRITERIA))
        && is_none(sketch.pmf_of(points, CRITERIA))
}

fn is_none<X: Drop>(answer: Result<Option<X>, Error>) -> bool {
    matches!(answer, Ok(None))
}

/// Returns whether an empty view has nothing, and answers None.
fn views_none<S: Tried>(view: &View<S>, points: &[S::Item]) -> bool
    requires { S.Asks }
{
    let fractions = fractions();
    view.is_empty()
        && matches!(points, [item, ..] if view.rank(item, CRITERIA).is_none())
        && is_none(S::quantile_in(view, fractions[1], CRITERIA))
        && is_none(S::quantiles_in(view, &fractions, CRITERIA))
        && is_none(view.cdf(points, CRITERIA))
        && is_none(view.pmf(points, CRITERIA))
}

/// Returns whether an empty view refuses bad arguments.
fn view_refuses<S: Tried>(view: &View<S>, equal: &[S::Item]) -> bool
    requires { S.Asks }
{
    is_invalid(S::quantile_in(view, fraction(3, 2), CRITERIA))
        && is_invalid(S::quantiles_in(view, &[fraction(0, 0)], CRITERIA))
        && is_invalid(view.cdf(equal, CRITERIA))
        && is_invalid(view.pmf(equal, CRITERIA))
}

/// Makes calls that allocate nothing, with the first request refused. Returns whether no request
/// was made, and the answers are right. The next two do so too.
fn reads_quietly<S: Tried>(
    alloc: Global,
    sketch: &S,
    copy: &S,
    view: &View<S>,
    item: &S::Item,
) -> bool {
    let whole = Some(fraction(27, 27));
    let is_told = refuse(alloc, 1);
    let is_read = sketch.reads_as(copy)
        && sketch.rank_of(item, CRITERIA) == whole
        && view.rank(item, CRITERIA) == whole;
    is_told && is_read && !was_refused(alloc)
}

fn refuses_quietly<S: Tried>(alloc: Global, sketch: &S, view: &View<S>, equal: &[S::Item]) -> bool
    requires { S.Asks }
{
    let is_told = refuse(alloc, 1);
    let is_refused = refuses_arguments(alloc, sketch, equal) && view_refuses::<S>(view, equal);
    is_told && is_refused && !was_refused(alloc)
}

fn empties_quietly<S: Tried>(
    alloc: Global,
    sketch: &mut S,
    empty: &S,
    view: &View<S>,
    points: &[S::Item],
) -> bool
    requires { S.Asks }
{
    let mut coins = WordBits::new(&WORD);
    let mut room = S::room(alloc);
    let is_told = refuse(alloc, 1);
    let is_merged = sketch.merge(empty, false, &mut coins, &mut room).is_ok();
    sketch.reset();
    let is_nothing = answers_none(sketch, points) && views_none::<S>(view, points);
    is_told && is_merged && is_nothing && !was_refused(alloc)
}

/// Reads a sketch of 27 items and its view.
fn reads<S: Tried>(alloc: Global, sketch: &S, copy: &S) -> bool
    requires { S.Asks }
{
    match (S::item_of(alloc, 27), sketch.view_of()) {
        (Ok(item), Ok(view)) => reads_quietly(alloc, sketch, copy, &view, &item),
        _ => false,
    }
}

/// Asks a sketch and the view of an empty one with bad arguments.
fn refuses<S: Tried>(alloc: Global, sketch: &S, view: &View<S>) -> bool
    requires { S.Asks }
{
    match items::<S>(alloc, &[3, 3]) {
        Ok(equal) => refuses_quietly(alloc, sketch, view, equal.as_slice()),
        Err(_) => false,
    }
}

/// Merges an empty sketch in, removes all items, and asks the sketch and the view of an empty one.
fn empties<S: Tried>(alloc: Global, sketch: &mut S, empty: &S, view: &View<S>) -> bool
    requires { S.Asks }
{
    match items::<S>(alloc, &[3, 9, 14]) {
        Ok(points) => empties_quietly(alloc, sketch, empty, view, points.as_slice()),
        Err(_) => false,
    }
}

fn asks_for_nothing<S: Tried>(alloc: Global, sketch: &mut S, empty: &S) -> bool
    requires { S.Asks }
{
    match empty.view_of() {
        Ok(view) => refuses(alloc, sketch, &view) && empties(alloc, sketch, empty, &view),
        Err(_) => false,
    }
}

fn are_quiet<S: Tried>(alloc: Global, sketch: &mut S, empty: &S) -> bool
    requires { S.Asks }
{
    match sketch.copy() {
        Ok(copy) => reads(alloc, sketch, &copy) && asks_for_nothing(alloc, sketch, empty),
        Err(_) => false,
    }
}

/// Makes the calls that allocate nothing, the same for both families.
fn asks_for_none<S: Tried>(alloc: Global) -> bool
    requires { S.Asks }
{
    match (filled::<S>(alloc, 8, 27), filled::<S>(alloc, 8, 0)) {
        (Ok(mut sketch), Ok(empty)) => are_quiet(alloc, &mut sketch, &empty),
        _ => false,
    }
}

/// Merges another sketch in some times, always under the same word.
fn joins<S: Tried>(sketch: &mut S, other: &S, times: u8, room: &mut S::Room) -> bool
    requires { S.Asks }
{
    for _ in 0..times {
        if sketch
            .merge(other, false, &mut WordBits::new(&WORD), room)
            .is_err()
        {
            return false;
        }
    }
    true
}

/// Merges `other` three times into each of three equal sketches: into `third` with a new room for
/// each merge, into `first` and `second` with one room. The last merge into `second` is made with
/// the first request refused, and once more if it fails. Returns whether all merges are made, and
/// the three sketches are alike.
fn serves<S: Tried>(alloc: Global, first: &mut S, second: &mut S, third: &mut S, other: &S) -> bool
    requires { S.Asks }
{
    let mut room = S::room(alloc);
    let is_plain = joins(third, other, 1, &mut S::room(alloc))
        && joins(third, other, 1, &mut S::room(alloc))
        && joins(third, other, 1, &mut S::room(alloc));
    let is_ready = joins(first, other, 3, &mut room) && joins(second, other, 2, &mut room);
    let is_told = refuse(alloc, 1);
    let is_joined = joins(second, other, 1, &mut room) || joins(second, other, 1, &mut room);
    let is_over = refuse(alloc, SIGN);
    is_plain
        && is_ready
        && is_told
        && is_joined
        && is_over
        && are_alike(alloc, first, third)
        && are_alike(alloc, second, third)
}

fn serves_again<S: Tried>(alloc: Global, k: u16, count: u32, others: u32) -> bool
    requires { S.Asks }
{
    match (
        filled::<S>(alloc, k, count),
        filled::<S>(alloc, k, count),
        filled::<S>(alloc, k, count),
        filled::<S>(alloc, k, others),
    ) {
        (Ok(mut first), Ok(mut second), Ok(mut third), Ok(other)) => serves(
            alloc,
            &mut first,
            &mut second,
            &mut third,
            &other,
        ),
        _ => false,
    }
}

/// What is tried of each family.
static ROWS: [Row; 15] = [
    (Call::Default, 8, 0, 0),
    (Call::New, 8, 0, 0),
    (Call::Clone, 8, 27, 0),
    (Call::Update, 8, 3, 0),
    (Call::Update, 8, 8, 0),
    (Call::Update, 8, 26, 0),
    (Call::Quantile, 8, 27, 0),
    (Call::Quantiles, 8, 27, 0),
    (Call::Cdf, 8, 27, 0),
    (Call::Pmf, 8, 27, 0),
    (Call::SortedView, 8, 27, 0),
    (Call::Serialize, 8, 27, 0),
    (Call::Deserialize, 8, 27, 0),
    (Call::Run, 8, 21, 0),
    (Call::Audit, 8, 9, 0),
];

/// What is tried of KLL sketches: a weight with and without a compaction, and merges that end in
/// all ways.
static KLL_ROWS: [Row; 6] = [
    (Call::UpdateWeighted, 8, 0, 5),
    (Call::UpdateWeighted, 8, 8, 3),
    (Call::Merge, 8, 0, 9),
    (Call::Merge, 8, 8, 4),
    (Call::Merge, 8, 20, 20),
    (Call::Merge, 8, 21, 21),
];

/// What is tried of REQ sketches: the 48th item compacts at k 8, the 72nd at k 12, and so may
/// merges.
static REQ_ROWS: [Row; 6] = [
    (Call::Update, 8, 47, 0),
    (Call::Update, 12, 149, 0),
    (Call::Clone, 12, 211, 0),
    (Call::Merge, 12, 0, 72),
    (Call::Merge, 12, 72, 72),
    (Call::Merge, 4, 40, 200),
];

/// Returns whether each row is as expected.
fn try_rows<S: Tried>(rt: &(impl Print + AllocGlobal), rows: &[Row]) -> bool
    requires { S.Asks }
{
    for row in rows {
        if !try_row::<S>(rt, *row) {
            return false;
        }
    }
    true
}

/// Tries the rows of each family and some more, and the calls that allocate nothing.
fn try_all<S: Tried>(rt: &(impl Print + AllocGlobal), more: &[Row]) -> bool
    requires { S.Asks }
{
    try_rows::<S>(rt, &ROWS) && try_rows::<S>(rt, more) && asks_for_none::<S>(rt.alloc())
}

#[test]
fn kll_of_i64(rt: HostRuntime) {
    assert!(rt; try_all::<KllSketch<i64>>(&rt, &KLL_ROWS));
}

#[test]
fn kll_of_text(rt: HostRuntime) {
    assert!(rt; try_all::<KllSketch<String>>(&rt, &KLL_ROWS));
}

#[test]
fn req_of_i64(rt: HostRuntime) {
    assert!(rt; try_all::<ReqSketch<i64>>(&rt, &REQ_ROWS));
}

/// Returns whether lines are served, or memory runs out and the error says so.
fn is_served(served: io::Result<()>) -> bool {
    match served {
        Ok(()) => true,
        Err(error) => error.kind() == io::ErrorKind::OutOfMemory,
    }
}

/// Serves two lines with the Nth request refused. Returns whether one was, and whether all is as
/// expected.
fn serve_nth(alloc: Global, nth: usize) -> (bool, bool) {
    let mut output = Vec::new(alloc);
    let is_told = refuse(alloc, nth);
    let served = serve(
        alloc,
        false,
        0,
        &mut Cursor::new("new 0 8\nrank 0"),
        &mut output,
    );
    let is_refused = was_refused(alloc);
    (is_refused, (is_refused || is_told) && is_served(served))
}

/// Returns the number of requests of the two lines that were refused, if all is as expected for
/// each.
fn serve_each(alloc: Global) -> Option<usize> {
    for nth in 1..100usize {
        let (is_refused, is_well) = serve_nth(alloc, nth);
        if !is_refused || !is_well {
            return is_well.then_some(nth.wrapping_sub(1));
        }
    }
    None
}

#[test]
fn lines(rt: HostRuntime) {
    let refused = serve_each(rt.alloc());
    let is_silent = refused.is_some() && !is_tried(rt.alloc());
    let is_told = is_silent || println!(rt; "Serve 0 2 0 {refused:?}").is_ok();
    assert!(rt; is_told && refused.is_some());
}

/// A merge leaves room for the next one, whatever the sketches, and also if it failed.
#[test]
fn a_room_serves_the_next_merge(rt: HostRuntime) {
    let alloc = rt.alloc();
    assert!(rt;
        serves_again::<ReqSketch<i64>>(alloc, 12, 5000, 1000)
            && serves_again::<ReqSketch<i64>>(alloc, 4, 3000, 300)
    );
}
