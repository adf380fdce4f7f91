//! Runs and audits of REQ sketches, as rows: what is run, and what result is expected.
use crate::tests::runs::{Row, Step, Trial, first_wrong};
use sketch_req::RankAccuracy;
use sketch_req::RankAccuracy::{HighRank, LowRank};
use sketch_req::sketch::ReqSketch;
use std::alloc::Global;

type Config = (u16, RankAccuracy);

type Steps = Step<Config>;

const HIGH_12: Steps = Step::New(0, (12, HighRank));

const HIGH_4: Steps = Step::New(0, (4, HighRank));

/// 50 updates with a round trip after the first 24.
const WITH_ROUND_TRIP: [Steps; 4] = [
    HIGH_4,
    Step::Updates(0, 1, 24),
    Step::RoundTrip(0),
    Step::Updates(0, 25, 50),
];

const WORDS: [&[bool]; 8] = [
    &[false, false, false],
    &[true, false, false],
    &[false, true, false],
    &[true, true, false],
    &[false, false, true],
    &[true, false, true],
    &[false, true, true],
    &[true, true, true],
];

const ONE_COIN: [Steps; 2] = [HIGH_12, Step::Updates(0, 1, 72)];

const ABSENT: Steps = Step::Merge(255, 101);

/// Where a merge compacts at once, one sketch drew a coin and the other none. With coins redrawn,
/// the second coin decides whether 5 goes up or stays.
static ROWS: [Row<'static, Config>; 17] = [
    ("nothing", &[], Trial::Gives(&[&[]], 0, &[], &[])),
    (
        "a tail past a round trip",
        &WITH_ROUND_TRIP,
        Trial::Gives(&WORDS, 1, &[], &[(0, 38, 38, 50)]),
    ),
    (
        "a tail under each word",
        &[HIGH_12, Step::Updates(0, 1, 211)],
        Trial::Gives(
            &WORDS,
            3,
            &[],
            &[
                (0, 175, 175, 211),
                (0, 176, 176, 211),
                (0, 187, 187, 211),
                (0, 199, 199, 211),
                (0, 210, 210, 211),
                (0, 211, 211, 211),
            ],
        ),
    ),
    (
        "a merge into a greater k",
        &[
            Step::New(1, (4, HighRank)),
            Step::Updates(1, 1, 24),
            HIGH_12,
            Step::Merge(0, 1),
        ],
        Trial::Gives(&WORDS, 1, &[], &[(0, 12, 12, 24)]),
    ),
    (
        "a copy",
        &[HIGH_12, Step::Updates(0, 1, 72), Step::Merge(0, 0)],
        Trial::Gives(&[&[false]], 1, &[], &[(0, 54, 108, 144)]),
    ),
    (
        "what no sketch takes",
        &[
            Step::New(0, (13, HighRank)),
            Step::New(0, (2, HighRank)),
            Step::New(0, (1026, HighRank)),
            HIGH_4,
            Step::New(0, (1024, HighRank)),
            Step::New(1, (12, LowRank)),
            Step::Merge(0, 1),
            Step::Weighted(0, 1, 1),
            Step::Updates(7, 1, 1),
            Step::RoundTrip(7),
            Step::RoundTrip(0),
            Step::Redraw(7),
            Step::Redraw(0),
            Step::MergeRedrawn(0, 1),
            Step::MergeRedrawn(0, 7),
            Step::MergeRedrawn(0, 0),
        ],
        Trial::Gives(&[&[]], 0, &[0, 1, 2, 6, 7, 8, 9, 11, 13, 14], &[]),
    ),
    ("no coin", &ONE_COIN, Trial::WantsMore(&[])),
    (
        "one coin",
        &ONE_COIN,
        Trial::Gives(&WORDS, 1, &[], &[(0, 36, 36, 72)]),
    ),
    (
        "other slots",
        &[
            Step::New(255, (4, HighRank)),
            Step::Updates(255, 1, 24),
            Step::Reset(255),
            Step::Updates(255, 1, 24),
            Step::New(100, (4, HighRank)),
            Step::Updates(100, 1, 3),
            ABSENT,
            ABSENT,
            ABSENT,
            ABSENT,
            ABSENT,
            ABSENT,
            ABSENT,
            ABSENT,
            ABSENT,
            ABSENT,
        ],
        Trial::Gives(
            &[&[false; 1001]],
            2,
            &[54, 55, 56, 57, 58, 59, 60, 61, 62, 63],
            &[(255, 3, 4, 24), (100, 2, 2, 3)],
        ),
    ),
    (
        "150 at k 12",
        &[HIGH_12, Step::Updates(0, 1, 150)],
        Trial::Audits(0, 13, 1, &[12, 14], 13),
    ),
    (
        "50 at k 4",
        &[HIGH_4, Step::Updates(0, 1, 50)],
        Trial::Audits(0, 5, 1, &[4, 6], 5),
    ),
    (
        "past a round trip",
        &WITH_ROUND_TRIP,
        Trial::Audits(0, 5, 1, &[4, 4], 5),
    ),
    (
        "a merge",
        &[
            HIGH_4,
            Step::New(1, (4, HighRank)),
            Step::Updates(1, 1, 27),
            Step::Updates(0, 28, 50),
            Step::Merge(0, 1),
        ],
        Trial::Audits(0, 5, 1, &[4, 4], 5),
    ),
    (
        "a merge that draws anew",
        &[
            HIGH_4,
            Step::New(1, (4, HighRank)),
            Step::Updates(1, 1, 27),
            Step::Updates(0, 28, 50),
            Step::MergeRedrawn(0, 1),
        ],
        Trial::Audits(0, 5, 2, &[4, 4, 6, 6], 5),
    ),
    (
        "a coin that is drawn anew",
        &[
            HIGH_4,
            Step::Updates(0, 1, 24),
            Step::RoundTrip(0),
            Step::Redraw(0),
            Step::Updates(0, 25, 50),
        ],
        Trial::Audits(0, 5, 2, &[4, 4, 6, 6], 5),
    ),
    (
        "updates alone, high",
        &[HIGH_12, Step::Updates(0, 1, 211)],
        Trial::IsUnbiased(213),
    ),
    (
        "updates alone, low",
        &[Step::New(0, (12, LowRank)), Step::Updates(0, 1, 211)],
        Trial::IsUnbiased(213),
    ),
];

fn wrong_of<'a>(alloc: Global, rows: &'a [Row<'a, Config>]) -> Option<&'a str> {
    first_wrong::<ReqSketch<i32>>(alloc, rows)
}

#[test]
fn runs_and_audits(rt: HostRuntime) {
    let wrong = wrong_of(rt.alloc(), &ROWS);
    assert!(rt; wrong.is_none(), "{wrong:?}");
}

static LONG: [Row<'static, Config>; 2] = [
    (
        "too many coins",
        &[Step::New(0, (4, LowRank)), Step::Updates(0, 1, 2000)],
        Trial::HasTooMany,
    ),
    (
        "a long run",
        &[
            Step::New(0, (1024, HighRank)),
            Step::Updates(0, 1, 100_000),
            Step::Merge(0, 0),
            Step::RoundTrip(0),
        ],
        Trial::Takes(&[&[false; 1000]], 200_000, 100_000),
    ),
];

#[test]
fn long_run_ends(rt: HostRuntime) {
    assert!(rt; wrong_of(rt.alloc(), &LONG).is_none());
}

/// Returns steps that merge a sketch of 23 items sixteen times into a new one, with one more item
/// each time, which takes a coin.
fn with_sixteen_coins() -> [Steps; 50] {
    let mut steps = [Step::Merge(255, 100); 50];
    steps[0] = Step::New(100, (4, HighRank));
    steps[1] = Step::Updates(100, 1, 23);
    for i in 0..16usize {
        steps[3 * i + 2] = Step::New(255, (4, HighRank));
        steps[3 * i + 4] = Step::Updates(255, 24, 24);
    }
    steps
}

#[test]
fn audits_sixteen_coins(rt: HostRuntime) {
    let rows = [("", &with_sixteen_coins()[..], Trial::HasSixteen(255, 3))];
    assert!(rt; wrong_of(rt.alloc(), &rows).is_none());
}
