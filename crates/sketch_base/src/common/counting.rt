//! The number of items that a query counts.
ghost use Rattle.std.specs.Prelude.{◌≡◌, ◌≤◌, length, count_by, IsSorted};
ghost use Rattle.sketch_base.specs.Query.{counted};
ghost use Rattle.sketch_base.specs.Queries.{IsSplitAt};

use crate::common::SearchCriteria;

/// Returns the number of items, in any order, that a query counts.
pub fn count_all<T: Ord>(items: &[T], query: &T, criteria: SearchCriteria) -> usize
    ensures { result ≡ count_by (counted T.cmp query.now criteria) items.now }
{
    let mut count = 0;
    for item in items {
        if counts(item, query, criteria) {
            count += 1;
        }
    }
    count
}

/// Returns the number of sorted items that a query counts, which are the first ones.
pub fn count_in_order<T: Ord>(items: &[T], query: &T, criteria: SearchCriteria) -> usize
    requires sorted { IsSorted T.cmp items.now }
    ensures within { result ≤ length items.now }
    ensures parts { IsSplitAt (counted T.cmp query.now criteria) items.now result }
    ensures count { result ≡ count_by (counted T.cmp query.now criteria) items.now }
{
    items.partition_point(|item| counts(item, query, criteria))
}

/// How far beyond a guess a count is looked for first.
const AHEAD: usize = 16;

/// Returns what `count_in_order` does, sooner if the count is at or just beyond a guess.
pub(crate) fn count_near<T: Ord>(
    items: &[T],
    guess: usize,
    query: &T,
    criteria: SearchCriteria,
) -> usize
    requires guess { guess ≤ length items.now }
    requires sorted { IsSorted T.cmp items.now }
    ensures within { result ≤ length items.now }
    ensures parts { IsSplitAt (counted T.cmp query.now criteria) items.now result }
{
    let start = guess.saturating_sub(1);
    let end = guess.saturating_add(AHEAD).min(items.len());
    let found = count_in_order(&items[start..end], query, criteria);
    if 0 < found && found < end - start {
        return start + found;
    }
    count_in_order(items, query, criteria)
}

/// Returns whether a query counts an item.
fn counts<T: Ord>(item: &T, query: &T, criteria: SearchCriteria) -> bool
    ensures { result ≡ counted T.cmp query.now criteria item.now }
{
    match criteria {
        SearchCriteria::Inclusive => item.cmp(query).is_le(),
        SearchCriteria::Exclusive => item.cmp(query).is_lt(),
    }
}
