//! The least and the greatest of some items, tests whether items lie between two others, clones of
//! found items, and the extremes of a stream with one more item, or with those of another stream.
ghost use Rattle.std.specs.Prelude.{◌≡◌, ◌<◌, ◌++◌, length, IfOk, IsOk, IsTrue, IsSorted, None, option_copied};
ghost use Rattle.std.specs.List.{AllByRecursion};
ghost use Rattle.std.specs.Option.{option_to_list};
ghost use Rattle.std.specs.declared.cmp.Ordering.TheVariants.{Equal};
ghost use Rattle.sketch_base.specs.Extremes.{IsAtMost, IsBetween, IsExtreme, IsFrom, IsGreatestOf, IsLeastOf, IsUpTo, Ties, greatest_with, least_with, newer_or};
ghost use Rattle.sketch_base.specs.Queries.{SameAnswer};

use std::alloc::AllocError;

/// Returns a clone of the found item, if there is one.
pub fn clone_found<T: Clone + Ord>(found: Option<&T>) -> Result<Option<T>, AllocError>
    requires clones { (x y : T) → T.is_clone x y → T.cmp x y ≡ Equal }
    ensures same { IfOk result (SameAnswer T.cmp (option_copied found.entry)) }
    ensures none { option_copied found.entry ≡ None → IsOk result }
{
    match found {
        Some(item) => item.clone().map(Some),
        None => Ok(None),
    }
}

/// Returns an item that is at most every item.
pub fn least_of<T: Ord>(items: &[T]) -> &T
    requires { 0 < length items.now }
    ensures { IsExtreme T.cmp (λ x y. IsAtMost T.cmp x y) items.now result.now }
{
    let mut least = &items[0];
    for item in items {
        if item.cmp(least).is_lt() {
            least = item;
        }
    }
    least
}

/// Returns an item that every item is at most.
pub fn greatest_of<T: Ord>(items: &[T]) -> &T
    requires { 0 < length items.now }
    ensures { IsExtreme T.cmp (λ x y. IsAtMost T.cmp y x) items.now result.now }
{
    let mut greatest = &items[0];
    for item in items {
        if item.cmp(greatest).is_gt() {
            greatest = item;
        }
    }
    greatest
}

/// Returns whether every item is at least `least` and at most `greatest`.
pub fn are_between<T: Ord>(items: &[T], least: &T, greatest: &T) -> bool
    ensures yes { IsTrue result
        → AllByRecursion (IsBetween T.cmp least.now greatest.now) items.now }
    ensures no { AllByRecursion (IsBetween T.cmp least.now greatest.now) items.now
        → IsTrue result }
{
    for item in items {
        if least.cmp(item).is_gt() || item.cmp(greatest).is_gt() {
            return false;
        }
    }
    true
}

/// Does what `are_between` does. If `is_sorted` is true, the items must be sorted, and only the
/// first and the last are tested.
pub fn are_between_if<T: Ord>(items: &[T], is_sorted: bool, least: &T, greatest: &T) -> bool
    requires sorted { IsTrue is_sorted → IsSorted T.cmp items.now }
    ensures yes { IsTrue result
        → AllByRecursion (IsBetween T.cmp least.now greatest.now) items.now }
    ensures no { AllByRecursion (IsBetween T.cmp least.now greatest.now) items.now
        → IsTrue result }
{
    let count = items.len();
    if is_sorted && count > 0 {
        return !least.cmp(&items[0]).is_gt() && !items[count - 1].cmp(greatest).is_gt();
    }
    are_between(items, least, greatest)
}

/// Returns a clone of the item if it is below the least item so far, or if there is none so far.
pub fn clone_if_least<T: Clone + Ord>(item: &T, least: &Option<T>) -> Result<Option<T>, AllocError>
    requires clones { (x y : T) → T.is_clone x y → T.cmp x y ≡ Equal }
    ensures least { IfOk result (λ new.
        Ties T.cmp (least_with T.cmp item.now least.now) (newer_or new least.now)) }
{
    let is_least = match least {
        Some(least) => item.cmp(least).is_lt(),
        None => true,
    };
    clone_found(is_least.then_some(item))
}

/// Returns a clone of the item if it is above the greatest item so far, or if there is none so far.
pub fn clone_if_greatest<T: Clone + Ord>(
    item: &T,
    greatest: &Option<T>,
) -> Result<Option<T>, AllocError>
    requires clones { (x y : T) → T.is_clone x y → T.cmp x y ≡ Equal }
    ensures greatest { IfOk result (λ new.
        Ties T.cmp (greatest_with T.cmp item.now greatest.now) (newer_or new greatest.now)) }
{
    let is_greatest = match greatest {
        Some(greatest) => item.cmp(greatest).is_gt(),
        None => true,
    };
    clone_found(is_greatest.then_some(item))
}

/// Returns a clone of the item if it is a new least item, and another if it is a new greatest one.
pub fn clone_new_extremes<T: Clone + Ord>(
    item: &T,
    least: &Option<T>,
    greatest: &Option<T>,
) -> Result<(Option<T>, Option<T>), AllocError>
    requires clones { (x y : T) → T.is_clone x y → T.cmp x y ≡ Equal }
    ensures least { IfOk result (λ new.
        Ties T.cmp (least_with T.cmp item.now least.now) (newer_or new.0 least.now)) }
    ensures greatest { IfOk result (λ new.
        Ties T.cmp (greatest_with T.cmp item.now greatest.now) (newer_or new.1 greatest.now)) }
{
    let new_least = clone_if_least(item, least)?;
    let new_greatest = clone_if_greatest(item, greatest)?;
    Ok((new_least, new_greatest))
}

/// Returns whether there are extremes so far and no item lies beyond them.
fn are_within<T: Ord>(items: &[T], least: &Option<T>, greatest: &Option<T>) -> bool
    ensures least { IsTrue result → AllByRecursion (IsFrom T.cmp least.now) items.now }
    ensures greatest { IsTrue result → AllByRecursion (IsUpTo T.cmp greatest.now) items.now }
{
    match (least, greatest) {
        (Some(least), Some(greatest)) => are_between(items, least, greatest),
        _ => false,
    }
}

/// Returns clones of the least and of the greatest of some items, each only if it lies beyond the
/// extreme so far, or if there is none so far.
pub fn clone_passing_extremes<T: Clone + Ord>(
    items: &[T],
    least: &Option<T>,
    greatest: &Option<T>,
) -> Result<(Option<T>, Option<T>), AllocError>
    requires clones { (x y : T) → T.is_clone x y → T.cmp x y ≡ Equal }
    requires some { 0 < length items.now }
    ensures least { IfOk result (λ new. IsLeastOf T.cmp
        (option_to_list least.now ++ items.now) (newer_or new.0 least.now)) }
    ensures greatest { IfOk result (λ new. IsGreatestOf T.cmp
        (option_to_list greatest.now ++ items.now) (newer_or new.1 greatest.now)) }
{
    if are_within(items, least, greatest) {
        return Ok((None, None));
    }
    let new_least = clone_if_least(least_of(items), least)?;
    let new_greatest = clone_if_greatest(greatest_of(items), greatest)?;
    Ok((new_least, new_greatest))
}

/// Returns a clone of another stream's least item, if there is one, and if it is below the least
/// item so far or there is none so far.
pub fn clone_if_lesser<T: Clone + Ord>(
    other: &Option<T>,
    least: &Option<T>,
) -> Result<Option<T>, AllocError>
    requires clones { (x y : T) → T.is_clone x y → T.cmp x y ≡ Equal }
    ensures { IfOk result (λ new. IsLeastOf T.cmp
        (option_to_list least.now ++ option_to_list other.now) (newer_or new least.now)) }
{
    match other {
        None => Ok(None),
        Some(item) => clone_if_least(item, least),
    }
}

/// Returns a clone of another stream's greatest item, if there is one, and if it is above the
/// greatest item so far or there is none so far.
pub fn clone_if_greater<T: Clone + Ord>(
    other: &Option<T>,
    greatest: &Option<T>,
) -> Result<Option<T>, AllocError>
    requires clones { (x y : T) → T.is_clone x y → T.cmp x y ≡ Equal }
    ensures { IfOk result (λ new. IsGreatestOf T.cmp
        (option_to_list greatest.now ++ option_to_list other.now) (newer_or new greatest.now)) }
{
    match other {
        None => Ok(None),
        Some(item) => clone_if_greatest(item, greatest),
    }
}

/// Sets `place` to the new extreme, if there is one.
pub fn set_if_some<T: Drop>(place: &mut Option<T>, new: Option<T>)
    ensures { place.new ≡ newer_or new place.old }
{
    if let Some(value) = new {
        *place = Some(value);
    }
}
