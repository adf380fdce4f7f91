//! How much room a long-lived vector keeps.
ghost use Rattle.std.specs.Prelude.{◌≡◌, ◌+◌, ◌/◌, ◌<◌, ◌≤◌, [], max, vec_len, vec_capacity, OnOk};

use std::alloc::AllocError;
use std::mem;

/// Makes room for one more item. A full vector grows by a quarter and 4 items, or up to `most`
/// items if that is less, but by at least one item. A sketch is long-lived and soon stops growing.
#[inline(always)]
pub fn reserve_next<T: Drop>(items: &mut Vec<T>, most: usize) -> Result<(), AllocError>
    ensures items { items.new.items ≡ items.old.items }
    ensures len { vec_len items.new ≡ vec_len items.old }
    ensures ok { OnOk result (vec_len items.new < vec_capacity items.new) }
    ensures capacity { vec_capacity items.old ≤ vec_capacity items.new }
    ensures lean { OnOk result (vec_capacity items.new
        ≤ max (vec_capacity items.old) (vec_len items.old + (vec_len items.old / 4 + 4))) }
    ensures most { OnOk result (vec_capacity items.new
        ≤ max (vec_capacity items.old) (max most (vec_len items.old + 1))) }
{
    if items.len() < items.capacity() {
        return Ok(());
    }
    grow(items, most)
}

/// Makes room for a quarter and 4 more items, or up to `most` items if that is less, but for at
/// least one.
#[cold]
#[inline(never)]
fn grow<T: Drop>(items: &mut Vec<T>, most: usize) -> Result<(), AllocError>
    ensures items { items.new.items ≡ items.old.items }
    ensures len { vec_len items.new ≡ vec_len items.old }
    ensures ok { OnOk result (vec_len items.new < vec_capacity items.new) }
    ensures capacity { vec_capacity items.old ≤ vec_capacity items.new }
    ensures lean { OnOk result (vec_capacity items.new
        ≤ max (vec_capacity items.old) (vec_len items.old + (vec_len items.old / 4 + 4))) }
    ensures most { OnOk result (vec_capacity items.new
        ≤ max (vec_capacity items.old) (max most (vec_len items.old + 1))) }
{
    let len = items.len();
    let left = most.saturating_sub(len).max(1);
    items.reserve_exact((len / 4 + 4).min(left))
}

/// Shrinks the vector if it has room for over a quarter more items and for over `spare` more. It
/// then keeps room for an eighth more, or for `spare` if that is more.
pub fn shrink_if_loose<T: Drop>(items: &mut Vec<T>, spare: usize)
    ensures items { items.new.items ≡ items.old.items }
    ensures len { vec_len items.new ≡ vec_len items.old }
{
    let len = items.len();
    if items.capacity() - len > spare.max(len / 4) {
        items.shrink_to(len.saturating_add(spare.max(len / 8)));
    }
}

/// Moves the items to the other vector and swaps the two, if the first has room for over a quarter
/// more items. The other one is emptied first, and grows if it lacks room for the items. If memory
/// runs out, the items stay where they are.
pub fn move_if_loose<T: Drop>(items: &mut Vec<T>, other: &mut Vec<T>)
    ensures items { items.new.items ≡ items.old.items }
    ensures other { other.new.items ≡ [] }
{
    let len = items.len();
    other.clear();
    if items.capacity() - len > len / 4 && other.reserve_exact(len).is_ok() {
        other.append(items).unwrap();
        mem::swap(items, other);
    }
}
