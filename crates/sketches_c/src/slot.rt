//! A box, or nothing, as its pointer.
ghost use Rattle.std.specs.Prelude.{◌≡◌};
ghost use Rattle.std.specs.declared.option.Option.{Option};
ghost use Rattle.std.specs.declared.option.Option.TheVariants.{None, Some};
ghost use Rattle.std.specs.Coded.{coded_option};
ghost use Rattle.std.specs.Option.{MatchOption};
ghost use Rattle.sketches_c.specs.Held.{held};

use std::alloc::Global;
use std::marker::Model;

/// The pointer of a box, or null.
pub(crate) struct Slot<T> {
    pub at: *mut T,
    pub alloc: Global,
    pub ghost value: { Option T } by { coded_option T.code },
}

impl<T> Model for Slot<T> {
    ghost also_owns = { λ s. held T.row s.alloc s.at s.value };
}

impl<T: Drop> Slot<T> {
    pub(crate) fn of(boxed: Box<T>) -> Self
        ensures { result.value ≡ Some boxed.value }
    {
        let (at, alloc) = Box::into_raw_with_allocator(boxed);
        Slot { at, alloc }
    }

    pub(crate) fn into_box(self) -> Option<Box<T>>
        ensures { MatchOption result (self.value ≡ None) (λ b. self.value ≡ Some b.value) }
    {
        let Slot { at, alloc } = self;
        if at.is_null() {
            return None;
        }
        Some(unsafe { Box::from_raw(alloc, at) })
    }
}
