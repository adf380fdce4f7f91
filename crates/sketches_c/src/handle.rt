//! The handle that C has of a sketch.
ghost use Rattle.std.specs.Prelude.{◌≡◌, ◌≢◌, IfOk, IfErr, IfSome};
ghost use Rattle.std.specs.declared.option.Option.{Option};
ghost use Rattle.std.specs.declared.option.Option.TheVariants.{None, Some};
ghost use Rattle.std.specs.Coded.{coded_option};
ghost use Rattle.std.specs.Option.{MatchOption};
ghost use Rattle.sketches_c.specs.Calls.{refusal};
ghost use Rattle.sketches_c.specs.Codes.{code_of, no_sketch, ok};
ghost use Rattle.sketch_base.specs.declared.error.ErrorKind.TheVariants.{OutOfMemory};
ghost use Rattle.sketches_c.specs.Held.{held};
ghost use Rattle.sketches_c.specs.declared.state.State.{State};
ghost use Rattle.sketches_c.specs.contracts.state.State.{the_row as state_row};

use crate::answers::{NO_SKETCH, OK, OUT_OF_MEMORY, refusal};
use crate::slot::Slot;
use crate::state::State;
use std::alloc::Global;
use std::marker::Model;
use std::mem::replace;
use std::ptr::null_mut;

/// A sketch, or nothing. C sees a struct of one pointer, zeroes it before its first use and never
/// copies it.
#[repr(C)]
pub struct Handle {
    at: *mut u8,
    alloc: Global,
    pub ghost value: { Option State } by { coded_option state_row.coded },
}

impl Model for Handle {
    ghost also_owns = { λ h. held state_row h.alloc h.at h.value };
}

impl Handle {
    pub(crate) fn empty(alloc: Global) -> Handle
        ensures { result.value ≡ None }
    {
        let at = null_mut();
        Handle { at, alloc }
    }

    fn of(slot: Slot<State>) -> Handle
        ensures { result.value ≡ slot.value }
    {
        let Slot { at, alloc } = slot;
        let at = at as *mut u8;
        Handle { at, alloc }
    }

    fn into_slot(self) -> Slot<State>
        ensures { result.value ≡ self.value }
    {
        let Handle { at, alloc } = self;
        let at = at as *mut State;
        Slot { at, alloc }
    }

    pub(crate) fn take(&mut self, alloc: Global) -> Option<Box<State>>
        ensures taken { self.new.value ≡ None }
        ensures value { MatchOption result (self.old.value ≡ None)
            (λ b. self.old.value ≡ Some b.value) }
    {
        replace(self, Handle::empty(alloc)).into_slot().into_box()
    }

    /// Takes the state out of the handle, if it may be asked about these items.
    pub(crate) fn open(
        &mut self,
        alloc: Global,
        floats: bool,
        items: &[i64],
    ) -> Result<Box<State>, i32>
        ensures opened { IfOk result (λ b. self.old.value ≡ Some b.value) }
        ensures allowed { IfOk result (λ b. refusal b.value.floats floats items.now ≡ ok) }
        ensures kept { IfErr result (λ _. self.new.value ≡ self.old.value) }
        ensures absent { IfErr result (λ e. self.old.value ≡ None → e ≡ no_sketch) }
        ensures refused { IfErr result (λ e. IfSome self.old.value (λ s.
            (e ≡ refusal s.floats floats items.now) × (e ≢ ok))) }
    {
        let Some(state) = self.take(alloc) else {
            return Err(NO_SKETCH);
        };
        let refusal = refusal(state.floats, floats, items);
        if refusal == OK {
            return Ok(state);
        }
        self.put(state);
        Err(refusal)
    }

    /// Takes a state in a box of its own. What the handle held is freed.
    pub(crate) fn hold(&mut self, alloc: Global, state: State) -> i32
        ensures held { result ≡ ok → self.new.value ≡ Some state }
        ensures refused { result ≢ ok → self.new.value ≡ self.old.value }
        ensures memory { result ≢ ok → result ≡ code_of OutOfMemory }
    {
        match Box::new(alloc, state) {
            Ok(state) => {
                self.put(state);
                OK
            }
            Err(_) => OUT_OF_MEMORY,
        }
    }

    pub(crate) fn put(&mut self, state: Box<State>)
        ensures { self.new.value ≡ Some state.value }
    {
        *self = Handle::of(Slot::of(state));
    }
}

impl Drop for Handle {
    fn drop(self) {
        drop(self.into_slot().into_box());
    }
}
