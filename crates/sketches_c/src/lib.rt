//! The sketches for C: a handle, and the calls.
#![tactic(auto)]

mod answers;
mod calls;
mod floats;
mod frame;
mod handle;
mod sketch;
mod slot;
mod state;
