//! What no contract can say: calls succeed if memory is ample, and leave everything as it was if it
//! is refused. `tests/memory` runs the tests of `refused` under a library that refuses each memory
//! request in turn. The README's example. `compactor` and `req` try what no line of the program
//! shows of REQ's calls.

mod ample;
mod base;
mod calls;
mod compactor;
mod items;
pub(crate) mod kll;
mod readme;
mod refused;
mod req;
pub(crate) mod runs;
pub(crate) mod sketches;
