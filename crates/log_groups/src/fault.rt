//! What ends a run before its input does.
use sketch_base::error::Error;
use std::alloc::AllocError;
use std::io;

/// What ends a run before its input does.
#[derive(Debug, Drop, thiserror::Error)]
pub enum Fault {
    /// The input gave no line.
    #[error("{0}")]
    Input(io::Error),
    /// The output took no line.
    #[error("standard output can't be written: {0}")]
    Output(#[from] io::Error),
    /// A sketch took no more.
    #[error("{0}")]
    Sketch(#[from] Error),
    #[error("out of memory")]
    Memory(#[from(alloc)] AllocError),
    /// One more group would be more than are allowed.
    #[error("there are more groups than -n allows")]
    TooManyGroups,
}
