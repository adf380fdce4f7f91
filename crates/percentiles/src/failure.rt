//! Why nothing can be printed.
use log_groups::fault::Fault;
use std::alloc::AllocError;
use thiserror::Error;

/// Why nothing can be printed.
#[derive(Debug, Drop, Error)]
pub enum Failure {
    /// What standard error says already, with the status.
    #[error("it is told")]
    Told(u8),
    #[error("{0}")]
    Fault(#[from] Fault),
    #[error("out of memory")]
    Memory(#[from(alloc)] AllocError),
    /// What clap says of the words.
    #[error("{0}")]
    Words(clap::Error),
    #[error("an argument isn't UTF-8")]
    NoText,
    #[error("-g takes numbers of fields, and names with -H or -j; FILE stands first")]
    Groups,
    #[error("-v and -w take the number of a field, and a name with -H or -j")]
    Value,
    #[error("-w needs -f kll: a REQ sketch takes no weights")]
    Weight,
    #[error("-t takes one character, or \\t for a tab")]
    Separator,
    #[error("-k of kll is from 8 to 65535")]
    KllSize,
    #[error("-k of req is even, from 4 to 1024")]
    ReqSize,
    #[error("-p takes percentiles from 0 to 100, with at most 12 decimals, min and sum")]
    Percentile,
    #[error("-p takes a percentile once")]
    Twice,
    #[error("-l takes numbers with at most 9 decimals")]
    Limit,
    #[error("summaries don't hold the sum of their numbers")]
    Sum,
    #[error("the header has a quote that isn't closed")]
    OpenQuote,
    #[error("the header has a field twice that is asked for")]
    TwoFields,
    #[error("the header lacks a field that is asked for")]
    NoField,
}

impl Failure {
    /// Returns whether the words are wrong.
    pub fn is_misuse(&self) -> bool {
        match self {
            Failure::Fault(_) | Failure::Memory(_) => false,
            Failure::OpenQuote | Failure::TwoFields | Failure::NoField => false,
            _ => true,
        }
    }
}
