//! The numbers of lines of text, in a sketch for each key; and such sketches as lines of text.
#![tactic(auto)]

pub mod answers;
pub mod cells;
pub mod columns;
pub mod fault;
pub mod fields;
pub mod groups;
pub mod images;
pub mod lines;
pub mod number;
pub mod sketch;
pub mod summary;
pub mod text;
