//! The sorted view of a sketch's items, for many queries. It is the same for both families. Equal
//! items are joined in it.

pub use sketch_base::sorted_view::SortedView;
