// One subtable: the search for a long delta, and the tally of its columns.
#![tactic(auto)]

pub mod long;
pub mod tally;

pub use long::keeps_long;
pub use tally::{Column, Size, column_size};
