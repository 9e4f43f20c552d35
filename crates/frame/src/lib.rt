// What stands around a table's store: the header and the maps.
#![tactic(auto)]

pub mod header;
pub mod plans;
