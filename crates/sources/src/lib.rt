// The glyph list and the maps of a table: whether they can be used, and the pairs that the maps give the listed glyphs.
#![tactic(auto)]

pub mod glyphs;
pub mod named;
