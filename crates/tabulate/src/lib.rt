#![tactic(auto)]
// The match table built in the lent tables: fragments that a molecule has twice (src/matches.rs).
// In each module parts and p stay two parameters, and links in parts numbers, as found.rt of `enumerate` says.
// Numbers turn by `as`, shown to lose nothing: usize has no From, and a TryFrom would answer an error that never is.
pub mod build;
pub mod count;
pub mod nodes;
pub mod rounds;
pub mod table;
