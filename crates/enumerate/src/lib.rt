#![tactic(auto)]
// The fragments of one size more than given ones (`Matches::new` of src/matches.rs), each once, and their groups by label.
// Numbers turn by `as`, shown to lose nothing: usize has no From, and a TryFrom would answer an error that never is.
pub mod found;
pub mod groups;
