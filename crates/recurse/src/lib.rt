#![tactic(auto)]
// The search as it runs, from state to state (`recurse_index_search` of src/assembly.rs).
// Numbers turn by `as`, shown to lose nothing: usize has no From, and a TryFrom would answer an error that never is.
pub mod run;
pub mod visit;
