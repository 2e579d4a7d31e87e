#![tactic(auto)]
// score (`index_search` of src/assembly.rs).
// Numbers turn by `as`, shown to lose nothing: usize has no From, and a TryFrom would answer an error that never is.
pub use search::Setting;

pub mod answer;
mod find;
pub mod score;
mod trail;
