#![tactic(auto)]
// The match table (src/matches.rs) and its words in the pairs table as definitions, and their laws. Nothing here runs: `enumerate` and `tabulate`
// build the table.
