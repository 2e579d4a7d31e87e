// The removals of a state that are tried, one after the other.
ghost use Rattle.std.specs.Prelude.{◌≡◌, ◌+◌, ◌-◌, ◌^◌, ◌≤◌, ◌<◌, List, length, IfSome};
ghost use Rattle.std.specs.Iterator.{at_most};
ghost use Rattle.molecule.specs.Lists.{Bytes};
ghost use Rattle.matches.specs.Table.{Pair};
ghost use Rattle.matches.specs.Laws.{Laws};
ghost use Rattle.state.specs.Inner.Scan.{rows_of};
ghost use Rattle.branch.specs.Inner.Trying.{First};

use crate::Branch;
use state::scan::{Owners, Rows};

// The matches from a number on that are removable and of the least size or more, ascending.
#[derive(Drop)]
pub struct Removals<'a> {
    pub rows: &'a Rows<'a>,
    pub owners: &'a Owners<'a>,
    pub least: u64,
    pub from: usize,
}

impl Branch<'_> {
    // The removals that are tried.
    pub fn removals<'a>(&'a self, rows: &'a Rows<'a>) -> Removals<'a>
        ensures { (result.rows.now ≡ rows.now) × (result.owners.now ≡ self.now.owners) × (result.least ≡ self.now.least)
            × (result.from ≡ self.now.first) }
    {
        Removals {
            rows,
            owners: &self.owners,
            least: self.least,
            from: self.first,
        }
    }
}

impl Removals<'_> {
    // The first of those left. Along the table sizes never grow.
    fn first(&self) -> Option<usize>
        ensures within { IfSome result (λ m. (self.now.from ≤ m) × (m < length self.now.rows.now.words.now) × (m + 1 < 2 ^ 64)) }
        ensures first { (bytes : Bytes) (ms : List Pair) → Laws bytes ms → self.now.rows.now.words.now ≡ rows_of ms
            → First bytes ms self.now.owners.now.pieces.now self.now.least self.now.from result }
    {
        for m in self.from..self.rows.words.len() {
            let row = &self.rows.words[m];
            if row[3] < self.least {
                return None;
            }
            if self.owners.is_removable(row) {
                return Some(m);
            }
        }
        None
    }
}

impl Iterator for Removals<'_> {
    ghost use Rattle.branch.specs.Inner.Branching.{Tries};

    type Item = usize;

    ghost next_gives = { Tries };

    ghost remaining = { λ s. at_most (length s.rows.now.words.now - s.from) };

    fn next(&mut self) -> Option<usize> {
        let m = self.first()?;
        self.from = m + 1;
        Some(m)
    }
}
