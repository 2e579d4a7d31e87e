#![tactic(auto)]
// The search, allowed series and pathways as definitions, and what demand 3 claims as theorems about them. Only the methods of Setting run.

// The setting of a search: bounds (0 to 3: 1 is Int, 2 is MatchableEdges, 3 both), memo (0 or 1) and the budget of states.
// Numbers, as C hands them in.
#[derive(Clone, Copy, Debug, PartialEq, Eq)]
pub struct Setting {
    pub bounds: u32,
    pub memo: u32,
    pub budget: u32,
}

impl Setting {
    ghost use Rattle.std.specs.Prelude.{◌≡◌, ◌||◌, eqb};
    ghost use Rattle.search.specs.Setting.{has_int, has_matchable_edges, has_memo};

    // Whether bounds are this one, or both.
    fn has(self, bound: u32) -> bool
        ensures { result ≡ (eqb self.bounds bound || eqb self.bounds 3) }
    {
        self.bounds == bound || self.bounds == 3
    }

    pub fn has_int(self) -> bool
        ensures { result ≡ has_int self }
    {
        self.has(1)
    }

    pub fn has_matchable_edges(self) -> bool
        ensures { result ≡ has_matchable_edges self }
    {
        self.has(2)
    }

    pub fn has_memo(self) -> bool
        ensures { result ≡ has_memo self }
    {
        self.memo == 1
    }
}
