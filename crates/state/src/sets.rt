// Lists of sets, as the pieces of a state are.
ghost use Rattle.std.specs.Prelude.{◌≤◌};

// At most N sets of bonds, and how many there are. No list of the library's: a state is Copy, and those of a fixed capacity are not.
#[derive(Clone, Copy, Debug, Drop)]
pub struct Sets<const N: usize> {
    words: [u64; N],
    length: usize,
    ghost fits: { length ≤ N },
}

impl<const N: usize> Sets<N> {
    ghost use Rattle.std.specs.Prelude.{◌≡◌, [], ◌∷◌, ◌++◌, ◌<◌, ◌≤◌, length};
    ghost use Rattle.state.specs.Inner.Views.{sets_of};

    // None.
    pub fn new() -> Sets<N>
        ensures { sets_of result ≡ [] }
    {
        Sets {
            words: [0; N],
            length: 0,
        }
    }

    // None is left.
    pub fn clear(&mut self)
        ensures { sets_of self.new ≡ [] }
    {
        self.length = 0;
    }

    // One more.
    pub fn push(&mut self, s: u64)
        requires { length (sets_of self.old) < N }
        ensures { sets_of self.new ≡ sets_of self.old ++ s ∷ [] }
    {
        self.words[self.length] = s;
        self.length += 1;
    }

    // The sets.
    pub fn as_slice(&self) -> &[u64]
        ensures is { result.now ≡ sets_of self.now }
        ensures few { length result.now ≤ N }
    {
        &self.words[..self.length]
    }
}

// Equal are lists of the same sets, whatever stands behind them.
impl<const N: usize> PartialEq for Sets<N> {
    ghost use Rattle.std.specs.Prelude.{nat_eq};
    ghost use Rattle.std.specs.Cmp.{on_per, partial_equiv_from_equiv};
    ghost use Rattle.std.specs.Cmp.Lexicographic.{pointwise, nat_list_eq_equiv};
    ghost use Rattle.state.specs.Inner.Views.{sets_of};

    ghost eq = { λ s t. pointwise nat_eq (sets_of s) (sets_of t) };

    ghost laws = { on_per sets_of (partial_equiv_from_equiv nat_list_eq_equiv) };

    fn eq(&self, other: &Self) -> bool {
        self.as_slice() == other.as_slice()
    }
}

impl<const N: usize> Eq for Sets<N> {
    ghost use Rattle.std.specs.Cmp.{on_equiv};
    ghost use Rattle.std.specs.Cmp.Lexicographic.{nat_list_eq_equiv};
    ghost use Rattle.state.specs.Inner.Views.{sets_of};

    ghost laws = { on_equiv sets_of nat_list_eq_equiv };
}
