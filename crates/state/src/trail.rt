// The trail of a state: two parallel arrays of 32.
ghost use Rattle.std.specs.Prelude.{◌≤◌};

// Match numbers, the sizes of their fragments, which are 32 at most, and how many there are of each. No two lists: a trail is copied for each
// state, and with lists a score takes 1.09 of the time.
#[derive(Clone, Copy, Debug, PartialEq, Eq, Drop)]
pub struct Trail {
    numbers: [u32; 32],
    sizes: [u8; 32],
    length: usize,
    ghost fits: { length ≤ 32 },
}

impl Trail {
    ghost use Rattle.std.specs.Prelude.{◌≡◌, ◌<◌, length};
    ghost use Rattle.search.specs.Trail.{no_removal, with_removal};
    ghost use Rattle.state.specs.Inner.Views.{trail_of};

    // No removal.
    pub fn new() -> Trail
        ensures { trail_of result ≡ no_removal }
    {
        Trail {
            numbers: [0; 32],
            sizes: [0; 32],
            length: 0,
        }
    }

    // One removal more, of match m.
    pub fn push(&mut self, m: u32, size: u8)
        requires { length (trail_of self.old).numbers < 32 }
        ensures { trail_of self.new ≡ with_removal (trail_of self.old) m size }
    {
        self.numbers[self.length] = m;
        self.sizes[self.length] = size;
        self.length += 1;
    }

    // The match numbers.
    pub fn numbers(&self) -> &[u32]
        ensures { result.now ≡ (trail_of self.now).numbers }
    {
        &self.numbers[..self.length]
    }

    // The sizes.
    pub fn sizes(&self) -> &[u8]
        ensures { result.now ≡ (trail_of self.now).sizes }
    {
        &self.sizes[..self.length]
    }
}
