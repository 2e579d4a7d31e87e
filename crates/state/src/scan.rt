// Which matches are removable in a state, and the bonds in them by size (src/state.rs). A match is a row of four words: h1, h2, their union and the
// size of h1.
ghost use Rattle.std.specs.Prelude.{◌≡◌, ◌≢◌, ◌&&◌, List, ◌≤◌, ◌<◌, max, length, get_or};
ghost use Rattle.bitset.specs.Bits.{unions};
ghost use Rattle.molecule.specs.Connected.{Apart};
ghost use Rattle.matches.specs.Table.{Pair};
ghost use Rattle.search.specs.State.{inside};
ghost use Rattle.state.specs.Inner.Scan.{Owning, Row, AllRows, Marked, rows_of, Told};

// Rows of matches; nothing is said of their order.
#[derive(Clone, Copy, Drop)]
pub struct Rows<'a> {
    pub words: &'a [[u64; 4]],
    ghost rows: { AllRows words.now },
}

// The pieces of a state: for each bond the piece that has it, and where none has 0, no Option: no set but the empty one is a subset of it, so that no
// test has a case for it; and the bonds of all.
#[derive(Clone, Copy, Drop)]
pub struct Owners<'a> {
    pub pieces: &'a [u64],
    pub own: [u64; 64],
    pub all: u64,
    ghost owning: { Owning pieces.now own },
    ghost whole: { all ≡ unions (λ p. p) pieces.now },
}

// Puts p at each of its bonds.
fn mark(own: &mut [u64; 64], p: u64)
    ensures { Marked own.old own.new p }
{
    for b in bitset::ascending(p) {
        own[b as usize] = p;
    }
}

// For each bond the piece that has it, 0 where none has.
fn by_bond(pieces: &[u64]) -> [u64; 64]
    requires { Apart pieces.now }
    ensures { Owning pieces.now result }
{
    let mut own = [0u64; 64];
    for p in pieces {
        mark(&mut own, *p);
    }
    own
}

// The union of the pieces.
pub fn whole(pieces: &[u64]) -> u64
    ensures { result ≡ unions (λ p. p) pieces.now }
{
    pieces.iter().fold(0, |all, p| bitset::union(all, *p))
}

impl<'a> Owners<'a> {
    pub fn of(pieces: &'a [u64]) -> Owners<'a>
        requires { Apart pieces.now }
        ensures { result.pieces.now ≡ pieces.now }
    {
        Owners {
            pieces,
            own: by_bond(pieces),
            all: whole(pieces),
        }
    }
}

impl Owners<'_> {
    // Whether h is whole inside a piece: it is a subset of the piece that has its lowest bond.
    fn is_inside(&self, h: u64) -> bool
        requires { h ≢ 0 }
        ensures { result ≡ inside self.now.pieces.now h }
    {
        let b = bitset::lowest(h) as usize;
        bitset::is_subset(h, self.own[b])
    }

    // Whether a match is removable: both fragments are inside pieces. Where their union is not among the bonds of all pieces, they are not.
    pub fn is_removable(&self, row: &[u64; 4]) -> bool
        requires { Row row.now }
        ensures { result ≡ (inside self.now.pieces.now (get_or row.now 0 0) && inside self.now.pieces.now (get_or row.now 1 0)) }
    {
        let [h1, h2, both, _] = *row;
        bitset::is_subset(both, self.all) && self.is_inside(h1) && self.is_inside(h2)
    }
}

// The largest size of a removable match, 0 where there is none, as a largest of no numbers is; and where the removable matches begin, after all matches
// if there is none: a place and no Option, since what comes next goes on from it, as after partition_point.
#[derive(Clone, Copy, Debug, PartialEq, Eq)]
pub struct Scanned {
    pub largest: u32,
    pub first: usize,
}

// The bonds in the removable matches from a number on of each size go to masks. The scan goes from the last match down. The number stays beside the
// rows: matches are known by their numbers in the whole table, which a part of the rows would shift.
pub fn masks(rows: &Rows, from: usize, owners: &Owners, masks: &mut [u64; 33]) -> Scanned
    requires { from ≤ length rows.now.words.now }
    ensures { (ms : List Pair) → rows.now.words.now ≡ rows_of ms
        → Told ms owners.now.pieces.now from masks.new result.largest result.first }
{
    clear::zero(masks);
    let mut largest = 0u32;
    let mut first = rows.words.len();
    for i in (from..rows.words.len()).rev() {
        let row = &rows.words[i];
        if owners.is_removable(row) {
            let [_, _, both, size] = *row;
            let k = size as usize;
            masks[k] = bitset::union(masks[k], both);
            largest = largest.max(k as u32);
            first = i;
        }
    }
    Scanned { largest, first }
}
