#![tactic(auto)]
// The removals of a state that are tried, and the state after each (src/state.rs, `recurse_index_search` of src/assembly.rs).
ghost use Rattle.std.specs.Prelude.{◌≡◌, List, ℕ, ◌≤◌, ◌<◌, length, get_or};
ghost use Rattle.bitset.specs.Bits.{Sub, unions};
ghost use Rattle.molecule.specs.Lists.{Bytes};
ghost use Rattle.matches.specs.Table.{Pair};
ghost use Rattle.matches.specs.Laws.{Laws};
ghost use Rattle.state.specs.Inner.Scan.{rows_of, Told};
ghost use Rattle.branch.specs.Inner.Entered.{Entered};
ghost use Rattle.branch.specs.Inner.Branching.{least_tried, Passes, Branched, Chooses, Below};

use searched::Searched;
use state::scan::{Owners, Rows, Scanned};
use state::sets::Sets;
use state::{State, scan};

pub mod removals;
pub mod searched;

// What the removals of a state are tried from: its pieces; the pieces held; the least size tried; where the removable matches begin.
#[derive(Clone, Copy, Drop)]
pub struct Branch<'a> {
    pub owners: Owners<'a>,
    pub held: Sets<32>,
    pub least: u64,
    pub first: usize,
}

// The least size tried: 2 with MatchableEdges off. Pieces and index go one by one, as the bound takes them.
fn least_tried(
    edges: bool,
    masks: &[u64],
    pieces: &[u64],
    index: u32,
    best: u32,
    largest: u32,
) -> u64
    requires { (largest < length masks.now) × (length pieces.now ≤ 32) × (best ≤ 64) × (largest ≤ 64) × ((k : ℕ) → 2 ≤ k → k ≤ largest
        → Sub (get_or masks.now k 0) (get_or masks.now 2 0)) }
    ensures { result ≡ least_tried edges (λ k. get_or masks.now k 0) pieces.now index best largest }
{
    if edges {
        u64::from(bounds::least_size(masks, pieces, index, best, largest))
    } else {
        2
    }
}

// Where the matches begin, from a number on, that are not too large for pieces whose union is all: their two fragments have no more bonds than
// these. Along the table sizes never grow. A place and no Option, as partition_point answers; it stays beside the rows, as scan.rt of `state` says.
fn first_fitting(rows: &Rows, from: usize, all: u64) -> usize
    requires { from ≤ length rows.now.words.now }
    ensures within { result ≤ length rows.now.words.now }
    ensures passes { (bytes : Bytes) (ms : List Pair) (pieces : List ℕ) → Laws bytes ms → rows.now.words.now ≡ rows_of ms
        → all ≡ unions (λ p. p) pieces → Passes ms pieces from result }
{
    let half = u64::from(bitset::size(all)) / 2;
    from + rows.words[from..].partition_point(|row| half < row[3])
}

// The bonds in the removable matches from a number on of each size go to masks; those too large are passed over at once.
fn masks(rows: &Rows, from: usize, owners: &Owners, masks: &mut [u64; 33]) -> Scanned
    requires { from ≤ length rows.now.words.now }
    ensures { (bytes : Bytes) (ms : List Pair) → Laws bytes ms → rows.now.words.now ≡ rows_of ms
        → Told ms owners.now.pieces.now from masks.new result.largest result.first }
{
    let start = first_fitting(rows, from, owners.all);
    scan::masks(rows, start, owners, masks)
}

// Lets go, and finds which sizes are tried and from where on. That the state may be entered stays a clause, here and in the search: a struct for it
// would be made of the same references at each call.
pub fn branch_of<'a>(searched: &Searched, s: &'a State, best: u32) -> Branch<'a>
    requires { (best ≤ 64) × Entered searched.now.molecule.now.bytes.now s.now }
    ensures { Branched searched.now.molecule.now.bytes.now searched.now.setting s.now best result }
{
    let pieces = s.pieces.as_slice();
    let owners = Owners::of(pieces);
    let mut masks = [0u64; 33];
    let scanned = crate::masks(&searched.rows, s.next, &owners, &mut masks);
    let mut held = Sets::new();
    state::keep(&searched.molecule.touch, pieces, masks[2], &mut held);
    let edges = searched.setting.has_matchable_edges();
    let least = least_tried(edges, &masks, pieces, s.index, best, scanned.largest);
    Branch {
        owners,
        held,
        least,
        first: scanned.first,
    }
}

// S becomes the state after match m is removed.
pub fn below(searched: &Searched, s: &mut State, held: &[u64], m: usize)
    requires { Entered searched.now.molecule.now.bytes.now s.old × Chooses searched.now.molecule.now.bytes.now s.old held.now m }
    ensures { Below searched.now.molecule.now.bytes.now s.old m s.new }
{
    state::child(
        &searched.molecule.touch,
        s,
        held,
        m,
        &searched.rows.words[m],
    );
}
