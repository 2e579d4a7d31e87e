#![tactic(auto)]
// A state of the search by value (src/state.rs), and the pieces that a removal leaves.
// Numbers turn by `as`, shown to lose nothing: usize has no From, and a TryFrom would answer an error that never is.
ghost use Rattle.std.specs.Prelude.{◌≡◌, List, ◌++◌, ℕ, ◌+◌, ◌-◌, ◌*◌, ◌^◌, ◌≤◌, ◌<◌, length, get_or};
ghost use Rattle.bitset.specs.Bits.{size, diff};
ghost use Rattle.molecule.specs.Lists.{Bytes};
ghost use Rattle.molecule.specs.Record.{bonds};
ghost use Rattle.molecule.specs.Touch.{parts, touching_words};
ghost use Rattle.bounds.specs.Numbers.{sum_of, max_of};
ghost use Rattle.matches.specs.Table.{Pair, size_of};
ghost use Rattle.search.specs.State.{root, keep, remove, child};
ghost use Rattle.state.specs.Inner.Views.{sets_of, trail_of, state_of};
ghost use Rattle.state.specs.Inner.Pieces.{big_parts, fallen, bonds_in, bonds_left, Big, Owned, OwnedFragments, Chosen};

use sets::Sets;
use trail::Trail;

pub mod scan;
pub mod sets;
pub mod trail;

// At most 32 pieces; the index; the size of the largest removed; the number after the last removed; the trail.
#[derive(Clone, Copy, Debug, PartialEq, Eq, Drop)]
pub struct State {
    pub pieces: Sets<32>,
    pub index: u32,
    pub largest: u32,
    pub next: usize,
    pub trail: Trail,
}

// The components of s that have two or more bonds are added to out. The touching words stay a parameter here and below: a molecule in their place would
// ask more of callers, since this holds of any words.
fn push_big<const N: usize>(touch: &[u64; 64], s: u64, out: &mut Sets<N>)
    requires { 2 * length (sets_of out.old) + size s ≤ 2 * N }
    ensures { sets_of out.new ≡ sets_of out.old ++ big_parts touch.now s }
{
    let mut rest = s;
    // A while: what is left falls by a component, not by its lowest member.
    while rest != 0 {
        let c = molecule::graph::component(touch, rest, bitset::lowest(rest));
        rest = bitset::difference(rest, c);
        if bitset::without_lowest(c) != 0 {
            out.push(c);
        }
    }
}

// The sum of bonds less one over the components of s, and the most bonds in one.
fn tree_sizes(touch: &[u64; 64], s: u64) -> (u32, u32)
    ensures index { result.0 ≡ sum_of (λ t. size t - 1) (parts (λ (i : ℕ). get_or touch.now i 0) s) }
    ensures largest { result.1 ≡ max_of size (parts (λ (i : ℕ). get_or touch.now i 0) s) }
{
    let mut rest = s;
    let mut index = 0;
    let mut largest = 0;
    // A while, as above.
    while rest != 0 {
        let t = molecule::graph::component(touch, rest, bitset::lowest(rest));
        rest = bitset::difference(rest, t);
        let size = bitset::size(t);
        index += size - 1;
        largest = largest.max(size);
    }
    (index, largest)
}

// The root of n bonds: each tree of two or more bonds is a piece.
pub fn root(touch: &[u64; 64], n: usize) -> State
    requires { n ≤ 64 }
    ensures { (bytes : Bytes) (ms : List Pair) → bonds bytes ≡ n → touch.now ≡ touching_words bytes → state_of result ≡ root bytes ms }
{
    let all = bitset::first_n(n as u32);
    let mut pieces = Sets::new();
    push_big(touch, all, &mut pieces);
    let (index, largest) = tree_sizes(touch, all);
    State {
        pieces,
        index,
        largest,
        next: 0,
        trail: Trail::new(),
    }
}

// Letting go: out becomes what is left of each piece with the bonds of kept alone.
pub fn keep<const N: usize>(touch: &[u64; 64], pieces: &[u64], kept: u64, out: &mut Sets<N>)
    requires { bonds_in pieces.now ≤ 2 * N }
    ensures { (bytes : Bytes) (ms : List Pair) → Owned bytes touch.now pieces.now
        → sets_of out.new ≡ keep bytes ms kept pieces.now }
{
    out.clear();
    for p in pieces {
        push_big(touch, bitset::common(*p, kept), out);
    }
}

// What piece p falls into without the bonds gone is added to out. A piece that has none of them stays as it is.
fn push_fallen<const N: usize>(touch: &[u64; 64], p: u64, gone: u64, out: &mut Sets<N>)
    requires { (2 ≤ size p) × (2 * length (sets_of out.old) + size (diff p gone) ≤ 2 * N) }
    ensures { sets_of out.new ≡ sets_of out.old ++ fallen touch.now gone p }
{
    if bitset::is_disjoint(p, gone) {
        out.push(p);
    } else {
        push_big(touch, bitset::difference(p, gone), out);
    }
}

// Out becomes what the pieces fall into without the bonds struck, and h1 after it.
pub fn remove<const N: usize>(
    touch: &[u64; 64],
    pieces: &[u64],
    struck: u64,
    h1: u64,
    out: &mut Sets<N>,
)
    requires { Big pieces.now × (bonds_left struck pieces.now + 2 ≤ 2 * N) }
    ensures { (bytes : Bytes) (ms : List Pair) (m : ℕ) → OwnedFragments bytes touch.now pieces.now
        → Chosen ms m h1 struck → sets_of out.new ≡ remove bytes ms pieces.now m }
{
    out.clear();
    for p in pieces {
        push_fallen(touch, *p, struck, out);
    }
    out.push(h1);
}

// S becomes the state after match m is removed from the pieces held; row is the match's. In place: a state that is answered is copied.
pub fn child(touch: &[u64; 64], s: &mut State, held: &[u64], m: usize, row: &[u64; 4])
    requires { Big held.now × (bonds_left (get_or row.now 2 0) held.now + 2 ≤ 64) × (m < 2 ^ 32)
        × (1 ≤ get_or row.now 3 0) × (get_or row.now 3 0 < 2 ^ 8)
        × (get_or row.now 3 0 - 1 ≤ s.old.index) × (length (trail_of s.old.trail).numbers < 32) }
    ensures { (bytes : Bytes) (ms : List Pair) → OwnedFragments bytes touch.now held.now → Chosen ms m (get_or row.now 0 0) (get_or row.now 2 0)
        → size_of ms m ≡ get_or row.now 3 0 → state_of s.new ≡ child bytes ms (state_of s.old) held.now m }
{
    let [h1, _, struck, size] = *row;
    remove(touch, held, struck, h1, &mut s.pieces);
    s.trail.push(m as u32, size as u8);
    s.index -= size as u32 - 1;
    s.largest = size as u32;
    s.next = m + 1;
}
