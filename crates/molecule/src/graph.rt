// The graph of a record's bonds: which bonds touch, and the components of a set of bonds (src/utils.rs).
ghost use Rattle.std.specs.Prelude.{◌≡◌, ℕ, ◌^◌, ◌<◌, get_or};
ghost use Rattle.bitset.specs.Bits.{unions, members};
ghost use Rattle.molecule.specs.Record.{bonds};
ghost use Rattle.molecule.specs.Touch.{around, reach, is_part, touching, bonds_at_words, touching_words};
ghost use Rattle.molecule.specs.Rounds.{grow_round};
ghost use Rattle.molecule.specs.Tree.{Formed};
ghost use Rattle.molecule.specs.Inner.Growth.{Frontier};

use crate::fields;

// The bonds at each atom. From here to touching_from a function takes the record's bytes: a Molecule is made of what these answer. A number is turned
// by `as`, since usize and u32 or u64 have no From.
pub fn bonds_at(bytes: &[u8]) -> [u64; 72]
    requires { Formed bytes.now }
    ensures { result ≡ bonds_at_words bytes.now }
{
    let mut at = [0u64; 72];
    for i in 0..fields::bonds(bytes) {
        let (u, v) = fields::ends(bytes, i);
        let b = bitset::single(i as u32);
        at[u] = bitset::union(at[u], b);
        at[v] = bitset::union(at[v], b);
    }
    at
}

// The bonds that touch bond i.
pub fn edge_neighbors(bytes: &[u8], at: &[u64; 72], i: usize) -> u64
    requires { Formed bytes.now × (at.now ≡ bonds_at_words bytes.now) × (i < bonds bytes.now) }
    ensures { result ≡ touching bytes.now i }
{
    let (u, v) = fields::ends(bytes, i);
    bitset::difference(bitset::union(at[u], at[v]), bitset::single(i as u32))
}

// For each bond the bonds that touch it, from the bonds at each atom.
pub fn touching_from(bytes: &[u8], at: &[u64; 72]) -> [u64; 64]
    requires { Formed bytes.now × (at.now ≡ bonds_at_words bytes.now) }
    ensures { result ≡ touching_words bytes.now }
{
    let mut touch = [0u64; 64];
    for i in 0..fields::bonds(bytes) {
        touch[i] = edge_neighbors(bytes, at, i);
    }
    touch
}

// The bonds that are next to a bond of s, in s or not. From here on a function takes the words touch: a Molecule would ask more of callers, since what
// is promised holds of any words.
fn next_to(touch: &[u64; 64], s: u64) -> u64
    ensures { result ≡ unions (λ (i : ℕ). get_or touch.now i 0) (members s) }
{
    let mut near = 0;
    for i in bitset::ascending(s) {
        near = bitset::union(near, touch[i as usize]);
    }
    near
}

// The bonds outside s that are next to a bond of s.
#[tactic(auto, unfolding(crate::specs::Touch::around))]
pub fn around(touch: &[u64; 64], s: u64) -> u64
    ensures { result ≡ around (λ (i : ℕ). get_or touch.now i 0) s }
{
    bitset::difference(next_to(touch, s), s)
}

// One round: part, and every bond of s next to it, found from part as it is before the round. Only the bonds of last are looked at: the
// bonds of s next to the others are in part already.
fn grow_round(touch: &[u64; 64], s: u64, part: u64, last: u64) -> u64
    requires { Frontier (λ (i : ℕ). get_or touch.now i 0) s part last }
    ensures { result ≡ grow_round (λ (i : ℕ). get_or touch.now i 0) s part }
{
    bitset::union(part, bitset::common(s, next_to(touch, last)))
}

// c with the bonds of s that are reached from it, by steps to a bond next to the one before. touch[i] has the bonds next to bond i.
// It grows by rounds, until one adds nothing or nothing is left to add.
pub fn reach(touch: &[u64; 64], s: u64, c: u64) -> u64
    ensures { result ≡ reach (λ (i : ℕ). get_or touch.now i 0) s c }
{
    let mut part = c;
    let mut last = c;
    // A while: how many rounds it takes shows only as it goes.
    while last != 0 {
        let next = grow_round(touch, s, part, last);
        if next == s {
            return next;
        }
        last = bitset::difference(next, part);
        part = next;
    }
    part
}

// The component of s that bond b is in.
pub fn component(touch: &[u64; 64], s: u64, b: u32) -> u64
    requires { b < 64 }
    ensures { result ≡ reach (λ (i : ℕ). get_or touch.now i 0) s (2 ^ b) }
{
    reach(touch, s, bitset::single(b))
}

// Whether s is connected: not empty, and one component.
#[tactic(auto, using(std::proofs::lemmas::Bool::Decides::nat_tests), unfolding(crate::specs::Touch::is_part))]
pub fn is_connected(touch: &[u64; 64], s: u64) -> bool
    ensures { result ≡ is_part (λ (i : ℕ). get_or touch.now i 0) s }
{
    if s == 0 {
        return false;
    }
    component(touch, s, bitset::lowest(s)) == s
}
