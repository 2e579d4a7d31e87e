// The scans of rows 3, 15, 4, 5 and 6: each answers the lowest number at fault, where there is one.
// They take the bytes, and a clause that the counts are right, for the reason in fields.rt: check runs them before there is a Molecule.
ghost use Rattle.std.specs.Prelude.{◌≡◌, ◌<◌};
ghost use Rattle.molecule.specs.Record.{atoms, bonds};
ghost use Rattle.molecule.specs.Touch.{bonds_at_words, touching_words};
ghost use Rattle.molecule.specs.Check.{wrong_byte, wrong_code, wrong_ends, bad_element, bad_class, bad_code, bad_ends, closes};
ghost use Rattle.molecule.specs.Inner.Finding.{IsLowest};
ghost use Rattle.molecule.specs.Tree.{RightCounts, Formed};

use crate::{fields, graph};

// An element code that row 3 turns back, or a class that row 15 does.
fn wrong_byte(e: u8) -> bool
    ensures { result ≡ wrong_byte e }
{
    e == 0 || e == 255
}

// A bond code that row 4 turns back.
fn wrong_code(c: u8) -> bool
    ensures { result ≡ wrong_code c }
{
    c == 0 || 3 < c
}

// The ends of a bond, of a atoms, that row 5 turns back.
fn wrong_ends(a: usize, u: usize, v: usize) -> bool
    ensures { result ≡ wrong_ends a u v }
{
    a <= u || a <= v || u == v
}

// Row 3: the lowest atom with a wrong element code.
pub fn first_bad_element(bytes: &[u8]) -> Option<usize>
    requires { RightCounts bytes.now }
    ensures { IsLowest (bad_element bytes.now) (atoms bytes.now) result }
{
    let a = fields::atoms(bytes);
    bytes[2..2 + a].iter().position(|e| wrong_byte(*e))
}

// Row 15: the lowest atom with a wrong class.
pub fn first_bad_class(bytes: &[u8]) -> Option<usize>
    requires { RightCounts bytes.now }
    ensures { IsLowest (bad_class bytes.now) (atoms bytes.now) result }
{
    let a = fields::atoms(bytes);
    let from = 2 + a;
    bytes[from..from + a].iter().position(|c| wrong_byte(*c))
}

// Row 4: the lowest bond with a wrong bond code.
pub fn first_bad_code(bytes: &[u8]) -> Option<usize>
    requires { RightCounts bytes.now }
    ensures { IsLowest (bad_code bytes.now) (bonds bytes.now) result }
{
    let n = fields::bonds(bytes);
    let from = 2 + 2 * fields::atoms(bytes) + 2 * n;
    bytes[from..from + n].iter().position(|c| wrong_code(*c))
}

// Row 5: the lowest bond with wrong ends.
pub fn first_bad_ends(bytes: &[u8]) -> Option<usize>
    requires { RightCounts bytes.now }
    ensures { IsLowest (bad_ends bytes.now) (bonds bytes.now) result }
{
    let a = fields::atoms(bytes);
    (0..fields::bonds(bytes)).find(|i| {
        let (u, v) = fields::ends(bytes, *i);
        wrong_ends(a, u, v)
    })
}

// Whether bond i closes a ring: of the lower bonds one at its second end is reached from those at its first. Mostly there is none at the second.
fn closes_ring(bytes: &[u8], at: &[u64; 72], touch: &[u64; 64], i: usize) -> bool
    requires { Formed bytes.now × (at.now ≡ bonds_at_words bytes.now) × (touch.now ≡ touching_words bytes.now) × (i < bonds bytes.now) }
    ensures { result ≡ closes bytes.now i }
{
    let (u, v) = fields::ends(bytes, i);
    let lower = bitset::first_n(i as u32);
    let far = bitset::common(lower, at[v]);
    if far == 0 {
        return false;
    }
    let reached = graph::reach(touch, lower, bitset::common(lower, at[u]));
    !bitset::is_disjoint(far, reached)
}

// Row 6: the lowest bond that closes a ring with lower bonds.
pub fn first_ring(bytes: &[u8]) -> Option<usize>
    requires { Formed bytes.now }
    ensures { IsLowest (closes bytes.now) (bonds bytes.now) result }
{
    let at = graph::bonds_at(bytes);
    let touch = graph::touching_from(bytes, &at);
    (0..fields::bonds(bytes)).find(|i| closes_ring(bytes, &at, &touch, *i))
}
