// Peeling a fragment by words: the set of the bonds left, and in a slot of its own the string that each bond taken off handed over.
// The slate is lent as its bytes (strings.rt says why). A molecule, a set s and what is left of it stay three arguments: what is
// left is another at each turn. Bonds and atoms stay numbers, with a clause for their range: they come out of sets and ends at each turn.
ghost use Rattle.std.specs.Prelude.{◌≡◌, true, false, MatchOption, [], ◌∷◌, ◌+◌, ◌-◌, ◌^◌, ◌≤◌, ◌<◌, length, take, drop};
ghost use Rattle.bitset.specs.Bits.{bit};
ghost use Rattle.molecule.specs.Record.{atoms, bonds};
ghost use Rattle.molecule.specs.Connected.{Own};
ghost use Rattle.canonize.specs.Strings.{collapse};
ghost use Rattle.canonize.specs.Inner.Slate.{slot, Slots};
ghost use Rattle.canonize.specs.Inner.Places.{Wrote, FreeSlot, SlotIs, LabelAt};
ghost use Rattle.canonize.specs.Inner.Words.{is_tip, has_tip, tip, outer, far, received, strings_at, handed, centres, Fits, Round};

use crate::{compare, strings};
use molecule::Molecule;

// Whether atom v has one bond of left.
#[tactic(auto, using(molecule::proofs::Words::atoms_at), unfolding(crate::specs::Inner::Words::is_tip))]
fn is_tip(molecule: &Molecule, left: u64, v: usize) -> bool
    requires { v < 72 }
    ensures { result ≡ is_tip molecule.now.bytes.now left v }
{
    bitset::size(bitset::common(molecule.at[v], left)) == 1
}

// The end of bond i that is an end atom of left.
#[tactic(auto, using(molecule::proofs::Accepted::accepted_formed), unfolding(crate::specs::Inner::Words::tip))]
fn tip(molecule: &Molecule, left: u64, i: u32) -> Option<usize>
    requires { i < bonds molecule.now.bytes.now }
    ensures { MatchOption result (has_tip molecule.now.bytes.now left i ≡ false)
        (λ v. (has_tip molecule.now.bytes.now left i ≡ true) × (v ≡ tip molecule.now.bytes.now left i)) }
{
    let (u, v) = molecule.ends(i as usize);
    if is_tip(molecule, left, u) {
        Some(u)
    } else if is_tip(molecule, left, v) {
        Some(v)
    } else {
        None
    }
}

// Puts the collapsed strings of atom v.
#[tactic(auto, using(crate::proofs::Putting::at_atom), unfolding(crate::specs::Inner::Words::received, crate::specs::Inner::Words::strings_at))]
fn put_atom(
    molecule: &Molecule,
    s: u64,
    left: u64,
    v: usize,
    slate: &mut [u8],
    place: usize,
) -> usize
    requires { (v < atoms molecule.now.bytes.now) × Slots slate.old
        × FreeSlot (received molecule.now.bytes.now s left v) place (length (collapse (strings_at molecule.now.bytes.now s left (slot slate.old) v))) }
    ensures { Wrote slate.old place (collapse (strings_at molecule.now.bytes.now s left (slot slate.old) v)) result slate.new }
{
    let set = bitset::difference(bitset::common(molecule.at[v], s), left);
    let kind = strings::Kind {
        element: molecule.element(v),
        class: molecule.class(v),
    };
    strings::put_collapsed(slate, set, kind, place)
}

// Bond i of left hands over from its end v: its bond code and the collapsed strings of v become the string of slot i.
#[tactic(auto, using(molecule::proofs::Accepted::accepted_formed))]
fn hand_over(molecule: &Molecule, s: u64, left: u64, i: u32, v: usize, slate: &mut [u8])
    requires { (i < bonds molecule.now.bytes.now) × (v < atoms molecule.now.bytes.now) × Slots slate.old
        × (bit left i ≡ 1) × (length (handed molecule.now.bytes.now s left (slot slate.old) i v) ≤ 454) }
    ensures { SlotIs slate.old i (handed molecule.now.bytes.now s left (slot slate.old) i v) slate.new }
{
    let k = i as usize;
    let start = strings::start(k);
    slate[start] = molecule.code(k);
    let end = put_atom(molecule, s, left, v, slate, start + 1);
    strings::set_length(slate, k, end - start);
}

// A round: the bonds of left that have an end atom hand over, and are the answer.
pub fn round(molecule: &Molecule, s: u64, left: u64, slate: &mut [u8]) -> u64
    requires { Own molecule.now.bytes.now left × Slots slate.old
        × Fits molecule.now.bytes.now s left (slot slate.old) }
    ensures { (result ≡ outer molecule.now.bytes.now left) × Round molecule.now.bytes.now s left slate.old slate.new }
{
    let mut taken = 0;
    for i in bitset::ascending(left) {
        if let Some(v) = tip(molecule, left, i) {
            hand_over(molecule, s, left, i, v, slate);
            taken = bitset::insert(taken, i);
        }
    }
    taken
}

// The other end of bond i, where one of its ends is an end atom of left.
#[tactic(auto, using(molecule::proofs::Accepted::accepted_formed), unfolding(crate::specs::Inner::Words::far))]
pub fn far_end(molecule: &Molecule, left: u64, i: u32) -> usize
    requires { i < bonds molecule.now.bytes.now }
    ensures { result ≡ far molecule.now.bytes.now left i }
{
    let (u, v) = molecule.ends(i as usize);
    if is_tip(molecule, left, u) { v } else { u }
}

// One atom left, v: its collapsed strings become the string of slot k.
pub fn put_centre(molecule: &Molecule, s: u64, left: u64, v: usize, slate: &mut [u8], k: usize)
    requires { (v < atoms molecule.now.bytes.now) × Slots slate.old × (64 ≤ k) × (k < 66)
        × (length (collapse (strings_at molecule.now.bytes.now s left (slot slate.old) v)) ≤ 454) }
    ensures { LabelAt slate.old k (collapse (strings_at molecule.now.bytes.now s left (slot slate.old) v)) slate.new }
{
    let start = strings::start(k);
    let end = put_atom(molecule, s, left, v, slate, start);
    strings::set_length(slate, k, end - start);
}

// Puts two strings, wrapped, the smaller first: the bytes up to middle, and those from there to end.
fn put_two(slate: &mut [u8], from: usize, middle: usize, end: usize, place: usize) -> usize
    requires { (from ≤ middle) × (middle ≤ end) × (end ≤ place) × (place + (end - from + 4) ≤ length slate.old) }
    ensures { Wrote slate.old place
        (collapse (take (middle - from) (drop from slate.old) ∷ take (end - middle) (drop middle slate.old) ∷ [])) result slate.new }
{
    let n = middle - from;
    let m = end - middle;
    if compare::less_or_equal(&slate[from..middle], &slate[middle..end]) {
        let next = strings::put_wrapped(slate, from, n, place);
        strings::put_wrapped(slate, middle, m, next)
    } else {
        let next = strings::put_wrapped(slate, middle, m, place);
        strings::put_wrapped(slate, from, n, next)
    }
}

// Two atoms left, the ends of bond i: its bond code, and their collapsed strings, wrapped, the smaller first, become the string of slot k.
// Those strings are put into the slot of bond i first, which has handed over nothing.
#[tactic(auto, using(molecule::proofs::Accepted::accepted_formed))]
pub fn put_centres(molecule: &Molecule, s: u64, left: u64, i: u32, slate: &mut [u8], k: usize)
    requires { (i < bonds molecule.now.bytes.now) × Slots slate.old × (64 ≤ k) × (k < 66)
        × (bit left i ≡ 1) × (length (centres molecule.now.bytes.now s left (slot slate.old) i) ≤ 454) }
    ensures { LabelAt slate.old k (centres molecule.now.bytes.now s left (slot slate.old) i) slate.new }
{
    let b = i as usize;
    let (u, v) = molecule.ends(b);
    let from = strings::start(b);
    let middle = put_atom(molecule, s, left, u, slate, from);
    let end = put_atom(molecule, s, left, v, slate, middle);
    let start = strings::start(k);
    slate[start] = molecule.code(b);
    let last = put_two(slate, from, middle, end, start + 1);
    strings::set_length(slate, k, last - start);
}
