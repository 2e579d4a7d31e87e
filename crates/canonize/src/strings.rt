// Strings in slots of the slate: their lengths, their order, and collapsing them.
// They take the slate's bytes and not a Slate: their contracts say which bytes are written at which place, and a Slate is seen as its kept label alone.
// A place goes beside the bytes, and the next place is the answer: a struct that holds lent bytes owes in each contract a clause that it is the same loan.
ghost use Rattle.std.specs.Prelude.{◌≡◌, [], ◌∷◌, map, ◌+◌, ◌*◌, ◌≤◌, ◌<◌, length, take, drop};
ghost use Rattle.bitset.specs.Bits.{members};
ghost use Rattle.canonize.specs.Strings.{lex_le, wrap, sort, join, collapse};
ghost use Rattle.canonize.specs.Label.{own};
ghost use Rattle.canonize.specs.Inner.Slate.{slot_length, slot, Slots};
ghost use Rattle.canonize.specs.Inner.Places.{Wrote, NoneShared, FreeSlot, SlotIs, Least, After};

use crate::compare;

// The place at which the string of slot i starts.
pub fn start(i: usize) -> usize
    requires { i < 66 }
    ensures { result ≡ 456 * i + 2 }
{
    456 * i + 2
}

// How long the string of slot i is. By * and +: from_le_bytes would want the two bytes in an array first, and answers a u16.
#[tactic(auto, unfolding(crate::specs::Inner::Slate::slot_length))]
pub fn slot_length(slate: &[u8], i: usize) -> usize
    requires { Slots slate.now × (i < 66) }
    ensures { (result ≡ slot_length slate.now i) × (result ≤ 454) }
{
    let low = usize::from(slate[456 * i]);
    let high = usize::from(slate[456 * i + 1]);
    low + 256 * high
}

// The string of slot i.
#[tactic(auto, unfolding(crate::specs::Inner::Slate::slot))]
pub fn string(slate: &[u8], i: usize) -> &[u8]
    requires { Slots slate.now × (i < 66) }
    ensures { result.now ≡ slot slate.now i }
{
    let from = start(i);
    &slate[from..from + slot_length(slate, i)]
}

// The n bytes that stand in slot i become its string. By % and /: to_le_bytes would want n as a u16 first, and a slice of two bytes to copy into.
pub fn set_length(slate: &mut [u8], i: usize, n: usize)
    requires { Slots slate.old × (i < 66) × (n ≤ 454) }
    ensures { SlotIs slate.old i (take n (drop (456 * i + 2) slate.old)) slate.new }
{
    slate[456 * i] = (n % 256) as u8;
    slate[456 * i + 1] = (n / 256) as u8;
}

// Puts x at the front of out. One call of the library, by a name that the laws of strings at places speak of.
#[tactic(auto, unfolding(crate::specs::Inner::Places::written))]
pub fn put(out: &mut [u8], x: &[u8])
    requires { length x.now ≤ length out.old }
    ensures { Wrote out.old 0 x.now (length x.now) out.new }
{
    out[..x.len()].copy_from_slice(x);
}

// Puts n bytes, wrapped.
pub fn put_wrapped(slate: &mut [u8], from: usize, n: usize, place: usize) -> usize
    requires { NoneShared from n place (n + 2) × (from + n ≤ length slate.old) × (place + (n + 2) ≤ length slate.old) }
    ensures { Wrote slate.old place (wrap (take n (drop from slate.old))) result slate.new }
{
    let end = place + 1 + n;
    slate[place] = 0;
    slate.copy_within(from..from + n, place + 1);
    slate[end] = 255;
    end + 1
}

// Puts the string of slot i, wrapped.
#[tactic(auto, using(crate::proofs::Wrapping::length_wrap, crate::proofs::Slots::slot_length_lem), unfolding(crate::specs::Inner::Slate::slot))]
fn put_slot(slate: &mut [u8], i: u32, place: usize) -> usize
    requires { Slots slate.old × (i < 64) × NoneShared (456 * i) 456 place (length (wrap (slot slate.old i)))
        × (place + length (wrap (slot slate.old i)) ≤ length slate.old) }
    ensures { Wrote slate.old place (wrap (slot slate.old i)) result slate.new }
{
    let k = i as usize;
    let n = slot_length(slate, k);
    put_wrapped(slate, start(k), n, place)
}

// Whether the string of slot i comes before that of slot j, or is equal to it.
fn slot_before(slate: &[u8], i: usize, j: usize) -> bool
    requires { Slots slate.now × (i < 66) × (j < 66) }
    ensures { result ≡ lex_le (slot slate.now i) (slot slate.now j) }
{
    compare::less_or_equal(string(slate, i), string(slate, j))
}

// The slot of the set whose string comes before all the others' or is equal to them.
fn least(slate: &[u8], set: u64) -> u32
    requires { Slots slate.now × (0 < set) }
    ensures { Least (slot slate.now) set result }
{
    let mut best = bitset::lowest(set);
    for i in bitset::ascending(bitset::without_lowest(set)) {
        if !slot_before(slate, best as usize, i as usize) {
            best = i;
        }
    }
    best
}

// Puts the strings of the slots of the set, sorted, each wrapped.
fn put_sorted(slate: &mut [u8], set: u64, place: usize) -> usize
    requires { Slots slate.old × FreeSlot set place (length (join (sort (map (slot slate.old) (members set))))) }
    ensures { Wrote slate.old place (join (sort (map (slot slate.old) (members set)))) result slate.new }
{
    let mut next = place;
    let mut rest = set;
    // A while: it takes the least string's slot and not the lowest.
    while rest != 0 {
        let i = least(slate, rest);
        next = put_slot(slate, i, next);
        rest = bitset::difference(rest, bitset::single(i));
    }
    next
}

// What kind of atom it is: its element code and its class, of which its own string is made.
#[derive(Clone, Copy)]
pub struct Kind {
    pub element: u8,
    pub class: u8,
}

// Whether the one byte e comes before the string of slot i, or is equal to it.
#[tactic(auto, using(crate::proofs::Sorting::byte_first, crate::proofs::Sorting::byte_none))]
fn byte_before(slate: &[u8], e: u8, i: u32) -> bool
    requires { Slots slate.now × (i < 64) }
    ensures { result ≡ lex_le (e ∷ []) (slot slate.now i) }
{
    let x = string(slate, i as usize);
    !x.is_empty() && e <= x[0]
}

// Whether the own string of an atom comes before the string of slot i, or is equal to it.
fn own_before(slate: &[u8], kind: Kind, i: u32) -> bool
    requires { Slots slate.now × (i < 64) }
    ensures { result ≡ lex_le (own kind.element kind.class) (slot slate.now i) }
{
    if kind.class == 1 {
        return byte_before(slate, kind.element, i);
    }
    compare::less_or_equal(&[kind.element, kind.class], string(slate, i as usize))
}

// The slots of the set whose strings the own string of an atom comes before, or is equal to.
fn after_own(slate: &[u8], set: u64, kind: Kind) -> u64
    requires { Slots slate.now }
    ensures { After (slot slate.now) set (own kind.element kind.class) result }
{
    let mut after = 0;
    for i in bitset::ascending(set) {
        if own_before(slate, kind, i) {
            after = bitset::insert(after, i);
        }
    }
    after
}

// Puts the own string of an atom, wrapped.
fn put_own(slate: &mut [u8], kind: Kind, place: usize) -> usize
    requires { place + (length (own kind.element kind.class) + 2) ≤ length slate.old }
    ensures { Wrote slate.old place (wrap (own kind.element kind.class)) result slate.new }
{
    slate[place] = 0;
    slate[place + 1] = kind.element;
    if kind.class == 1 {
        slate[place + 2] = 255;
        place + 3
    } else {
        slate[place + 2] = kind.class;
        slate[place + 3] = 255;
        place + 4
    }
}

// Puts the collapsed strings of an atom: its own, and the strings of the slots of the set.
pub fn put_collapsed(slate: &mut [u8], set: u64, kind: Kind, place: usize) -> usize
    requires { Slots slate.old × FreeSlot set place (length (collapse (own kind.element kind.class ∷ map (slot slate.old) (members set)))) }
    ensures { Wrote slate.old place (collapse (own kind.element kind.class ∷ map (slot slate.old) (members set))) result slate.new }
{
    if set == 0 {
        return put_own(slate, kind, place);
    }
    let after = after_own(slate, set, kind);
    let middle = put_sorted(slate, bitset::difference(set, after), place);
    let last = put_own(slate, kind, middle);
    put_sorted(slate, after, last)
}
