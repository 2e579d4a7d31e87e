// A slate, on which labels of fragments are written: one is kept, and others are compared with it.
// A fragment stays a u64: sets come out of lent words, and a struct for one would be made and opened at each call.
// A slot stays a number: those of bonds come out of a set, and 64 and 65 are two more in the same bytes, the label kept and the one compared with it.
ghost use Rattle.std.specs.Prelude.{◌≡◌, not, ◌≤◌, ◌<◌, length};
ghost use Rattle.canonize.specs.Strings.{lex_le, same, hash};
ghost use Rattle.canonize.specs.Label.{label};
ghost use Rattle.canonize.specs.Inner.Slate.{slot, Slots, Fragment};
ghost use Rattle.canonize.specs.Inner.Places.{LabelAt};

use crate::{compare, peel, strings};
use molecule::Molecule;
use std::marker::Model;

// A slate, seen as the label that it keeps: 66 slots of 456 bytes, any that are `Slots`. The struct is made once and lent, and never copied. The slots
// are one array, and no array of arrays: a string goes from slot to slot by copy_within, which works inside one slice.
#[derive(Drop)]
pub struct Slate {
    pub bytes: [u8; 30096],
}

impl Model for Slate {
    ghost use Rattle.std.specs.Prelude.{List, ℕ};
    ghost use Rattle.canonize.specs.Inner.Slate.{kept, Slots};

    ghost Value = { List ℕ };

    ghost view = { λ s. kept s.bytes };

    ghost invariant = { λ s. Slots s.bytes };
}

// The label of x becomes the string of slot k, and no other slot from 64 on changes.
fn label_into(molecule: &Molecule, x: u64, slate: &mut [u8], k: usize)
    requires { Fragment molecule.now.bytes.now x × Slots slate.old × (64 ≤ k) × (k < 66) }
    ensures { LabelAt slate.old k (label molecule.now.bytes.now x) slate.new }
{
    let mut left = x;
    let mut centre = 0;
    // A while: it peels to a bond or an atom, in as many rounds as that takes.
    while 1 < bitset::size(left) {
        let taken = peel::round(molecule, x, left, slate);
        centre = peel::far_end(molecule, left, bitset::lowest(left));
        left = bitset::difference(left, taken);
    }
    if left == 0 {
        peel::put_centre(molecule, x, left, centre, slate, k);
    } else {
        peel::put_centres(molecule, x, left, bitset::lowest(left), slate, k);
    }
}

impl Slate {
    // A slate that keeps nothing yet.
    #[tactic(auto, using(crate::proofs::Slots::slots_blank))]
    pub fn new() -> Slate {
        Slate {
            bytes: [0u8; 30096],
        }
    }

    // The label of x is kept.
    #[tactic(auto, unfolding(crate::specs::Inner::Slate::kept))]
    pub fn keep(&mut self, molecule: &Molecule, x: u64)
        requires { Fragment molecule.now.bytes.now x }
        ensures { self.new ≡ label molecule.now.bytes.now x }
    {
        label_into(molecule, x, &mut self.bytes, 64);
    }

    // Whether the label of x is the one that is kept.
    #[tactic(auto, unfolding(crate::specs::Inner::Slate::kept))]
    pub fn is_kept(&mut self, molecule: &Molecule, x: u64) -> bool
        requires { Fragment molecule.now.bytes.now x }
        ensures answer { result ≡ same self.old (label molecule.now.bytes.now x) }
        ensures keeps { self.new ≡ self.old }
    {
        label_into(molecule, x, &mut self.bytes, 65);
        compare::equal(self.label(), strings::string(&self.bytes, 65))
    }

    // Whether the label of x comes before the one that is kept.
    #[tactic(auto, unfolding(crate::specs::Inner::Slate::kept))]
    pub fn is_before(&mut self, molecule: &Molecule, x: u64) -> bool
        requires { Fragment molecule.now.bytes.now x }
        ensures answer { result ≡ not (lex_le self.old (label molecule.now.bytes.now x)) }
        ensures keeps { self.new ≡ self.old }
    {
        label_into(molecule, x, &mut self.bytes, 65);
        !compare::less_or_equal(self.label(), strings::string(&self.bytes, 65))
    }

    // The label that is kept.
    pub fn label(&self) -> &[u8]
        ensures { (result.now ≡ self.now) × (length result.now ≤ 454) }
    {
        strings::string(&self.bytes, 64)
    }

    // The hash of the label that is kept.
    pub fn hash(&self) -> u64
        ensures { result ≡ hash self.now }
    {
        compare::hash(self.label())
    }

    // A number below m that depends on all bytes of the label that is kept, and takes little time.
    pub fn spread(&self, m: usize) -> usize
        requires { 0 < m }
        ensures { result < m }
    {
        let mut h: u64 = 0;
        for b in self.label() {
            h = (h + u64::from(*b)) * 10_000_019 % 1_099_511_627_776;
        }
        (h / 65_536) as usize % m
    }
}
