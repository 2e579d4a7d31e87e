#![tactic(auto)]
// The desk: for a set of bonds the hash of its label and a set that stands for it, kept in lent words so that labels are not computed again.
// Numbers turn by `as`, shown to lose nothing: usize has no From, and a TryFrom would answer an error that never is.
ghost use Rattle.std.specs.Prelude.{◌≡◌, ◌<◌};
ghost use Rattle.canonize.specs.Label.{label};
ghost use Rattle.canonize.specs.Strings.{same, hash};
ghost use Rattle.canonize.specs.Inner.Slate.{Fragment};
ghost use Rattle.desk.specs.Inner.Cached.{Stands, Cached};

use canonize::Slate;
use molecule::Molecule;

// The desk is words that C lends, 0 for none, and goes as a slice beside the slate: a struct that holds lent words owes in each contract a clause that
// it is the same loan. A set stays a word, as slate.rt of `canonize` says.

// The hash of a set's label, and a set that stands for it.
#[derive(Clone, Copy, Debug, PartialEq, Eq)]
pub struct Known {
    pub hash: u64,
    pub set: u64,
}

// The slot of x: modulo a prime that spreads the sets of a chain. A twin of `place` in form alone: here a prime for sets, there how many words are for
// hashes.
fn slot(x: u64) -> usize
    ensures { result < 1024 }
{
    (x % 971) as usize
}

// The word of a hash, after the slots.
fn place(h: u64) -> usize
    ensures { result < 1024 }
{
    (h % 1_024) as usize
}

// Whether x and y have one label.
pub fn equal_labels(molecule: &Molecule, x: u64, y: u64, slate: &mut Slate) -> bool
    requires { Fragment molecule.now.bytes.now x × Fragment molecule.now.bytes.now y }
    ensures { result ≡ same (label molecule.now.bytes.now x) (label molecule.now.bytes.now y) }
{
    slate.keep(molecule, x);
    slate.is_kept(molecule, y)
}

// A set that stands for x, whose label is kept and has hash h: the desk's set for h if it has that label, or else x, which the desk then has for h.
fn choose(molecule: &Molecule, x: u64, h: u64, desk: &mut [u64], slate: &mut Slate) -> u64
    requires { Cached molecule.now.bytes.now desk.old × Fragment molecule.now.bytes.now x × (slate.old ≡ label molecule.now.bytes.now x) }
    ensures stands { Stands molecule.now.bytes.now x result }
    ensures cached { Cached molecule.now.bytes.now desk.new }
{
    let k = 3_072 + place(h);
    let y = desk[k];
    if y == 0 {
        desk[k] = x;
        return x;
    }
    if slate.is_kept(molecule, y) {
        return y;
    }
    desk[k] = x;
    x
}

// What is known of x, with its label computed.
fn learn(molecule: &Molecule, x: u64, desk: &mut [u64], slate: &mut Slate) -> Known
    requires { Cached molecule.now.bytes.now desk.old × Fragment molecule.now.bytes.now x }
    ensures known { (result.hash ≡ hash (label molecule.now.bytes.now x)) × Stands molecule.now.bytes.now x result.set }
    ensures cached { Cached molecule.now.bytes.now desk.new }
{
    slate.keep(molecule, x);
    let h = slate.hash();
    let y = choose(molecule, x, h, desk, slate);
    Known { hash: h, set: y }
}

// The hash of x's label, and a set that stands for x.
pub fn stands(molecule: &Molecule, x: u64, desk: &mut [u64], slate: &mut Slate) -> Known
    requires { Cached molecule.now.bytes.now desk.old × Fragment molecule.now.bytes.now x }
    ensures known { (result.hash ≡ hash (label molecule.now.bytes.now x)) × Stands molecule.now.bytes.now x result.set }
    ensures cached { Cached molecule.now.bytes.now desk.new }
{
    let i = 3 * slot(x);
    if desk[i] == x {
        return Known {
            hash: desk[i + 1],
            set: desk[i + 2],
        };
    }
    let known = learn(molecule, x, desk, slate);
    desk[i] = x;
    desk[i + 1] = known.hash;
    desk[i + 2] = known.set;
    known
}
