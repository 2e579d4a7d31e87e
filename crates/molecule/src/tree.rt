// An accepted record as a molecule, or as the molecules of a mixture.
ghost use Rattle.std.specs.Prelude.{◌≡◌, ◌<◌, IfOk, IfErr};
ghost use Rattle.molecule.specs.Record.{atoms, bonds, element, class, end_a, end_b, code};
ghost use Rattle.molecule.specs.Touch.{bonds_at_words, touching_words};
ghost use Rattle.molecule.specs.Check.{check, accepted, refused};
ghost use Rattle.molecule.specs.Verdict.{number_of, place_of};

use crate::{Fault, fields, graph};

// A record that check accepts, with the bonds at each atom, and for each bond the bonds that touch it.
#[derive(Drop)]
pub struct Molecule<'a> {
    pub bytes: &'a [u8],
    pub at: [u64; 72],
    pub touch: [u64; 64],
    ghost accepted: { check bytes.now ≡ accepted },
    ghost bonds_at: { at ≡ bonds_at_words bytes.now },
    ghost touching: { touch ≡ touching_words bytes.now },
}

impl<'a> Molecule<'a> {
    // The molecule of a record, or why the record is turned back.
    pub fn read(bytes: &'a [u8]) -> Result<Molecule<'a>, Fault>
        ensures ok { IfOk result (λ m. m.bytes.now ≡ bytes.now) }
        ensures err { IfErr result (λ f. check bytes.now ≡ refused (number_of f) (place_of f)) }
    {
        crate::check(bytes)?;
        Ok(Molecule::of(bytes))
    }

    // The molecule of an accepted record.
    pub fn of(bytes: &'a [u8]) -> Molecule<'a>
        requires { check bytes.now ≡ accepted }
        ensures { result.bytes.now ≡ bytes.now }
    {
        let at = graph::bonds_at(bytes);
        let touch = graph::touching_from(bytes, &at);
        Molecule { bytes, at, touch }
    }
}

// The fields again, each by one call: what the functions of fields.rt ask for is known here.
#[tactic(auto, using(crate::proofs::Accepted::accepted_formed))]
impl Molecule<'_> {
    // The number of atoms.
    pub fn atoms(&self) -> usize
        ensures { result ≡ atoms self.now.bytes.now }
    {
        fields::atoms(self.bytes)
    }

    // The number of bonds.
    pub fn bonds(&self) -> usize
        ensures { result ≡ bonds self.now.bytes.now }
    {
        fields::bonds(self.bytes)
    }

    // The element code of atom v.
    pub fn element(&self, v: usize) -> u8
        requires { v < atoms self.now.bytes.now }
        ensures { result ≡ element self.now.bytes.now v }
    {
        fields::element(self.bytes, v)
    }

    // The class of atom v.
    pub fn class(&self, v: usize) -> u8
        requires { v < atoms self.now.bytes.now }
        ensures { result ≡ class self.now.bytes.now v }
    {
        fields::class(self.bytes, v)
    }

    // The two ends of bond i, in the order written.
    pub fn ends(&self, i: usize) -> (usize, usize)
        requires { i < bonds self.now.bytes.now }
        ensures { (result.0 ≡ end_a self.now.bytes.now i) × (result.1 ≡ end_b self.now.bytes.now i) }
    {
        fields::ends(self.bytes, i)
    }

    // The bond code of bond i.
    pub fn code(&self, i: usize) -> u8
        requires { i < bonds self.now.bytes.now }
        ensures { result ≡ code self.now.bytes.now i }
    {
        fields::code(self.bytes, i)
    }
}
