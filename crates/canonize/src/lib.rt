#![tactic(auto)]
// Labels of fragments: two fragments have equal labels exactly when an isomorphism that keeps elements, classes and bonds joins them.
// Numbers turn by `as`, shown to lose nothing: usize has no From, and a TryFrom would answer an error that never is.
ghost use Rattle.std.specs.Prelude.{◌≡◌, not, ◌≤◌, length};
ghost use Rattle.canonize.specs.Label.{label};
ghost use Rattle.canonize.specs.Inner.Slate.{Fragment};
ghost use Rattle.canonize.specs.Inner.Places.{Wrote};
ghost use Rattle.canonize.specs.Answer.{bad_set, label_answer, buffer_after, answer_of};

use molecule::{Fault, Molecule, Refusal, graph};

pub mod compare;
mod peel;
mod slate;
mod strings;

pub use slate::Slate;

// Why a label is not answered: check's rows, the record; 13, the set; 14, the buffer.
#[derive(Clone, Copy, Debug, PartialEq, Eq)]
pub enum LabelRefusal {
    Record(Fault),
    Set,
    Buffer,
}

// By hand: the From that the kit's `thiserror` derives has no contract.
impl From<Fault> for LabelRefusal {
    ghost use Rattle.canonize.specs.declared.LabelRefusal.TheVariants.{Record};

    ghost from_gives = { λ fault refusal. refusal ≡ Record fault };

    fn from(fault: Fault) -> LabelRefusal {
        LabelRefusal::Record(fault)
    }
}

impl Refusal for LabelRefusal {
    ghost use Rattle.canonize.specs.Answer.{refusal_number, refusal_place};

    ghost number_of = { refusal_number };

    ghost place_of = { refusal_place };

    fn number(self) -> u32 {
        match self {
            LabelRefusal::Record(fault) => fault.number(),
            LabelRefusal::Set => 13,
            LabelRefusal::Buffer => 14,
        }
    }

    fn place(self) -> u64 {
        match self {
            LabelRefusal::Record(fault) => fault.place(),
            LabelRefusal::Set | LabelRefusal::Buffer => 0,
        }
    }
}

// Whether the set is a fragment of the molecule: not empty, of its bonds, and connected.
#[tactic(auto, using(molecule::proofs::Accepted::accepted_formed, crate::proofs::Answers::set_empty, crate::proofs::Answers::set_outside))]
fn is_fragment(molecule: &Molecule, set: u64) -> bool
    ensures { result ≡ not (bad_set molecule.now.bytes.now set) }
{
    set != 0
        && bitset::is_subset(set, bitset::first_n(molecule.bonds() as u32))
        && graph::is_connected(&molecule.touch, set)
}

// The label of set goes to the front of out; the answer is its length.
fn label_out(molecule: &Molecule, set: u64, out: &mut [u8]) -> usize
    requires { Fragment molecule.now.bytes.now set × (454 ≤ length out.old) }
    ensures { Wrote out.old 0 (label molecule.now.bytes.now set) result out.new }
{
    let mut slate = Slate::new();
    slate.keep(molecule, set);
    let x = slate.label();
    strings::put(out, x);
    x.len()
}

// label of a molecule.
#[tactic(auto, using(crate::proofs::Answers::good_set))]
fn label_accepted(molecule: &Molecule, set: u64, out: &mut [u8]) -> Result<usize, LabelRefusal>
    ensures answer { answer_of result ≡ label_answer molecule.now.bytes.now set out.old }
    ensures buffer { out.new ≡ buffer_after molecule.now.bytes.now set out.old }
{
    if !is_fragment(molecule, set) {
        return Err(LabelRefusal::Set);
    }
    if out.len() < 454 {
        return Err(LabelRefusal::Buffer);
    }
    Ok(label_out(molecule, set, out))
}

// The label of a set of bonds of a record goes to the front of the buffer: its length.
pub fn label(bytes: &[u8], set: u64, out: &mut [u8]) -> Result<usize, LabelRefusal>
    ensures answer { answer_of result ≡ label_answer bytes.now set out.old }
    ensures buffer { out.new ≡ buffer_after bytes.now set out.old }
{
    let molecule = Molecule::read(bytes)?;
    label_accepted(&molecule, set, out)
}
