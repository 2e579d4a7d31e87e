#![tactic(auto)]
// Molecules without rings, one or a mixture of several: the record of document 01 with the class bytes of document 02, check, and the graph
// of a record's bonds.
ghost use Rattle.std.specs.Prelude.{◌≡◌, ℕ, OnOk, OnErr};
ghost use Rattle.molecule.specs.Tree.{RightCounts};
ghost use Rattle.molecule.specs.Check.{check};
ghost use Rattle.molecule.specs.Verdict.{answer_of};

pub mod fields;
pub mod graph;
mod rows;
mod tree;

pub use tree::Molecule;

// Why something is turned back, in document 01's terms.
pub trait Refusal: Copy {
    ghost number_of: { Self → ℕ };

    ghost place_of: { Self → ℕ };

    // The number of the row.
    fn number(self) -> u32
        ensures { result ≡ number_of self };

    // The place in it.
    fn place(self) -> u64
        ensures { result ≡ place_of self };
}

// Why a record is turned back: rows 1 to 6 of document 01 and row 15 of document 02, each with its place.
#[derive(Clone, Copy, Debug, PartialEq, Eq)]
pub enum Fault {
    Length(usize),
    Counts,
    Element(usize),
    Class(usize),
    Code(usize),
    Ends(usize),
    Ring(usize),
}

impl Refusal for Fault {
    ghost use Rattle.molecule.specs.Verdict as verdict;

    ghost number_of = { verdict.number_of };

    ghost place_of = { verdict.place_of };

    fn number(self) -> u32 {
        match self {
            Fault::Length(_) => 1,
            Fault::Counts => 2,
            Fault::Element(_) => 3,
            Fault::Class(_) => 15,
            Fault::Code(_) => 4,
            Fault::Ends(_) => 5,
            Fault::Ring(_) => 6,
        }
    }

    fn place(self) -> u64 {
        match self {
            Fault::Counts => 0,
            Fault::Length(p)
            | Fault::Element(p)
            | Fault::Class(p)
            | Fault::Code(p)
            | Fault::Ends(p)
            | Fault::Ring(p) => p as u64,
        }
    }
}

// Rows 1 and 2: the length and the counts.
fn check_counts(bytes: &[u8]) -> Result<(), Fault>
    ensures ok { OnOk result (RightCounts bytes.now) }
    ensures err { OnErr result (answer_of result ≡ check bytes.now) }
{
    let length = bytes.len();
    if length < 2 {
        return Err(Fault::Length(length));
    }
    let a = fields::atoms(bytes);
    let n = fields::bonds(bytes);
    if length != 2 + 2 * a + 3 * n {
        return Err(Fault::Length(length));
    }
    if 64 < n || a <= n || n + 8 < a {
        return Err(Fault::Counts);
    }
    Ok(())
}

// Whether the bytes are a record that is answered: the first of rows 1, 2, 3, 15, 4, 5 and 6 whose condition holds, or accepted.
pub fn check(bytes: &[u8]) -> Result<(), Fault>
    ensures { answer_of result ≡ check bytes.now }
{
    check_counts(bytes)?;
    if let Some(v) = rows::first_bad_element(bytes) {
        return Err(Fault::Element(v));
    }
    if let Some(v) = rows::first_bad_class(bytes) {
        return Err(Fault::Class(v));
    }
    if let Some(i) = rows::first_bad_code(bytes) {
        return Err(Fault::Code(i));
    }
    if let Some(i) = rows::first_bad_ends(bytes) {
        return Err(Fault::Ends(i));
    }
    if let Some(i) = rows::first_ring(bytes) {
        return Err(Fault::Ring(i));
    }
    Ok(())
}
