// The match table of a record, size by size, and its matches written down. Regions of parts as in specs/Inner/Noded.antt.
ghost use Rattle.std.specs.Prelude.{◌≡◌, ◌*◌, ◌≤◌, ◌<◌, length};
ghost use Rattle.molecule.specs.Record.{bonds};
ghost use Rattle.matches.specs.Rows.{capacity, parts_room};
ghost use Rattle.tabulate.specs.Built.{build_answer, answer_of};
ghost use Rattle.tabulate.specs.Inner.PairsLeft.{pairs_after};
ghost use Rattle.tabulate.specs.Inner.Walked.{Walked};

use crate::nodes::Done;
use crate::{rounds, table};
use canonize::Slate;
use molecule::{Molecule, Refusal};

// Why a table is not built, rows 9 and 10 of document 01: the size at which parts has no room; or the matches there are, for which pairs has no room.
#[derive(Clone, Copy, Debug, PartialEq, Eq)]
pub enum Full {
    Parts(u64),
    Pairs(u64),
}

impl Refusal for Full {
    ghost use Rattle.tabulate.specs.Built.{full_number, full_place};

    ghost number_of = { full_number };

    ghost place_of = { full_place };

    fn number(self) -> u32 {
        match self {
            Full::Parts(_) => 9,
            Full::Pairs(_) => 10,
        }
    }

    fn place(self) -> u64 {
        match self {
            Full::Parts(size) => size,
            Full::Pairs(matches) => matches,
        }
    }
}

// How many entries of so many words each there is room for, at most 4,294,967,295.
fn room(words: usize, each: usize) -> usize
    requires { 0 < each }
    ensures { result ≡ capacity each words }
{
    (words / each).min(4_294_967_295)
}

// Size by size while there are parents, from the single bonds on. The answer is how many nodes and matches there are, or the size that has no room.
fn walk(molecule: &Molecule, parts: &mut [u64], p: usize) -> Result<Done, u64>
    requires { (bonds molecule.now.bytes.now ≤ p) × (p ≤ 4294967295) × (12 * p ≤ length parts.old) }
    ensures { Walked molecule.now.bytes.now parts.new p result }
{
    rounds::start(parts, p, molecule.bonds());
    let mut slate = Slate::new();
    let mut from = 0;
    let mut to = molecule.bonds();
    let mut size: u64 = 2;
    let mut total: u64 = 0;
    // A while: what a size finds are the parents of the next, until there are none.
    while from < to {
        let done = rounds::size(molecule, parts, p, from, to, &mut slate).ok_or(size)?;
        total += done.matches;
        from = to;
        to = done.nodes;
        size += 1;
    }
    Ok(Done {
        nodes: to,
        matches: total,
    })
}

// The molecule's matches go to the front of pairs: how many there are.
pub fn build(molecule: &Molecule, parts: &mut [u64], pairs: &mut [u64]) -> Result<u64, Full>
    ensures answer { answer_of result ≡ build_answer molecule.now.bytes.now (parts_room (length parts.old)) (length pairs.old) }
    ensures pairs { pairs.new ≡ pairs_after molecule.now.bytes.now (parts_room (length parts.old)) pairs.old }
    ensures parts { length parts.new ≡ length parts.old }
{
    let p = room(parts.len(), 12);
    if p < molecule.bonds() {
        return Err(Full::Parts(1));
    }
    let done = walk(molecule, parts, p).map_err(Full::Parts)?;
    let total = done.matches;
    if (room(pairs.len(), 4) as u64) < total {
        return Err(Full::Pairs(total));
    }
    table::write(parts, p, done.nodes, pairs);
    Ok(total)
}
