// The table size by size: the single bonds, and one size more. Regions of p words of parts as in specs/Inner of `enumerate` and specs/Inner/Noded.antt.
ghost use Rattle.std.specs.Prelude.{◌≡◌, ℕ, ◌*◌, ◌≤◌, ◌<◌, length};
ghost use Rattle.molecule.specs.Lists.{Bytes};
ghost use Rattle.molecule.specs.Record.{bonds};
ghost use Rattle.tabulate.specs.Inner.Stage.{Stage, Sizing, NextSize};

use crate::nodes;
use crate::nodes::Done;
use canonize::Slate;
use enumerate::{found, groups};
use molecule::Molecule;

// The n single bonds are the nodes, each alone in its group.
pub fn start(parts: &mut [u64], p: usize, n: usize)
    requires { (n ≤ p) × (n ≤ 64) × (12 * p ≤ length parts.old) × (p ≤ 4294967295) }
    ensures { (r : Bytes) → bonds r ≡ n → Stage r parts.new p 0 }
{
    for i in 0..n {
        parts[i] = bitset::single(i as u32);
        parts[8 * p + i] = i as u64;
    }
}

// One size more, with the nodes from .. to as parents. The answer is how many nodes there are then and how many matches it adds, None where there
// is no room.
pub fn size(
    molecule: &Molecule,
    parts: &mut [u64],
    p: usize,
    from: usize,
    to: usize,
    slate: &mut Slate,
) -> Option<Done>
    requires { (k : ℕ) × Sizing molecule.now.bytes.now parts.old p k from to }
    ensures { (k : ℕ) → Sizing molecule.now.bytes.now parts.old p k from to
        → NextSize molecule.now.bytes.now parts.new p k result }
{
    let count = found::candidates(&molecule.touch, parts, p, from, to)?;
    clear::zero_part(parts, 7 * p, 7 * p + count);
    let groups = groups::group(molecule, parts, p, count, slate);
    nodes::pair_groups(parts, p, groups, to)
}
