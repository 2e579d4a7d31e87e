// Pairs of a group of candidates are tried in order, and members become nodes when first matched. Regions of p words as in specs/Inner/Noded.antt.
// start is of a group and done of the whole table, so they stay two parameters.
ghost use Rattle.std.specs.Prelude.{List, ℕ, ◌+◌, get_or};
ghost use Rattle.molecule.specs.Lists.{fold};
ghost use Rattle.matches.specs.Table.{Group, note};
ghost use Rattle.tabulate.specs.Inner.Noded.{both_noted, apart, pairs_with, disjoint_pairs, nodes_after};
ghost use Rattle.tabulate.specs.Inner.Noded.{Beside, Named, PairsMade, Naming, Meeting, ToMeet, Pairing, Groups, Grown};

// How many nodes there are, and how many matches.
#[derive(Clone, Copy, Debug, PartialEq, Eq)]
pub struct Done {
    pub nodes: usize,
    pub matches: u64,
}

// Candidate i becomes a node, unless it is one, of a group whose first node is start. The answer is how many nodes there are then, None where
// there is no room.
fn name(parts: &mut [u64], p: usize, i: usize, start: usize, count: usize) -> Option<usize>
    requires { (l : List ℕ) × (nodes : List ℕ) × Naming parts.old p l nodes i count }
    ensures { Beside parts.old parts.new p count × ((l nodes : List ℕ)
        → Naming parts.old p l nodes i count → Named parts.new p l (note nodes (get_or l i 0)) start count result) }
{
    if parts[7 * p + i] != 0 {
        return Some(count);
    }
    if p <= count {
        return None;
    }
    let x = parts[p + i];
    parts[count] = x;
    parts[8 * p + count] = start as u64;
    parts[7 * p + i] = 1;
    Some(count + 1)
}

// Candidates i and j meet: where they are disjoint, both become nodes, i before j, and are a match. None where there is no room.
fn meet(parts: &mut [u64], p: usize, i: usize, j: usize, start: usize, done: Done) -> Option<Done>
    requires { (l : List ℕ) × (nodes : List ℕ) × Meeting parts.old p l nodes i j done }
    ensures { Beside parts.old parts.new p done.nodes
        × ((l nodes : List ℕ) → Meeting parts.old p l nodes i j done
        → PairsMade parts.new p l (both_noted (get_or l i 0) nodes (get_or l j 0)) (apart (get_or l i 0) (get_or l j 0)) start done result) }
{
    let x = parts[p + i];
    let y = parts[p + j];
    if bitset::is_disjoint(x, y) {
        let n = name(parts, p, i, start, done.nodes)?;
        let k = name(parts, p, j, start, n)?;
        return Some(Done {
            nodes: k,
            matches: done.matches + 1,
        });
    }
    Some(done)
}

// Candidate i meets each member after it of its group.
fn pair_with(parts: &mut [u64], p: usize, i: usize, start: usize, done: Done) -> Option<Done>
    requires { (l : List ℕ) × (nodes : List ℕ) × (sets : List ℕ) × ToMeet parts.old p l nodes sets i done }
    ensures { Beside parts.old parts.new p done.nodes
        × ((l nodes sets : List ℕ) → ToMeet parts.old p l nodes sets i done
        → PairsMade parts.new p l (fold (both_noted (get_or l i 0)) nodes sets) (pairs_with (get_or l i 0) sets) start done result) }
{
    let mut d = done;
    let mut k = parts[5 * p + i];
    // A while: it follows the chain of the group, through words that the body writes, so no iterator can hold them.
    while k != 0 {
        let j = (k - 1) as usize;
        d = meet(parts, p, i, j, start, d)?;
        k = parts[5 * p + j];
    }
    Some(d)
}

// The group whose first member is candidate first: each member meets those after it. New nodes have the first of them as the first of their group.
fn pair_group(parts: &mut [u64], p: usize, first: usize, done: Done) -> Option<Done>
    requires { (l : List ℕ) × (nodes : List ℕ) × (sets : List ℕ) × Pairing parts.old p l nodes sets first done }
    ensures { Beside parts.old parts.new p done.nodes
        × ((l nodes sets : List ℕ) → Pairing parts.old p l nodes sets first done
        → PairsMade parts.new p l (nodes_after nodes sets) (disjoint_pairs sets) done.nodes done result) }
{
    let mut d = done;
    let mut k = first as u64 + 1;
    // A while: it follows the chain of the group, through words that the body writes, so no iterator can hold them.
    while k != 0 {
        let i = (k - 1) as usize;
        d = pair_with(parts, p, i, done.nodes, d)?;
        k = parts[5 * p + i];
    }
    Some(d)
}

// The groups in order, each from its first member on; count is how many nodes there were. None where there is no room for the nodes.
pub fn pair_groups(parts: &mut [u64], p: usize, groups: usize, count: usize) -> Option<Done>
    requires { (l : List ℕ) × (nodes : List ℕ) × (gs : List Group) × Groups parts.old p l nodes gs groups count }
    ensures { Beside parts.old parts.new p count × ((l nodes : List ℕ) (gs : List Group)
        → Groups parts.old p l nodes gs groups count → Grown parts.new p l nodes gs result) }
{
    let mut d = Done {
        nodes: count,
        matches: 0,
    };
    for g in 0..groups {
        let first = parts[4 * p + g] as usize;
        d = pair_group(parts, p, first, d)?;
    }
    Some(d)
}
