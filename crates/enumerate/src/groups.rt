// The candidates grouped by label, groups ascending, members in order found. Regions of p words: 4 for each group the index of its first member, 5 for each
// candidate 1 more than the index of the next member of its group, 0 for none, 6 for each first member the index of its group's last member,
// 9 to 11 hints: at the place of a label 1 more than the index of the first member of a group that may have that label, 0 for none.
// Links are numbers, and parts and p two parameters, as found.rt says. The molecule and the slate stay two parameters: a struct that holds both holds
// the slate's loan, and owes in each contract a clause that it is the same one.
ghost use Rattle.std.specs.Prelude.{◌≡◌, IfSome, List, ℕ, ◌+◌, ◌*◌, ◌≤◌, ◌<◌, length, get_or};
ghost use Rattle.matches.specs.Table.{Group, groups};
ghost use Rattle.enumerate.specs.Inner.Grouped.{Grouped, Groupable, Around, Outside, key_at, Firsts, Position, GroupOpened, joined};
ghost use Rattle.enumerate.specs.Inner.Grouped.{Hints, Hinted, HintLeads, Moved, Placing, GroupPlaced};

use canonize::Slate;
use molecule::Molecule;

// The first of the g groups whose label does not come before the one that is kept, g where there is none: where a new group goes, as partition_point
// answers.
fn position(molecule: &Molecule, parts: &[u64], p: usize, g: usize, slate: &mut Slate) -> usize
    requires { Firsts molecule.now.bytes.now parts.now p g }
    ensures position { Position (key_at molecule.now.bytes.now parts.now p) g slate.old result }
    ensures keeps { slate.new ≡ slate.old }
{
    let mut low = 0;
    let mut high = g;
    // A while: partition_point asks for a test that may be called at any number, and this one may be called at the numbers of candidates only.
    while low < high {
        let middle = low + (high - low) / 2;
        let i = parts[4 * p + middle] as usize;
        if slate.is_before(molecule, parts[p + i]) {
            low = middle + 1;
        } else {
            high = middle;
        }
    }
    low
}

// Makes candidate i the first member of a new group at place k of g.
fn open(parts: &mut [u64], p: usize, g: usize, k: usize, i: usize)
    requires { (7 * p ≤ length parts.old) × (g < p) × (k ≤ g) × (i < p) }
    ensures { GroupOpened parts.old parts.new p g k i }
{
    parts.copy_within(4 * p + k..4 * p + g, 4 * p + k + 1);
    parts[4 * p + k] = i as u64;
    parts[5 * p + i] = 0;
    parts[6 * p + i] = i as u64;
}

// Puts candidate i at the end of the group whose first member is f.
fn join(parts: &mut [u64], p: usize, f: usize, i: usize)
    requires { (7 * p ≤ length parts.old) × (f < p) × (i < p) × (get_or parts.old (6 * p + f) 0 < p) }
    ensures { parts.new ≡ joined parts.old p f i }
{
    let last = parts[6 * p + f] as usize;
    parts[5 * p + last] = i as u64 + 1;
    parts[5 * p + i] = 0;
    parts[6 * p + f] = i as u64;
}

// Candidate i, whose label is kept, goes to its group, which is sought by order. The answer is how many groups there are then.
fn place_by_order(
    molecule: &Molecule,
    parts: &mut [u64],
    p: usize,
    g: usize,
    i: usize,
    slate: &mut Slate,
) -> usize
    requires { (l : List ℕ) × (gs : List Group) × Placing molecule.now.bytes.now parts.old p l i gs g slate.old }
    ensures { Outside parts.old parts.new p × Moved parts.old parts.new p g result i
        × ((l : List ℕ) (gs : List Group) → Placing molecule.now.bytes.now parts.old p l i gs g slate.old
        → GroupPlaced molecule.now.bytes.now parts.new p l i gs result slate.old) }
{
    let k = position(molecule, parts, p, g, slate);
    if k < g {
        let f = parts[4 * p + k] as usize;
        if slate.is_kept(molecule, parts[p + f]) {
            join(parts, p, f, i);
            return g;
        }
    }
    open(parts, p, g, k, i);
    g + 1
}

// The first member of the group that hint j leads to, where its label is the one that is kept.
fn leads_to(
    molecule: &Molecule,
    parts: &[u64],
    p: usize,
    j: usize,
    slate: &mut Slate,
) -> Option<usize>
    requires { Hinted molecule.now.bytes.now parts.now p j }
    ensures leads { IfSome result (λ f. HintLeads molecule.now.bytes.now parts.now p j f slate.old) }
    ensures keeps { slate.new ≡ slate.old }
{
    let f = (parts[9 * p + j] as usize).checked_sub(1)?;
    slate.is_kept(molecule, parts[p + f]).then_some(f)
}

// Candidate i, whose label is kept, goes to its group, by the hint where that leads there. The answer is how many groups there are then.
fn place(
    molecule: &Molecule,
    parts: &mut [u64],
    p: usize,
    m: usize,
    g: usize,
    i: usize,
    slate: &mut Slate,
) -> usize
    requires { ((l : List ℕ) × (gs : List Group) × Placing molecule.now.bytes.now parts.old p l i gs g slate.old)
        × (0 < m) × (m ≤ 3 * p) × Hints parts.old p g m }
    ensures { Around parts.old parts.new p × Hints parts.new p result m
        × ((l : List ℕ) (gs : List Group) → Placing molecule.now.bytes.now parts.old p l i gs g slate.old
        → GroupPlaced molecule.now.bytes.now parts.new p l i gs result slate.old) }
{
    let j = slate.spread(m);
    if let Some(f) = leads_to(molecule, parts, p, j, slate) {
        join(parts, p, f, i);
        return g;
    }
    let n = place_by_order(molecule, parts, p, g, i, slate);
    if n == g {
        return n;
    }
    parts[9 * p + j] = i as u64 + 1;
    n
}

// All candidates, so many, are grouped. The answer is how many groups there are.
pub fn group(
    molecule: &Molecule,
    parts: &mut [u64],
    p: usize,
    count: usize,
    slate: &mut Slate,
) -> usize
    requires { (l : List ℕ) × Groupable molecule.now.bytes.now parts.old p l × (length l ≡ count) }
    ensures { Around parts.old parts.new p
        × ((l : List ℕ) → Groupable molecule.now.bytes.now parts.old p l → length l ≡ count
        → (result ≡ length (groups molecule.now.bytes.now l)) × Grouped molecule.now.bytes.now parts.new p l count (groups molecule.now.bytes.now l)) }
{
    let m = 3 * count;
    clear::zero_part(parts, 9 * p, 9 * p + m);
    let mut g = 0;
    for i in 0..count {
        slate.keep(molecule, parts[p + i]);
        g = place(molecule, parts, p, m, g, i, slate);
    }
    g
}
