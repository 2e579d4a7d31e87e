// The candidates of one size, in order found, each once. Regions of p words: 0 the nodes, 1 the candidates, 2 for each candidate 1 more than the
// index of the one before it in its bucket, 3 for each bucket 1 more than that of its last, 0 for none. The table is words that C lends: a link in it is
// a number. parts and p stay two parameters: a struct that holds the lent words owes in each contract a clause that it is the same loan.
// touch stays words: a Molecule would ask more of callers, since what is promised holds of any words.
ghost use Rattle.std.specs.Prelude.{◌≡◌, List, [], ℕ, ◌*◌, ◌≤◌, ◌<◌, length, get_or, eqb};
ghost use Rattle.std.proofs.Math.Seq.{slice};
ghost use Rattle.molecule.specs.Lists.{any};
ghost use Rattle.matches.specs.Table.{note};
ghost use Rattle.enumerate.specs.Inner.Bucketed.{bucket_of, Bucketed, Filled, Spared, Collected, grown, grown_by};

// The bucket of x.
#[tactic(auto, unfolding(crate::specs::Inner::Bucketed::bucket_of))]
fn bucket(x: u64, p: usize) -> usize
    requires { 0 < p }
    ensures { (result ≡ bucket_of x p) × (result < p) }
{
    (x % 4_294_967_291 * 2_654_435_761 / 4_294_967_296 % p as u64) as usize
}

// Whether x is among them.
fn known(parts: &[u64], p: usize, x: u64) -> bool
    requires { (l : List ℕ) × Bucketed parts.now p l }
    ensures { (l : List ℕ) → Bucketed parts.now p l → result ≡ any (eqb x) l }
{
    let mut k = parts[3 * p + bucket(x, p)];
    // A while: it follows the chain of the bucket, and an iterator for it would state the chain a second time, for this one loop.
    while k != 0 {
        let i = (k - 1) as usize;
        if parts[p + i] == x {
            return true;
        }
        k = parts[2 * p + i];
    }
    false
}

// Adds x, unless it is there. The answer is how many there are then, None where there is no room.
fn note(parts: &mut [u64], p: usize, count: usize, x: u64) -> Option<usize>
    requires { Filled parts.old p count }
    ensures { Spared parts.old parts.new p
        × ((l : List ℕ) → Bucketed parts.old p l → length l ≡ count → Collected parts.new p (note l x) result) }
{
    if known(parts, p, x) {
        return Some(count);
    }
    if p <= count {
        return None;
    }
    let h = bucket(x, p);
    let last = parts[3 * p + h];
    parts[p + count] = x;
    parts[2 * p + count] = last;
    parts[3 * p + h] = count as u64 + 1;
    Some(count + 1)
}

// A parent extended by each touching bond, ascending. The answer is how many there are then, None where there is no room.
pub fn extend(
    touch: &[u64; 64],
    parts: &mut [u64],
    p: usize,
    count: usize,
    parent: u64,
) -> Option<usize>
    requires { Filled parts.old p count }
    ensures { Spared parts.old parts.new p
        × ((l : List ℕ) → Bucketed parts.old p l → length l ≡ count
        → Collected parts.new p (grown (λ (i : ℕ). get_or touch.now i 0) l parent) result) }
{
    let mut k = count;
    for b in bitset::ascending(molecule::graph::around(touch, parent)) {
        k = note(parts, p, k, bitset::insert(parent, b))?;
    }
    Some(k)
}

// The candidates that the nodes from .. to give as parents. The answer is how many there are, None where there is no room.
pub fn candidates(
    touch: &[u64; 64],
    parts: &mut [u64],
    p: usize,
    from: usize,
    to: usize,
) -> Option<usize>
    requires { (0 < p) × (4 * p ≤ length parts.old) × (from ≤ to) × (to ≤ p) }
    ensures { Spared parts.old parts.new p
        × Collected parts.new p (grown_by (λ (i : ℕ). get_or touch.now i 0) [] (slice from to parts.old)) result }
{
    clear::zero_part(parts, 3 * p, 4 * p);
    let mut count = 0;
    for x in from..to {
        let parent = parts[x];
        count = extend(touch, parts, p, count, parent)?;
    }
    Some(count)
}
