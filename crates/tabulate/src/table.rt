// The matches, written down in descending order. Regions of p words of parts: 0 the nodes, 8 for each node the number of the first node of its group.
ghost use Rattle.std.specs.Prelude.{◌≡◌, ◌++◌, ◌+◌, ◌*◌, ◌≤◌, ◌<◌, length, drop};
ghost use Rattle.std.proofs.lemmas.List.Edits.{sets};
ghost use Rattle.matches.specs.Inner.Descending.{with_each};
ghost use Rattle.matches.specs.Inner.Written.{four_words, words_of, start_in, below_in, matches_in, StartsBefore};

// Puts the match of sets a and b at place m: both sets, their union and their size. A place is counted in words: rows of four (as_chunks_mut)
// are no plainer, since the clauses are of the lent words, and each would have to turn rows back into words.
fn put(pairs: &mut [u64], m: usize, a: u64, b: u64)
    requires { 4 * m + 4 ≤ length pairs.old }
    ensures { pairs.new ≡ sets pairs.old (4 * m) (four_words a b) }
{
    let words = [a, b, bitset::union(a, b), u64::from(bitset::size(a))];
    pairs[4 * m..4 * m + 4].copy_from_slice(&words);
}

// The matches of node x with the nodes of its group below it, from x - 1 down, go after the first m. The answer is how many there are then.
fn write_node(parts: &[u64], p: usize, x: usize, pairs: &mut [u64], m: usize) -> usize
    requires { (x < p) × (9 * p ≤ length parts.now) × (start_in parts.now p x ≤ x) × (4 * (m + length (below_in parts.now p x)) ≤ length pairs.old) }
    ensures count { result ≡ m + length (below_in parts.now p x) }
    ensures holds { pairs.new ≡ sets pairs.old (4 * m)
        (words_of parts.now (with_each x (below_in parts.now p x))) }
{
    let a = parts[x];
    let start = parts[8 * p + x] as usize;
    let mut k = m;
    for y in (start..x).rev() {
        let b = parts[y];
        if bitset::is_disjoint(a, b) {
            put(pairs, k, a, b);
            k += 1;
        }
    }
    k
}

// All matches of so many nodes. The answer is how many there are.
pub fn write(parts: &[u64], p: usize, count: usize, pairs: &mut [u64]) -> usize
    requires { (count ≤ p) × (9 * p ≤ length parts.now) × StartsBefore parts.now p count
        × (4 * length (matches_in parts.now p count) ≤ length pairs.old) }
    ensures count { result ≡ length (matches_in parts.now p count) }
    ensures holds { pairs.new ≡ words_of parts.now (matches_in parts.now p count) ++ drop (4 * result) pairs.old }
{
    let mut m = 0;
    for x in (0..count).rev() {
        m = write_node(parts, p, x, pairs, m);
    }
    m
}
