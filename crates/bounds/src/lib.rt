#![tactic(auto)]
// The two bounds of the search (src/bounds.rs): J of Int (`int_bound`), and the least size that is tried (`least_size`).
// The contracts are by the definitions of specs/Bounds.antt, and proofs/Bounds.antt has that both are bounds.
// The pieces, the index and the largest size are parameters: the state that has them is of a crate above, and a list of capacity 32 would ask more of
// callers. A size stays a number, and its limits a clause. Masks are lent and only read.
// Numbers turn by `as`, shown to lose nothing: usize has no From, and a TryFrom would answer an error that never is.
ghost use Rattle.std.specs.Prelude.{◌≡◌, ℕ, ◌^◌, ◌≤◌, ◌<◌, length, get_or};
ghost use Rattle.std.specs.Int.{div_ceil};
ghost use Rattle.std.specs.List.{sum_by};
ghost use Rattle.bitset.specs.Bits.{Sub, size};
ghost use Rattle.bounds.specs.Numbers.{ceil_log2};
ghost use Rattle.bounds.specs.Inner.Saving.{usable};
ghost use Rattle.bounds.specs.Bounds.{usable_edges, int_bound, usable_edges_bound, least_size};

// Ceiling log2 of t: how many digits t - 1 has.
pub fn ceil_log2(t: u32) -> u32
    ensures { result ≡ ceil_log2 t }
{
    32 - t.saturating_sub(1).leading_zeros()
}

// ---- J

// The bonds of all pieces.
fn total(pieces: &[u64]) -> u32
    requires { sum_by size pieces.now < 2 ^ 32 }
    ensures { result ≡ sum_by size pieces.now }
{
    pieces.iter().map(|p| bitset::size(*p)).sum()
}

// Each piece's size over t rounded up, summed.
fn ceilings(pieces: &[u64], t: u32) -> u32
    requires { (0 < t) × (sum_by (λ p. div_ceil (size p) t) pieces.now < 2 ^ 32) }
    ensures { result ≡ sum_by (λ p. div_ceil (size p) t) pieces.now }
{
    pieces.iter().map(|p| bitset::size(*p).div_ceil(t)).sum()
}

// J: the largest over t from 2 to largest of all bonds, less ceiling log2 t, less each size over t rounded up.
pub fn int_bound(pieces: &[u64], largest: u32) -> u32
    requires { (length pieces.now ≤ 32) × (largest ≤ 64) }
    ensures { result ≡ int_bound ceil_log2 pieces.now largest }
{
    let all = total(pieces);
    let mut best = 0u32;
    for t in 2..=largest {
        let rest = all.saturating_sub(ceil_log2(t));
        best = best.max(rest.saturating_sub(ceilings(pieces, t)));
    }
    best
}

// ---- the sizes tried

// What a piece can save: total of its bonds are in removable size-2 matches, full of them in removable size-k matches.
#[tactic(auto, using(crate::proofs::Numbers::ceil_is), unfolding(crate::specs::Bounds::usable_edges))]
pub fn usable_edges(k: u32, total: u32, full: u32) -> u32
    requires { (2 ≤ k) × (full ≤ total) }
    ensures { result ≡ usable_edges k total full }
{
    total - full / k - (total - full + full % k).div_ceil(k - 1)
}

// What piece p can save where size k is removed first: w has the bonds in removable size-2 matches, f those in removable size-k matches.
fn usable(w: u64, f: u64, k: u32, p: u64) -> u32
    requires { (2 ≤ k) × Sub f w }
    ensures is { result ≡ usable k w f p }
    ensures small { result ≤ 64 }
{
    usable_edges(
        k,
        bitset::size(bitset::common(p, w)),
        bitset::size(bitset::common(p, f)),
    )
}

// What all pieces can save.
pub fn usable_edges_bound(w: u64, f: u64, pieces: &[u64], k: u32) -> u32
    requires { (2 ≤ k) × (length pieces.now ≤ 32) × Sub f w }
    ensures { result ≡ usable_edges_bound ceil_log2 w f pieces.now k }
{
    let all: u32 = pieces.iter().map(|p| usable(w, f, k, *p)).sum();
    all.saturating_sub(ceil_log2(k))
}

// The first size from 2 to largest that is not left out, and the next after these where all are: masks[k] has the bonds in removable size-k matches.
// A number and no Option: it is the definition's own, and the search tries from it on.
pub fn least_size(masks: &[u64], pieces: &[u64], index: u32, best: u32, largest: u32) -> u32
    requires { (largest < length masks.now) × (length pieces.now ≤ 32) × (best ≤ 4096) × (largest ≤ 64) × ((k : ℕ) → 2 ≤ k → k ≤ largest
        → Sub (get_or masks.now k 0) (get_or masks.now 2 0)) }
    ensures { result ≡ least_size ceil_log2 (λ k. get_or masks.now k 0) pieces.now index best largest }
{
    for k in 2..=largest {
        let bound = usable_edges_bound(masks[2], masks[k as usize], pieces, k);
        if index < bound + best {
            return k;
        }
    }
    largest.max(1) + 1
}
