// Byte strings as values: their order, whether they are equal, and a hash.
ghost use Rattle.std.specs.Prelude.{◌≡◌};
ghost use Rattle.canonize.specs.Strings.{lex_le, same, hash};

// x comes before y in lexicographic order, or is equal to it. A loop that answers at once, and no `cmp` nor `<=`: who asks for the least of many short
// strings then waits for no comparison before the next.
pub fn less_or_equal(x: &[u8], y: &[u8]) -> bool
    ensures { result ≡ lex_le x.now y.now }
{
    for i in 0..x.len() {
        if i == y.len() {
            return false;
        }
        if x[i] < y[i] {
            return true;
        }
        if y[i] < x[i] {
            return false;
        }
    }
    true
}

// x and y are equal. A library's call, under the name that the definition has.
#[tactic(auto, using(crate::proofs::Comparing::same_pointwise))]
pub fn equal(x: &[u8], y: &[u8]) -> bool
    ensures { result ≡ same x.now y.now }
{
    x == y
}

// A number that equal strings share.
pub fn hash(x: &[u8]) -> u64
    ensures { result ≡ hash x.now }
{
    let mut h: u64 = 1;
    for b in x {
        h = (h * 257 + u64::from(*b)) % 36_028_797_018_963_913;
    }
    h
}
