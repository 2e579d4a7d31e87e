// The fields of a record, a function for each. They take the bytes, and a clause says what must be known of them: check asks for fields before there
// is a Molecule.
ghost use Rattle.std.specs.Prelude.{◌≡◌, ◌≤◌, ◌<◌, length};
ghost use Rattle.molecule.specs.Record.{atoms, bonds, element, class, end_a, end_b, code};
ghost use Rattle.molecule.specs.Tree.{RightCounts};

// The number of atoms.
pub fn atoms(bytes: &[u8]) -> usize
    requires { 2 ≤ length bytes.now }
    ensures { (result ≡ atoms bytes.now) × (result < 256) }
{
    usize::from(bytes[0])
}

// The number of bonds.
pub fn bonds(bytes: &[u8]) -> usize
    requires { 2 ≤ length bytes.now }
    ensures { (result ≡ bonds bytes.now) × (result < 256) }
{
    usize::from(bytes[1])
}

// The element code of atom v.
pub fn element(bytes: &[u8], v: usize) -> u8
    requires { RightCounts bytes.now × (v < atoms bytes.now) }
    ensures { result ≡ element bytes.now v }
{
    bytes[2 + v]
}

// The class of atom v.
pub fn class(bytes: &[u8], v: usize) -> u8
    requires { RightCounts bytes.now × (v < atoms bytes.now) }
    ensures { result ≡ class bytes.now v }
{
    bytes[2 + atoms(bytes) + v]
}

// The two ends of bond i, in the order written.
pub fn ends(bytes: &[u8], i: usize) -> (usize, usize)
    requires { RightCounts bytes.now × (i < bonds bytes.now) }
    ensures { (result.0 ≡ end_a bytes.now i) × (result.1 ≡ end_b bytes.now i) }
{
    let a = atoms(bytes);
    (
        usize::from(bytes[2 + 2 * a + 2 * i]),
        usize::from(bytes[3 + 2 * a + 2 * i]),
    )
}

// The bond code of bond i.
pub fn code(bytes: &[u8], i: usize) -> u8
    requires { RightCounts bytes.now × (i < bonds bytes.now) }
    ensures { result ≡ code bytes.now i }
{
    bytes[2 + 2 * atoms(bytes) + 2 * bonds(bytes) + i]
}
