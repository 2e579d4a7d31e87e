#![tactic(auto)]
// The search's memo (src/memoize.rs): entries of 80 words in the lent table, found by a hash of the piece labels and settled by the labels.
// An entry has sets that stand for its pieces (crate desk), so that most labels are settled by comparing sets. A state that asks first drafts
// its own entry in 80 words. specs/Inner/Stored.antt has the layout: words, as C lends the table, and so is a draft, which is copied into it.
// memo and entries stay two parameters: a struct that holds the lent words owes in each contract a clause that it is the same loan.
// A state's pieces, index and removals go one by one, as slices: this crate does not stand on `state`. A set stays a word, as slate.rt of `canonize` says,
// and that a draft is an entry stays a clause: while it is drafted its words are none yet.
// Numbers turn by `as`, shown to lose nothing: usize has no From, and a TryFrom would answer an error that never is.
ghost use Rattle.std.specs.Prelude.{◌≡◌, not, ◌||◌, List, ◌+◌, ◌*◌, ◌/◌, ◌%◌, ◌≤◌, ◌<◌, length, get_or, ltb};
ghost use Rattle.canonize.specs.Label.{label};
ghost use Rattle.canonize.specs.Strings.{lex_le, sort, hash};
ghost use Rattle.canonize.specs.Inner.Slate.{Fragment};
ghost use Rattle.search.specs.Memo.{Entry, same_key, remember};
ghost use Rattle.desk.specs.Inner.Cached.{Cached};
ghost use Rattle.memoize.specs.Inner.Stored.{Fragments, Stood, Block, label_at, labels, Picked};
ghost use Rattle.memoize.specs.Inner.Stored.{Sized, removals_at, EntryWords, Stored, Located, Filled, Put, entry_with, MemoAnswers};

use canonize::Slate;
use desk::Known;
use molecule::Molecule;

// Every entry of the memo is used.
#[derive(Clone, Copy, Debug, PartialEq, Eq)]
pub struct Full;

// The first of the count pieces from word base on that is not used and has the label of x's set, whose hash is x's.
fn pick(
    molecule: &Molecule,
    memo: &[u64],
    base: usize,
    count: usize,
    used: u64,
    x: Known,
    slate: &mut Slate,
) -> Option<usize>
    requires { Block molecule.now.bytes.now memo.now base count
        × Fragment molecule.now.bytes.now x.set × (x.hash ≡ hash (label molecule.now.bytes.now x.set)) }
    ensures { Picked (label_at molecule.now.bytes.now memo.now base) count used (label molecule.now.bytes.now x.set) result }
{
    for j in 0..count {
        if bitset::contains(used, j as u32) {
            continue;
        }
        let y = memo[base + j];
        if y == x.set {
            return Some(j);
        }
        if memo[base + 32 + j] != x.hash {
            continue;
        }
        if desk::equal_labels(molecule, x.set, y, slate) {
            return Some(j);
        }
    }
    None
}

// Whether the count pieces of the new entry have the same labels as those from word base on, each as often.
fn same_pieces(
    molecule: &Molecule,
    memo: &[u64],
    base: usize,
    new: &[u64; 80],
    count: usize,
    slate: &mut Slate,
) -> bool
    requires { Block molecule.now.bytes.now memo.now base count × Block molecule.now.bytes.now new.now 0 count }
    ensures { result ≡ same_key (sort (labels molecule.now.bytes.now new.now 0 count))
        (sort (labels molecule.now.bytes.now memo.now base count)) }
{
    let mut used = 0;
    for i in 0..count {
        let x = Known {
            hash: new[32 + i],
            set: new[i],
        };
        let Some(j) = pick(molecule, memo, base, count, used, x, slate) else {
            return false;
        };
        used = bitset::insert(used, j as u32);
    }
    true
}

// The bucket of a sum of hashes.
fn bucket(total: u64, room: usize) -> usize
    requires { 0 < room }
    ensures { (result ≡ total % room) × (result < room) }
{
    (total % (room as u64)) as usize
}

// Whether entry e has the key of the new entry.
fn is_key(molecule: &Molecule, memo: &[u64], e: usize, new: &[u64; 80], slate: &mut Slate) -> bool
    requires { ((x : Entry) × EntryWords molecule.now.bytes.now memo.now (80 * e) x)
        × ((y : Entry) × EntryWords molecule.now.bytes.now new.now 0 y) }
    ensures { (x y : Entry) → EntryWords molecule.now.bytes.now memo.now (80 * e) x
        → EntryWords molecule.now.bytes.now new.now 0 y → result ≡ same_key y.key x.key }
{
    if memo[80 * e + 67] != new[67] {
        return false;
    }
    let count = new[64];
    if memo[80 * e + 64] != count {
        return false;
    }
    same_pieces(molecule, memo, 80 * e, new, count as usize, slate)
}

// The entry with the key of the new entry.
fn locate(
    molecule: &Molecule,
    memo: &[u64],
    entries: usize,
    new: &[u64; 80],
    slate: &mut Slate,
) -> Option<usize>
    requires { ((m : List Entry) × Stored molecule.now.bytes.now memo.now entries m)
        × ((y : Entry) × EntryWords molecule.now.bytes.now new.now 0 y) }
    ensures { (m : List Entry) (y : Entry) → Stored molecule.now.bytes.now memo.now entries m
        → EntryWords molecule.now.bytes.now new.now 0 y → Located m y.key result }
{
    let room = memo.len() / 80;
    if room == 0 {
        return None;
    }
    let mut k = memo[80 * bucket(new[67], room) + 69];
    // A while: the entries of a bucket are a chain in the lent words, with 0 at its end, and an iterator would state the chain a second time.
    while k != 0 {
        let e = (k - 1) as usize;
        if is_key(molecule, memo, e, new, slate) {
            return Some(e);
        }
        k = memo[80 * e + 68];
    }
    None
}

// Whether entry e gives way to the new entry: its index is larger, or its removals come later.
fn gives_way(memo: &[u64], e: usize, new: &[u64; 80]) -> bool
    requires { Sized memo.now (80 * e) × Sized new.now 0 }
    ensures { result ≡ (ltb (get_or new.now 66 0) (get_or memo.now (80 * e + 66) 0)
        || not (lex_le (removals_at memo.now (80 * e)) (removals_at new.now 0))) }
{
    if new[66] < memo[80 * e + 66] {
        return true;
    }
    let a = 80 * e + memo[80 * e + 64] as usize;
    let b = a + memo[80 * e + 65] as usize;
    let m = new[64] as usize;
    let n = m + new[65] as usize;
    memo[a..b] > new[m..n]
}

// Entry e gets the words of the new entry.
fn overwrite(memo: &mut [u64], e: usize, new: &[u64; 80])
    requires { 80 * e + 68 ≤ length memo.old }
    ensures { Filled memo.old memo.new (80 * e) 68 new.now }
{
    memo[80 * e..80 * e + 68].copy_from_slice(&new[..68]);
}

// The new entry becomes entry e, the last of its bucket.
fn store(memo: &mut [u64], e: usize, new: &[u64; 80])
    requires { 80 * e + 80 ≤ length memo.old }
    ensures { Put memo.old memo.new e (get_or new.now 67 0 % (length memo.old / 80)) new.now }
{
    let h = bucket(new[67], memo.len() / 80);
    let last = memo[80 * h + 69];
    overwrite(memo, e, new);
    memo[80 * e + 68] = last;
    memo[80 * h + 69] = e as u64 + 1;
}

// The memo's answer to a state with this new entry: how many entries it has then, where the state goes on, and none where it is stopped.
fn answer(
    molecule: &Molecule,
    memo: &mut [u64],
    entries: usize,
    new: &[u64; 80],
    slate: &mut Slate,
) -> Result<Option<usize>, Full>
    requires { ((m : List Entry) × Stored molecule.now.bytes.now memo.old entries m)
        × ((y : Entry) × EntryWords molecule.now.bytes.now new.now 0 y) }
    ensures { (m : List Entry) (y : Entry) → Stored molecule.now.bytes.now memo.old entries m
        → EntryWords molecule.now.bytes.now new.now 0 y
        → MemoAnswers molecule.now.bytes.now memo.old memo.new result (remember (length memo.old / 80) y m) }
{
    if let Some(e) = locate(molecule, memo, entries, new, slate) {
        if !gives_way(memo, e, new) {
            return Ok(None);
        }
        overwrite(memo, e, new);
        return Ok(Some(entries));
    }
    if entries < memo.len() / 80 {
        store(memo, entries, new);
        return Ok(Some(entries + 1));
    }
    Err(Full)
}

// For each piece a set that stands for it and the hash of its label, in the new entry; the sum of the hashes.
fn stand_all(
    molecule: &Molecule,
    pieces: &[u64],
    new: &mut [u64; 80],
    desk: &mut [u64],
    slate: &mut Slate,
) -> u64
    requires { Cached molecule.now.bytes.now desk.old × Fragments molecule.now.bytes.now pieces.now
        × (length pieces.now ≤ 32) }
    ensures stood { Stood molecule.now.bytes.now pieces.now new.new result }
    ensures cached { Cached molecule.now.bytes.now desk.new }
{
    let mut total = 0;
    for (i, piece) in pieces.iter().enumerate() {
        let known = desk::stands(molecule, *piece, desk, slate);
        new[i] = known.set;
        new[32 + i] = known.hash;
        total += known.hash;
    }
    total
}

// The words from place k on become the removals. A loop: the library's copies do not turn u32 into u64.
fn put_removals(new: &mut [u64; 80], k: usize, removals: &[u32])
    requires { k + length removals.now ≤ length new.old }
    ensures { Filled new.old new.new k (length removals.now) removals.now }
{
    for (i, removal) in removals.iter().enumerate() {
        new[k + i] = u64::from(*removal);
    }
}

// The new entry of a state with these pieces, index and removals.
fn draft(
    molecule: &Molecule,
    pieces: &[u64],
    index: u32,
    removals: &[u32],
    new: &mut [u64; 80],
    desk: &mut [u64],
    slate: &mut Slate,
)
    requires { Cached molecule.now.bytes.now desk.old × Fragments molecule.now.bytes.now pieces.now
        × (length pieces.now + length removals.now ≤ 32) }
    ensures entry { EntryWords molecule.now.bytes.now new.new 0
        (entry_with molecule.now.bytes.now pieces.now index removals.now) }
    ensures cached { Cached molecule.now.bytes.now desk.new }
{
    let total = stand_all(molecule, pieces, new, desk, slate);
    put_removals(new, pieces.len(), removals);
    new[64] = pieces.len() as u64;
    new[65] = removals.len() as u64;
    new[66] = u64::from(index);
    new[67] = total;
}

// A state with these pieces, index and removals asks the memo, which has so many entries: how many it has then, where the state goes on, and none
// where it is stopped.
pub fn ask(
    molecule: &Molecule,
    memo: &mut [u64],
    entries: usize,
    pieces: &[u64],
    index: u32,
    removals: &[u32],
    desk: &mut [u64],
    slate: &mut Slate,
) -> Result<Option<usize>, Full>
    requires { Cached molecule.now.bytes.now desk.old
        × ((m : List Entry) × Stored molecule.now.bytes.now memo.old entries m) × Fragments molecule.now.bytes.now pieces.now
        × (length pieces.now + length removals.now ≤ 32) }
    ensures answer { (m : List Entry) → Stored molecule.now.bytes.now memo.old entries m
        → MemoAnswers molecule.now.bytes.now memo.old memo.new result
        (remember (length memo.old / 80) (entry_with molecule.now.bytes.now pieces.now index removals.now) m) }
    ensures cached { Cached molecule.now.bytes.now desk.new }
{
    let mut new = [0u64; 80];
    draft(molecule, pieces, index, removals, &mut new, desk, slate);
    answer(molecule, memo, entries, &new, slate)
}
