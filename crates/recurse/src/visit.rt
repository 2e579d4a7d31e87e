// The search (src/assembly.rs): a state is entered, counted, and left with its answer.
ghost use Rattle.std.specs.Prelude.{◌≡◌, List, [], ◌≤◌, length};
ghost use Rattle.search.specs.Setting.{memo_room};
ghost use Rattle.search.specs.Memo.{Entry};
ghost use Rattle.search.specs.Search.{answers};
ghost use Rattle.search.specs.Trail.{no_removal};
ghost use Rattle.branch.specs.Inner.Entered.{Entered};
ghost use Rattle.desk.specs.Inner.Cached.{Cached};
ghost use Rattle.memoize.specs.Inner.Stored.{Stored};
ghost use Rattle.recurse.specs.Inner.Follows.{MayEnter, MayStart, Visited, Searches, IntStops, gate_of, Gated, OwnAnswer, better_of, found_as, Lowered};

use branch::searched::Searched;
use canonize::Slate;
use memoize::Full;
use search::Setting;
use state::State;
use state::trail::Trail;

// What is carried from state to state: best, the states entered, and how many entries the memo has.
#[derive(Clone, Copy, Debug, PartialEq, Eq)]
pub struct Run {
    pub best: u32,
    pub states: u32,
    pub entries: usize,
}

// An index with its trail, and what is carried then.
#[derive(Clone, Copy, Debug, PartialEq, Eq, Drop)]
pub struct Found {
    pub index: u32,
    pub trail: Trail,
    pub run: Run,
}

// What ends a search early: the budget, which it would exceed (row 11); or the memo, every entry of which was used after so many states (row 12).
#[derive(Clone, Copy, Debug, PartialEq, Eq)]
pub enum Halt {
    Budget(u32),
    Memo(u32),
}

// A state that is entered goes on or is stopped, with what is carried then. No Option: both cases carry it.
#[derive(Clone, Copy, Debug, PartialEq, Eq)]
pub enum Gate {
    Goes(Run),
    Stops(Run),
}

// Whether Int stops the state.
fn int_stops(setting: Setting, s: &State, best: u32) -> bool
    requires { s.now.largest ≤ 64 }
    ensures { IntStops setting s.now best result }
{
    if !setting.has_int() {
        return false;
    }
    let j = bounds::int_bound(s.pieces.as_slice(), s.largest);
    u64::from(best) + u64::from(j) <= u64::from(s.index)
}

// Where the memo's answer leads a state that has been counted.
fn passed(asked: Result<Option<usize>, Full>, run: Run) -> Result<Gate, Halt>
    ensures { result ≡ gate_of asked run }
{
    match asked {
        Ok(Some(entries)) => Ok(Gate::Goes(Run { entries, ..run })),
        Ok(None) => Ok(Gate::Stops(run)),
        Err(_) => Err(Halt::Memo(run.states)),
    }
}

// Enters a state within the budget; Int or the memo may stop it. The memo, the desk and the slate stay three parameters, here and below: a struct that
// holds them would owe in each contract a clause for each, that it is the same loan.
fn enter(
    searched: &Searched,
    memo: &mut [u64],
    desk: &mut [u64],
    slate: &mut Slate,
    s: &State,
    run: Run,
) -> Result<Gate, Halt>
    requires { Entered searched.now.molecule.now.bytes.now s.now × Cached searched.now.molecule.now.bytes.now desk.old
        × ((m : List Entry) × Stored searched.now.molecule.now.bytes.now memo.old run.entries m) }
    ensures gated { (m : List Entry) → Stored searched.now.molecule.now.bytes.now memo.old run.entries m
        → Gated searched.now.molecule.now.bytes.now searched.now.setting (memo_room (length memo.old)) s.now run m memo.new result }
    ensures cached { Cached searched.now.molecule.now.bytes.now desk.new }
{
    let setting = searched.setting;
    if setting.budget <= run.states {
        return Err(Halt::Budget(setting.budget));
    }
    let next = Run {
        states: run.states + 1,
        ..run
    };
    if int_stops(setting, s, run.best) {
        return Ok(Gate::Stops(next));
    }
    if !setting.has_memo() {
        return Ok(Gate::Goes(next));
    }
    let asked = memoize::ask(
        searched.molecule,
        memo,
        run.entries,
        s.pieces.as_slice(),
        s.index,
        s.trail.numbers(),
        desk,
        slate,
    );
    passed(asked, next)
}

// A state's own index and trail as its answer.
fn own_answer(s: &State, run: Run) -> Found
    ensures { OwnAnswer s.now run result }
{
    Found {
        index: s.index,
        trail: s.trail,
        run,
    }
}

// What is found so far, after a child's answer: what is carried is the child's, and the answer where it is less.
fn better(found: Found, child: Found) -> Found
    ensures { result ≡ better_of found child }
{
    if child.index < found.index {
        return child;
    }
    Found {
        run: child.run,
        ..found
    }
}

// Best lowered to the answer.
fn lowered(found: Found) -> Found
    ensures { Lowered found result }
{
    let best = found.run.best.min(found.index);
    Found {
        run: Run { best, ..found.run },
        ..found
    }
}

// Enters a state and, unless it is stopped, each child in turn, with what is carried then; at the end best is lowered to the least answer.
fn visit(
    searched: &Searched,
    memo: &mut [u64],
    desk: &mut [u64],
    slate: &mut Slate,
    s: &State,
    run: Run,
) -> Result<Found, Halt>
    requires { MayEnter searched.now.molecule.now.bytes.now memo.old desk.old s.now run }
    ensures follows { (m : List Entry) → Stored searched.now.molecule.now.bytes.now memo.old run.entries m
        → Visited searched.now.molecule.now.bytes.now searched.now.setting (memo_room (length memo.old)) s.now run m result memo.new }
    ensures cached { Cached searched.now.molecule.now.bytes.now desk.new }
{
    let next = match enter(searched, memo, desk, slate, s, run)? {
        Gate::Stops(next) => return Ok(own_answer(s, next)),
        Gate::Goes(next) => next,
    };
    let mut found = own_answer(s, next);
    let b = branch::branch_of(searched, s, next.best);
    for m in b.removals(&searched.rows) {
        let mut c = *s;
        branch::below(searched, &mut c, b.held.as_slice(), m);
        let child = visit(searched, memo, desk, slate, &c, found.run)?;
        found = better(found, child);
    }
    Ok(lowered(found))
}

// What is found without bonds: no state is entered.
fn nothing_entered() -> Found
    ensures found { found_as result [] ≡ answers 0 no_removal (record { best = 0; states = 0; memo = [] }) }
    ensures entries { result.run.entries ≡ 0 }
{
    Found {
        index: 0,
        trail: Trail::new(),
        run: Run {
            best: 0,
            states: 0,
            entries: 0,
        },
    }
}

// The search of a record of n bonds, from the root and with best its index.
#[tactic(auto, using(search::proofs::Parts::few))]
pub fn search(
    searched: &Searched,
    memo: &mut [u64],
    desk: &mut [u64],
    slate: &mut Slate,
) -> Result<Found, Halt>
    requires { MayStart searched.now.molecule.now.bytes.now memo.old desk.old }
    ensures { Searches searched.now.molecule.now.bytes.now searched.now.setting (memo_room (length memo.old)) result memo.new }
{
    let n = searched.molecule.bonds();
    if n == 0 {
        return Ok(nothing_entered());
    }
    let s = state::root(&searched.molecule.touch, n);
    let run = Run {
        best: s.index,
        states: 0,
        entries: 0,
    };
    visit(searched, memo, desk, slate, &s, run)
}
