#![tactic(auto)]
// The public calls with the replies that cross to C: a number and a place, or what a score holds. The C functions are those of `capi_c`, which call these.
// Numbers turn by `as`, shown to lose nothing: usize has no From, and a TryFrom would answer an error that never is.
ghost use Rattle.std.specs.Prelude.{◌≡◌, length};
ghost use Rattle.molecule.specs.Check.{check, number, place};
ghost use Rattle.canonize.specs.Answer.{number as label_number, value as label_value, label_answer, buffer_after};
ghost use Rattle.tabulate.specs.Counted.{number as count_number, value as count_value, count_answer, table_after};
ghost use Rattle.assembly.specs.Answer.{loan};
ghost use Rattle.capi.specs.Reply.{asked, turned, Answered};

use assembly::answer::{Score, ScoreRefusal};
use assembly::{Setting, score};
use molecule::Refusal;

// Document 01's number, 0 where there is no refusal, and its place, or for a label its length, for matches how many there are.
// A number for each kind of refusal and no Result: the C interface has no enum with fields.
#[repr(C)]
#[derive(Clone, Copy, Debug, PartialEq, Eq)]
pub struct Reply {
    pub number: u32,
    pub place: u64,
}

impl<R: Refusal> From<Result<u64, R>> for Reply {
    ghost use Rattle.capi.specs.Reply.{RepliesTo};

    ghost from_gives = { RepliesTo R.number_of R.place_of };

    fn from(answer: Result<u64, R>) -> Reply {
        match answer {
            Ok(value) => Reply {
                number: 0,
                place: value,
            },
            Err(refusal) => Reply {
                number: refusal.number(),
                place: refusal.place(),
            },
        }
    }
}

// check.
pub fn assembly_check(bytes: &[u8]) -> Reply
    ensures { (result.number ≡ number (check bytes.now)) × (result.place ≡ place (check bytes.now)) }
{
    Reply::from(molecule::check(bytes).map(|()| 0))
}

// label.
pub fn assembly_label(bytes: &[u8], set: u64, out: &mut [u8]) -> Reply
    ensures answer { (result.number ≡ label_number (label_answer bytes.now set out.old))
        × (result.place ≡ label_value (label_answer bytes.now set out.old)) }
    ensures buffer { out.new ≡ buffer_after bytes.now set out.old }
{
    Reply::from(canonize::label(bytes, set, out).map(|n| n as u64))
}

// matches.
// The tables one by one: the C interface passes them so.
pub fn assembly_matches(bytes: &[u8], parts: &mut [u64], pairs: &mut [u64]) -> Reply
    ensures answer { (result.number ≡ count_number (count_answer bytes.now (length parts.old) (length pairs.old)))
        × (result.place ≡ count_value (count_answer bytes.now (length parts.old) (length pairs.old))) }
    ensures parts { parts.new ≡ table_after bytes.now parts.old }
    ensures pairs { pairs.new ≡ table_after bytes.now pairs.old }
{
    Reply::from(tabulate::count::count(bytes, parts, pairs))
}

// score's answer. Number 0: the index, the matches, the states entered, and how many removals the trail has; place is 0. Else the row and its place;
// the other four are 0.
// A number for each kind of refusal and no Result, as in Reply.
#[repr(C)]
#[derive(Clone, Copy, Debug, PartialEq, Eq)]
pub struct ScoreReply {
    pub number: u32,
    pub index: u32,
    pub place: u64,
    pub matches: u64,
    pub states: u32,
    pub length: u32,
}

// A row.
fn row(number: u32, place: u64) -> ScoreReply
    ensures { result ≡ turned number place }
{
    ScoreReply {
        number,
        index: 0,
        place,
        matches: 0,
        states: 0,
        length: 0,
    }
}

impl From<Result<Score, ScoreRefusal>> for ScoreReply {
    ghost use Rattle.capi.specs.Reply.{reply_of};

    ghost from_gives = { λ answer reply. reply ≡ reply_of answer };

    fn from(answer: Result<Score, ScoreRefusal>) -> ScoreReply {
        match answer {
            Ok(s) => ScoreReply {
                number: 0,
                index: s.index,
                place: 0,
                matches: s.matches,
                states: s.states,
                length: s.length,
            },
            Err(refusal) => row(refusal.number(), refusal.place()),
        }
    }
}

// score.
// The setting as numbers and what is lent one by one: the C interface passes them so.
pub fn assembly_score(
    bytes: &[u8],
    bounds: u32,
    memo: u32,
    budget: u32,
    trail: &mut [u32],
    parts: &mut [u64],
    pairs: &mut [u64],
    entries: &mut [u64],
    desk: &mut [u64],
) -> ScoreReply
    ensures { Answered bytes.now (asked bounds memo budget)
        (loan trail.old parts.old pairs.old entries.old desk.old)
        (loan trail.new parts.new pairs.new entries.new desk.new) result }
{
    let setting = Setting {
        bounds,
        memo,
        budget,
    };
    let answer = score::score(bytes, setting, trail, parts, pairs, entries, desk);
    ScoreReply::from(answer)
}
