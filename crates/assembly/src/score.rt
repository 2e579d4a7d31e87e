// score: the public call. Rows 1 to 6 and 15 by check, 7 and 8, then the match table (rows 9 and 10), then the search (rows 11 and 12).
ghost use Rattle.std.specs.Prelude.{◌≡◌};
ghost use Rattle.molecule.specs.Check.{check, accepted};
ghost use Rattle.assembly.specs.Answer.{loan, answer_to};
ghost use Rattle.assembly.specs.Contract.{Answers};
ghost use Rattle.assembly.specs.Inner.Parts.{AnswerTold, Admitted, TablesZero};

use crate::answer::{Score, ScoreRefusal};
use crate::find;
use molecule::Molecule;
use search::Setting;
use tabulate::build;

// Rows 9 to 12, where none of check's rows, 7 and 8 applies. What is lent stays five slices, here and below: a struct that holds them would owe in each contract
// a clause for each, that it is the same loan.
fn answer(
    molecule: &Molecule,
    setting: Setting,
    trail: &mut [u32],
    parts: &mut [u64],
    pairs: &mut [u64],
    memo: &mut [u64],
    desk: &mut [u64],
) -> Result<Score, ScoreRefusal>
    requires { Admitted setting (loan trail.old parts.old pairs.old memo.old desk.old) }
    ensures { AnswerTold (answer_to molecule.now.bytes.now setting
        (loan trail.old parts.old pairs.old memo.old desk.old))
        result trail.old trail.new }
{
    let matches = build::build(molecule, parts, pairs)?;
    find::find(molecule, setting, trail, pairs, matches, memo, desk)
}

// The same, and then every word of the four tables is 0.
fn answer_and_clear(
    molecule: &Molecule,
    setting: Setting,
    trail: &mut [u32],
    parts: &mut [u64],
    pairs: &mut [u64],
    memo: &mut [u64],
    desk: &mut [u64],
) -> Result<Score, ScoreRefusal>
    requires { Admitted setting (loan trail.old parts.old pairs.old memo.old desk.old) }
    ensures told { AnswerTold (answer_to molecule.now.bytes.now setting
        (loan trail.old parts.old pairs.old memo.old desk.old))
        result trail.old trail.new }
    ensures cleared { TablesZero
        (loan trail.old parts.old pairs.old memo.old desk.old)
        (loan trail.new parts.new pairs.new memo.new desk.new) }
{
    let scored = answer(molecule, setting, trail, parts, pairs, memo, desk);
    clear::zero(parts);
    clear::zero(pairs);
    clear::zero(memo);
    clear::zero(desk);
    scored
}

// score of an accepted record: rows 7 and 8 first, which need no molecule.
fn score_accepted(
    bytes: &[u8],
    setting: Setting,
    trail: &mut [u32],
    parts: &mut [u64],
    pairs: &mut [u64],
    memo: &mut [u64],
    desk: &mut [u64],
) -> Result<Score, ScoreRefusal>
    requires { check bytes.now ≡ accepted }
    ensures { Answers bytes.now setting
        (loan trail.old parts.old pairs.old memo.old desk.old)
        (loan trail.new parts.new pairs.new memo.new desk.new) result }
{
    if 3 < setting.bounds {
        return Err(ScoreRefusal::Setting);
    }
    if 1 < setting.memo {
        return Err(ScoreRefusal::Setting);
    }
    if trail.len() < 64 {
        return Err(ScoreRefusal::Lent);
    }
    if desk.len() < 4096 {
        return Err(ScoreRefusal::Lent);
    }
    answer_and_clear(
        &Molecule::of(bytes),
        setting,
        trail,
        parts,
        pairs,
        memo,
        desk,
    )
}

// The score of a record. It is document 01's answer; the trail and the four tables end as document 01 says; and of a score demand 3 holds.
pub fn score(
    bytes: &[u8],
    setting: Setting,
    trail: &mut [u32],
    parts: &mut [u64],
    pairs: &mut [u64],
    memo: &mut [u64],
    desk: &mut [u64],
) -> Result<Score, ScoreRefusal>
    ensures { Answers bytes.now setting
        (loan trail.old parts.old pairs.old memo.old desk.old)
        (loan trail.new parts.new pairs.new memo.new desk.new) result }
{
    molecule::check(bytes)?;
    score_accepted(bytes, setting, trail, parts, pairs, memo, desk)
}
