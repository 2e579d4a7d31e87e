// The search with the tables lent to score, and its answer: a score, or row 11 or 12.
ghost use Rattle.std.specs.Prelude.{◌≡◌, ◌*◌, ◌≤◌, length};
ghost use Rattle.matches.specs.Table.{pairs as matches_of};
ghost use Rattle.matches.specs.Inner.Written.{Recorded};
ghost use Rattle.assembly.specs.Inner.Parts.{search_answer, AnswerTold};

use crate::answer::{Score, ScoreRefusal};
use crate::trail as numbers;
use branch::searched::Searched;
use molecule::Molecule;
use recurse::run;
use search::Setting;
use state::scan::Rows;

// The search of a molecule, whose matches are at the front of pairs, so many: the table is the caller's, as C lends it. Memo and desk may hold anything.
// A score's trail is written. What is lent stays slices, as score.rt says.
pub fn find<'a>(
    molecule: &'a Molecule<'a>,
    setting: Setting,
    trail: &mut [u32],
    pairs: &'a [u64],
    matches: u64,
    memo: &mut [u64],
    desk: &mut [u64],
) -> Result<Score, ScoreRefusal>
    requires { Recorded pairs.now (matches_of molecule.now.bytes.now) × (matches ≡ length (matches_of molecule.now.bytes.now))
        × (4 * matches ≤ length pairs.now) × (matches ≤ 4294967295) × (64 ≤ length trail.old) × (4096 ≤ length desk.old) }
    ensures { AnswerTold (search_answer molecule.now.bytes.now setting memo.old) result trail.old trail.new }
{
    clear::zero(memo);
    clear::zero(desk);
    let (words, _) = pairs[..4 * matches as usize].as_chunks::<4>();
    let searched = Searched {
        molecule,
        rows: Rows { words },
        setting,
    };
    let found = run::run(&searched, memo, desk)?;
    numbers::write(&found.trail, trail);
    Ok(Score {
        index: found.index,
        matches,
        states: found.run.states,
        length: found.trail.numbers().len() as u32,
    })
}
