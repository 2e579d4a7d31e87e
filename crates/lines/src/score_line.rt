// The command `score HEX BOUNDS MEMO BUDGET [TRAIL PARTS PAIRS MEMO DESK]`: the score of a record, asked with a trail and tables of so many elements.
ghost use Rattle.std.specs.Prelude.{◌≤◌};

use crate::output::Output;
use crate::words::Words;
use crate::{hex, noise};
use assembly::answer::{Score, ScoreRefusal};
use assembly::{Setting, score};

// How many elements the trail and each table have. The program has room for as many.
#[derive(Clone, Copy)]
struct Lent {
    trail: usize,
    parts: usize,
    pairs: usize,
    memo: usize,
    desk: usize,
    ghost trail_fits: { trail ≤ 72 },
    ghost parts_fit: { parts ≤ 65536 },
    ghost pairs_fit: { pairs ≤ 65536 },
    ghost memo_fits: { memo ≤ 163840 },
    ghost desk_fits: { desk ≤ 5000 },
}

// Answers the line with these words behind the command.
pub fn answer<P: Print>(mut words: Words, out: &mut Output<P>) -> Option<()> {
    let record = hex::record(words.next()?)?;
    let setting = setting_of(&mut words)?;
    let lent = lengths(words)?;
    put_score(&record, setting, lent, out);
    Some(())
}

// The next three words: each a number in decimal below 2 to the power 32.
fn setting_of(words: &mut Words) -> Option<Setting> {
    Some(Setting {
        bounds: words.next_u32()?,
        memo: words.next_u32()?,
        budget: words.next_u32()?,
    })
}

// The lengths that stand behind the budget: all five, or none, and then 64, 65536, 65536, 163840 and 4096.
fn lengths(mut words: Words) -> Option<Lent> {
    if words.is_done() {
        return Some(Lent {
            trail: 64,
            parts: 65536,
            pairs: 65536,
            memo: 163840,
            desk: 4096,
        });
    }
    let trail = words.next_number(72)?;
    let parts = words.next_number(65536)?;
    let pairs = words.next_number(65536)?;
    let memo = words.next_number(163840)?;
    let desk = words.next_number(5000)?;
    if !words.is_done() {
        return None;
    }
    Some(Lent {
        trail,
        parts,
        pairs,
        memo,
        desk,
    })
}

// Scores with a trail and tables that hold noise.
// What is lent goes one by one, as `score` takes it: a struct of the five would be taken apart at once.
fn score_over(
    bytes: &[u8],
    setting: Setting,
    trail: &mut [u32],
    parts: &mut [u64],
    pairs: &mut [u64],
    memo: &mut [u64],
    desk: &mut [u64],
) -> Result<Score, ScoreRefusal> {
    noise::fill(trail);
    noise::fill(parts);
    noise::fill(pairs);
    noise::fill(memo);
    noise::fill(desk);
    score::score(bytes, setting, trail, parts, pairs, memo, desk)
}

// Scores with a trail and tables of so many elements, and puts the answer.
// Arrays of the most that may be lent: the memory is fixed, and that of a Vec can fail.
fn put_score<P: Print>(bytes: &[u8], setting: Setting, lent: Lent, out: &mut Output<P>) {
    let mut numbers = [0u32; 72];
    let mut parts = [0u64; 65536];
    let mut pairs = [0u64; 65536];
    let mut memo = [0u64; 163840];
    let mut desk = [0u64; 5000];
    let trail = &mut numbers[..lent.trail];
    let answer = score_over(
        bytes,
        setting,
        trail,
        &mut parts[..lent.parts],
        &mut pairs[..lent.pairs],
        &mut memo[..lent.memo],
        &mut desk[..lent.desk],
    );
    put_answer(answer, trail, out);
}

// Puts `scored INDEX MATCHES STATES K`, the K match numbers and then the K sizes, or `refused NUMBER PLACE`.
fn put_answer<P: Print>(answer: Result<Score, ScoreRefusal>, trail: &[u32], out: &mut Output<P>) {
    match answer {
        Ok(s) => put_held(s, trail, out),
        Err(refusal) => out.refuse(refusal),
    }
}

// Puts the first k numbers.
fn put_numbers<P: Print>(numbers: &[u32], k: usize, out: &mut Output<P>) {
    for number in numbers.iter().take(k) {
        out.print(format_args!(" {number}"));
    }
}

// Puts what a score holds, and then match numbers and sizes: the first of either array of the trail.
fn put_held<P: Print>(s: Score, trail: &[u32], out: &mut Output<P>) {
    let Score {
        index,
        matches,
        states,
        length,
    } = s;
    out.print(format_args!("scored {index} {matches} {states} {length}"));
    let (numbers, sizes) = trail.split_at(trail.len().min(32));
    put_numbers(numbers, length as usize, out);
    put_numbers(sizes, length as usize, out);
}
