// The command `matches HEX [PARTS PAIRS]`: the number of matches of a record, asked with tables of so many words.
ghost use Rattle.std.specs.Prelude.{◌≡◌, ◌≤◌, length};
ghost use Rattle.tabulate.specs.Counted.{count_answer, answer_of};

use crate::output::Output;
use crate::words::Words;
use crate::{hex, noise};
use tabulate::count;
use tabulate::count::CountRefusal;

// How many words each table has.
#[derive(Clone, Copy)]
struct Lengths {
    parts: usize,
    pairs: usize,
    ghost parts_fit: { parts ≤ 65536 },
    ghost pairs_fit: { pairs ≤ 65536 },
}

// Answers the line with these words behind the command.
pub fn answer<P: Print>(mut words: Words, out: &mut Output<P>) -> Option<()> {
    let record = hex::record(words.next()?)?;
    let lengths = table_lengths(words)?;
    match count_with(&record, lengths) {
        Ok(n) => out.print(format_args!("matches {n}")),
        Err(refusal) => out.refuse(refusal),
    }
    Some(())
}

// The lengths that stand behind the record: both, or none, and then each is 65536.
fn table_lengths(mut words: Words) -> Option<Lengths> {
    if words.is_done() {
        return Some(Lengths {
            parts: 65536,
            pairs: 65536,
        });
    }
    let parts = words.next_number(65536)?;
    let pairs = words.next_number(65536)?;
    if !words.is_done() {
        return None;
    }
    Some(Lengths { parts, pairs })
}

// Counts with tables that hold noise.
// The tables go one by one, as `count` takes them: a struct of the two would be taken apart at once.
fn count_over(bytes: &[u8], parts: &mut [u64], pairs: &mut [u64]) -> Result<u64, CountRefusal>
    ensures { answer_of result ≡ count_answer bytes.now (length parts.old) (length pairs.old) }
{
    noise::fill(parts);
    noise::fill(pairs);
    count::count(bytes, parts, pairs)
}

// Counts with tables of so many words.
// Arrays of the most that may be lent: the memory is fixed, and that of a Vec can fail.
fn count_with(bytes: &[u8], lengths: Lengths) -> Result<u64, CountRefusal>
    ensures { answer_of result ≡ count_answer bytes.now lengths.parts lengths.pairs }
{
    let mut parts = [0u64; 65536];
    let mut pairs = [0u64; 65536];
    count_over(
        bytes,
        &mut parts[..lengths.parts],
        &mut pairs[..lengths.pairs],
    )
}
