#![tactic(auto)]
// The public calls as C functions: host/pazgelk.h declares them. A &[u8] is a pointer and then a length. Each is the call of its name in `capi`.
// Twins with the contracts of `capi`: the C interface needs a static library, and other crates cannot stand on one.
ghost use Rattle.std.specs.Prelude.{◌≡◌, length};
ghost use Rattle.molecule.specs.Check.{check, number, place};
ghost use Rattle.canonize.specs.Answer.{number as label_number, value as label_value, label_answer, buffer_after};
ghost use Rattle.tabulate.specs.Counted.{number as count_number, value as count_value, count_answer, table_after};
ghost use Rattle.assembly.specs.Answer.{loan};
ghost use Rattle.capi.specs.Reply.{asked, Answered};

use capi::{Reply, ScoreReply};

// check.
#[unsafe(no_mangle)]
pub extern "C" fn assembly_check(bytes: &[u8]) -> Reply
    ensures { (result.number ≡ number (check bytes.now)) × (result.place ≡ place (check bytes.now)) }
{
    capi::assembly_check(bytes)
}

// label.
#[unsafe(no_mangle)]
pub extern "C" fn assembly_label(bytes: &[u8], set: u64, out: &mut [u8]) -> Reply
    ensures answer { (result.number ≡ label_number (label_answer bytes.now set out.old))
        × (result.place ≡ label_value (label_answer bytes.now set out.old)) }
    ensures buffer { out.new ≡ buffer_after bytes.now set out.old }
{
    capi::assembly_label(bytes, set, out)
}

// matches.
// The tables one by one: the C interface passes them so.
#[unsafe(no_mangle)]
pub extern "C" fn assembly_matches(bytes: &[u8], parts: &mut [u64], pairs: &mut [u64]) -> Reply
    ensures answer { (result.number ≡ count_number (count_answer bytes.now (length parts.old) (length pairs.old)))
        × (result.place ≡ count_value (count_answer bytes.now (length parts.old) (length pairs.old))) }
    ensures parts { parts.new ≡ table_after bytes.now parts.old }
    ensures pairs { pairs.new ≡ table_after bytes.now pairs.old }
{
    capi::assembly_matches(bytes, parts, pairs)
}

// score.
// The setting as numbers and what is lent one by one: the C interface passes them so.
#[unsafe(no_mangle)]
pub extern "C" fn assembly_score(
    bytes: &[u8],
    bounds: u32,
    memo: u32,
    budget: u32,
    trail: &mut [u32],
    parts: &mut [u64],
    pairs: &mut [u64],
    entries: &mut [u64],
    desk: &mut [u64],
) -> ScoreReply
    ensures { Answered bytes.now (asked bounds memo budget)
        (loan trail.old parts.old pairs.old entries.old desk.old)
        (loan trail.new parts.new pairs.new entries.new desk.new) result }
{
    capi::assembly_score(
        bytes, bounds, memo, budget, trail, parts, pairs, entries, desk,
    )
}
