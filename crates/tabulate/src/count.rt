// How many matches a record has, where the lent tables have room for them.
ghost use Rattle.std.specs.Prelude.{◌≡◌, length};
ghost use Rattle.tabulate.specs.Counted.{count_answer, table_after, answer_of};

use crate::build;
use crate::build::Full;
use molecule::{Fault, Molecule, Refusal};

// Why matches are not counted: check's rows, the record; 9 and 10, a table.
#[derive(Clone, Copy, Debug, PartialEq, Eq)]
pub enum CountRefusal {
    Record(Fault),
    Full(Full),
}

// By hand: the From that the kit's `thiserror` derives has no contract.
impl From<Fault> for CountRefusal {
    ghost use Rattle.tabulate.specs.declared.count.CountRefusal.TheVariants.{Record};

    ghost from_gives = { λ fault refusal. refusal ≡ Record fault };

    fn from(fault: Fault) -> CountRefusal {
        CountRefusal::Record(fault)
    }
}

impl From<Full> for CountRefusal {
    ghost use Rattle.tabulate.specs.declared.count.CountRefusal.TheVariants.{Full as full_variant};

    ghost from_gives = { λ full refusal. refusal ≡ full_variant full };

    fn from(full: Full) -> CountRefusal {
        CountRefusal::Full(full)
    }
}

impl Refusal for CountRefusal {
    ghost use Rattle.tabulate.specs.Counted.{refusal_number, refusal_place};

    ghost number_of = { refusal_number };

    ghost place_of = { refusal_place };

    fn number(self) -> u32 {
        match self {
            CountRefusal::Record(fault) => fault.number(),
            CountRefusal::Full(full) => full.number(),
        }
    }

    fn place(self) -> u64 {
        match self {
            CountRefusal::Record(fault) => fault.place(),
            CountRefusal::Full(full) => full.place(),
        }
    }
}

// The number of matches of a record.
pub fn count(bytes: &[u8], parts: &mut [u64], pairs: &mut [u64]) -> Result<u64, CountRefusal>
    ensures answer { answer_of result ≡ count_answer bytes.now (length parts.old) (length pairs.old) }
    ensures parts { parts.new ≡ table_after bytes.now parts.old }
    ensures pairs { pairs.new ≡ table_after bytes.now pairs.old }
{
    let molecule = Molecule::read(bytes)?;
    let built = build::build(&molecule, parts, pairs);
    clear::zero(parts);
    clear::zero(pairs);
    Ok(built?)
}
