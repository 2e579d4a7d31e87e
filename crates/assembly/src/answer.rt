// What score answers.
ghost use Rattle.std.specs.Prelude.{◌≡◌};

use molecule::{Fault, Refusal};
use recurse::visit::Halt;
use tabulate::build::Full;

// The index, the matches of the record, the states entered, and how many removals the trail has: a number, since the trail is the caller's.
#[derive(Clone, Copy, Debug, PartialEq, Eq)]
pub struct Score {
    pub index: u32,
    pub matches: u64,
    pub states: u32,
    pub length: u32,
}

// Why a record is not scored: check's rows, the record; 7, the setting; 8, the trail or the desk, which is too short; 9 and 10, a table;
// 11 and 12, what ends the search early.
#[derive(Clone, Copy, Debug, PartialEq, Eq)]
pub enum ScoreRefusal {
    Record(Fault),
    Setting,
    Lent,
    Full(Full),
    Halt(Halt),
}

// By hand, here and below: the From that the kit's `thiserror` derives has no contract.
impl From<Fault> for ScoreRefusal {
    ghost use Rattle.assembly.specs.declared.answer.ScoreRefusal.TheVariants.{Record};

    ghost from_gives = { λ fault refusal. refusal ≡ Record fault };

    fn from(fault: Fault) -> ScoreRefusal {
        ScoreRefusal::Record(fault)
    }
}

impl From<Full> for ScoreRefusal {
    ghost use Rattle.assembly.specs.declared.answer.ScoreRefusal.TheVariants.{Full as full_variant};

    ghost from_gives = { λ full refusal. refusal ≡ full_variant full };

    fn from(full: Full) -> ScoreRefusal {
        ScoreRefusal::Full(full)
    }
}

impl From<Halt> for ScoreRefusal {
    ghost use Rattle.assembly.specs.declared.answer.ScoreRefusal.TheVariants.{Halt as halt_variant};

    ghost from_gives = { λ halt refusal. refusal ≡ halt_variant halt };

    fn from(halt: Halt) -> ScoreRefusal {
        ScoreRefusal::Halt(halt)
    }
}

impl Refusal for ScoreRefusal {
    ghost use Rattle.assembly.specs.Answer.{refusal_number, refusal_place};

    ghost number_of = { refusal_number };

    ghost place_of = { refusal_place };

    fn number(self) -> u32 {
        match self {
            ScoreRefusal::Record(fault) => fault.number(),
            ScoreRefusal::Setting => 7,
            ScoreRefusal::Lent => 8,
            ScoreRefusal::Full(full) => full.number(),
            ScoreRefusal::Halt(Halt::Budget(_)) => 11,
            ScoreRefusal::Halt(Halt::Memo(_)) => 12,
        }
    }

    fn place(self) -> u64 {
        match self {
            ScoreRefusal::Record(fault) => fault.place(),
            ScoreRefusal::Setting | ScoreRefusal::Lent => 0,
            ScoreRefusal::Full(full) => full.place(),
            ScoreRefusal::Halt(Halt::Budget(n) | Halt::Memo(n)) => u64::from(n),
        }
    }
}
