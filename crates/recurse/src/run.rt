// The search of a molecule from its root, with a slate for labels.
ghost use Rattle.std.specs.Prelude.{length};
ghost use Rattle.search.specs.Setting.{memo_room};
ghost use Rattle.recurse.specs.Inner.Follows.{MayStart, Searches};

use crate::visit;
use crate::visit::{Found, Halt};
use branch::searched::Searched;
use canonize::Slate;

// The search with an empty memo and a desk on which what is said holds.
pub fn run(searched: &Searched, memo: &mut [u64], desk: &mut [u64]) -> Result<Found, Halt>
    requires { MayStart searched.now.molecule.now.bytes.now memo.old desk.old }
    ensures { Searches searched.now.molecule.now.bytes.now searched.now.setting (memo_room (length memo.old)) result memo.new }
{
    let mut slate = Slate::new();
    visit::search(searched, memo, desk, &mut slate)
}
