// What a search reads and never writes.
ghost use Rattle.std.specs.Prelude.{◌≡◌, ◌≤◌, length};
ghost use Rattle.matches.specs.Table.{pairs};
ghost use Rattle.state.specs.Inner.Scan.{rows_of};

use molecule::Molecule;
use search::Setting;
use state::scan::Rows;

// A molecule with the rows of its matches, and the setting of its search.
#[derive(Clone, Copy, Drop)]
pub struct Searched<'a> {
    pub molecule: &'a Molecule<'a>,
    pub rows: Rows<'a>,
    pub setting: Setting,
    ghost listed: { rows.words.now ≡ rows_of (pairs molecule.now.bytes.now) },
    ghost few: { length rows.words.now ≤ 4294967295 },
}
