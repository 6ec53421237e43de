// The cell that a word is kept under.
ghost use Rattle.std.specs.Prelude.{◌≡◌};
ghost use Rattle.tables.specs.Key.{keeps_of, kept_of, key_of};

use sh_map::map;

// No address, and no cell: a number and no option, since it stands so in the tables that C lends.
pub const NONE: u16 = 4096;

// Whether addresses are kept under a cell.
#[tactic(auto, unfolding(crate::specs::Key::keeps_of))]
pub fn keeps(cell: u16) -> bool
    ensures { result ≡ keeps_of cell }
{
    cell == 0x0F || map::askable(cell)
}

// The cell that a word is kept under.
#[tactic(auto, unfolding(crate::specs::Key::key_of))]
pub fn key(word: u16) -> u16
    ensures { result ≡ key_of word }
{
    if writers::changes(word) {
        return kept(writers::named(word));
    }
    NONE
}

// A cell, if addresses are kept under it.
#[tactic(auto, unfolding(crate::specs::Key::kept_of))]
fn kept(cell: u16) -> u16
    ensures { result ≡ kept_of cell }
{
    if keeps(cell) {
        return cell;
    }
    NONE
}
