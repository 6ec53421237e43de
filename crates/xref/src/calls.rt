// The three calls: the tables of a program, the writers of a cell by them, and a word replaced.
ghost use Rattle.std.specs.Prelude.{true, false, ◌≡◌, ◌<◌, length, MatchResult};
ghost use Rattle.lent.specs.Outcome.{outcome};
ghost use Rattle.refusal.specs.declared.Refusal.TheVariants.{ProgramLength, Tables};
ghost use Rattle.sh_map.specs.Map.{askable_of};
ghost use Rattle.tables.specs.Tables.{matches_of};
ghost use Rattle.wire.specs.Words.{words_of};
ghost use Rattle.xref.specs.Answer.{answered_of, list_of};
ghost use Rattle.xref.specs.Replace.{build_of, replaced, changed_of, replace_of};

use crate::{chain, joined};
use refusal::Refusal;
use tables::fresh;
use wire::words;

// A program is 8,192 bytes.
fn sized(program: &[u8]) -> Result<(), Refusal>
    ensures { MatchResult result (λ _. length program.now ≡ 8192) (λ why. (why ≡ ProgramLength (length program.now)) × (length program.now ≡ 8192 → ⊥)) }
{
    if program.len() == words::PROGRAM {
        Ok(())
    } else {
        Err(Refusal::ProgramLength(program.len() as u64))
    }
}

// The tables are the program's.
fn matched(program: &[u8], tables: &[u16]) -> Result<(), Refusal>
    requires { length program.now ≡ 8192 }
    ensures { MatchResult result (λ _. matches_of (words_of program.now 4096) tables.now ≡ true) (λ why. (why ≡ Tables) × (matches_of (words_of program.now 4096) tables.now ≡ false)) }
{
    if fresh::matches(program, tables) {
        Ok(())
    } else {
        Err(Refusal::Tables)
    }
}

// The tables of a program, in the lent numbers.
pub fn build(program: &[u8], tables: &mut [u16]) -> Result<(), Refusal>
    ensures { outcome result tables.new ≡ build_of program.now tables.old }
{
    sized(program)?;
    if tables.len() < fresh::NUMBERS {
        return Err(Refusal::Room(fresh::NUMBERS as u64));
    }
    fresh::write(program, tables);
    Ok(())
}

// The writers of a cell, if the tables are the program's.
#[tactic(auto, unfolding(crate::specs::Answer::answered_of))]
fn answered(program: &[u8], tables: &[u16], cell: usize, room: &mut [u8]) -> Result<usize, Refusal>
    requires { (length program.now ≡ 8192) × (askable_of cell ≡ true) }
    ensures { outcome result room.new ≡ answered_of (words_of program.now 4096) tables.now cell room.old }
{
    matched(program, tables)?;
    joined::answer(program, tables, cell, room)
}

// The addresses at which the instruction can leave the cell with another value, ascending, two bytes each, and how many bytes they are.
pub fn list(program: &[u8], tables: &[u16], cell: u32, room: &mut [u8]) -> Result<usize, Refusal>
    ensures { outcome result room.new ≡ list_of program.now tables.now cell room.old }
{
    sized(program)?;
    if !writers::askable(cell) {
        return Err(Refusal::NotAskable(cell as u64));
    }
    answered(program, tables, cell as usize, room)
}

// A word replaced, if the tables are the program's.
#[tactic(auto, unfolding(crate::specs::Replace::changed_of))]
fn changed(program: &mut [u8], tables: &mut [u16], address: usize, word: u16) -> Result<(), Refusal>
    requires { (length program.old ≡ 8192) × (address < 4096) }
    ensures { replaced result program.new tables.new ≡ changed_of program.old tables.old address word }
{
    matched(program, tables)?;
    chain::change(program, tables, address, word);
    Ok(())
}

// The word at an address replaced, in the program and in its tables.
pub fn replace(
    program: &mut [u8],
    tables: &mut [u16],
    address: u32,
    word: u16,
) -> Result<(), Refusal>
    ensures { replaced result program.new tables.new ≡ replace_of program.old tables.old address word }
{
    sized(program)?;
    if address < 4096 {
        return changed(program, tables, address as usize, word);
    }
    Err(Refusal::Field)
}
