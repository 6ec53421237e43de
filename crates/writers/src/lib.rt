// The list of writers (the inspector's third question, demand 3): which addresses of a program hold an instruction that can leave a cell
// with another value.
#![tactic(auto)]

ghost use Rattle.std.specs.Prelude.{◌≡◌, ◌≤◌, length};
ghost use Rattle.lent.specs.Lent.{over};
ghost use Rattle.lent.specs.Outcome.{outcome};
ghost use Rattle.sh_map.specs.Map.{askable_of};
ghost use Rattle.writers.specs.Test.{names, writes_of};
ghost use Rattle.writers.specs.Bits.{named_of, row_of, may_of};
ghost use Rattle.writers.specs.List.{writers_of};
ghost use Rattle.writers.specs.Answer.{filled_of, list_of};

use refusal::Refusal;
use sh_map::map;
use sh_state::machine::Machine;

// Whether an address can mean a cell.
#[tactic(auto, unfolding(crate::specs::Test::names))]
fn names_cell(x: u16, cell: u16) -> bool
    ensures { result ≡ names x cell }
{
    x == cell || x == 0x0F
}

// The address that a word names.
#[tactic(auto, unfolding(crate::specs::Bits::named_of))]
pub fn named(word: u16) -> u16
    ensures { result ≡ named_of word }
{
    if word < 0x4000 {
        word % 1024
    } else {
        word % 128
    }
}

// A code's row: for each value of a word's bits 10-7 a bit, whether it writes what can differ.
#[tactic(auto, using(crate::proofs::Bits::bank_rows), unfolding(crate::specs::Bits::row_of, crate::specs::Bits::rows))]
fn row(code: u16) -> u16
    ensures { result ≡ row_of code }
{
    match code {
        0..=7 => 0xFF00,
        9 | 11..=13 => 0xFFFE,
        14 => 0x7FFF,
        15 => 0xFFFF,
        25 => 0x0440,
        _ => 0,
    }
}

// Whether what a word writes to the cell that it names can be another value.
#[tactic(auto, unfolding(crate::specs::Bits::may_of))]
pub fn changes(word: u16) -> bool
    ensures { result ≡ may_of word }
{
    let bits = row(word / 2048);
    (bits >> (word / 128 % 16)) % 2 == 1
}

// Whether a word's instruction can leave a cell of data, display or scan with another value; a word that is not listed is none.
#[tactic(auto, using(crate::proofs::Bits::writes_by_bits))]
pub fn writes(word: u16, cell: u16) -> bool
    ensures { result ≡ writes_of word cell }
{
    names_cell(named(word), cell) && changes(word)
}

// Whether a cell can be asked about, whatever number it is.
#[tactic(auto, using(crate::proofs::Laws::askable_past))]
pub fn askable(cell: u32) -> bool
    ensures { result ≡ askable_of cell }
{
    cell < 0x10000 && map::askable(cell as u16)
}

// How many writers the list has.
#[tactic(auto, using(crate::proofs::Laws::writers_count), unfolding(crate::specs::List::writers_of))]
fn count(program: &[u16], cell: u16) -> usize
    ensures { result ≡ length (writers_of program.now cell) }
{
    program.iter().filter(|word| writes(**word, cell)).count()
}

// The list in the room, and its length; what stands beyond it stays.
#[tactic(auto, using(crate::proofs::Laws::placed_start), unfolding(crate::specs::List::writers_of))]
fn fill(program: &[u16], cell: u16, room: &mut [u16]) -> usize
    requires { (length program.now ≡ 4096) × (length (writers_of program.now cell) ≤ length room.old) }
    ensures { (result ≡ length (writers_of program.now cell)) × (room.new ≡ over (writers_of program.now cell) room.old) }
{
    let mut n: usize = 0;
    for (a, word) in program.iter().enumerate() {
        if writes(*word, cell) {
            room[n] = a as u16;
            n += 1;
        }
    }
    n
}

// A room for as many addresses as there are words is filled in one pass; one that may be too small has the writers counted before any is
// written.
#[tactic(auto, using(crate::proofs::Laws::few), unfolding(crate::specs::Answer::filled_of, crate::specs::List::writers_of))]
fn fill_room(program: &[u16], cell: u16, room: &mut [u16]) -> Result<usize, Refusal>
    requires { length program.now ≡ 4096 }
    ensures { outcome result room.new ≡ filled_of (writers_of program.now cell) room.old }
{
    if room.len() < Machine::WORDS {
        let n = count(program, cell);
        if room.len() < n {
            return Err(Refusal::Room(n as u64));
        }
    }
    Ok(fill(program, cell, room))
}

// The addresses at which the instruction can leave the cell with another value, ascending, and how many they are.
#[tactic(auto, using(crate::proofs::Cell::past_registers), unfolding(crate::specs::Answer::list_of))]
pub fn list(program: &[u16], cell: u32, room: &mut [u16]) -> Result<usize, Refusal>
    ensures { outcome result room.new ≡ list_of program.now cell room.old }
{
    if program.len() != Machine::WORDS {
        return Err(Refusal::ProgramLength(program.len() as u64));
    }
    if !askable(cell) {
        return Err(Refusal::NotAskable(cell as u64));
    }
    fill_room(program, cell as u16, room)
}
