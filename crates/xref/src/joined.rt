// The writers of a cell, by the tables: two chains joined.
ghost use Rattle.std.specs.Prelude.{true, ◌≡◌, ◌≤◌, length};
ghost use Rattle.lent.specs.Lent.{over};
ghost use Rattle.lent.specs.Outcome.{outcome};
ghost use Rattle.sh_map.specs.Map.{askable_of};
ghost use Rattle.wire.specs.Words.{words_of, pairs_of};
ghost use Rattle.writers.specs.Answer.{filled_of};
ghost use Rattle.xref.specs.Chain.{Held, least_of, after_of};
ghost use Rattle.xref.specs.Answer.{joined_of};

use refusal::Refusal;
use tables::keys;
use wire::words;

#[tactic(auto, unfolding(crate::specs::Chain::least_of))]
fn least(a: u16, b: u16) -> u16
    ensures { result ≡ least_of a b }
{
    if a < b {
        return a;
    }
    b
}

// What follows in a chain that is at an address, where the least address has been taken and is followed by another.
#[tactic(auto, unfolding(crate::specs::Chain::after_of))]
fn after(at: u16, taken: u16, next: u16) -> u16
    ensures { result ≡ after_of at taken next }
{
    if at == taken {
        return next;
    }
    at
}

// The addresses, and how many they are.
// A while, since both chains are walked by their links and not by a count.
fn join(program: &[u8], tables: &[u16], cell: usize, found: &mut [u16]) -> usize
    requires { Held program.now tables.now × (askable_of cell ≡ true) × (length found.old ≡ 4096) }
    ensures { (result ≡ length (joined_of (words_of program.now 4096) cell)) × (found.new ≡ over (joined_of (words_of program.now 4096) cell) found.old) }
{
    let mut own = tables[cell];
    let mut pointed = tables[0x0F];
    let mut a = least(own, pointed);
    let mut n: usize = 0;
    while a < keys::NONE {
        found[n] = a;
        n += 1;
        let next = tables[1024 + a as usize];
        own = after(own, a, next);
        pointed = after(pointed, a, next);
        a = least(own, pointed);
    }
    n
}

// The first n addresses as bytes, in the room.
fn fill(found: &[u16], n: usize, room: &mut [u8]) -> Result<usize, Refusal>
    requires { n ≤ 4096 }
    ensures { outcome result room.new ≡ filled_of (pairs_of found.now n) room.old }
{
    let needed = n * 2;
    if room.len() < needed {
        return Err(Refusal::Room(needed as u64));
    }
    words::put_words(found, n, room);
    Ok(needed)
}

// The writers of a cell, two bytes each.
pub fn answer(
    program: &[u8],
    tables: &[u16],
    cell: usize,
    room: &mut [u8],
) -> Result<usize, Refusal>
    requires { Held program.now tables.now × (askable_of cell ≡ true) }
    ensures { outcome result room.new ≡ filled_of (pairs_of (joined_of (words_of program.now 4096) cell) (length (joined_of (words_of program.now 4096) cell))) room.old }
{
    let mut found = [0u16; 4096];
    let n = join(program, tables, cell, &mut found);
    fill(&found, n, room)
}
