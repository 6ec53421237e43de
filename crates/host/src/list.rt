// list, for C.
ghost use Rattle.std.specs.Prelude.{◌≡◌, ◌≤◌};
ghost use Rattle.wire.specs.Words.{words_of, pairs_of};
ghost use Rattle.refusal.specs.Told.{said, counted};
ghost use Rattle.writers.specs.Answer.{filled_of, listed_told};
ghost use Rattle.host.specs.Told.{filled, room_told};
ghost use Rattle.host.specs.List.{asked_of, host_list_of};

use crate::told;
use refusal::Refusal;
use wire::words;

// The first n addresses as bytes, in the room.
fn fill(ws: &[u16], n: usize, room: &mut [u8], count: &mut u64, value: &mut u64) -> u32
    requires { n ≤ 4096 }
    ensures { filled (counted (said result value.new) count.new) room.new ≡ room_told listed_told (filled_of (pairs_of ws.now n) room.old) count.old }
{
    let needed = n * 2;
    if room.len() < needed {
        return told::refused(Refusal::Room(needed as u64), value);
    }
    words::put_words(ws, n, room);
    told::written(needed as u64, count, value)
}

// The list of a program's words.
fn asked(program: &[u8], cell: u32, room: &mut [u8], count: &mut u64, value: &mut u64) -> u32
    ensures { filled (counted (said result value.new) count.new) room.new ≡ room_told listed_told (asked_of (words_of program.now 4096) cell room.old) count.old }
{
    let w = words::words_of(program);
    let mut found = [0u16; 4096];
    let a = writers::list(&w, cell, &mut found);
    match a {
        Ok(n) => fill(&found, n, room, count, value),
        Err(why) => told::refused(why, value),
    }
}

// The addresses at which the instruction can leave the cell with another value, two bytes each, in the lent room.
#[tactic(auto, unfolding(crate::specs::List::host_list_of, crate::specs::Told::room_told, writers::specs::Answer::listed_told))]
pub fn galhoveia_list(
    program: &[u8],
    cell: u32,
    room: &mut [u8],
    count: &mut u64,
    value: &mut u64,
) -> u32
    ensures { filled (counted (said result value.new) count.new) room.new ≡ host_list_of program.now cell room.old count.old }
{
    if program.len() != words::PROGRAM {
        return told::refused(Refusal::ProgramLength(program.len() as u64), value);
    }
    asked(program, cell, room, count, value)
}
