// The exports for C: each call of `host` under the name and with the clause that it has there.
#![tactic(auto)]

ghost use Rattle.book.specs.Book.{found};
ghost use Rattle.call_run.specs.Run.{stopped};
ghost use Rattle.call_two.specs.RunTwo.{outs};
ghost use Rattle.host.specs.Books.{host_read_of, host_write_of, places};
ghost use Rattle.host.specs.Fresh.{host_fresh_of};
ghost use Rattle.host.specs.Level.{host_level_of};
ghost use Rattle.host.specs.List.{host_list_of};
ghost use Rattle.host.specs.Listings.{host_listing_read_of, host_listing_write_of, stored};
ghost use Rattle.host.specs.Picture.{host_picture_of};
ghost use Rattle.host.specs.References.{host_build_of, host_replace_of, host_xref_list_of, kept};
ghost use Rattle.host.specs.Run.{host_run_of, ran};
ghost use Rattle.host.specs.RunTwo.{car_bytes, host_run_two_of, two_ran};
ghost use Rattle.host.specs.Step.{host_step_of, stepped};
ghost use Rattle.host.specs.Told.{filled};
ghost use Rattle.level.specs.Level.{levels};
ghost use Rattle.refusal.specs.Told.{counted, said};
ghost use Rattle.std.specs.Prelude.{◌≡◌};

use host::{books, fresh, levels, list, listings, pictures, references, run, step, two};

// Where each body of a book lies.
#[unsafe(no_mangle)]
pub extern "C" fn galhoveia_book_read(
    file: &[u8],
    program: &mut u64,
    program_len: &mut u64,
    wiring: &mut u64,
    wiring_len: &mut u64,
    level: &mut u64,
    level_len: &mut u64,
    value: &mut u64,
) -> u32
    ensures { found (said result value.new) (places program.new program_len.new wiring.new wiring_len.new level.new level_len.new) ≡ host_read_of file.now (places program.old program_len.old wiring.old wiring_len.old level.old level_len.old) }
{
    books::galhoveia_book_read(
        file,
        program,
        program_len,
        wiring,
        wiring_len,
        level,
        level_len,
        value,
    )
}

// A book of three bodies, in the lent room.
#[unsafe(no_mangle)]
pub extern "C" fn galhoveia_book_write(
    program: &[u8],
    wiring: &[u8],
    level: &[u8],
    room: &mut [u8],
    count: &mut u64,
    value: &mut u64,
) -> u32
    ensures { filled (counted (said result value.new) count.new) room.new ≡ host_write_of program.now wiring.now level.now room.old count.old }
{
    books::galhoveia_book_write(program, wiring, level, room, count, value)
}

// A fresh machine of the options given, in the lent memory and record.
#[unsafe(no_mangle)]
pub extern "C" fn galhoveia_fresh(
    memory: &mut [u8],
    bytes: &mut [u8],
    options: u32,
    value: &mut u64,
) -> u32
    ensures { stepped (said result value.new) memory.new bytes.new ≡ host_fresh_of options memory.old bytes.old }
{
    fresh::galhoveia_fresh(memory, bytes, options, value)
}

// The level that the memory's two digits show, around the ground stop.
#[unsafe(no_mangle)]
pub extern "C" fn galhoveia_level(
    memory: &[u8],
    body: &[u8],
    level: &mut i32,
    value: &mut u64,
) -> u32
    ensures { levels (said result value.new) level.new ≡ host_level_of memory.now body.now level.old }
{
    levels::galhoveia_level(memory, body, level, value)
}

// The addresses at which the instruction can leave the cell with another value, two bytes each, in the lent room.
#[unsafe(no_mangle)]
pub extern "C" fn galhoveia_list(
    program: &[u8],
    cell: u32,
    room: &mut [u8],
    count: &mut u64,
    value: &mut u64,
) -> u32
    ensures { filled (counted (said result value.new) count.new) room.new ≡ host_list_of program.now cell room.old count.old }
{
    list::galhoveia_list(program, cell, room, count, value)
}

// A program's listing, in the lent room.
#[unsafe(no_mangle)]
pub extern "C" fn galhoveia_listing_write(
    program: &[u8],
    text: &mut [u8],
    count: &mut u64,
    value: &mut u64,
) -> u32
    ensures { filled (counted (said result value.new) count.new) text.new ≡ host_listing_write_of program.now text.old count.old }
{
    listings::galhoveia_listing_write(program, text, count, value)
}

// The program of a listing, in the lent room.
#[unsafe(no_mangle)]
pub extern "C" fn galhoveia_listing_read(text: &[u8], program: &mut [u8], value: &mut u64) -> u32
    ensures { stored (said result value.new) program.new ≡ host_listing_read_of text.now program.old }
{
    listings::galhoveia_listing_read(text, program, value)
}

// The picture that the machine shows, one byte for each element of the wiring, in the lent room.
#[unsafe(no_mangle)]
pub extern "C" fn galhoveia_picture(
    memory: &[u8],
    bytes: &[u8],
    wiring: &[u8],
    room: &mut [u8],
    count: &mut u64,
    value: &mut u64,
) -> u32
    ensures { filled (counted (said result value.new) count.new) room.new ≡ host_picture_of memory.now bytes.now wiring.now room.old count.old }
{
    pictures::galhoveia_picture(memory, bytes, wiring, room, count, value)
}

// The tables of a program, in the lent numbers.
#[unsafe(no_mangle)]
pub extern "C" fn galhoveia_xref_build(program: &[u8], tables: &mut [u16], value: &mut u64) -> u32
    ensures { stored (said result value.new) tables.new ≡ host_build_of program.now tables.old }
{
    references::galhoveia_xref_build(program, tables, value)
}

// The writers of a cell by the tables, two bytes each, in the lent room.
#[unsafe(no_mangle)]
pub extern "C" fn galhoveia_xref_list(
    program: &[u8],
    tables: &[u16],
    cell: u32,
    room: &mut [u8],
    count: &mut u64,
    value: &mut u64,
) -> u32
    ensures { filled (counted (said result value.new) count.new) room.new ≡ host_xref_list_of program.now tables.now cell room.old count.old }
{
    references::galhoveia_xref_list(program, tables, cell, room, count, value)
}

// A word of the lent program replaced, with its tables.
#[unsafe(no_mangle)]
pub extern "C" fn galhoveia_xref_replace(
    program: &mut [u8],
    tables: &mut [u16],
    address: u32,
    word: u16,
    value: &mut u64,
) -> u32
    ensures { kept (said result value.new) program.new tables.new ≡ host_replace_of program.old tables.old address word }
{
    references::galhoveia_xref_replace(program, tables, address, word, value)
}

// A script of events on the machine in the lent memory and record.
#[unsafe(no_mangle)]
pub extern "C" fn galhoveia_run(
    program: &[u8],
    memory: &mut [u8],
    bytes: &mut [u8],
    script: &[u8],
    stop: u32,
    reason: &mut u32,
    events: &mut u64,
    value: &mut u64,
) -> u32
    ensures { ran (stopped (said result value.new) reason.new events.new) memory.new bytes.new ≡ host_run_of program.now memory.old bytes.old script.now stop reason.old events.old }
{
    run::galhoveia_run(program, memory, bytes, script, stop, reason, events, value)
}

// One event on the machine in the lent memory and record.
#[unsafe(no_mangle)]
pub extern "C" fn galhoveia_step(
    program: &[u8],
    memory: &mut [u8],
    bytes: &mut [u8],
    event: u8,
    value: &mut u64,
) -> u32
    ensures { stepped (said result value.new) memory.new bytes.new ≡ host_step_of program.now memory.old bytes.old event }
{
    step::galhoveia_step(program, memory, bytes, event, value)
}

// A script of two cars on the machines in the lent memories and records, with their pictures.
#[unsafe(no_mangle)]
pub extern "C" fn galhoveia_run_two(
    program: &[u8],
    wiring: &[u8],
    memory: &mut [u8],
    bytes: &mut [u8],
    room: &mut [u8],
    memory1: &mut [u8],
    bytes1: &mut [u8],
    room1: &mut [u8],
    script: &[u8],
    stop: u32,
    stop1: u32,
    reason: &mut u32,
    reason1: &mut u32,
    entries: &mut u64,
    value: &mut u64,
) -> u32
    ensures { two_ran (outs (said result value.new) reason.new reason1.new entries.new) (car_bytes memory.new bytes.new room.new) (car_bytes memory1.new bytes1.new room1.new) ≡ host_run_two_of program.now wiring.now (car_bytes memory.old bytes.old room.old) (car_bytes memory1.old bytes1.old room1.old) script.now stop stop1 reason.old reason1.old entries.old }
{
    two::galhoveia_run_two(
        program, wiring, memory, bytes, room, memory1, bytes1, room1, script, stop, stop1, reason,
        reason1, entries, value,
    )
}
