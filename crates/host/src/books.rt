// book_read and book_write, for C.
ghost use Rattle.std.specs.Prelude.{◌≡◌};
ghost use Rattle.refusal.specs.Told.{said, counted};
ghost use Rattle.book.specs.Book.{found, reading_told};
ghost use Rattle.book_write.specs.Writing.{written_told};
ghost use Rattle.host.specs.Told.{filled};
ghost use Rattle.host.specs.Books.{places, host_read_of, host_write_of};

use crate::told;
use book::Parts;
use refusal::Refusal;

fn put(
    p: Parts,
    program: &mut u64,
    program_len: &mut u64,
    wiring: &mut u64,
    wiring_len: &mut u64,
    level: &mut u64,
    level_len: &mut u64,
)
    ensures { places program.new program_len.new wiring.new wiring_len.new level.new level_len.new ≡ p }
{
    *program = p.program.offset as u64;
    *program_len = p.program.length as u64;
    *wiring = p.wiring.offset as u64;
    *wiring_len = p.wiring.length as u64;
    *level = p.level.offset as u64;
    *level_len = p.level.length as u64;
}

fn tell_read(
    a: Result<Parts, Refusal>,
    program: &mut u64,
    program_len: &mut u64,
    wiring: &mut u64,
    wiring_len: &mut u64,
    level: &mut u64,
    level_len: &mut u64,
    value: &mut u64,
) -> u32
    ensures { found (said result value.new) (places program.new program_len.new wiring.new wiring_len.new level.new level_len.new) ≡ reading_told a (places program.old program_len.old wiring.old wiring_len.old level.old level_len.old) }
{
    match a {
        Ok(p) => {
            put(
                p,
                program,
                program_len,
                wiring,
                wiring_len,
                level,
                level_len,
            );
            told::done(value)
        }
        Err(why) => told::refused(why, value),
    }
}

// Where each body of a book lies.
pub fn galhoveia_book_read(
    file: &[u8],
    program: &mut u64,
    program_len: &mut u64,
    wiring: &mut u64,
    wiring_len: &mut u64,
    level: &mut u64,
    level_len: &mut u64,
    value: &mut u64,
) -> u32
    ensures { found (said result value.new) (places program.new program_len.new wiring.new wiring_len.new level.new level_len.new) ≡ host_read_of file.now (places program.old program_len.old wiring.old wiring_len.old level.old level_len.old) }
{
    let a = book::read(file);
    tell_read(
        a,
        program,
        program_len,
        wiring,
        wiring_len,
        level,
        level_len,
        value,
    )
}

// A book of three bodies, in the lent room.
pub fn galhoveia_book_write(
    program: &[u8],
    wiring: &[u8],
    level: &[u8],
    room: &mut [u8],
    count: &mut u64,
    value: &mut u64,
) -> u32
    ensures { filled (counted (said result value.new) count.new) room.new ≡ host_write_of program.now wiring.now level.now room.old count.old }
{
    let a = book_write::write(program, wiring, level, room);
    told::amount(a, count, value)
}
