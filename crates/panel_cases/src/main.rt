// A small book that is written out here by hand, read whole and damaged; the same bodies written as a book; pictures and levels. A line for each case: the answer, or the refusal's number and value.
#![tactic(auto)]

use book::Parts;
use refusal::Refusal;
use sh_state::machine::Machine;
use std::fmt::Display;
use std::io::{BufWriter, Write};
use std::{fmt, io};

// 16 bytes of contents, 8,192 of program, 2 elements of 3, a level of 5.
const LENGTH: usize = 8219;

// Elements at $300 bit 0 and $348 bit 3.
const WIRING: [u8; 6] = *b"\x03\x00\x00\x03\x48\x03";

// Digits at $020 and $021, ground 2.
const LEVEL: [u8; 5] = *b"\x00\x20\x00\x21\x02";

// A place in the book and what it is changed to: in the contents, the program, the wiring and the level.
const DAMAGES: [(usize, u8); 23] = [
    (0, 4),
    (3, 17),
    (10, 5),
    (13, 23),
    (16, 0),
    (8207, 0),
    (8208, 2),
    (8209, 0x48),
    (8209, 0x49),
    (8210, 3),
    (8210, 4),
    (8211, 4),
    (8212, 0x49),
    (8213, 4),
    (8214, 1),
    (8214, 2),
    (8214, 3),
    (8215, 0x1F),
    (8215, 0x21),
    (8216, 4),
    (8217, 0x20),
    (8218, 63),
    (8218, 64),
];

// Two digits and a ground.
const LEVELS: [(u8, u8, u8); 9] = [
    (1, 0, 2),
    (0, 1, 2),
    (7, 7, 0),
    (0, 0, 63),
    (0, 0, 0),
    (8, 0, 2),
    (0, 8, 2),
    (8, 8, 2),
    (8, 8, 64),
];

fn main(rt: HostRuntime) -> io::Result<()> {
    let mut out = BufWriter::new(rt.alloc(), io::writer(&rt))?;
    reads(&mut out)?;
    damages(&mut out)?;
    lengths(&mut out)?;
    writes(&mut out)?;
    refused_writes(&mut out)?;
    pictures(&mut out)?;
    refused_pictures(&mut out)?;
    levels(&mut out)?;
    refused_levels(&mut out)?;
    out.flush()
}

// A refusal's number and value.
#[derive(Clone, Copy)]
struct Refused(Refusal);

impl fmt::Display for Refused {
    fn fmt<W: fmt::Write>(&self, f: &mut fmt::Formatter<W>) -> fmt::Result {
        write!(
            f,
            "refused {} {}",
            refusal::number(self.0),
            refusal::value(self.0)
        )
    }
}

// A number and what it counts, or the refusal.
fn told(
    out: &mut impl Write,
    what: &str,
    answer: Result<impl Display + Drop, Refusal>,
) -> io::Result<()> {
    match answer {
        Ok(n) => writeln!(out, "{what} {n}"),
        Err(why) => writeln!(out, "{}", Refused(why)),
    }
}

// The book: NOP in every word of the program.
fn by_hand() -> [u8; LENGTH] {
    let mut book = [0xFF; LENGTH];
    book[..16].copy_from_slice(b"\x03\x01\x00\x10\x20\x00\x02\x20\x10\x00\x06\x03\x20\x16\x00\x05");
    book[8208..8214].copy_from_slice(&WIRING);
    book[8214..].copy_from_slice(&LEVEL);
    book
}

// Where a body lies.
fn place(out: &mut impl Write, name: &str, p: book::Place) -> io::Result<()> {
    writeln!(out, "{name} at {}, {} bytes", p.offset, p.length)
}

fn reads(out: &mut impl Write) -> io::Result<()> {
    let file = by_hand();
    match book::read(&file) {
        Ok(parts) => {
            place(out, "program", parts.program)?;
            place(out, "wiring", parts.wiring)?;
            place(out, "level", parts.level)
        }
        Err(why) => writeln!(out, "{}", Refused(why)),
    }
}

// What a reading comes to.
fn accepted(out: &mut impl Write, r: Result<Parts, Refusal>) -> io::Result<()> {
    match r {
        Ok(_) => writeln!(out, "accepted"),
        Err(why) => writeln!(out, "{}", Refused(why)),
    }
}

// Whether the book with another value in a byte is refused by its contents; not for the value that it has.
fn refused_by_contents(at: usize, v: u8) -> bool {
    let mut file = by_hand();
    if lent::peek(&file, at) == v {
        return false;
    }
    lent::poke(&mut file, at, v);
    matches!(book::read(&file), Err(Refusal::Contents))
}

fn damages(out: &mut impl Write) -> io::Result<()> {
    for at in 0..16usize {
        let others = (0..=255u8).filter(|v| refused_by_contents(at, *v)).count();
        writeln!(out, "byte {at}: refused by 10 with {others} other values")?;
    }
    for (at, v) in DAMAGES {
        damaged(out, at, v)?;
    }
    Ok(())
}

// The book with one byte changed.
fn damaged(out: &mut impl Write, at: usize, v: u8) -> io::Result<()> {
    write!(out, "byte {at} as {v}: ")?;
    let mut file = by_hand();
    lent::poke(&mut file, at, v);
    accepted(out, book::read(&file))
}

// Two bytes changed, of two bodies or of a body and the contents.
fn damaged_twice(out: &mut impl Write, at: usize, v: u8, other: usize, w: u8) -> io::Result<()> {
    write!(out, "bytes {at} and {other}: ")?;
    let mut file = by_hand();
    lent::poke(&mut file, at, v);
    lent::poke(&mut file, other, w);
    accepted(out, book::read(&file))
}

fn lengths(out: &mut impl Write) -> io::Result<()> {
    damaged_twice(out, 8218, 64, 8210, 4)?;
    damaged_twice(out, 8210, 4, 15, 6)?;
    let file = by_hand();
    write!(out, "a byte less: ")?;
    accepted(out, book::read(book::part(&file, 0, 8218)))?;
    let mut longer = [0; 8220];
    longer[..LENGTH].copy_from_slice(&file);
    write!(out, "a byte more: ")?;
    accepted(out, book::read(&longer))?;
    write!(out, "nothing: ")?;
    accepted(out, book::read(b""))
}

fn yes(is: bool) -> &'static str {
    if is { "yes" } else { "no" }
}

// The bodies of the book by hand, written again.
fn writes(out: &mut impl Write) -> io::Result<()> {
    let file = by_hand();
    let mut room = [7; 8221];
    write!(out, "write: ")?;
    told(
        out,
        "bytes",
        book_write::write(&file[16..8208], &WIRING, &LEVEL, &mut room),
    )?;
    writeln!(out, "the book by hand: {}", yes(room.starts_with(&file)))?;
    writeln!(
        out,
        "beyond it as before: {}",
        yes(room.ends_with(b"\x07\x07"))
    )
}

// A write that is refused, and whether the room is as it was.
fn refused_write(
    out: &mut impl Write,
    name: &str,
    program: &[u8],
    wiring: &[u8],
    level: &[u8],
) -> io::Result<()> {
    write!(out, "{name}: ")?;
    let mut room = [7; 8218];
    told(
        out,
        "bytes",
        book_write::write(program, wiring, level, &mut room),
    )?;
    writeln!(out, "the room as before: {}", yes(room == [7; 8218]))
}

fn refused_writes(out: &mut impl Write) -> io::Result<()> {
    let program = [0xFF; 8192];
    let cases: [(&str, &[u8], &[u8], &[u8]); 11] = [
        ("room of 8218", &program, &WIRING, &LEVEL),
        ("240 elements", &program, &[3; 720], &LEVEL),
        ("241 elements", &program, &[3; 723], &LEVEL),
        ("no element", &program, b"", &LEVEL),
        (
            "7 bytes of wiring",
            &program,
            b"\x03\x00\x00\x03\x48\x03\x03",
            &LEVEL,
        ),
        ("8191 bytes of program", &program[..8191], &WIRING, &LEVEL),
        ("4 bytes of level", &program, &WIRING, &LEVEL[..4]),
        ("bit 4", &program, b"\x03\x00\x04", &LEVEL),
        ("equal cells", &program, &WIRING, b"\x00\x20\x00\x20\x02"),
        (
            "bit 4 and equal cells",
            &program,
            b"\x03\x00\x04",
            b"\x00\x20\x00\x20\x02",
        ),
        (
            "bit 4 and 4 bytes of level",
            &program,
            b"\x03\x00\x04",
            &LEVEL[..4],
        ),
    ];
    for (name, program, wiring, level) in cases {
        refused_write(out, name, program, wiring, level)?;
    }
    Ok(())
}

// A memory with these in $007, $300 and $348.
fn memory(lcd: u8, first: u8, second: u8) -> [u8; Machine::CELLS] {
    let mut cells = [0; Machine::CELLS];
    cells[0x007] = lcd;
    cells[0x300] = first;
    cells[0x348] = second;
    cells
}

// The picture of a fresh machine in a mode, by a memory that is lent, and the room of three bytes as it is left.
fn picture_of(
    out: &mut impl Write,
    name: &str,
    mode: u8,
    cells: &[u8],
    wiring: &[u8],
) -> io::Result<()> {
    let mut m = Machine::fresh(0);
    m.mode = mode;
    let mut room = [7; 3];
    write!(out, "{name}: ")?;
    told(
        out,
        "elements",
        picture::picture(m, cells, wiring, &mut room),
    )?;
    writeln!(out, "  room {} {} {}", room[0], room[1], room[2])
}

// By $007, $300 and $348 in a mode.
fn pictures(out: &mut impl Write) -> io::Result<()> {
    let cases = [
        ("both lit", 0, 4, 1, 8),
        ("first lit", 0, 4, 15, 7),
        ("second lit", 0, 4, 14, 15),
        ("LCDON 0", 0, 3, 15, 15),
        ("HALT", 1, 4, 1, 8),
        ("STOP", 2, 4, 1, 8),
    ];
    for (name, mode, lcd, first, second) in cases {
        picture_of(out, name, mode, &memory(lcd, first, second), &WIRING)?;
    }
    Ok(())
}

fn refused_pictures(out: &mut impl Write) -> io::Result<()> {
    let lit = memory(4, 1, 8);
    picture_of(out, "memory of 3", 3, b"\x10\x10\x10", b"")?;
    picture_of(out, "a cell of 16", 3, &memory(4, 16, 0), b"")?;
    picture_of(out, "mode 3", 3, &lit, b"")?;
    picture_of(out, "no element", 0, &lit, b"")?;
    picture_of(out, "bit 4", 0, &lit, b"\x03\x00\x04\x03\x48\x03")?;
    picture_of(out, "4 elements", 0, &lit, &[3; 12])
}

// The level of two digits at $020 and $021.
fn level(out: &mut impl Write, high: u8, low: u8, ground: u8) -> io::Result<()> {
    write!(out, "digits {high},{low} ground {ground}: ")?;
    let mut cells = [0; Machine::CELLS];
    cells[0x020] = high;
    cells[0x021] = low;
    let body = [0x00, 0x20, 0x00, 0x21, ground];
    told(out, "level", level::level(&cells, &body))
}

fn levels(out: &mut impl Write) -> io::Result<()> {
    for (high, low, ground) in LEVELS {
        level(out, high, low, ground)?;
    }
    Ok(())
}

fn refused_level(out: &mut impl Write, name: &str, cells: &[u8], body: &[u8]) -> io::Result<()> {
    write!(out, "{name}: ")?;
    told(out, "level", level::level(cells, body))
}

fn refused_levels(out: &mut impl Write) -> io::Result<()> {
    let dark = memory(0, 0, 0);
    refused_level(out, "memory of 3", b"\x10\x10\x10", b"")?;
    refused_level(out, "a cell of 16", &memory(4, 16, 0), b"")?;
    refused_level(out, "4 bytes", &dark, b"\x00\x20\x00\x21")?;
    refused_level(out, "equal cells", &dark, b"\x00\x20\x00\x20\x02")?;
    refused_level(out, "a register", &dark, b"\x00\x07\x00\x20\x02")?;
    refused_level(
        out,
        "a scan cell and a display cell",
        &memory(0, 0, 5),
        b"\x03\x58\x03\x48\x02",
    )
}
