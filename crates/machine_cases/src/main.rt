// Works the cases of standard input: each line is a letter and up to two hexadecimal numbers, and what the calls run and step answer and leave is written.
#![tactic(auto)]

mod desk;
mod drawn;
mod reader;
mod show;

use desk::{Case, ROOM_CELLS, ROOM_EVENTS, ROOM_WORDS};
use std::io;
use std::io::{BufWriter, Read, Write};

const ROOM_TEXT: u64 = 0x40000;

fn main(rt: HostRuntime) -> io::Result<()> {
    let alloc = rt.alloc();
    let mut out = BufWriter::new(alloc, io::writer(&rt))?;
    let mut text = Vec::new(alloc);
    rt.reader().take(ROOM_TEXT).read_to_end(&mut text)?;
    let mut program = [0xFFFFu16; ROOM_WORDS];
    let mut memory = [0u8; ROOM_CELLS];
    let mut script = Vec::with_capacity(alloc, ROOM_EVENTS)?;
    let mut case = Case::none();
    for line in text.chunk_by(|before, _| *before != b'\n') {
        case = worked(&mut out, case, line, &mut program, &mut memory, &mut script)?;
    }
    out.flush()
}

// A title is written; any other line does what it says, where it has an end.
fn worked(
    out: &mut impl Write,
    case: Case,
    line: &[u8],
    program: &mut [u16; ROOM_WORDS],
    memory: &mut [u8; ROOM_CELLS],
    script: &mut Vec<u8>,
) -> io::Result<Case> {
    let line = reader::begun(line);
    if line.starts_with(b"#") {
        out.write_all(line)?;
        return Ok(case);
    }
    let Some(said) = line.strip_suffix(b"\n") else {
        return Ok(case);
    };
    match reader::read(said) {
        Some(order) => desk::done(out, case, order, program, memory, script),
        None => Ok(case),
    }
}
