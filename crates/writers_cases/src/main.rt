// The writers of some cells in the programs that stand in stdin, one after the other: for each program and cell the addresses, a line each, or the refusal's number and value.
#![tactic(auto)]

use std::io;
use std::io::{BufWriter, Read, Write};
use wire::words;

// The first and last of data, display and scan, the first of bank 1, a cell at X = $0F of a bank, and three that can't be asked.
const CELLS: [u32; 14] = [
    0x020, 0x021, 0x07F, 0x080, 0x08F, 0x0A0, 0x16F, 0x300, 0x348, 0x358, 0x36D, 0x01F, 0x170,
    0x10020,
];

fn main(rt: HostRuntime) -> io::Result<()> {
    let mut out = BufWriter::new(rt.alloc(), io::writer(&rt))?;
    let mut input = rt.reader();
    for p in 0..4u8 {
        let mut body = Vec::new(rt.alloc());
        input
            .by_ref()
            .take(words::PROGRAM as u64)
            .read_to_end(&mut body)?;
        asked(&mut out, p, &words::words_of(&body))?;
    }
    out.flush()
}

// The answer for each cell in a program.
fn asked(out: &mut impl Write, p: u8, program: &[u16]) -> io::Result<()> {
    for cell in CELLS {
        writeln!(out, "program {p}, cell {cell:03x}")?;
        answered(out, program, cell)?;
    }
    Ok(())
}

fn answered(out: &mut impl Write, program: &[u16], cell: u32) -> io::Result<()> {
    let mut room = [0u16; 4096];
    match writers::list(program, cell, &mut room) {
        Ok(n) => addresses(out, &room, n),
        Err(why) => writeln!(
            out,
            "refused by {} with {}",
            refusal::number(why),
            refusal::value(why)
        ),
    }
}

fn addresses(out: &mut impl Write, room: &[u16], n: usize) -> io::Result<()> {
    for address in room.iter().take(n) {
        writeln!(out, "{address:03x}")?;
    }
    Ok(())
}
