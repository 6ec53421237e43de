// The twelve numbers of 01, "Numbers to check by", in the paper's own lines, 5 and 6 as 02, P6 has them: what a line tells is what the
// code answers.
#![tactic(auto)]

use sh_state::machine::Machine;
use std::io;
use std::io::{BufWriter, Write};
use word::{ImmediateOperation, Instruction, Operation};

const NOP: u16 = 0xFFFF;

const CELL: u16 = 0x020;

const TBR: usize = 0x00E;

// What an instruction leaves.
#[derive(Clone, Copy)]
struct After {
    pc: u16,
    ac: u8,
    cy: u8,
    cell: u8,
}

fn main(rt: HostRuntime) -> io::Result<()> {
    let mut out = BufWriter::new(rt.alloc(), io::writer(&rt))?;
    sums(&mut out)?;
    stored(&mut out)?;
    addresses(&mut out)?;
    words(&mut out)?;
    levels(&mut out)?;
    writers(&mut out)?;
    out.flush()
}

fn sums(out: &mut impl Write) -> io::Result<()> {
    let adc = Instruction::Accumulator(Operation::Adc, CELL);
    let sub = Instruction::Accumulator(Operation::Sub, CELL);
    let first = executed(
        adc,
        Machine {
            ac: 8,
            cy: 1,
            ..Machine::fresh(0)
        },
        9,
        0,
    );
    writeln!(
        out,
        "1. ADC, cell 9, AC 8, CY 1: AC {}, CY {}.",
        first.ac, first.cy
    )?;
    let second = executed(
        sub,
        Machine {
            ac: 5,
            ..Machine::fresh(0)
        },
        3,
        0,
    );
    writeln!(
        out,
        "2. SUB, cell 3, AC 5: AC {}, CY {}.",
        second.ac, second.cy
    )?;
    let third = executed(
        sub,
        Machine {
            ac: 5,
            ..Machine::fresh(0)
        },
        5,
        0,
    );
    writeln!(out, "3. SUB, 5 and 5: AC {}, CY {}.", third.ac, third.cy)
}

fn stored(out: &mut impl Write) -> io::Result<()> {
    let sbim = executed(
        Instruction::Immediate(ImmediateOperation::Sbim, CELL, 0),
        Machine::fresh(0),
        7,
        0,
    );
    writeln!(out, "4. SBIM 0 on 7: cell {}, CY {}.", sbim.cell, sbim.cy)?;
    let daa = executed(Instruction::Daa(CELL), Machine::fresh(0), 12, 0);
    writeln!(out, "5. DAA, cell 12, CY 0: {}, CY {}.", daa.ac, daa.cy)?;
    let das = executed(Instruction::Das(CELL), Machine::fresh(0), 14, 0);
    writeln!(out, "6. DAS, cell 14, CY 0: {}, CY {}.", das.ac, das.cy)
}

fn addresses(out: &mut impl Write) -> io::Result<()> {
    let low = executed(
        Instruction::Nop,
        Machine {
            pc: 0x7FF,
            ..Machine::fresh(0)
        },
        0,
        0,
    );
    let high = executed(
        Instruction::Nop,
        Machine {
            pc: 0xFFF,
            ..Machine::fresh(0)
        },
        0,
        0,
    );
    writeln!(
        out,
        "7. After $7FF comes ${:03X}; after $FFF, ${:03X}.",
        low.pc, high.pc
    )?;
    let tjmp = executed(
        Instruction::Tjmp,
        Machine {
            pc: 0xA34,
            ac: 6,
            ..Machine::fresh(0)
        },
        0,
        5,
    );
    writeln!(out, "8. TJMP at $A34, TBR 5, AC 6: ${:03X}.", tjmp.pc)
}

fn words(out: &mut impl Write) -> io::Result<()> {
    write!(out, "9. $CB7F is ")?;
    read(out, 0xCB7F)?;
    write!(out, "; $CB80 is ")?;
    read(out, 0xCB80)?;
    write!(out, ".\n10. RTNW 4,2 is ")?;
    written(out, Instruction::Rtnw(4, 2))?;
    writeln!(out, ".")
}

fn levels(out: &mut impl Write) -> io::Result<()> {
    write!(out, "11. Digits 1,0 with ground 2: level ")?;
    level_of(out, 1, 0, 2)?;
    write!(out, "; digits 0,1: ")?;
    level_of(out, 0, 1, 2)?;
    writeln!(out, ".")
}

fn writers(out: &mut impl Write) -> io::Result<()> {
    write!(
        out,
        "12. All NOP but $010 = $4820 (ADIM $20,0), $011 = $48A0 (ADIM $20,1), $012 = $3C0F (STA $0F), $013 = $3CA0 (STA $0A0), $014 = $77A0 (ANDIM $20,15): writers of $020 are "
    )?;
    let mut program = [NOP; Machine::WORDS];
    program[0x010] = 0x4820;
    program[0x011] = 0x48A0;
    program[0x012] = 0x3C0F;
    program[0x013] = 0x3CA0;
    program[0x014] = 0x77A0;
    list(out, &program)?;
    writeln!(out, ".")
}

// An instruction on a machine, with the cell and TBR put in.
fn executed(i: Instruction, m: Machine, cell: u8, tbr: u8) -> After {
    let mut memory = [0; Machine::CELLS];
    memory[CELL as usize] = cell;
    memory[TBR] = tbr;
    left(i, m, &mut memory)
}

fn left(i: Instruction, m: Machine, memory: &mut [u8]) -> After {
    let n = sh_execute::execute(m, memory, i);
    let cell = lent::peek(memory, CELL as usize);
    After {
        pc: n.pc,
        ac: n.ac,
        cy: n.cy,
        cell,
    }
}

// What a word is read as.
fn read(out: &mut impl Write, w: u16) -> io::Result<()> {
    match word::decode(w) {
        Ok(Instruction::Daa(x)) => write!(out, "DAA ${x:02X}"),
        Ok(_) => write!(out, "no DAA"),
        Err(_) => write!(out, "unlisted"),
    }
}

// What an instruction is written as.
fn written(out: &mut impl Write, i: Instruction) -> io::Result<()> {
    match word::encode(i) {
        Ok(w) => write!(out, "${w:04X}"),
        Err(_) => write!(out, "refused"),
    }
}

// The level of two digits at $020 and $021.
fn level_of(out: &mut impl Write, high: u8, low: u8, ground: u8) -> io::Result<()> {
    let mut cells = [0; Machine::CELLS];
    cells[0x020] = high;
    cells[0x021] = low;
    let body = [0x00, 0x20, 0x00, 0x21, ground];
    match level::level(&cells, &body) {
        Ok(z) => write!(out, "{z}"),
        Err(_) => write!(out, "refused"),
    }
}

// The writers of $020, where they are two.
fn list(out: &mut impl Write, program: &[u16]) -> io::Result<()> {
    let mut room = [0; Machine::WORDS];
    match writers::list(program, CELL as u32, &mut room) {
        Ok(2) => write!(out, "${:03X}, ${:03X}", room[0], room[1]),
        Ok(_) => write!(out, "not two"),
        Err(_) => write!(out, "refused"),
    }
}
