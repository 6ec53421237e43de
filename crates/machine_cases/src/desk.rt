// A case: a fresh machine, what is changed on it, and the script that both calls are given.
use crate::reader::Order;
use crate::{drawn, show};
use answer::Answer;
use call_step::step;
use refusal::Refusal;
use sh_state::machine::Machine;
use std::io;
use std::io::Write;
use wire::record;

// Room for one word and one cell more than the chip has.
pub const ROOM_WORDS: usize = Machine::WORDS + 1;

pub const ROOM_CELLS: usize = Machine::CELLS + 1;

// How many events a script has at the most.
pub const ROOM_EVENTS: usize = 8192;

const NOP: u16 = 0xFFFF;

// Where each field of a record stands among its 45 bytes, in 01's order with each stack entry and each port's pins as one, then each channel's count and output, the frozen nibble and its mark; then the end.
const PLACES: [u8; 32] = [
    0, 2, 3, 4, 5, 7, 9, 11, 13, 15, 17, 19, 21, 23, 24, 25, 26, 27, 29, 30, 31, 32, 33, 34, 35,
    37, 39, 40, 42, 43, 44, 45,
];

// A machine, and how many words and cells are lent.
#[derive(Clone, Copy)]
pub struct Case {
    machine: Machine,
    words: usize,
    cells: usize,
}

impl Case {
    pub fn none() -> Self {
        Self::of(Machine::fresh(0))
    }

    // A machine that is lent what the chip has.
    fn of(machine: Machine) -> Self {
        Self {
            machine,
            words: Machine::WORDS,
            cells: Machine::CELLS,
        }
    }
}

// The case after an order.
pub fn done(
    out: &mut impl Write,
    case: Case,
    order: Order,
    program: &mut [u16; ROOM_WORDS],
    memory: &mut [u8; ROOM_CELLS],
    script: &mut Vec<u8>,
) -> io::Result<Case> {
    match order {
        Order::Fresh(options) => {
            script.clear();
            return fresh(out, options, program, memory);
        }
        Order::Go(stop) => return gone(out, case, stop, program, memory, script),
        Order::Field(field, value) => return Ok(Case {
            machine: changed(case.machine, field, value),
            ..case
        }),
        Order::Lend(words, cells) => return Ok(Case {
            words,
            cells,
            ..case
        }),
        Order::Word(address, word) => put_word(program, address, word),
        Order::Cell(address, value) => lent::poke(memory, address, value),
        Order::Program(seed) => draw(program, seed),
        Order::Events(count, event) => append(script, count, || event)?,
        Order::Drawn(count, seed) => append_drawn(script, count, seed)?,
    }
    Ok(case)
}

fn put_word(program: &mut [u16], address: usize, word: u16) {
    if let Some(place) = program.get_mut(address) {
        *place = word;
    }
}

// A whole program that is drawn.
fn draw(program: &mut [u16], seed: u32) {
    let mut x = seed;
    for word in program {
        *word = drawn::word(x);
        x = drawn::next(x);
    }
}

// Events at the script's end, as many as asked and as the room allows.
fn append<F: FnMut() -> u8>(script: &mut Vec<u8>, count: usize, mut event: F) -> io::Result<()>
    requires { F.IsAlwaysCallable event }
{
    let room = ROOM_EVENTS.saturating_sub(script.len());
    for _ in 0..count.min(room) {
        script.push(event())?;
    }
    Ok(())
}

// Events that are drawn, one after another.
fn append_drawn(script: &mut Vec<u8>, count: usize, seed: u32) -> io::Result<()> {
    let mut x = seed;
    append(script, count, || {
        let event = drawn::event(x);
        x = drawn::next(x);
        event
    })
}

fn fresh(
    out: &mut impl Write,
    options: u32,
    program: &mut [u16; ROOM_WORDS],
    memory: &mut [u8; ROOM_CELLS],
) -> io::Result<Case> {
    program.fill(NOP);
    memory.fill(0);
    let a = call_fresh::fresh(options, &mut memory[..Machine::CELLS]);
    writeln!(out, "fresh{}", show::Outcome(a.outcome))?;
    Ok(Case::of(a.machine))
}

// The record with its field of a number changed.
fn changed(m: Machine, field: usize, value: u16) -> Machine {
    let mut bytes = record::bytes_of(m);
    put_field(&mut bytes, field, value);
    record::record_of(&bytes)
}

fn put_field(bytes: &mut [u8], field: usize, value: u16) {
    if field >= PLACES.len() - 1 {
        return;
    }
    let at = PLACES[field] as usize;
    let next = PLACES[field + 1] as usize;
    if at + 2 == next {
        lent::pair_set(bytes, at, value);
    } else {
        lent::poke(bytes, at, (value % 256) as u8);
    }
}

// The case after its script, which is then empty.
fn gone(
    out: &mut impl Write,
    case: Case,
    stop: u32,
    program: &[u16],
    memory: &mut [u8; ROOM_CELLS],
    script: &mut Vec<u8>,
) -> io::Result<Case> {
    let mut again = *memory;
    let (Some(program), Some(memory), Some(again)) = (
        program.get(..case.words),
        memory.get_mut(..case.cells),
        again.get_mut(..case.cells),
    ) else {
        return Ok(case);
    };
    stepped(out, program, case.machine, again, script)?;
    let machine = ran(out, program, case.machine, memory, script, stop)?;
    script.clear();
    Ok(Case { machine, ..case })
}

// The script by one call of run.
fn ran(
    out: &mut impl Write,
    program: &[u16],
    m: Machine,
    memory: &mut [u8],
    script: &[u8],
    stop: u32,
) -> io::Result<Machine> {
    let a = call_run::run(program, m, memory, script, stop);
    write!(out, "run{}", show::Reason(a.reason))?;
    show::left(out, a.events, a.machine, memory)?;
    Ok(a.machine)
}

// The script by a call of step for each event, up to the first refusal.
fn stepped(
    out: &mut impl Write,
    program: &[u16],
    m: Machine,
    memory: &mut [u8],
    script: &[u8],
) -> io::Result<()> {
    let (a, events) = steps(program, m, memory, script);
    write!(out, "step{}", show::Outcome(a.outcome))?;
    show::left(out, events, a.machine, memory)
}

// What the last step answers, and how many were done before it was refused.
fn steps(program: &[u16], m: Machine, memory: &mut [u8], script: &[u8]) -> (Answer, usize) {
    let mut last = Answer {
        outcome: Ok(()),
        machine: m,
    };
    for (i, event) in script.iter().enumerate() {
        last = step::step(program, last.machine, memory, *event);
        if last.outcome.is_err() {
            return (last, i);
        }
    }
    (last, script.len())
}
