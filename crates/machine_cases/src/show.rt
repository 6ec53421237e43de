// What a call answered and what it left, written to standard output.
use call_run::Reached;
use refusal::Refusal;
use sh_state::machine::Machine;
use std::io::Write;
use std::{fmt, io};

// The number of a refusal and what comes with it.
#[derive(Clone, Copy)]
struct Refused(Refusal);

impl fmt::Display for Refused {
    fn fmt<W: fmt::Write>(&self, f: &mut fmt::Formatter<W>) -> fmt::Result {
        write!(
            f,
            " refused by {} with {}",
            refusal::number(self.0),
            refusal::value(self.0)
        )
    }
}

// What a step or a fresh machine answers.
#[derive(Clone, Copy)]
pub struct Outcome(pub Result<(), Refusal>);

impl fmt::Display for Outcome {
    fn fmt<W: fmt::Write>(&self, f: &mut fmt::Formatter<W>) -> fmt::Result {
        match self.0 {
            Ok(()) => f.write_str(" done"),
            Err(why) => write!(f, "{}", Refused(why)),
        }
    }
}

// What a run answers.
#[derive(Clone, Copy)]
pub struct Reason(pub Result<Reached, Refusal>);

impl fmt::Display for Reason {
    fn fmt<W: fmt::Write>(&self, f: &mut fmt::Formatter<W>) -> fmt::Result {
        match self.0 {
            Ok(Reached::Address) => f.write_str(" at the address"),
            Ok(Reached::End) => f.write_str(" to the end"),
            Err(why) => write!(f, "{}", Refused(why)),
        }
    }
}

// How many events were done, the record and the cells.
pub fn left(out: &mut impl Write, events: usize, m: Machine, memory: &[u8]) -> io::Result<()> {
    write!(out, ", events {events}")?;
    processor(out, m)?;
    timers(out, m)?;
    pins(out, m)?;
    tones(out, m)?;
    cells(out, memory)
}

fn processor(out: &mut impl Write, m: Machine) -> io::Result<()> {
    write!(
        out,
        "\n  PC {:04x} AC {:02x} CY {:02x} mode {:02x} stack",
        m.pc, m.ac, m.cy, m.mode
    )?;
    for entry in m.stack {
        write!(out, " {entry:04x}")?;
    }
    Ok(())
}

// Prescaler, counter and load of Timer0, prescaler and counter of the base timer, the watchdog's count.
fn timers(out: &mut impl Write, m: Machine) -> io::Result<()> {
    write!(
        out,
        "\n  Timer0 {:04x} {:02x} {:02x}",
        m.prescaler, m.counter, m.load
    )?;
    write!(
        out,
        " base {:02x} {:02x} watchdog {:04x}",
        m.baseprescaler, m.basecounter, m.watchdog
    )
}

// Pins of ports A to D, options, the pending read and its address.
fn pins(out: &mut impl Write, m: Machine) -> io::Result<()> {
    write!(
        out,
        " pins {:02x} {:02x} {:02x} {:02x}",
        m.pina, m.pinb, m.pinc, m.pind
    )?;
    write!(
        out,
        " options {:02x} pending {:02x} {:04x}",
        m.options, m.pending, m.address
    )
}

// Count and output of each tone channel, the frozen nibble of Timer0's counter and its mark.
fn tones(out: &mut impl Write, m: Machine) -> io::Result<()> {
    write!(out, " tones")?;
    for channel in [m.channels.first, m.channels.second] {
        write!(out, " {:04x} {:02x}", channel.count, channel.output)?;
    }
    write!(out, " frozen {:02x} {:02x}", m.frozen.nibble, m.frozen.mark)
}

// The cells that are not 0.
fn cells(out: &mut impl Write, memory: &[u8]) -> io::Result<()> {
    write!(out, "\n  cells")?;
    for (address, v) in memory.iter().enumerate() {
        if *v != 0 {
            write!(out, " {address:03x}={v:x}")?;
        }
    }
    writeln!(out)
}
