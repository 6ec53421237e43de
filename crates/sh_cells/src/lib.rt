// What an address means, and what a cell reads as.
#![tactic(auto)]

ghost use Rattle.std.specs.Prelude.{◌≡◌};
ghost use Rattle.lent.specs.Lent.{at};
ghost use Rattle.sh_halves.specs.Halves.{released_of, frozen_of};
ghost use Rattle.sh_state.specs.Record.{set_frozen};
ghost use Rattle.sh_state.specs.State.{state};
ghost use Rattle.sh_cells.specs.Cells.{pointed_of, target_of, port_of, plain_in, plain_of, value_of, restarted_of, seen_of};

use sh_map::map;
use sh_map::map::Kind;
use sh_state::machine::Machine;

// A cell's value, and the record after it was read, as the definitions put them together.
#[derive(Clone, Copy)]
pub struct Reading {
    pub value: u8,
    pub machine: Machine,
}

// The cell that DPH, DPM and DPL point at.
#[tactic(auto, unfolding(crate::specs::Cells::pointed_of))]
fn pointed(memory: &[u8]) -> u16
    ensures { result ≡ pointed_of memory.now }
{
    128 * (map::cell(memory, 0x12) as u16)
        + 16 * (map::cell(memory, 0x11) as u16)
        + map::cell(memory, 0x10) as u16
}

// The cell that an address means: $00F means the one pointed at.
#[tactic(auto, unfolding(crate::specs::Cells::target_of))]
pub fn target(memory: &[u8], a: u16) -> u16
    ensures { result ≡ target_of memory.now a }
{
    if a == 0x0F {
        return pointed(memory);
    }
    a
}

// A port's nibble: the pin where the control bit is 0, the latch where it is 1.
#[tactic(auto, unfolding(crate::specs::Cells::port_of))]
pub fn port(pin: u8, latch: u8, control: u8) -> u8
    ensures { result ≡ port_of pin latch control }
{
    (pin & (255 - control)) | (latch & control)
}

// The nibble of the port with this pin nibble, latch cell and control cell.
pub fn port_cell(pin: u8, memory: &[u8], latch: u16, control: u16) -> u8
    ensures { result ≡ port_of pin (at memory.now latch) (at memory.now control) }
{
    port(pin, map::cell(memory, latch), map::cell(memory, control))
}

#[tactic(auto, unfolding(crate::specs::Cells::plain_in))]
fn plain_in(k: Kind, memory: &[u8], a: u16) -> u8
    ensures { result ≡ plain_in k memory.now a }
{
    match k {
        Kind::Register | Kind::Data | Kind::Display | Kind::Scan => { map::cell(memory, a) }
        Kind::Sound | Kind::Unmapped => 0,
    }
}

#[tactic(auto, unfolding(crate::specs::Cells::plain_of))]
fn plain(memory: &[u8], a: u16) -> u8
    ensures { result ≡ plain_of memory.now a }
{
    plain_in(map::kind_at(a), memory, a)
}

// What a cell reads as.
#[tactic(auto, unfolding(crate::specs::Cells::value_of))]
pub fn value(m: Machine, memory: &[u8], a: u16) -> u8
    ensures { result ≡ value_of (state m memory.now) a }
{
    match a {
        0x04 => sh_halves::low(m.frozen, m.counter),
        0x05 => m.counter / 16,
        0x08 => port_cell(m.pina, memory, 0x08, 0x16),
        0x09 => port_cell(m.pinb, memory, 0x09, 0x17),
        0x0A => port_cell(m.pinc, memory, 0x0A, 0x18),
        0x0B => port_cell(m.pind, memory, 0x0B, 0x19),
        _ => plain(memory, a),
    }
}

// The watchdog started anew, at the period that its control chooses. (Stores into the record: `Machine { .., ..m }` is copied in more and
// other parts, which costs a general event more.)
#[tactic(auto, unfolding(crate::specs::Cells::restarted_of, sh_state::specs::Record::set_watchdog))]
pub fn restarted(mut m: Machine, control: u8) -> Machine
    ensures { result ≡ restarted_of m control }
{
    m.watchdog = sh_periods::period(control);
    m
}

fn restarted_as_held(m: Machine, memory: &[u8]) -> Machine
    ensures { result ≡ restarted_of m (at memory.now 0x1E) }
{
    restarted(m, map::cell(memory, 0x1E))
}

#[tactic(auto, unfolding(sh_state::specs::Record::set_frozen))]
fn released(mut m: Machine) -> Machine
    ensures { result ≡ set_frozen m released_of }
{
    m.frozen = sh_halves::released();
    m
}

#[tactic(auto, unfolding(sh_state::specs::Record::set_frozen))]
fn frozen(mut m: Machine) -> Machine
    ensures { result ≡ set_frozen m (frozen_of m.counter) }
{
    m.frozen = sh_halves::freeze(m.counter);
    m
}

// What reading a cell does to the record: $004 releases Timer0's frozen nibble, $005 freezes one, $01E restarts the watchdog.
#[tactic(auto, unfolding(crate::specs::Cells::seen_of))]
pub fn seen(m: Machine, memory: &[u8], a: u16) -> Machine
    ensures { result ≡ seen_of (state m memory.now) a }
{
    match a {
        0x04 => released(m),
        0x05 => frozen(m),
        0x1E => restarted_as_held(m, memory),
        _ => m,
    }
}
