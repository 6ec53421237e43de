// Pins of the four ports, and what their edges ask for.
ghost use Rattle.std.specs.Prelude.{◌≡◌};
ghost use Rattle.sh_state.specs.Record.{set_pin_d};
ghost use Rattle.sh_state.specs.State.{state};
ghost use Rattle.sh_events.specs.Ports.{external_of, falling_of, port_a_of, port_edges_of, port_b_of, port_c_of};
ghost use Rattle.sh_timers.specs.Request.{requested_of};

use sh_map::map;
use sh_state::machine::Machine;
use sh_timers::{request, timer0};

#[tactic(auto, unfolding(crate::specs::Ports::external_of))]
fn external(m: Machine, memory: &[u8], pins: u8) -> u8
    ensures { result ≡ external_of (state m memory.now) pins }
{
    sh_edges::edges(
        m.pina,
        pins,
        map::cell(memory, 0x16),
        map::cell(memory, 0x13) % 2,
    ) % 2
        * 8
}

#[tactic(auto, unfolding(crate::specs::Ports::falling_of))]
fn falling(m: Machine, memory: &[u8], pins: u8) -> u8
    ensures { result ≡ falling_of (state m memory.now) pins }
{
    sh_edges::edges(m.pina, pins, map::cell(memory, 0x16), 0) % 2
}

// The pins of port A.
#[tactic(auto, unfolding(crate::specs::Ports::port_a_of, sh_state::specs::Record::set_pin_a))]
pub fn port_a(mut m: Machine, memory: &mut [u8], pins: u8) -> Machine
    ensures { state result memory.new ≡ port_a_of (state m memory.old) pins }
{
    let mode = map::cell(memory, 0x02);
    let edge = falling(m, memory, pins);
    let asked = external(m, memory, pins);
    m.pina = pins;
    let v = timer0::fallen(m, mode, edge);
    request::requested(memory, asked);
    request::requested(memory, v.requests);
    v.machine
}

#[tactic(auto, unfolding(crate::specs::Ports::port_edges_of, crate::specs::Ports::port_request_of))]
fn port_edges(memory: &[u8], old: u8, pins: u8, control: u16) -> u8
    ensures { result ≡ port_edges_of memory.now old pins control }
{
    let direction = map::cell(memory, 0x13) / 2 % 2;
    u8::from(sh_edges::edges(old, pins, map::cell(memory, control), direction) != 0)
}

// Pins of port B or C, by what they were and their control: any edge asks.
fn port_asks(memory: &mut [u8], old: u8, pins: u8, control: u16)
    ensures { memory.new ≡ requested_of memory.old (port_edges_of memory.old old pins control) }
{
    let bits = port_edges(memory, old, pins, control);
    request::requested(memory, bits);
}

// The pins of port B. Port C's differ in the record's field, which no parameter can name.
#[tactic(auto, unfolding(crate::specs::Ports::port_b_of, sh_state::specs::Record::set_pin_b))]
pub fn port_b(mut m: Machine, memory: &mut [u8], pins: u8) -> Machine
    ensures { state result memory.new ≡ port_b_of (state m memory.old) pins }
{
    port_asks(memory, m.pinb, pins, 0x17);
    m.pinb = pins;
    m
}

// The pins of port C.
#[tactic(auto, unfolding(crate::specs::Ports::port_c_of, sh_state::specs::Record::set_pin_c))]
pub fn port_c(mut m: Machine, memory: &mut [u8], pins: u8) -> Machine
    ensures { state result memory.new ≡ port_c_of (state m memory.old) pins }
{
    port_asks(memory, m.pinc, pins, 0x18);
    m.pinc = pins;
    m
}

// The pins of port D, whose edges ask for nothing.
#[tactic(auto, unfolding(sh_state::specs::Record::set_pin_d))]
pub fn port_d(mut m: Machine, pins: u8) -> Machine
    ensures { result ≡ set_pin_d m pins }
{
    m.pind = pins;
    m
}
