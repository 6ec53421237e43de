// What each event does.
ghost use Rattle.std.specs.Prelude.{◌≡◌, is_none, unwrap_or};
ghost use Rattle.sh_state.specs.State.{state};
ghost use Rattle.sh_cycle.specs.Cycle.{happened};
ghost use Rattle.sh_events.specs.Event.{base_pulse_of, watchdog_pulse_of, pins_of, other_of, event_of};

use crate::ports;
use sh_cycle::cycle;
use sh_map::map;
use sh_reset::reset;
use sh_reset::reset::Column;
use sh_state::machine::Machine;
use sh_timers::request;

#[tactic(auto, unfolding(crate::specs::Event::base_pulse_of))]
fn base_pulse(m: Machine, memory: &mut [u8]) -> Machine
    ensures { state result memory.new ≡ base_pulse_of (state m memory.old) }
{
    let v = sh_base_timer::pulsed(m, map::cell(memory, 0x03));
    request::requested(memory, v.requests);
    v.machine
}

#[tactic(auto, unfolding(crate::specs::Event::watchdog_pulse_of))]
fn watchdog_pulse(m: Machine, memory: &mut [u8]) -> Machine
    ensures { state result memory.new ≡ watchdog_pulse_of (state m memory.old) }
{
    if sh_watchdog::expires(m) {
        return reset::reset(Column::Watchdog, m, memory);
    }
    sh_watchdog::counted_down(m)
}

#[tactic(auto, unfolding(crate::specs::Event::pins_of))]
fn pins(m: Machine, memory: &mut [u8], e: u8) -> Machine
    ensures { state result memory.new ≡ pins_of (state m memory.old) e }
{
    match e / 16 {
        1 => ports::port_a(m, memory, e % 16),
        2 => ports::port_b(m, memory, e % 16),
        3 => ports::port_c(m, memory, e % 16),
        4 => ports::port_d(m, e % 16),
        _ => m,
    }
}

// An event that is no cycle. Each arm returns: as the match's own value the record is taken apart, at 40 instructions more for a base pulse.
#[tactic(auto, unfolding(crate::specs::Event::other_of))]
pub fn other(m: Machine, memory: &mut [u8], e: u8) -> Machine
    ensures { state result memory.new ≡ other_of (state m memory.old) e }
{
    match e {
        0x01 => return base_pulse(m, memory),
        0x02 => return watchdog_pulse(m, memory),
        0x03 => return reset::reset(Column::Pin, m, memory),
        0x05 => return sh_sound::sound(m, memory),
        _ => {}
    }
    pins(m, memory, e)
}

// One event: the machine after it, or none before an unlisted word, where nothing changes.
#[tactic(auto, unfolding(crate::specs::Event::event_of))]
pub fn event(program: &[u16], m: Machine, memory: &mut [u8], e: u8) -> Option<Machine>
    ensures { happened (is_none result) (state (unwrap_or result m) memory.new) ≡ event_of program.now (state m memory.old) e }
{
    if e == 0x00 {
        return cycle::cycle(program, m, memory);
    }
    Some(other(m, memory, e))
}
