// Timer0: eight bits that count system clocks through a prescaler, or falling edges of PORTA.0.
ghost use Rattle.std.specs.Prelude.{◌≡◌, ◌/◌, ◌%◌, eqb};
ghost use Rattle.lent.specs.Lent.{pick};
ghost use Rattle.sh_timers.specs.Timer0.{counted_of, fallen_of};
ghost use Rattle.sh_timers.specs.Ticked.{ticked_by, ticked_of, time_set_of};

use crate::request::Moved;
use sh_state::machine::Machine;

// What follows 255: the load with auto-reload, else 0.
fn reload(load: u8, mode: u8) -> u8
    ensures { result ≡ pick (eqb (mode / 8 % 2) 1) load 0 }
{
    if mode / 8 % 2 == 1 { load } else { 0 }
}

// One count. The base timer's differs in the record's field and has no reload.
#[tactic(auto, unfolding(crate::specs::Timer0::counted_of, crate::specs::Timer0::reload_of, sh_state::specs::Record::set_counter))]
fn counted(mut m: Machine, mode: u8) -> Moved
    ensures { result ≡ counted_of m mode }
{
    if m.counter < 255 {
        m.counter += 1;
        Moved {
            machine: m,
            requests: 0,
        }
    } else {
        m.counter = reload(m.load, mode);
        Moved {
            machine: m,
            requests: 4,
        }
    }
}

// Timer0's own part of a clock: what its prescaler and counter become, and the bits of $001 that are set.
#[derive(Clone, Copy)]
pub struct Tick {
    pub prescaler: u16,
    pub counter: u8,
    pub requests: u8,
}

#[tactic(auto, unfolding(crate::specs::Ticked::ticked_by))]
fn ticked_by(prescaler: u16, counter: u8, load: u8, mode: u8, ratio: u16) -> Tick
    ensures { result ≡ ticked_by prescaler counter load mode ratio }
{
    if mode % 8 == 7 {
        return Tick {
            prescaler,
            counter,
            requests: 0,
        };
    }
    let next = prescaler as u32 + 1;
    if next < ratio as u32 {
        return Tick {
            prescaler: next as u16,
            counter,
            requests: 0,
        };
    }
    if counter < 255 {
        return Tick {
            prescaler: 0,
            counter: counter + 1,
            requests: 0,
        };
    }
    Tick {
        prescaler: 0,
        counter: reload(load, mode),
        requests: 4,
    }
}

// One system clock of the prescaler and the counter, by the mode in $002.
#[tactic(auto, unfolding(crate::specs::Ticked::ticked_of))]
pub fn ticked(prescaler: u16, counter: u8, load: u8, mode: u8) -> Tick
    ensures { result ≡ ticked_of prescaler counter load mode }
{
    ticked_by(prescaler, counter, load, mode, sh_periods::ratio(mode))
}

// The record with Timer0's prescaler and counter.
#[tactic(auto, unfolding(crate::specs::Ticked::time_set_of, sh_state::specs::Record::set_counter, sh_state::specs::Record::set_prescaler))]
pub fn time_set(mut m: Machine, prescaler: u16, counter: u8) -> Machine
    ensures { result ≡ time_set_of m prescaler counter }
{
    m.prescaler = prescaler;
    m.counter = counter;
    m
}

// A falling edge of PORTA.0 as input (1), or none (0), by the mode in $002.
#[tactic(auto, unfolding(crate::specs::Timer0::fallen_of))]
pub fn fallen(m: Machine, mode: u8, falling: u8) -> Moved
    ensures { result ≡ fallen_of m mode falling }
{
    if falling != 0 && m.mode != 2 && mode % 8 == 7 {
        return counted(m, mode);
    }
    Moved {
        machine: m,
        requests: 0,
    }
}
