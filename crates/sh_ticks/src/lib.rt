// How many clocks Timer0 takes before its counter would go past 255, and the machine after some of them.
#![tactic(auto)]

ghost use Rattle.std.specs.Prelude.{◌+◌, ◌-◌, ◌*◌, ◌/◌, ◌%◌, ◌<◌, ◌≤◌, ◌≡◌};
ghost use Rattle.sh_core.specs.Quick.{core_in};
ghost use Rattle.sh_ticks.specs.Clock.{timed_of, room_of};

use sh_core::Core;
use sh_state::machine::Machine;
use sh_timers::timer0;

// A count of the ratio, the prescaler and n more.
#[tactic(auto, using(crate::proofs::Ticks::product_below))]
fn clocks(counter: u8, prescaler: u16, ratio: u16, n: u32) -> u64
    ensures { result ≡ counter * ratio + prescaler + n }
{
    counter as u64 * ratio as u64 + prescaler as u64 + n as u64
}

// The clocks until Timer0 would go past 255; none where the prescaler is past its ratio.
#[tactic(auto, using(crate::proofs::Ticks::clocks_left), unfolding(crate::specs::Clock::room_of, crate::specs::Clock::clocks_of))]
pub fn room(m: Machine, mode: u8) -> u32
    ensures { result ≡ room_of m mode }
{
    if mode % 8 == 7 {
        return 0xFFFFFFFF;
    }
    let ratio = sh_periods::ratio(mode);
    if m.prescaler < ratio {
        return (256 * ratio as u64 - clocks(m.counter, m.prescaler, ratio, 1)) as u32;
    }
    0
}

// The machine after n clocks of Timer0, by the mode in $002.
#[tactic(auto, using(crate::proofs::Ticks::timed_within, crate::proofs::Ticks::clocks_below, crate::proofs::Ticks::below_256, sh_rules::proofs::Fits::ratio_positive), unfolding(crate::specs::Clock::timed_of, crate::specs::Clock::clocks_of, sh_timers::specs::Ticked::time_set_of))]
fn timed(m: Machine, mode: u8, n: u32) -> Machine
    requires room_nonzero { 0 < room_of m mode }
    requires n_bound { n ≤ room_of m mode }
    ensures { result ≡ timed_of m mode n }
{
    if mode % 8 == 7 {
        return m;
    }
    let ratio = sh_periods::ratio(mode);
    let p = m.prescaler as u64 + n as u64;
    if p < ratio as u64 {
        return timer0::time_set(m, p as u16, m.counter);
    }
    let t = clocks(m.counter, m.prescaler, ratio, n);
    timer0::time_set(m, (t % ratio as u64) as u16, (t / ratio as u64) as u8)
}

#[tactic(auto, unfolding(sh_core::specs::Quick::core_in, sh_state::specs::Record::set_pc, sh_state::specs::Record::set_cy, sh_state::specs::Record::set_ac))]
fn in_machine(m: Machine, c: Core) -> Machine
    ensures { result ≡ core_in m c }
{
    let mut n = m;
    n.pc = c.pc;
    n.ac = c.ac;
    n.cy = c.cy;
    n
}

// The machine after n clocks, with PC, AC and CY.
pub fn after(m: Machine, c: Core, mode: u8, n: u32) -> Machine
    requires room_nonzero { 0 < room_of m mode }
    requires n_bound { n ≤ room_of m mode }
    ensures { result ≡ core_in (timed_of m mode n) c }
{
    in_machine(timed(m, mode, n), c)
}
