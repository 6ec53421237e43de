// The base timer: eight bits that count base pulses through a prescaler.
#![tactic(auto)]

ghost use Rattle.std.specs.Prelude.{◌≡◌};
ghost use Rattle.sh_base_timer.specs.BaseTimer.{base_counted_of, base_prescaled_by, base_pulsed_of};

use sh_state::machine::Machine;
use sh_timers::request::Moved;

#[tactic(auto, unfolding(crate::specs::BaseTimer::base_counted_of, sh_state::specs::Record::set_base_counter))]
fn counted(mut m: Machine) -> Moved
    ensures { result ≡ base_counted_of m }
{
    if m.basecounter < 255 {
        m.basecounter += 1;
        Moved {
            machine: m,
            requests: 0,
        }
    } else {
        m.basecounter = 0;
        Moved {
            machine: m,
            requests: 2,
        }
    }
}

#[tactic(auto, unfolding(crate::specs::BaseTimer::base_prescaled_by, sh_state::specs::Record::set_base_prescaler))]
fn prescaled(mut m: Machine, ratio: u8) -> Moved
    ensures { result ≡ base_prescaled_by m ratio }
{
    let next = m.baseprescaler as u16 + 1;
    if next < ratio as u16 {
        m.baseprescaler = next as u8;
        return Moved {
            machine: m,
            requests: 0,
        };
    }
    m.baseprescaler = 0;
    counted(m)
}

// A base pulse, by the mode in $003.
#[tactic(auto, unfolding(crate::specs::BaseTimer::base_pulsed_of, crate::specs::BaseTimer::base_prescaled_of))]
pub fn pulsed(m: Machine, mode: u8) -> Moved
    ensures { result ≡ base_pulsed_of m mode }
{
    if m.mode != 2 && mode / 4 % 4 == 2 {
        return prescaled(m, sh_periods::base_ratio(mode));
    }
    Moved {
        machine: m,
        requests: 0,
    }
}
