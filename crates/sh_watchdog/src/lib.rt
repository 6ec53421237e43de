// The watchdog: a count of milliseconds that falls to a reset.
#![tactic(auto)]

ghost use Rattle.std.specs.Prelude.{◌≡◌};
ghost use Rattle.sh_watchdog.specs.Watchdog.{expires_of, counted_down_of};

use sh_state::machine::Machine;

// Whether the next pulse is the watchdog's reset.
#[tactic(auto, unfolding(crate::specs::Watchdog::expires_of))]
pub fn expires(m: Machine) -> bool
    ensures { result ≡ expires_of m }
{
    m.options % 2 == 1 && m.watchdog < 2
}

// One pulse that does not expire.
#[tactic(auto, unfolding(crate::specs::Watchdog::counted_down_of, sh_state::specs::Record::set_watchdog))]
pub fn counted_down(mut m: Machine) -> Machine
    ensures { result ≡ counted_down_of m }
{
    if m.options % 2 == 1 && 1 < m.watchdog {
        m.watchdog -= 1;
    }
    m
}
