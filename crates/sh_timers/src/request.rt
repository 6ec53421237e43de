// How a part asks for an interrupt: bits of $001.
ghost use Rattle.std.specs.Prelude.{◌≡◌};
ghost use Rattle.sh_timers.specs.Request.{requested_of};

use sh_map::map;
use sh_state::machine::Machine;

// A part's work: the record that it leaves, and the bits of $001 that it sets.
#[derive(Clone, Copy)]
pub struct Moved {
    pub machine: Machine,
    pub requests: u8,
}

// $001 with some bits set.
#[tactic(auto, unfolding(crate::specs::Request::requested_of))]
pub fn requested(memory: &mut [u8], bits: u8)
    ensures { memory.new ≡ requested_of memory.old bits }
{
    let old = map::cell(memory, 0x01);
    map::store(memory, 0x01, old | bits);
}
