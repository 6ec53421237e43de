// Interrupts: which are due, what they wake, and what taking one does.
#![tactic(auto)]

ghost use Rattle.std.specs.Prelude.{◌≡◌};
ghost use Rattle.sh_state.specs.State.{state};
ghost use Rattle.sh_interrupts.specs.Interrupt.{due_of, awake_of, vector_of, entered_of, interrupted_of};

use sh_map::map;
use sh_state::machine;
use sh_state::machine::Machine;

// The sources that are enabled and requested.
#[tactic(auto, unfolding(crate::specs::Interrupt::due_of))]
pub fn due(memory: &[u8]) -> u8
    ensures { result ≡ due_of memory.now }
{
    map::cell(memory, 0x00) & map::cell(memory, 0x01)
}

// Whether a machine in a mode runs on, by what is due.
#[tactic(auto, unfolding(crate::specs::Interrupt::awake_of))]
pub fn awake(mode: u8, due: u8) -> bool
    ensures { result ≡ awake_of mode due }
{
    match mode {
        0 => true,
        1 => due != 0,
        _ => due & 9 != 0,
    }
}

#[tactic(auto, unfolding(crate::specs::Interrupt::vector_of))]
fn vector(due: u8) -> u16
    ensures { result ≡ vector_of due }
{
    match due {
        8.. => 0x001,
        4..=7 => 0x002,
        2..=3 => 0x003,
        _ => 0x004,
    }
}

#[tactic(auto, unfolding(crate::specs::Interrupt::entered_of))]
fn entered(m: Machine, due: u8) -> Machine
    ensures { result ≡ entered_of m due }
{
    machine::with_pc(m.push(machine::entry(m.cy, m.pc)), vector(due))
}

// The first due interrupt taken.
#[tactic(auto, unfolding(crate::specs::Interrupt::interrupted_of))]
pub fn interrupted(m: Machine, memory: &mut [u8], due: u8) -> Machine
    ensures { state result memory.new ≡ interrupted_of (state m memory.old) due }
{
    map::store(memory, 0x00, 0);
    entered(m, due)
}
