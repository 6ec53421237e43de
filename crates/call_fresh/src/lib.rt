// The call fresh: a machine as it leaves its first pin reset.
#![tactic(auto)]

ghost use Rattle.std.specs.Prelude.{◌≡◌};
ghost use Rattle.sh_state.specs.State.{state};
ghost use Rattle.answer.specs.Answer.{answered};
ghost use Rattle.call_fresh.specs.Fresh.{fresh_memory_of, fresh_call_of};

use answer::Answer;
use refusal::Refusal;
use sh_reset::reset;
use sh_reset::reset::Column;
use sh_state::machine::Machine;

#[tactic(auto, unfolding(crate::specs::Fresh::fresh_memory_of))]
fn fresh_memory(options: u8, memory: &mut [u8])
    ensures { memory.new ≡ fresh_memory_of options memory.old }
{
    lent::clear(memory);
    reset::reset_memory(Column::Pin, options, memory);
}

// A fresh machine of the options given, and its memory in the lent one.
#[tactic(auto, unfolding(crate::specs::Fresh::fresh_call_of))]
pub fn fresh(options: u32, memory: &mut [u8]) -> Answer
    ensures { answered result.outcome (state result.machine memory.new) ≡ fresh_call_of options memory.old }
{
    let n = memory.len();
    if n != Machine::CELLS {
        return Answer {
            outcome: Err(Refusal::MemoryLength(n as u64)),
            machine: Machine::fresh(0),
        };
    }
    if options < 8 {
        fresh_memory(options as u8, memory);
        return Answer {
            outcome: Ok(()),
            machine: Machine::fresh(options as u8),
        };
    }
    Answer {
        outcome: Err(Refusal::Options(options as u64)),
        machine: Machine::fresh(0),
    }
}
