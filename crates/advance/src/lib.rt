// One thin entry that advances a caller's machine record where it stands.
#![tactic(auto)]

ghost use Rattle.std.specs.Prelude.{◌≡◌};
ghost use Rattle.sh_state.specs.State.{state};
ghost use Rattle.answer.specs.Answer.{answered};
ghost use Rattle.call_step.specs.Step.{step_of};

use call_step::step;
use refusal::Refusal;
use sh_state::machine::Machine;

// One event, as the call step: the record and the memory are left as step leaves them.
pub fn advance(m: &mut Machine, program: &[u16], memory: &mut [u8], e: u8) -> Result<(), Refusal>
    ensures { answered result (state m.new memory.new) ≡ step_of program.now (state m.old memory.old) e }
{
    let done = step::step(program, *m, memory, e);
    *m = done.machine;
    done.outcome
}
