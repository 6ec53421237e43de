// The call step: one event.
ghost use Rattle.std.specs.Prelude.{◌≡◌};
ghost use Rattle.sh_state.specs.State.{state};
ghost use Rattle.answer.specs.Answer.{answered};
ghost use Rattle.call_step.specs.Step.{step_of};

use answer::Answer;
use refusal::Refusal;
use sh_events::event;
use sh_rules::judge;
use sh_state::machine::Machine;

// One event on the machine where it stands, or the lowest refusal.
#[tactic(auto, unfolding(crate::specs::Step::step_of, crate::specs::Step::step_judged_of, crate::specs::Step::stepped_of, crate::specs::Step::told_of))]
fn happen(program: &[u16], m: &mut Machine, memory: &mut [u8], e: u8) -> Result<(), Refusal>
    ensures { answered result (state m.new memory.new) ≡ step_of program.now (state m.old memory.old) e }
{
    let n = program.len();
    if n != Machine::WORDS {
        return Err(Refusal::ProgramLength(n as u64));
    }
    judge::machine(*m, memory)?;
    if !sh_known::known(e) {
        return Err(Refusal::UnknownEvent(0));
    }
    let Some(after) = event::event(program, *m, memory, e) else {
        return Err(Refusal::UnlistedWord(m.pc as u64));
    };
    *m = after;
    Ok(())
}

// One event on a machine, or the lowest refusal; a refusal changes nothing.
pub fn step(program: &[u16], m: Machine, memory: &mut [u8], e: u8) -> Answer
    ensures { answered result.outcome (state result.machine memory.new) ≡ step_of program.now (state m memory.old) e }
{
    let mut machine = m;
    let outcome = happen(program, &mut machine, memory, e);
    Answer { outcome, machine }
}
