// step, for C.
ghost use Rattle.std.specs.Prelude.{◌≡◌, length};
ghost use Rattle.call_step.specs.Step.{step_of};
ghost use Rattle.sh_state.specs.State.{state};
ghost use Rattle.wire.specs.Record.{record_of};
ghost use Rattle.wire.specs.Words.{words_of};
ghost use Rattle.refusal.specs.Told.{said};
ghost use Rattle.host.specs.Step.{stepped, step_told, host_step_of};

use crate::told;
use refusal::Refusal;
use wire::{record, words};

fn done(program: &[u8], memory: &mut [u8], bytes: &mut [u8], event: u8, value: &mut u64) -> u32
    requires { length bytes.old ≡ 45 }
    ensures { stepped (said result value.new) memory.new bytes.new ≡ step_told (step_of (words_of program.now 4096) (state (record_of bytes.old) memory.old) event) }
{
    let m = record::record_of(bytes);
    let w = words::words_at(program, m.pc, m.address);
    let a = call_step::step::step(&w, m, memory, event);
    let n = a.machine;
    let o = a.outcome;
    record::write_record(n, bytes);
    told::outcome(o, value)
}

// One event on the machine in the lent memory and record.
#[tactic(auto, unfolding(crate::specs::Step::host_step_of))]
pub fn galhoveia_step(
    program: &[u8],
    memory: &mut [u8],
    bytes: &mut [u8],
    event: u8,
    value: &mut u64,
) -> u32
    ensures { stepped (said result value.new) memory.new bytes.new ≡ host_step_of program.now memory.old bytes.old event }
{
    if program.len() != words::PROGRAM {
        return told::refused(Refusal::ProgramLength(program.len() as u64), value);
    }
    if bytes.len() != record::BYTES {
        return told::short(memory, value);
    }
    done(program, memory, bytes, event, value)
}
