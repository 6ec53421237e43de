// fresh, for C.
ghost use Rattle.std.specs.Prelude.{◌≡◌, length};
ghost use Rattle.call_fresh.specs.Fresh.{fresh_call_of};
ghost use Rattle.refusal.specs.Told.{said};
ghost use Rattle.host.specs.Step.{stepped, step_told};
ghost use Rattle.host.specs.Fresh.{host_fresh_of};

use crate::told;
use refusal::Refusal;
use sh_state::machine::Machine;
use wire::record;

fn made(memory: &mut [u8], bytes: &mut [u8], options: u32, value: &mut u64) -> u32
    requires { length bytes.old ≡ 45 }
    ensures { stepped (said result value.new) memory.new bytes.new ≡ step_told (fresh_call_of options memory.old) }
{
    let a = call_fresh::fresh(options, memory);
    let n = a.machine;
    let o = a.outcome;
    record::write_record(n, bytes);
    told::outcome(o, value)
}

// A fresh machine of the options given, in the lent memory and record.
#[tactic(auto, unfolding(crate::specs::Fresh::host_fresh_of))]
pub fn galhoveia_fresh(memory: &mut [u8], bytes: &mut [u8], options: u32, value: &mut u64) -> u32
    ensures { stepped (said result value.new) memory.new bytes.new ≡ host_fresh_of options memory.old bytes.old }
{
    if memory.len() != Machine::CELLS {
        return told::refused(Refusal::MemoryLength(memory.len() as u64), value);
    }
    if bytes.len() != record::BYTES {
        return told::refused(Refusal::Record, value);
    }
    if options < 8 {
        return made(memory, bytes, options, value);
    }
    told::refused(Refusal::Options(options as u64), value)
}
