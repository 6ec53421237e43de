// A run: the events of a script, one after the other.
#![tactic(auto)]

mod single;
mod stretch;

ghost use Rattle.std.specs.Prelude.{◌≡◌};
ghost use Rattle.sh_state.specs.State.{state};
ghost use Rattle.sh_run.specs.Run.{ran, run_of};

use sh_state::machine::Machine;

// Why a run stopped: at the address, before an unlisted word, or at the script's end.
#[derive(Clone, Copy)]
pub enum Stop {
    Address,
    Unlisted,
    End,
}

#[derive(Clone, Copy)]
pub struct Ended {
    pub machine: Machine,
    pub why: Stop,
    pub events: usize,
}

// The run of a script, until a cycle leaves PC at the target, the next cycle would execute an unlisted word, or the script ends.
// It stays a `loop`: a stretch and the event behind it go on by as many events as they take, and it ends in four places.
pub fn run(program: &[u16], start: Machine, memory: &mut [u8], script: &[u8], target: u32) -> Ended
    ensures { ran (state result.machine memory.new) result.why result.events ≡ run_of program.now target script.now (state start memory.old) 0 }
{
    let mut m = start;
    let mut i: usize = 0;
    let why = loop {
        let q = stretch::ahead(program, m, memory, script, i, target);
        m = q.machine;
        i = q.events;
        if q.reached {
            break Stop::Address;
        }
        if script.len() <= i {
            break Stop::End;
        }
        let o = single::passed(program, m, memory, script, i, target);
        m = o.machine;
        i = o.events;
        if o.stuck {
            break Stop::Unlisted;
        }
        if o.reached {
            break Stop::Address;
        }
    };
    Ended {
        machine: m,
        why,
        events: i,
    }
}
