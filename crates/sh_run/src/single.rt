// What no stretch takes: events that are no cycles, each by its part, and the cycle as a whole.
ghost use Rattle.std.specs.Prelude.{◌<◌, ◌≤◌, ◌≡◌, length};
ghost use Rattle.lent.specs.Lent.{at};
ghost use Rattle.sh_state.specs.State.{state};
ghost use Rattle.sh_run.specs.Stretch.{Onward, Passing};

use crate::stretch;
use crate::stretch::Stretch;
use sh_cycle::cycle;
use sh_events::event;
use sh_state::machine::Machine;

// The machine before the first event that is not done, whether that one would execute an unlisted word, and whether the last one left PC at
// the target.
#[derive(Clone, Copy)]
pub struct Single {
    pub machine: Machine,
    pub events: usize,
    pub stuck: bool,
    pub reached: bool,
}

// The events from the first on that are no cycles.
#[tactic(auto, using(crate::proofs::Stretches::standing, crate::proofs::Stretches::onward_at, crate::proofs::Singles::part_onward))]
fn others(
    program: &[u16],
    start: Machine,
    memory: &mut [u8],
    script: &[u8],
    first: usize,
    target: u32,
) -> Stretch
    requires { first ≤ length script.now }
    ensures { Onward program.now target script.now first (state start memory.old) result.reached (state result.machine memory.new) result.events }
{
    let mut m = start;
    for i in first..script.len() {
        let e = script[i];
        if e == 0 {
            return stretch::unmoved(m, i);
        }
        m = event::other(m, memory, e);
    }
    stretch::unmoved(m, script.len())
}

fn by_parts(
    program: &[u16],
    start: Machine,
    memory: &mut [u8],
    script: &[u8],
    first: usize,
    target: u32,
    e: u8,
) -> Single
    requires { (first < length script.now) × (e ≡ at script.now first) × (0 < e) }
    ensures { Passing program.now target script.now first (state start memory.old) result.stuck result.reached (state result.machine memory.new) result.events }
{
    let m = event::other(start, memory, e);
    let q = others(program, m, memory, script, first + 1, target);
    Single {
        machine: q.machine,
        events: q.events,
        stuck: false,
        reached: q.reached,
    }
}

fn by_cycle(
    program: &[u16],
    start: Machine,
    memory: &mut [u8],
    script: &[u8],
    first: usize,
    target: u32,
) -> Single
    requires { (first < length script.now) × (at script.now first ≡ 0) }
    ensures { Passing program.now target script.now first (state start memory.old) result.stuck result.reached (state result.machine memory.new) result.events }
{
    match cycle::cycle(program, start, memory) {
        Some(m) => Single {
            machine: m,
            events: first + 1,
            stuck: false,
            reached: stretch::at(m.pc, target),
        },
        None => Single {
            machine: start,
            events: first,
            stuck: true,
            reached: false,
        },
    }
}

// The first event, with those behind it that are no cycles where it is none.
pub fn passed(
    program: &[u16],
    start: Machine,
    memory: &mut [u8],
    script: &[u8],
    first: usize,
    target: u32,
) -> Single
    requires { first < length script.now }
    ensures { Passing program.now target script.now first (state start memory.old) result.stuck result.reached (state result.machine memory.new) result.events }
{
    let e = script[first];
    if e == 0 {
        return by_cycle(program, start, memory, script, first, target);
    }
    by_parts(program, start, memory, script, first, target, e)
}
