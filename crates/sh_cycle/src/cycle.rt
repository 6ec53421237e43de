// One cycle: wake, interrupt or instruction, pending read, Timer0's clock.
ghost use Rattle.std.specs.Prelude.{◌≡◌, ℕ, List, false, is_none, unwrap_or};
ghost use Rattle.sh_state.specs.State.{state};
ghost use Rattle.sh_state.specs.declared.machine.Machine.{Machine};
ghost use Rattle.sh_cycle.specs.Cycle.{happened, read_taken_of, woken_of, word_in_of, clock_of, instructed_of, interrupt_cycle_of, awake_cycle_of, asleep_cycle_of, cycle_due_of, cycle_of};
ghost use Rattle.sh_cycle.specs.Read.{landed_by, finished_by, ended_by};
ghost use Rattle.sh_execute.specs.Execute.{execute_of};
ghost use Rattle.lent.specs.Lent.{at};
ghost use Rattle.word.specs.Word.{decode_of};

use refusal::Refusal;
use sh_map::map;
use sh_state::machine::Machine;
use sh_timers::{request, timer0};
use word::Instruction;

// What a cycle did before (d) and (e).
#[derive(Clone, Copy)]
pub enum Acted {
    // stuck before an unlisted word
    Stuck,
    // asleep in STOP, where (d) and (e) do not follow
    Still(Machine),
    // all else: (d) and (e) follow
    Ends(Machine),
}

#[tactic(auto, unfolding(crate::specs::Cycle::read_taken_of, sh_state::specs::Record::set_pending))]
fn read_taken(mut m: Machine) -> Machine
    ensures { result ≡ read_taken_of m }
{
    m.pending = 0;
    m.address = 0;
    m
}

#[tactic(auto, unfolding(crate::specs::Cycle::woken_of, sh_state::specs::Record::set_mode))]
fn woken(m: Machine) -> Machine
    ensures { result ≡ woken_of m }
{
    let mut n = read_taken(m);
    n.mode = 0;
    n
}

// A word in $01A-$01D, low nibble first.
#[tactic(auto, unfolding(crate::specs::Cycle::word_in_of))]
fn word_in(memory: &mut [u8], w: u16)
    ensures { memory.new ≡ word_in_of memory.old w }
{
    map::store(memory, 0x1A, (w % 16) as u8);
    map::store(memory, 0x1B, (w / 16 % 16) as u8);
    map::store(memory, 0x1C, (w / 256 % 16) as u8);
    map::store(memory, 0x1D, (w / 4096 % 16) as u8);
}

// (d)
#[tactic(auto, unfolding(crate::specs::Read::landed_by))]
fn landed(program: &[u16], pending: u8, address: u16, memory: &mut [u8])
    ensures { memory.new ≡ landed_by program.now pending address memory.old }
{
    if pending == 1 {
        word_in(memory, lent::peek(program, address as usize));
    }
}

// (e)
fn clock(m: Machine, memory: &mut [u8]) -> Machine
    ensures { state result memory.new ≡ clock_of (state m memory.old) }
{
    let t = timer0::ticked(m.prescaler, m.counter, m.load, map::cell(memory, 0x02));
    request::requested(memory, t.requests);
    timer0::time_set(m, t.prescaler, t.counter)
}

// (d) and (e): the pending read of before, and the machine after
#[tactic(auto, unfolding(crate::specs::Read::finished_by))]
fn finished(program: &[u16], pending: u8, address: u16, m: Machine, memory: &mut [u8]) -> Machine
    ensures { state result memory.new ≡ finished_by program.now pending address (state m memory.old) }
{
    landed(program, pending, address, memory);
    clock(m, memory)
}

// (d) and (e) after what the cycle did, where it ends in them
#[tactic(auto, unfolding(crate::specs::Read::ended_by))]
fn ended(program: &[u16], pending: u8, address: u16, a: Acted, memory: &mut [u8]) -> Option<Machine>
    ensures { (m : Machine) → happened (is_none result) (state (unwrap_or result m) memory.new) ≡ ended_by program.now pending address a (state m memory.old) }
{
    match a {
        Acted::Stuck => None,
        Acted::Still(n) => Some(n),
        Acted::Ends(n) => Some(finished(program, pending, address, n, memory)),
    }
}

// (c)
fn executed(m: Machine, memory: &mut [u8], i: Instruction) -> Machine
    ensures { state result memory.new ≡ execute_of (state (woken_of m) memory.old) i }
{
    sh_execute::execute(woken(m), memory, i)
}

#[tactic(auto, unfolding(crate::specs::Cycle::instructed_of, crate::specs::Read::ended_by))]
fn instructed(m: Machine, memory: &mut [u8], d: Result<Instruction, Refusal>) -> Acted
    ensures { (p : List ℕ) → ended_by p m.pending m.address result (state m memory.new) ≡ instructed_of p (state m memory.old) d }
{
    let Ok(i) = d else {
        return Acted::Stuck;
    };
    Acted::Ends(executed(m, memory, i))
}

fn instruction_cycle(program: &[u16], m: Machine, memory: &mut [u8]) -> Acted
    ensures { ended_by program.now m.pending m.address result (state m memory.new) ≡ instructed_of program.now (state m memory.old) (decode_of (at program.now m.pc)) }
{
    let pc = m.pc;
    instructed(m, memory, word::decode(lent::peek(program, pc as usize)))
}

// (b)
fn interrupt_cycle(m: Machine, memory: &mut [u8], due: u8) -> Acted
    ensures { (p : List ℕ) → ended_by p m.pending m.address result (state m memory.new) ≡ happened false (interrupt_cycle_of p (state m memory.old) due) }
{
    Acted::Ends(sh_interrupts::interrupted(woken(m), memory, due))
}

#[tactic(auto, unfolding(crate::specs::Cycle::awake_cycle_of))]
fn awake_cycle(program: &[u16], m: Machine, memory: &mut [u8], due: u8) -> Acted
    ensures { ended_by program.now m.pending m.address result (state m memory.new) ≡ awake_cycle_of program.now (state m memory.old) due }
{
    if due == 0 {
        return instruction_cycle(program, m, memory);
    }
    interrupt_cycle(m, memory, due)
}

#[tactic(auto, unfolding(crate::specs::Cycle::asleep_cycle_of, crate::specs::Cycle::finished_of, crate::specs::Cycle::landed_of, crate::specs::Read::ended_by, crate::specs::Read::finished_by, crate::specs::Read::landed_by))]
fn asleep_cycle(m: Machine) -> Acted
    ensures { (p l : List ℕ) → ended_by p m.pending m.address result (state m l) ≡ happened false (asleep_cycle_of p (state m l)) }
{
    if m.mode == 1 {
        return Acted::Ends(read_taken(m));
    }
    Acted::Still(m)
}

#[tactic(auto, unfolding(crate::specs::Cycle::cycle_due_of))]
fn cycle_due(program: &[u16], m: Machine, memory: &mut [u8], due: u8) -> Acted
    ensures { ended_by program.now m.pending m.address result (state m memory.new) ≡ cycle_due_of program.now (state m memory.old) due }
{
    if sh_interrupts::awake(m.mode, due) {
        return awake_cycle(program, m, memory, due);
    }
    asleep_cycle(m)
}

// One cycle: the machine after it, or none before an unlisted word, where nothing changes.
#[tactic(auto, unfolding(crate::specs::Cycle::cycle_of))]
pub fn cycle(program: &[u16], m: Machine, memory: &mut [u8]) -> Option<Machine>
    ensures { happened (is_none result) (state (unwrap_or result m) memory.new) ≡ cycle_of program.now (state m memory.old) }
{
    let due = sh_interrupts::due(memory);
    let a = cycle_due(program, m, memory, due);
    ended(program, m.pending, m.address, a, memory)
}
