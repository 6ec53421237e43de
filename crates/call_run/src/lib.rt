// The call run: a script of events.
#![tactic(auto)]

ghost use Rattle.std.specs.Prelude.{◌≡◌, ℕ, Bool, Err};
ghost use Rattle.lent.specs.Lent.{fails_from};
ghost use Rattle.sh_state.specs.State.{state};
ghost use Rattle.call_run.specs.Run.{run_answered, reason_of, unknown_from, all_known_of, run_call_of};

use refusal::Refusal;
use sh_rules::judge;
use sh_run::Stop;
use sh_state::machine::Machine;

// How many bytes are looked at together.
const MANY: usize = 64;

// Where a run came: to the address, or to the script's end.
#[derive(Clone, Copy)]
pub enum Reached {
    Address,
    End,
}

// Why a run stopped or the refusal, how many events were done, and the machine that it leaves.
#[derive(Clone, Copy)]
pub struct RunAnswer {
    pub reason: Result<Reached, Refusal>,
    pub events: usize,
    pub machine: Machine,
}

#[tactic(auto, unfolding(crate::specs::Run::reason_of))]
fn stopped(why: Stop, m: Machine) -> Result<Reached, Refusal>
    ensures { result ≡ reason_of why m }
{
    match why {
        Stop::Address => Ok(Reached::Address),
        Stop::Unlisted => Err(Refusal::UnlistedWord(m.pc as u64)),
        Stop::End => Ok(Reached::End),
    }
}

// Whether the bytes are events: a pass with no way out, which the compiler does many bytes at a time.
#[tactic(auto, using(crate::proofs::Laws::known_more, crate::proofs::Laws::known_end))]
fn known_by_one(events: &[u8]) -> bool
    ensures { result ≡ all_known_of events.now }
{
    let mut ok = true;
    for e in events {
        ok = lent::both(sh_known::known(*e), ok);
    }
    ok
}

// The same, but that bytes that are all cycles are not judged.
#[tactic(auto, using(crate::proofs::Laws::joined_known))]
fn part_known(events: &[u8]) -> bool
    ensures { result ≡ all_known_of events.now }
{
    lent::joined(events, 0, events.len()) == 0 || known_by_one(events)
}

// Whether every byte is an event, many of them at a time.
fn all_known(script: &[u8]) -> bool
    ensures { result ≡ all_known_of script.now }
{
    let whole = script.len() / MANY;
    let mut ok = true;
    for k in 0..whole {
        ok = lent::both(part_known(&script[k * MANY..k * MANY + MANY]), ok);
    }
    lent::both(known_by_one(&script[whole * MANY..]), ok)
}

// The first place whose byte does not pass a test of place and byte.
pub fn first_failing<F: Fn(usize, u8) -> bool>(bytes: &[u8], passes: F) -> Option<usize>
    requires { F.IsAlwaysCallable passes }
    ensures { (test : ℕ → ℕ → Bool) → ((i e : ℕ) (b : Bool) → F.post passes i e b → b ≡ test i e) → result ≡ fails_from test bytes.now 0 }
{
    for (i, e) in bytes.iter().enumerate() {
        if !passes(i, *e) {
            return Some(i);
        }
    }
    None
}

#[tactic(auto, using(crate::proofs::Laws::none_unknown))]
fn unknown(script: &[u8]) -> Option<usize>
    ensures { result ≡ unknown_from script.now 0 }
{
    if all_known(script) {
        return None;
    }
    first_failing(script, |_, e| sh_known::known(e))
}

// A refusal that has moved nothing.
fn refused(why: Refusal, m: Machine) -> RunAnswer
    ensures { (result.reason ≡ Err why) × (result.events ≡ 0) × (result.machine ≡ m) }
{
    RunAnswer {
        reason: Err(why),
        events: 0,
        machine: m,
    }
}

// The run of a script, or the lowest refusal; only one by 6 has moved anything.
#[tactic(auto, unfolding(crate::specs::Run::run_call_of, crate::specs::Run::run_judged_of, crate::specs::Run::run_found_of, crate::specs::Run::run_told_of))]
pub fn run(program: &[u16], m: Machine, memory: &mut [u8], script: &[u8], target: u32) -> RunAnswer
    ensures { run_answered result.reason result.events (state result.machine memory.new) ≡ run_call_of program.now (state m memory.old) script.now target }
{
    let n = program.len();
    if n != Machine::WORDS {
        return refused(Refusal::ProgramLength(n as u64), m);
    }
    if let Err(why) = judge::machine(m, memory) {
        return refused(why, m);
    }
    if let Some(i) = unknown(script) {
        return refused(Refusal::UnknownEvent(i as u64), m);
    }
    let e = sh_run::run(program, m, memory, script, target);
    RunAnswer {
        reason: stopped(e.why, e.machine),
        events: e.events,
        machine: e.machine,
    }
}
