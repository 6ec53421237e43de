// The run of two cars: its refusals, the run, and both pictures.
#![tactic(auto)]

mod script;

ghost use Rattle.std.specs.Prelude.{◌≡◌};
ghost use Rattle.sh_state.specs.State.{state};
ghost use Rattle.call_two.specs.RunTwo.{lent, lower_of, lowest_of, cars_lent_judged, script_judged, room_judged, two_judged, answered, run_two_of};

use refusal::Refusal;
use sh_rules::judge;
use sh_run::Stop;
use sh_state::machine::Machine;

// Why each car stopped, and how many entries were read.
#[derive(Clone, Copy)]
pub struct Ended {
    pub first: Stop,
    pub second: Stop,
    pub entries: usize,
}

// That or the refusal, and the cars' machines as the run leaves them.
#[derive(Clone, Copy)]
pub struct Answer {
    pub outcome: Result<Ended, Refusal>,
    pub first: Machine,
    pub second: Machine,
}

// Of two cars' refusals the lower number, and at equal numbers car 0's.
#[tactic(auto, unfolding(crate::specs::RunTwo::lower_of))]
fn lower(v: Refusal, w: Refusal) -> Result<(), Refusal>
    ensures { result ≡ lower_of v w }
{
    if refusal::number(w) < refusal::number(v) {
        return Err(w);
    }
    Err(v)
}

// Of two cars' judgements the one with the lower number, and at equal numbers car 0's.
#[tactic(auto, unfolding(crate::specs::RunTwo::lowest_of))]
pub fn lowest(a: Result<(), Refusal>, b: Result<(), Refusal>) -> Result<(), Refusal>
    ensures { result ≡ lowest_of a b }
{
    match (a, b) {
        (Ok(()), _) => b,
        (_, Ok(())) => a,
        (Err(v), Err(w)) => lower(v, w),
    }
}

// 1, and 2 to 4 of both cars.
#[tactic(auto, unfolding(crate::specs::RunTwo::cars_lent_judged, body::specs::Body::told, sh_rules::specs::Judge::first_of))]
fn cars_lent(
    program: &[u16],
    m: Machine,
    memory: &[u8],
    m1: Machine,
    memory1: &[u8],
) -> Result<(), Refusal>
    ensures { result ≡ cars_lent_judged program.now (state m memory.now) (state m1 memory1.now) }
{
    let n = program.len();
    if n != Machine::WORDS {
        return Err(Refusal::ProgramLength(n as u64));
    }
    lowest(judge::machine(m, memory), judge::machine(m1, memory1))
}

// 5, 10, 11, 27 and 28, each by a look at every byte.
#[tactic(auto, unfolding(crate::specs::RunTwo::script_judged, sh_rules::specs::Judge::first_of))]
fn script_by_one(wiring: &[u8], script: &[u8]) -> Result<(), Refusal>
    ensures { result ≡ script_judged wiring.now script.now }
{
    script::events(script)?;
    body::wiring(wiring)?;
    script::cars(script)?;
    script::cut(script)
}

// Where the script is fine, the wiring is judged alone.
#[tactic(auto, using(crate::proofs::Judgements::fine_judged))]
fn script_judged(wiring: &[u8], script: &[u8]) -> Result<(), Refusal>
    ensures { result ≡ script_judged wiring.now script.now }
{
    if script::fine(script) {
        return body::wiring(wiring);
    }
    script_by_one(wiring, script)
}

// 7.
#[tactic(auto, unfolding(crate::specs::RunTwo::room_judged))]
fn room_judged(wiring: &[u8], room: &[u8]) -> Result<(), Refusal>
    ensures { result ≡ room_judged wiring.now room.now }
{
    let n = wiring.len() / 3;
    if room.len() < n {
        return Err(Refusal::Room(n as u64));
    }
    Ok(())
}

#[tactic(auto, unfolding(crate::specs::RunTwo::two_judged, sh_rules::specs::Judge::first_of))]
fn judged(
    program: &[u16],
    wiring: &[u8],
    m: Machine,
    memory: &[u8],
    room: &[u8],
    m1: Machine,
    memory1: &[u8],
    room1: &[u8],
    script: &[u8],
) -> Result<(), Refusal>
    ensures { result ≡ two_judged program.now wiring.now (lent (state m memory.now) room.now) (lent (state m1 memory1.now) room1.now) script.now }
{
    cars_lent(program, m, memory, m1, memory1)?;
    script_judged(wiring, script)?;
    room_judged(wiring, room)?;
    room_judged(wiring, room1)
}

// The run of a script of two cars, each with its picture, or the refusal, which has moved nothing.
#[tactic(auto, unfolding(crate::specs::RunTwo::run_two_of, crate::specs::RunTwo::ran_of, crate::specs::RunTwo::both_left_of, crate::specs::RunTwo::left_of))]
pub fn run_two(
    program: &[u16],
    wiring: &[u8],
    m: Machine,
    memory: &mut [u8],
    room: &mut [u8],
    stop: u32,
    m1: Machine,
    memory1: &mut [u8],
    room1: &mut [u8],
    stop1: u32,
    script: &[u8],
) -> Answer
    ensures { answered result.outcome (lent (state result.first memory.new) room.new) (lent (state result.second memory1.new) room1.new) ≡ run_two_of program.now wiring.now (lent (state m memory.old) room.old) stop (lent (state m1 memory1.old) room1.old) stop1 script.now }
{
    if let Err(why) = judged(program, wiring, m, memory, room, m1, memory1, room1, script) {
        return Answer {
            outcome: Err(why),
            first: m,
            second: m1,
        };
    }
    let e = sh_two::run(program, m, memory, stop, m1, memory1, stop1, script);
    let _ = picture::picture(e.first, memory, wiring, room);
    let _ = picture::picture(e.second, memory1, wiring, room1);
    Answer {
        outcome: Ok(Ended {
            first: e.firstwhy,
            second: e.secondwhy,
            entries: e.entries,
        }),
        first: e.first,
        second: e.second,
    }
}
