// the run of two cars, for C.
ghost use Rattle.std.specs.Prelude.{◌≡◌, length};
ghost use Rattle.refusal.specs.Told.{said, done_told};
ghost use Rattle.sh_state.specs.State.{state};
ghost use Rattle.sh_rules.specs.Judge.{state_judged};
ghost use Rattle.sh_run.specs.Run.{stop_number};
ghost use Rattle.call_two.specs.RunTwo.{run_two_of, outs, outs_of};
ghost use Rattle.wire.specs.Record.{record_of};
ghost use Rattle.wire.specs.Words.{words_of};
ghost use Rattle.host.specs.RunTwo.{car_bytes, two_ran, read_car, two_told, short_judged, car_judged, short_two, host_run_two_of};

use crate::told;
use call_two::Ended;
use refusal::Refusal;
use sh_rules::judge;
use sh_run::Stop;
use wire::{record, words};

fn number(why: Stop) -> u32
    ensures { result ≡ stop_number why }
{
    match why {
        Stop::Address => 0,
        Stop::Unlisted => 1,
        Stop::End => 2,
    }
}

fn ended(
    v: Stop,
    w: Stop,
    n: u64,
    reason: &mut u32,
    reason1: &mut u32,
    entries: &mut u64,
    value: &mut u64,
) -> u32
    ensures { outs (said result value.new) reason.new reason1.new entries.new ≡ outs done_told (stop_number v) (stop_number w) n }
{
    *reason = number(v);
    *reason1 = number(w);
    *entries = n;
    told::done(value)
}

#[tactic(auto, unfolding(call_two::specs::RunTwo::outs_of))]
fn tell(
    o: Result<Ended, Refusal>,
    reason: &mut u32,
    reason1: &mut u32,
    entries: &mut u64,
    value: &mut u64,
) -> u32
    ensures { outs (said result value.new) reason.new reason1.new entries.new ≡ outs_of o reason.old reason1.old entries.old }
{
    match o {
        Ok(e) => ended(
            e.first,
            e.second,
            e.entries as u64,
            reason,
            reason1,
            entries,
            value,
        ),
        Err(why) => told::refused(why, value),
    }
}

fn machine_judged(memory: &[u8], bytes: &[u8]) -> Result<(), Refusal>
    ensures { result ≡ state_judged (state (record_of bytes.now) memory.now) }
{
    let m = record::record_of(bytes);
    judge::machine(m, memory)
}

#[tactic(auto, unfolding(crate::specs::RunTwo::short_judged))]
fn short_judged(memory: &[u8]) -> Result<(), Refusal>
    ensures { result ≡ short_judged memory.now }
{
    judge::first(judge::memory(memory), Err(Refusal::Record))
}

#[tactic(auto, unfolding(crate::specs::RunTwo::car_judged))]
fn car_judged(memory: &[u8], bytes: &[u8]) -> Result<(), Refusal>
    ensures { result ≡ car_judged memory.now bytes.now }
{
    if bytes.len() == record::BYTES {
        return machine_judged(memory, bytes);
    }
    short_judged(memory)
}

// A record of another length than 45 bytes: both cars are judged.
fn short(memory: &[u8], bytes: &[u8], memory1: &[u8], bytes1: &[u8], value: &mut u64) -> u32
    ensures { said result value.new ≡ short_two memory.now bytes.now memory1.now bytes1.now }
{
    let j = call_two::lowest(car_judged(memory, bytes), car_judged(memory1, bytes1));
    told::outcome(j, value)
}

fn done(
    program: &[u8],
    wiring: &[u8],
    memory: &mut [u8],
    bytes: &mut [u8],
    room: &mut [u8],
    memory1: &mut [u8],
    bytes1: &mut [u8],
    room1: &mut [u8],
    script: &[u8],
    stop: u32,
    stop1: u32,
    reason: &mut u32,
    reason1: &mut u32,
    entries: &mut u64,
    value: &mut u64,
) -> u32
    requires { (length bytes.old ≡ 45) × (length bytes1.old ≡ 45) }
    ensures { two_ran (outs (said result value.new) reason.new reason1.new entries.new) (car_bytes memory.new bytes.new room.new) (car_bytes memory1.new bytes1.new room1.new) ≡ two_told (run_two_of (words_of program.now 4096) wiring.now (read_car (car_bytes memory.old bytes.old room.old)) stop (read_car (car_bytes memory1.old bytes1.old room1.old)) stop1 script.now) reason.old reason1.old entries.old }
{
    let w = words::words_of(program);
    let m = record::record_of(bytes);
    let m1 = record::record_of(bytes1);
    let a = call_two::run_two(
        &w, wiring, m, memory, room, stop, m1, memory1, room1, stop1, script,
    );
    let n = a.first;
    let n1 = a.second;
    let o = a.outcome;
    record::write_record(n, bytes);
    record::write_record(n1, bytes1);
    tell(o, reason, reason1, entries, value)
}

// A script of two cars on the machines in the lent memories and records, with their pictures.
pub fn galhoveia_run_two(
    program: &[u8],
    wiring: &[u8],
    memory: &mut [u8],
    bytes: &mut [u8],
    room: &mut [u8],
    memory1: &mut [u8],
    bytes1: &mut [u8],
    room1: &mut [u8],
    script: &[u8],
    stop: u32,
    stop1: u32,
    reason: &mut u32,
    reason1: &mut u32,
    entries: &mut u64,
    value: &mut u64,
) -> u32
    ensures { two_ran (outs (said result value.new) reason.new reason1.new entries.new) (car_bytes memory.new bytes.new room.new) (car_bytes memory1.new bytes1.new room1.new) ≡ host_run_two_of program.now wiring.now (car_bytes memory.old bytes.old room.old) (car_bytes memory1.old bytes1.old room1.old) script.now stop stop1 reason.old reason1.old entries.old }
{
    if program.len() != words::PROGRAM {
        return told::refused(Refusal::ProgramLength(program.len() as u64), value);
    }
    if lent::both(bytes.len() == record::BYTES, bytes1.len() == record::BYTES) {
        return done(
            program, wiring, memory, bytes, room, memory1, bytes1, room1, script, stop, stop1,
            reason, reason1, entries, value,
        );
    }
    short(memory, bytes, memory1, bytes1, value)
}
