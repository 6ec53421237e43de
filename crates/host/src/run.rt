// run, for C.
ghost use Rattle.std.specs.Prelude.{Ok, ◌≡◌, length};
ghost use Rattle.call_run.specs.Run.{run_call_of, stopped, refused_by, reason_told};
ghost use Rattle.sh_state.specs.State.{state};
ghost use Rattle.wire.specs.Record.{record_of};
ghost use Rattle.wire.specs.Words.{words_of};
ghost use Rattle.refusal.specs.Told.{said, done_told};
ghost use Rattle.host.specs.Run.{ran, run_told, host_run_of};

use crate::told;
use call_run::Reached;
use refusal::Refusal;
use wire::{record, words};

fn ended(k: u32, n: u64, reason: &mut u32, events: &mut u64, value: &mut u64) -> u32
    ensures { stopped (said result value.new) reason.new events.new ≡ stopped done_told k n }
{
    *reason = k;
    *events = n;
    told::done(value)
}

// Of the refusals 6 alone has a reason and a count to tell.
fn refused(why: Refusal, n: u64, reason: &mut u32, events: &mut u64, value: &mut u64) -> u32
    ensures { stopped (said result value.new) reason.new events.new ≡ refused_by why n reason.old events.old }
{
    if refusal::number(why) == 6 {
        *reason = 1;
        *events = n;
        return told::refused(why, value);
    }
    told::refused(why, value)
}

#[tactic(auto, unfolding(call_run::specs::Run::reason_told))]
fn reached(r: Reached, n: u64, reason: &mut u32, events: &mut u64, value: &mut u64) -> u32
    ensures { stopped (said result value.new) reason.new events.new ≡ reason_told (Ok r) n reason.old events.old }
{
    match r {
        Reached::Address => ended(0, n, reason, events, value),
        Reached::End => ended(2, n, reason, events, value),
    }
}

fn tell(
    why: Result<Reached, Refusal>,
    n: u64,
    reason: &mut u32,
    events: &mut u64,
    value: &mut u64,
) -> u32
    ensures { stopped (said result value.new) reason.new events.new ≡ reason_told why n reason.old events.old }
{
    match why {
        Ok(r) => reached(r, n, reason, events, value),
        Err(r) => refused(r, n, reason, events, value),
    }
}

fn done(
    program: &[u8],
    memory: &mut [u8],
    bytes: &mut [u8],
    script: &[u8],
    stop: u32,
    reason: &mut u32,
    events: &mut u64,
    value: &mut u64,
) -> u32
    requires { length bytes.old ≡ 45 }
    ensures { ran (stopped (said result value.new) reason.new events.new) memory.new bytes.new ≡ run_told (run_call_of (words_of program.now 4096) (state (record_of bytes.old) memory.old) script.now stop) reason.old events.old }
{
    let w = words::words_of(program);
    let m = record::record_of(bytes);
    let a = call_run::run(&w, m, memory, script, stop);
    let n = a.machine;
    let why = a.reason;
    record::write_record(n, bytes);
    tell(why, a.events as u64, reason, events, value)
}

// A script of events on the machine in the lent memory and record.
#[tactic(auto, unfolding(crate::specs::Run::host_run_of))]
pub fn galhoveia_run(
    program: &[u8],
    memory: &mut [u8],
    bytes: &mut [u8],
    script: &[u8],
    stop: u32,
    reason: &mut u32,
    events: &mut u64,
    value: &mut u64,
) -> u32
    ensures { ran (stopped (said result value.new) reason.new events.new) memory.new bytes.new ≡ host_run_of program.now memory.old bytes.old script.now stop reason.old events.old }
{
    if program.len() != words::PROGRAM {
        return told::refused(Refusal::ProgramLength(program.len() as u64), value);
    }
    if bytes.len() != record::BYTES {
        return told::short(memory, value);
    }
    done(program, memory, bytes, script, stop, reason, events, value)
}
