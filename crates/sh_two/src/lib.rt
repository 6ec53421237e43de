// Two cars over one program: each by itself over the entries of both, a part of them at a time.
#![tactic(auto)]

ghost use Rattle.std.specs.Prelude.{◌*◌, ◌+◌, ◌-◌, ◌/◌, ◌<◌, ◌≤◌, ◌≡◌, length, take};
ghost use Rattle.sh_state.specs.State.{state};
ghost use Rattle.sh_run.specs.declared.Stop.TheVariants as stop;
ghost use Rattle.sh_two.specs.Two.{entries_of, car, stopped_of, own_of, cars, start_of, two, two_of};
ghost use Rattle.sh_two.specs.Alone.{alone, alone_of, part_of, through_of, read_of, Parted};

use sh_run::Stop;
use sh_state::machine::Machine;

// How many entries are looked at together; contracts name the number.
const MANY: usize = 1024;

// Where a part ends that begins at an entry.
fn end(first: usize, all: usize) -> usize
    requires { first < all }
    ensures { (first < result) × (result ≤ all) × (result ≤ first + 1024) }
{
    first + MANY.min(all - first)
}

// The car's events one after the other: each event is stored, and stays where the entry is the car's.
#[tactic(auto, using(crate::proofs::Parts::gathered_own, crate::proofs::Parts::gathered_other, crate::proofs::Parts::gathered_all))]
fn gather(script: &[u8], number: u8, first: usize, end: usize, events: &mut [u8]) -> usize
    requires { (first ≤ end) × (end * 2 ≤ length script.now) × (end ≤ first + length events.old) }
    ensures { (result ≤ end - first) × (take result events.new ≡ own_of number (part_of script.now first end)) }
{
    let mut n: usize = 0;
    for i in first..end {
        events[n] = script[i * 2 + 1];
        if script[i * 2] == number {
            n += 1;
        }
    }
    n
}

// How many entries there are up to the car's entry number j, counted from 1, with it.
#[tactic(auto, using(crate::proofs::Parts::through_own, crate::proofs::Parts::through_other, crate::proofs::Parts::through_all, crate::proofs::ByItself::through_none))]
fn through(script: &[u8], number: u8, first: usize, end: usize, j: usize) -> usize
    requires { (first ≤ end) × (end * 2 ≤ length script.now) }
    ensures { (result ≡ through_of number (part_of script.now first end) j) × (result ≤ end - first) }
{
    let mut left = j;
    for i in first..end {
        if left == 0 {
            return i - first;
        }
        if script[i * 2] == number {
            left -= 1;
        }
    }
    end - first
}

// How many entries of a part are read where a run of the car's own did n events.
#[tactic(auto, using(crate::proofs::Parts::part_length, crate::proofs::Onward::read_at), unfolding(crate::specs::Alone::read_of))]
fn read(script: &[u8], number: u8, first: usize, end: usize, why: Stop, n: usize) -> usize
    requires { (first ≤ end) × (end * 2 ≤ length script.now) × (n ≤ 1024) }
    ensures { (result ≡ read_of number (part_of script.now first end) why n) × (result ≤ end - first) }
{
    match why {
        Stop::Address => through(script, number, first, end, n),
        Stop::Unlisted => through(script, number, first, end, n + 1),
        Stop::End => end - first,
    }
}

// Whether a car takes no more entries.
#[tactic(auto, unfolding(crate::specs::Two::stopped_of))]
fn stopped(why: Stop) -> bool
    ensures { result ≡ stopped_of why }
{
    matches!(why, Stop::Address | Stop::Unlisted)
}

// A car's machine, why it stopped, and how many entries of both are read.
#[derive(Clone, Copy)]
pub struct Alone {
    pub machine: Machine,
    pub why: Stop,
    pub entries: usize,
}

// The entries from one on that are looked at together.
fn part(
    program: &[u16],
    start: Machine,
    memory: &mut [u8],
    script: &[u8],
    number: u8,
    target: u32,
    first: usize,
) -> Alone
    requires { first < length script.now / 2 }
    ensures { Parted program.now script.now (car number target (state start memory.old) stop.End) first (car number target (state result.machine memory.new) result.why) result.entries }
{
    let end = end(first, script.len() / 2);
    let mut events = [0u8; 1024];
    let n = gather(script, number, first, end, &mut events);
    let e = sh_run::run(program, start, memory, &events[..n], target);
    Alone {
        machine: e.machine,
        why: e.why,
        entries: first + read(script, number, first, end, e.why, e.events),
    }
}

// A car by itself over the entries of both: a `while`, since each part says how far it came.
#[tactic(auto, using(crate::proofs::Onward::alone_end, crate::proofs::Onward::parted_stopped, crate::proofs::Onward::parted_upto, crate::proofs::Onward::parted_on))]
fn by_itself(
    program: &[u16],
    start: Machine,
    memory: &mut [u8],
    script: &[u8],
    number: u8,
    target: u32,
) -> Alone
    ensures { alone (car number target (state result.machine memory.new) result.why) result.entries ≡ alone_of program.now (entries_of script.now) (car number target (state start memory.old) stop.End) 0 }
{
    let all = script.len() / 2;
    let mut m = start;
    let mut i: usize = 0;
    while i < all {
        let q = part(program, m, memory, script, number, target, i);
        if stopped(q.why) {
            return q;
        }
        m = q.machine;
        i = q.entries;
    }
    Alone {
        machine: m,
        why: Stop::End,
        entries: i,
    }
}

// Both cars' machines, why each stopped, and how many entries are read.
#[derive(Clone, Copy)]
pub struct Ended {
    pub first: Machine,
    pub firstwhy: Stop,
    pub second: Machine,
    pub secondwhy: Stop,
    pub entries: usize,
}

// The run of two cars: neither sees the other, so each is run by itself, and the entries read are those up to the later stop.
#[tactic(auto, using(crate::proofs::Cars::both_ran))]
pub fn run(
    program: &[u16],
    start: Machine,
    memory: &mut [u8],
    target: u32,
    start1: Machine,
    memory1: &mut [u8],
    target1: u32,
    script: &[u8],
) -> Ended
    ensures { two (cars (car 0 target (state result.first memory.new) result.firstwhy) (car 1 target1 (state result.second memory1.new) result.secondwhy)) result.entries ≡ two_of program.now (entries_of script.now) (start_of target (state start memory.old) target1 (state start1 memory1.old)) 0 }
{
    let a = by_itself(program, start, memory, script, 0, target);
    let b = by_itself(program, start1, memory1, script, 1, target1);
    Ended {
        first: a.machine,
        firstwhy: a.why,
        second: b.machine,
        secondwhy: b.why,
        entries: a.entries.max(b.entries),
    }
}
