// A stretch of quiet cycles: PC, AC and CY by value, Timer0's clocks by their number.
ghost use Rattle.std.specs.Prelude.{◌+◌, ◌-◌, ◌<◌, ◌≤◌, ◌≡◌, true, false, length};
ghost use Rattle.sh_state.specs.State.{state};
ghost use Rattle.sh_core.specs.Quick.{core_in};
ghost use Rattle.sh_ticks.specs.Clock.{Quiet, timed_of, room_of};
ghost use Rattle.sh_run.specs.Stretch.{stretched, at_of, quiet_of, Onward, Cycles, Going, apart_cell, apart_of};

use sh_core::Core;
use sh_map::map;
use sh_state::machine::Machine;

// How many events are looked at together; a contract names the number.
const MANY: usize = 64;

// The machine before the first event that is not done, and whether the last one left PC at the target.
#[derive(Clone, Copy)]
pub struct Stretch {
    pub machine: Machine,
    pub events: usize,
    pub reached: bool,
}

pub fn at(pc: u16, target: u32) -> bool
    ensures { result ≡ at_of pc target }
{
    target < 4096 && pc as u32 == target
}

// Whether a cycle is quiet: no read pending, nothing due, and room before Timer0 overflows.
#[tactic(auto, unfolding(crate::specs::Stretch::quiet_of))]
fn quiet(m: Machine, due: u8, room: u32) -> bool
    ensures { result ≡ quiet_of m due room }
{
    m.pending == 0 && m.address == 0 && due == 0 && 0 < room
}

// Where the room ends, or the script.
fn end(first: usize, len: usize, room: u32) -> usize
    requires { first ≤ len }
    ensures { (first ≤ result) × (result ≤ len) × (result ≤ first + room) }
{
    first + (len - first).min(room as usize)
}

// The machine after the clocks of the events from the first on.
fn done(
    start: Machine,
    c: Core,
    mode: u8,
    room: u32,
    first: usize,
    i: usize,
    reached: bool,
) -> Stretch
    requires { (room ≡ room_of start mode) × (0 < room) × (first ≤ i) × (i ≤ first + room) }
    ensures { result ≡ stretched (core_in (timed_of start mode (i - first)) c) i reached }
{
    Stretch {
        machine: sh_ticks::after(start, c, mode, (i - first) as u32),
        events: i,
        reached,
    }
}

// PC, AC and CY before the first event that is not done, and whether the last one left PC at the target.
#[derive(Clone, Copy)]
pub struct Pause {
    pub core: Core,
    pub events: usize,
    pub reached: bool,
}

// Awake: the words that go, one after the other. A `while`, since a `for` takes 44 instructions for a NOP, and this 37.
#[tactic(auto, using(crate::proofs::Stretches::going_begun))]
fn going(
    program: &[u16],
    m: Machine,
    memory: &mut [u8],
    script: &[u8],
    first: usize,
    target: u32,
    mode: u8,
    room: u32,
    from: Core,
    begin: usize,
    end: usize,
) -> Pause
    requires { (Quiet m memory.old mode) × (m.mode ≡ 0) × (room ≡ room_of m mode) × (0 < room) × (first ≤ begin) × (begin ≤ end) × (end ≤ length script.now) × (end ≤ first + room) }
    ensures { Going program.now target script.now m mode first end from memory.old begin result.reached result.core memory.new result.events }
{
    let mut c = from;
    let mut i = begin;
    while i < end {
        if script[i] != 0 {
            return Pause {
                core: c,
                events: i,
                reached: false,
            };
        }
        let w = lent::peek(program, c.pc as usize);
        let r = sh_core::quick(c, memory, w);
        if !r.went {
            return Pause {
                core: c,
                events: i,
                reached: false,
            };
        }
        c = r;
        // before the test: with it behind, what a turn takes is looked at twice
        i += 1;
        if at(c.pc, target) {
            return Pause {
                core: c,
                events: i,
                reached: true,
            };
        }
    }
    Pause {
        core: c,
        events: i,
        reached: false,
    }
}

// Awake, with turns between. It stays a `loop`: going takes as many events as it can, and there are seven ways out.
fn awake(
    program: &[u16],
    start: Machine,
    memory: &mut [u8],
    script: &[u8],
    first: usize,
    target: u32,
    mode: u8,
    room: u32,
) -> Stretch
    requires { (Quiet start memory.old mode) × (start.mode ≡ 0) × (room ≡ room_of start mode) × (0 < room) × (first ≤ length script.now) }
    ensures { Onward program.now target script.now first (state start memory.old) result.reached (state result.machine memory.new) result.events }
{
    let end = end(first, script.len(), room);
    let mut m = start;
    let mut c = Core {
        pc: start.pc,
        ac: start.ac,
        cy: start.cy,
        went: true,
    };
    let mut i = first;
    loop {
        let q = going(
            program, m, memory, script, first, target, mode, room, c, i, end,
        );
        let d = q.core;
        let n = q.events;
        if q.reached {
            return done(m, d, mode, room, first, n, true);
        }
        if end <= n {
            return done(m, d, mode, room, first, n, false);
        }
        if script[n] != 0 {
            return done(m, d, mode, room, first, n, false);
        }
        let w = lent::peek(program, d.pc as usize);
        let t = sh_turn::turn(m, d, memory, w);
        let r = t.core;
        m = t.machine;
        if !r.went {
            return done(m, d, mode, room, first, n, false);
        }
        c = r;
        i = n + 1;
        if sh_interrupts::due(memory) != 0 {
            return done(m, c, mode, room, first, i, at(c.pc, target));
        }
        if at(c.pc, target) {
            return done(m, c, mode, room, first, i, true);
        }
    }
}

// Where the cycles from a place on end, or the given end is.
fn cycles_by_one(script: &[u8], first: usize, end: usize) -> usize
    requires { (first ≤ end) × (end ≤ length script.now) }
    ensures { Cycles script.now first result end }
{
    for i in first..end {
        if script[i] != 0 {
            return i;
        }
    }
    end
}

// Whether many cycles stand at a place.
fn many(script: &[u8], i: usize, end: usize) -> bool
    requires { (i ≤ end) × (end ≤ length script.now) }
    ensures { result ≡ true → Cycles script.now i (i + 64) end }
{
    MANY <= end - i && lent::joined(script, i, i + MANY) == 0
}

// Where the cycles end, many at a time as long as there are many: a `while`, since it ends at the first that are not all cycles.
fn cycles(script: &[u8], first: usize, end: usize) -> usize
    requires { (first ≤ end) × (end ≤ length script.now) }
    ensures { Cycles script.now first result end }
{
    let mut i = first;
    while many(script, i, end) {
        i += MANY;
    }
    cycles_by_one(script, i, end)
}

// In HALT: Timer0's clocks only.
fn halted(
    program: &[u16],
    start: Machine,
    memory: &[u8],
    script: &[u8],
    first: usize,
    target: u32,
    mode: u8,
    room: u32,
) -> Stretch
    requires { (Quiet start memory.now mode) × (start.mode ≡ 1) × (room ≡ room_of start mode) × (0 < room) × (first ≤ length script.now) × (at_of start.pc target ≡ false) }
    ensures { Onward program.now target script.now first (state start memory.now) result.reached (state result.machine memory.now) result.events }
{
    let c = Core {
        pc: start.pc,
        ac: start.ac,
        cy: start.cy,
        went: true,
    };
    let end = end(first, script.len(), room);
    let i = cycles(script, first, end);
    done(start, c, mode, room, first, i, false)
}

// No event more.
pub fn unmoved(start: Machine, first: usize) -> Stretch
    ensures { result ≡ stretched start first false }
{
    Stretch {
        machine: start,
        events: first,
        reached: false,
    }
}

// In HALT, but not where PC stands at the target already: a cycle that leaves it there ends the run.
#[tactic(auto, using(crate::proofs::Stretches::standing, crate::proofs::Stretches::onward_at))]
fn dozing(
    program: &[u16],
    start: Machine,
    memory: &[u8],
    script: &[u8],
    first: usize,
    target: u32,
    mode: u8,
    room: u32,
) -> Stretch
    requires { (Quiet start memory.now mode) × (start.mode ≡ 1) × (room ≡ room_of start mode) × (0 < room) × (first ≤ length script.now) }
    ensures { Onward program.now target script.now first (state start memory.now) result.reached (state result.machine memory.now) result.events }
{
    if at(start.pc, target) {
        return unmoved(start, first);
    }
    halted(program, start, memory, script, first, target, mode, room)
}

// By the mode: awake, or in HALT; in STOP nothing is clocked.
#[tactic(auto, using(crate::proofs::Stretches::standing, crate::proofs::Stretches::onward_at))]
fn moving(
    program: &[u16],
    start: Machine,
    memory: &mut [u8],
    script: &[u8],
    first: usize,
    target: u32,
    mode: u8,
    room: u32,
) -> Stretch
    requires { (Quiet start memory.old mode) × (room ≡ room_of start mode) × (0 < room) × (first ≤ length script.now) }
    ensures { Onward program.now target script.now first (state start memory.old) result.reached (state result.machine memory.new) result.events }
{
    if start.mode == 0 {
        return awake(program, start, memory, script, first, target, mode, room);
    }
    if start.mode == 1 {
        return dozing(program, start, memory, script, first, target, mode, room);
    }
    unmoved(start, first)
}

// Where the first event is a cycle.
#[tactic(auto, using(crate::proofs::Stretches::standing, crate::proofs::Stretches::onward_at, crate::proofs::Stretches::quiet_by))]
fn at_cycle(
    program: &[u16],
    start: Machine,
    memory: &mut [u8],
    script: &[u8],
    first: usize,
    target: u32,
) -> Stretch
    requires { first ≤ length script.now }
    ensures { Onward program.now target script.now first (state start memory.old) result.reached (state result.machine memory.new) result.events }
{
    let mode = map::cell(memory, 0x02);
    let room = sh_ticks::room(start, mode);
    let due = sh_interrupts::due(memory);
    if quiet(start, due, room) {
        return moving(program, start, memory, script, first, target, mode, room);
    }
    unmoved(start, first)
}

#[tactic(auto, unfolding(crate::specs::Stretch::apart_cell))]
fn apart_cell(a: u16) -> bool
    ensures { result ≡ apart_cell a }
{
    matches!(a, 0x04 | 0x05 | 0x1E)
}

// Whether the word is a form with AC that names $004, $005 or $01E: no stretch takes it.
#[tactic(auto, unfolding(crate::specs::Stretch::apart_of))]
fn apart(w: u16) -> bool
    ensures { result ≡ apart_of w }
{
    w < 0x4000 && apart_cell(w % 1024)
}

// The events from the first on that are quiet cycles.
#[tactic(auto, using(crate::proofs::Stretches::standing, crate::proofs::Stretches::onward_at))]
pub fn ahead(
    program: &[u16],
    start: Machine,
    memory: &mut [u8],
    script: &[u8],
    first: usize,
    target: u32,
) -> Stretch
    requires { first ≤ length script.now }
    ensures { Onward program.now target script.now first (state start memory.old) result.reached (state result.machine memory.new) result.events }
{
    if lent::peek(script, first) != 0 {
        return unmoved(start, first);
    }
    if apart(lent::peek(program, start.pc as usize)) {
        return unmoved(start, first);
    }
    at_cycle(program, start, memory, script, first, target)
}
