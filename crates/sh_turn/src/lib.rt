// A word that does not go by PC, AC, CY and plain cells alone: it moves the stack, or is on a register that has no effect of its own, or
// adjusts, or jumps by the table. Which bits a register takes and what it shows is said here once more, without the tables of sh_map:
// the laws in proofs/Turns.antt have that it is the same.
#![tactic(auto)]

ghost use Rattle.std.specs.Prelude.{◌/◌, ◌%◌, ◌<◌, ◌≡◌, eqb};
ghost use Rattle.sh_cells.specs.Cells.{target_of};
ghost use Rattle.sh_core.specs.Quick.{quickly};
ghost use Rattle.sh_turn.specs.Turn.{turning, shown_of, mask_of, readable_of, writable_of, put_masked_of, put_register_of, takes_of, code_of, writes_of, transferred_of, ac_result_of, immediate_result_of, ac_word_of, immediate_word_of, cell_turn_of, adjusted_of, decimal_of, table_of, other_turn_of, called_of, returned_of, returned_with_of, alone_of, turn_of};

use alu::Sum;
use sh_core::Core;
use sh_map::map;
use sh_state::machine;
use sh_state::machine::Machine;
use word::Operation;

// The machine with its stack, and PC, AC, CY and whether the word went: where not, nothing has moved.
#[derive(Clone, Copy)]
pub struct Turned {
    pub machine: Machine,
    pub core: Core,
}

#[tactic(auto, unfolding(crate::specs::Turn::shown_of))]
fn shown(m: Machine, memory: &[u8], a: u16) -> u8
    ensures { result ≡ shown_of m memory.now a }
{
    match a {
        0x08 => sh_cells::port_cell(m.pina, memory, 0x08, 0x16),
        0x09 => sh_cells::port_cell(m.pinb, memory, 0x09, 0x17),
        0x0A => sh_cells::port_cell(m.pinc, memory, 0x0A, 0x18),
        0x0B => sh_cells::port_cell(m.pind, memory, 0x0B, 0x19),
        _ => map::cell(memory, a),
    }
}

// The bits that a write to a register stores.
#[tactic(auto, unfolding(crate::specs::Turn::mask_of))]
fn mask(a: u16) -> u8
    ensures { result ≡ mask_of a }
{
    match a {
        0x06 | 0x0F | 0x1F => 0,
        0x07 | 0x11 | 0x12 => 7,
        0x0C => 12,
        0x14 => 11,
        _ => 15,
    }
}

// A register whose read does nothing and shows no clock.
#[tactic(auto, unfolding(crate::specs::Turn::readable_of))]
fn readable(a: u16) -> bool
    ensures { result ≡ readable_of a }
{
    a < 0x20 && !matches!(a, 0x04 | 0x05 | 0x1E)
}

// A register whose write does nothing to the record.
#[tactic(auto, unfolding(crate::specs::Turn::writable_of))]
fn writable(a: u16) -> bool
    ensures { result ≡ writable_of a }
{
    !matches!(a, 0x02..=0x05 | 0x1A | 0x1E)
}

// The result's bits where the mask has a 1, the others as they were: the choice that a port makes between latch and pin.
#[tactic(auto, unfolding(crate::specs::Turn::put_masked_of))]
fn put_masked(c: Core, memory: &mut [u8], a: u16, r: Sum) -> Core
    ensures { quickly result memory.new ≡ put_masked_of c memory.old a r }
{
    let old = map::cell(memory, a);
    map::store(memory, a, sh_cells::port(old, r.value, mask(a)));
    sh_core::got(c, r)
}

#[tactic(auto, unfolding(crate::specs::Turn::put_register_of))]
fn put_register(c: Core, memory: &mut [u8], a: u16, r: Sum) -> Core
    ensures { quickly result memory.new ≡ put_register_of c memory.old a r }
{
    if writable(a) {
        return put_masked(c, memory, a, r);
    }
    sh_core::stays(c)
}

#[tactic(auto, unfolding(crate::specs::Turn::takes_of))]
fn takes(c: Core, memory: &mut [u8], a: u16, r: Sum, writes: bool) -> Core
    ensures { quickly result memory.new ≡ takes_of c memory.old a r writes }
{
    if writes {
        return put_register(c, memory, a, r);
    }
    sh_core::got(c, r)
}

// The operation of an immediate form's code.
#[tactic(auto, unfolding(crate::specs::Turn::code_of))]
fn operation_with(code: u16) -> Operation
    ensures { result ≡ code_of code }
{
    match code {
        8 | 9 => Operation::Add,
        10 | 11 => Operation::Sub,
        12 => Operation::Eor,
        13 => Operation::Or,
        _ => Operation::And,
    }
}

#[tactic(auto, unfolding(crate::specs::Turn::writes_of))]
fn writes(code: u16) -> bool
    ensures { result ≡ writes_of code }
{
    !matches!(code, 8 | 10)
}

#[tactic(auto, unfolding(crate::specs::Turn::transferred_of))]
fn transferred(c: Core, x: u8, w: u16) -> Sum
    ensures { result ≡ transferred_of c x w }
{
    if w / 1024 % 2 == 1 {
        return alu::loaded(c.ac, c.cy);
    }
    alu::loaded(x, c.cy)
}

#[tactic(auto, unfolding(crate::specs::Turn::ac_result_of))]
fn result_ac(c: Core, x: u8, w: u16) -> Sum
    ensures { result ≡ ac_result_of c x w }
{
    if w / 2048 < 7 {
        return alu::calculated(word::operation_of(w / 2048), x, c.ac, c.cy);
    }
    transferred(c, x, w)
}

#[tactic(auto, unfolding(crate::specs::Turn::immediate_result_of))]
fn result_immediate(c: Core, x: u8, w: u16) -> Sum
    ensures { result ≡ immediate_result_of c x w }
{
    if w / 2048 < 15 {
        return alu::calculated(operation_with(w / 2048), x, (w / 128 % 16) as u8, c.cy);
    }
    alu::loaded((w / 128 % 16) as u8, c.cy)
}

fn register_ac(c: Core, m: Machine, memory: &mut [u8], w: u16, a: u16) -> Core
    ensures { quickly result memory.new ≡ takes_of c memory.old a (ac_result_of c (shown_of m memory.old a) w) (eqb (w / 1024 % 2) 1) }
{
    let x = shown(m, memory, a);
    takes(c, memory, a, result_ac(c, x, w), w / 1024 % 2 == 1)
}

fn register_immediate(c: Core, m: Machine, memory: &mut [u8], w: u16, a: u16) -> Core
    ensures { quickly result memory.new ≡ takes_of c memory.old a (immediate_result_of c (shown_of m memory.old a) w) (writes_of (w / 2048)) }
{
    let x = shown(m, memory, a);
    takes(c, memory, a, result_immediate(c, x, w), writes(w / 2048))
}

#[tactic(auto, unfolding(crate::specs::Turn::ac_word_of))]
fn word_ac(c: Core, m: Machine, memory: &mut [u8], w: u16) -> Core
    ensures { quickly result memory.new ≡ ac_word_of m c memory.old w (target_of memory.old (w % 1024)) }
{
    let a = sh_cells::target(memory, w % 1024);
    if readable(a) {
        return register_ac(c, m, memory, w, a);
    }
    sh_core::stays(c)
}

#[tactic(auto, unfolding(crate::specs::Turn::immediate_word_of))]
fn word_immediate(c: Core, m: Machine, memory: &mut [u8], w: u16) -> Core
    ensures { quickly result memory.new ≡ immediate_word_of m c memory.old w (target_of memory.old (w % 128)) }
{
    let a = sh_cells::target(memory, w % 128);
    if readable(a) {
        return register_immediate(c, m, memory, w, a);
    }
    sh_core::stays(c)
}

#[tactic(auto, unfolding(crate::specs::Turn::cell_turn_of))]
fn cells(c: Core, m: Machine, memory: &mut [u8], w: u16) -> Core
    ensures { quickly result memory.new ≡ cell_turn_of m c memory.old w }
{
    if w < 0x4000 {
        return word_ac(c, m, memory, w);
    }
    word_immediate(c, m, memory, w)
}

// DAA and DAS on data, display and scan.
#[tactic(auto, unfolding(crate::specs::Turn::adjusted_of))]
fn adjusted(c: Core, memory: &mut [u8], w: u16, a: u16) -> Core
    ensures { quickly result memory.new ≡ adjusted_of c memory.old w a }
{
    let x = map::cell(memory, a);
    match w / 128 {
        0x196 => sh_core::put(c, memory, a, alu::decimal_added(x, c.cy)),
        0x19A => sh_core::put(c, memory, a, alu::decimal_subtracted(x, c.cy)),
        _ => sh_core::stays(c),
    }
}

#[tactic(auto, unfolding(crate::specs::Turn::decimal_of))]
fn decimal(c: Core, memory: &mut [u8], w: u16) -> Core
    ensures { quickly result memory.new ≡ decimal_of c memory.old w (target_of memory.old (w % 128)) }
{
    let a = sh_cells::target(memory, w % 128);
    if map::askable(a) {
        return adjusted(c, memory, w, a);
    }
    sh_core::stays(c)
}

// Where TJMP goes.
#[tactic(auto, unfolding(crate::specs::Turn::table_of))]
fn table(c: Core, memory: &[u8]) -> u16
    ensures { result ≡ table_of c memory.now }
{
    c.pc / 256 * 256 + (map::cell(memory, 0x0E) % 16 * 16 + c.ac % 16) as u16
}

#[tactic(auto, unfolding(crate::specs::Turn::other_turn_of))]
fn other(c: Core, m: Machine, memory: &mut [u8], w: u16) -> Core
    ensures { quickly result memory.new ≡ other_turn_of m c memory.old w }
{
    if w < 0x8000 {
        return cells(c, m, memory, w);
    }
    if w / 2048 == 25 {
        return decimal(c, memory, w);
    }
    if w == 0xF7FF {
        return sh_core::gone(c, table(c, memory));
    }
    sh_core::stays(c)
}

#[tactic(auto, unfolding(crate::specs::Turn::called_of))]
fn call(m: Machine, c: Core, t: u16) -> Turned
    ensures { result ≡ called_of m c t }
{
    Turned {
        machine: m.push(machine::entry(c.cy, sh_execute::next(c.pc))),
        core: sh_core::gone(c, sh_execute::within(c.pc, t)),
    }
}

#[tactic(auto, unfolding(crate::specs::Turn::returned_of))]
fn rtni(m: Machine, c: Core) -> Turned
    ensures { result ≡ returned_of m c }
{
    let e = m.newest();
    Turned {
        machine: m.pop(),
        core: Core {
            pc: e % 4096,
            ac: c.ac,
            cy: (e / 4096 % 2) as u8,
            went: true,
        },
    }
}

#[tactic(auto, unfolding(crate::specs::Turn::returned_with_of))]
fn rtnw(m: Machine, c: Core, memory: &mut [u8], h: u8, l: u8) -> Turned
    ensures { turning result memory.new ≡ returned_with_of m c memory.old h l }
{
    map::store(memory, 0x0E, h);
    let e = m.newest();
    Turned {
        machine: m.pop(),
        core: Core {
            pc: e % 4096,
            ac: l,
            cy: c.cy,
            went: true,
        },
    }
}

// A word that leaves the stack.
#[tactic(auto, unfolding(crate::specs::Turn::alone_of))]
fn alone(m: Machine, c: Core, memory: &mut [u8], w: u16) -> Turned
    ensures { turning result memory.new ≡ alone_of m (other_turn_of m c memory.old w) }
{
    Turned {
        machine: m,
        core: other(c, m, memory, w),
    }
}

// The word, where it goes.
#[tactic(auto, unfolding(crate::specs::Turn::turn_of))]
pub fn turn(m: Machine, c: Core, memory: &mut [u8], w: u16) -> Turned
    ensures { turning result memory.new ≡ turn_of m c memory.old w }
{
    if w / 2048 == 24 {
        return call(m, c, w % 2048);
    }
    if w == 0xD400 {
        return rtni(m, c);
    }
    if w / 256 == 0xD0 {
        return rtnw(m, c, memory, (w / 16 % 16) as u8, (w % 16) as u8);
    }
    alone(m, c, memory, w)
}
