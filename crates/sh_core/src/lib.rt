// One word on PC, AC and CY, where it touches no cell but data, display and scan.
#![tactic(auto)]

ghost use Rattle.std.specs.Prelude.{◌%◌, ◌<◌, ◌≤◌, ◌≡◌, eqb};
ghost use Rattle.lent.specs.Lent.{pick};
ghost use Rattle.word.specs.Word.{decode_of};
ghost use Rattle.alu.specs.Alu.{shifted_right_of};
ghost use Rattle.sh_cells.specs.Cells.{target_of};
ghost use Rattle.sh_execute.specs.Execute.{next_of};
ghost use Rattle.sh_core.specs.Quick.{quickly, stays_of, got_of, gone_of, put_of, only_of, both_of, cell_of, stored_of, word_on_of, cell_word_of, branched_of, other_word_of, quick_of};

use alu::Sum;
use sh_map::map;
use word::{Condition, Operation};

// PC, AC and CY, and whether the word went: where not, nothing has moved.
#[derive(Clone, Copy)]
pub struct Core {
    pub pc: u16,
    pub ac: u8,
    pub cy: u8,
    pub went: bool,
}

#[tactic(auto, unfolding(crate::specs::Quick::stays_of))]
pub fn stays(c: Core) -> Core
    ensures { result ≡ stays_of c }
{
    Core {
        pc: c.pc,
        ac: c.ac,
        cy: c.cy,
        went: false,
    }
}

#[tactic(auto, unfolding(crate::specs::Quick::got_of))]
pub fn got(c: Core, r: Sum) -> Core
    ensures { result ≡ got_of c r }
{
    Core {
        pc: sh_execute::next(c.pc),
        ac: r.value,
        cy: r.carry,
        went: true,
    }
}

#[tactic(auto, unfolding(crate::specs::Quick::gone_of))]
pub fn gone(c: Core, pc: u16) -> Core
    ensures { result ≡ gone_of c pc }
{
    Core {
        pc,
        ac: c.ac,
        cy: c.cy,
        went: true,
    }
}

#[tactic(auto, unfolding(crate::specs::Quick::put_of))]
pub fn put(c: Core, memory: &mut [u8], a: u16, r: Sum) -> Core
    ensures { quickly result memory.new ≡ put_of c memory.old a r }
{
    let old = map::cell(memory, a);
    map::store(memory, a, (old & 240) | (r.value & 15));
    got(c, r)
}

#[tactic(auto, unfolding(crate::specs::Quick::only_of))]
fn only(c: Core, memory: &[u8], a: u16, o: Operation, y: u8) -> Core
    ensures { result ≡ only_of c memory.now a o y }
{
    got(c, alu::calculated(o, map::cell(memory, a), y, c.cy))
}

#[tactic(auto, unfolding(crate::specs::Quick::both_of))]
fn both(c: Core, memory: &mut [u8], a: u16, o: Operation, y: u8) -> Core
    ensures { quickly result memory.new ≡ both_of c memory.old a o y }
{
    let x = map::cell(memory, a);
    put(c, memory, a, alu::calculated(o, x, y, c.cy))
}

#[tactic(auto, unfolding(crate::specs::Quick::cell_of))]
fn lda(c: Core, memory: &[u8], a: u16) -> Core
    ensures { result ≡ cell_of c memory.now a }
{
    got(c, alu::loaded(map::cell(memory, a), c.cy))
}

#[tactic(auto, unfolding(crate::specs::Quick::stored_of))]
fn sta(c: Core, memory: &mut [u8], a: u16, y: u8) -> Core
    ensures { quickly result memory.new ≡ stored_of c memory.old a y }
{
    put(c, memory, a, alu::loaded(y, c.cy))
}

// An arm for each form, here and below, so that each has its operation as a constant: that is quicker (docs/DECISIONS.md).
#[tactic(auto, using(crate::proofs::Words::only_word, crate::proofs::Words::both_word, crate::proofs::Words::lda_word, crate::proofs::Words::sta_word), unfolding(word::specs::Codes::operation_of))]
fn with_ac(c: Core, memory: &mut [u8], w: u16, a: u16) -> Core
    requires { w < 0x4000 }
    ensures { quickly result memory.new ≡ word_on_of c memory.old a (decode_of w) }
{
    match w / 1024 {
        0 => only(c, memory, a, Operation::Adc, c.ac),
        1 => both(c, memory, a, Operation::Adc, c.ac),
        2 => only(c, memory, a, Operation::Add, c.ac),
        3 => both(c, memory, a, Operation::Add, c.ac),
        4 => only(c, memory, a, Operation::Sbc, c.ac),
        5 => both(c, memory, a, Operation::Sbc, c.ac),
        6 => only(c, memory, a, Operation::Sub, c.ac),
        7 => both(c, memory, a, Operation::Sub, c.ac),
        8 => only(c, memory, a, Operation::Eor, c.ac),
        9 => both(c, memory, a, Operation::Eor, c.ac),
        10 => only(c, memory, a, Operation::Or, c.ac),
        11 => both(c, memory, a, Operation::Or, c.ac),
        12 => only(c, memory, a, Operation::And, c.ac),
        13 => both(c, memory, a, Operation::And, c.ac),
        14 => lda(c, memory, a),
        15 => sta(c, memory, a, c.ac),
        _ => stays(c),
    }
}

#[tactic(auto, using(crate::proofs::Words::immediate_word, crate::proofs::Words::ldi_word), unfolding(word::specs::Codes::immediate_of, crate::specs::Quick::immediate_on_of))]
fn with_immediate(c: Core, memory: &mut [u8], w: u16, a: u16) -> Core
    requires { (0x4000 ≤ w) × (w < 0x8000) }
    ensures { quickly result memory.new ≡ word_on_of c memory.old a (decode_of w) }
{
    let i = (w / 128 % 16) as u8;
    match w / 2048 {
        8 => only(c, memory, a, Operation::Add, i),
        9 => both(c, memory, a, Operation::Add, i),
        10 => only(c, memory, a, Operation::Sub, i),
        11 => both(c, memory, a, Operation::Sub, i),
        12 => both(c, memory, a, Operation::Eor, i),
        13 => both(c, memory, a, Operation::Or, i),
        14 => both(c, memory, a, Operation::And, i),
        15 => sta(c, memory, a, i),
        _ => stays(c),
    }
}

#[tactic(auto, unfolding(crate::specs::Quick::cell_word_of))]
fn accumulator(c: Core, memory: &mut [u8], w: u16) -> Core
    requires { w < 0x4000 }
    ensures { quickly result memory.new ≡ cell_word_of c memory.old w (target_of memory.old (w % 1024)) }
{
    let a = sh_cells::target(memory, w % 1024);
    if map::askable(a) {
        return with_ac(c, memory, w, a);
    }
    stays(c)
}

#[tactic(auto, unfolding(crate::specs::Quick::cell_word_of))]
fn immediate(c: Core, memory: &mut [u8], w: u16) -> Core
    requires { (0x4000 ≤ w) × (w < 0x8000) }
    ensures { quickly result memory.new ≡ cell_word_of c memory.old w (target_of memory.old (w % 128)) }
{
    let a = sh_cells::target(memory, w % 128);
    if map::askable(a) {
        return with_immediate(c, memory, w, a);
    }
    stays(c)
}

#[tactic(auto, unfolding(crate::specs::Quick::branched_of))]
fn branch(c: Core, k: Condition, w: u16) -> Core
    ensures { result ≡ branched_of c k (w % 2048) }
{
    if sh_execute::taken(k, c.ac, c.cy) {
        return gone(c, sh_execute::within(c.pc, w % 2048));
    }
    gone(c, sh_execute::next(c.pc))
}

fn shr(c: Core, w: u16) -> Core
    ensures { result ≡ pick (eqb w 0xF000) (got_of c (shifted_right_of c.ac)) (stays_of c) }
{
    if w == 0xF000 {
        return got(c, alu::shifted_right(c.ac));
    }
    stays(c)
}

fn nop(c: Core, w: u16) -> Core
    ensures { result ≡ pick (eqb w 0xFFFF) (gone_of c (next_of c.pc)) (stays_of c) }
{
    if w == 0xFFFF {
        return gone(c, sh_execute::next(c.pc));
    }
    stays(c)
}

#[tactic(auto, using(crate::proofs::Words::branch_word, crate::proofs::Words::jmp_word, crate::proofs::Words::shr_word, crate::proofs::Words::nop_word, crate::proofs::Words::stays_word), unfolding(word::specs::Codes::condition_of))]
fn others(c: Core, w: u16) -> Core
    requires { 0x8000 ≤ w }
    ensures { result ≡ other_word_of c (decode_of w) }
{
    match w / 2048 {
        16 => branch(c, Condition::Bnz, w),
        17 => branch(c, Condition::Bnc, w),
        18 => branch(c, Condition::Baz, w),
        19 => branch(c, Condition::Bc, w),
        20 => branch(c, Condition::Ba0, w),
        21 => branch(c, Condition::Ba1, w),
        22 => branch(c, Condition::Ba2, w),
        23 => branch(c, Condition::Ba3, w),
        // JMP's two codes by themselves: `28 | 29` is tested behind the table, which costs each jump four instructions.
        28 => gone(c, w % 4096),
        29 => gone(c, w % 4096),
        30 => shr(c, w),
        31 => nop(c, w),
        _ => stays(c),
    }
}

// One word, where it only touches plain cells, PC, AC and CY.
#[tactic(auto, unfolding(crate::specs::Quick::quick_of))]
pub fn quick(c: Core, memory: &mut [u8], w: u16) -> Core
    ensures { quickly result memory.new ≡ quick_of c memory.old w }
{
    if w < 0x4000 {
        return accumulator(c, memory, w);
    }
    if w < 0x8000 {
        return immediate(c, memory, w);
    }
    others(c, w)
}
