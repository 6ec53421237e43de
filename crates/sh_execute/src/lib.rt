// One instruction of the SH67P54 on its machine.
#![tactic(auto)]

ghost use Rattle.std.specs.Prelude.{◌≡◌};
ghost use Rattle.sh_state.specs.State.{state};
ghost use Rattle.alu.specs.declared.Sum.{Sum};
ghost use Rattle.sh_cells.specs.Cells.{read_of, target_of};
ghost use Rattle.sh_execute.specs.Execute.{next_of, within_of, onward_of, took_of, put_of, accumulated_of, stored_of, load_of, accumulator_form_of, memory_form_of, lda_of, sta_of, ldi_of, with_immediate_of, stored_immediate_of, immediate_form_of, daa_of, das_of, taken_of, branch_of, call_of, rtnw_of, rtni_of, rest_of, shr_of, tjmp_of, execute_of};

use alu::Sum;
use sh_map::map;
use sh_state::machine;
use sh_state::machine::Machine;
use word::{Condition, ImmediateOperation, Instruction, Operation};

// PC+1 within 11 bits.
#[tactic(auto, unfolding(crate::specs::Execute::next_of))]
pub fn next(pc: u16) -> u16
    ensures { result ≡ next_of pc }
{
    pc / 2048 * 2048 + (pc % 2048 + 1) % 2048
}

// A target within PC11's half.
#[tactic(auto, unfolding(crate::specs::Execute::within_of))]
pub fn within(pc: u16, t: u16) -> u16
    ensures { result ≡ within_of pc t }
{
    pc / 2048 * 2048 + t % 2048
}

#[tactic(auto, unfolding(crate::specs::Execute::onward_of))]
fn onward(m: Machine) -> Machine
    ensures { result ≡ onward_of m }
{
    machine::with_pc(m, next(m.pc))
}

// AC and CY take a result, and PC goes on.
#[tactic(auto, unfolding(crate::specs::Execute::took_of, sh_state::specs::Record::set_ac, sh_state::specs::Record::set_cy))]
fn took(mut m: Machine, r: Sum) -> Machine
    ensures { result ≡ took_of m r }
{
    m.ac = r.value;
    m.cy = r.carry;
    onward(m)
}

// A result taken by AC and CY and written to a cell too.
#[tactic(auto, unfolding(crate::specs::Execute::put_of))]
fn put(m: Machine, memory: &mut [u8], a: u16, r: Sum) -> Machine
    ensures { state result memory.new ≡ put_of (state m memory.old) a r }
{
    sh_writes::write(took(m, r), memory, a, r.value)
}

#[tactic(auto, unfolding(crate::specs::Execute::accumulated_of, sh_cells::specs::Cells::read_of))]
fn accumulated(m: Machine, memory: &[u8], o: Operation, operand: u8, a: u16) -> Machine
    ensures { result ≡ accumulated_of (state m memory.now) o operand a }
{
    let v = sh_cells::value(m, memory, a);
    let n = sh_cells::seen(m, memory, a);
    took(n, alu::calculated(o, v, operand, m.cy))
}

#[tactic(auto, unfolding(crate::specs::Execute::stored_of, sh_cells::specs::Cells::read_of))]
fn stored(m: Machine, memory: &mut [u8], o: Operation, operand: u8, a: u16) -> Machine
    ensures { state result memory.new ≡ stored_of (state m memory.old) o operand a }
{
    let v = sh_cells::value(m, memory, a);
    let n = sh_cells::seen(m, memory, a);
    put(n, memory, a, alu::calculated(o, v, operand, m.cy))
}

#[tactic(auto, unfolding(crate::specs::Execute::load_of, sh_cells::specs::Cells::read_of))]
fn load(m: Machine, memory: &[u8], a: u16) -> Machine
    ensures { result ≡ load_of (state m memory.now) a }
{
    let v = sh_cells::value(m, memory, a);
    let n = sh_cells::seen(m, memory, a);
    took(n, alu::loaded(v, m.cy))
}

#[tactic(auto, unfolding(crate::specs::Execute::accumulator_form_of))]
fn accumulator_form(m: Machine, memory: &[u8], o: Operation, x: u16) -> Machine
    ensures { state result memory.now ≡ accumulator_form_of (state m memory.now) o x }
{
    accumulated(m, memory, o, m.ac, sh_cells::target(memory, x))
}

#[tactic(auto, unfolding(crate::specs::Execute::memory_form_of))]
fn memory_form(m: Machine, memory: &mut [u8], o: Operation, x: u16) -> Machine
    ensures { state result memory.new ≡ memory_form_of (state m memory.old) o x }
{
    let a = sh_cells::target(memory, x);
    stored(m, memory, o, m.ac, a)
}

#[tactic(auto, unfolding(crate::specs::Execute::lda_of))]
fn lda(m: Machine, memory: &[u8], x: u16) -> Machine
    ensures { state result memory.now ≡ lda_of (state m memory.now) x }
{
    load(m, memory, sh_cells::target(memory, x))
}

#[tactic(auto, unfolding(crate::specs::Execute::sta_of))]
fn sta(m: Machine, memory: &mut [u8], x: u16) -> Machine
    ensures { state result memory.new ≡ sta_of (state m memory.old) x }
{
    let a = sh_cells::target(memory, x);
    put(m, memory, a, alu::loaded(m.ac, m.cy))
}

#[tactic(auto, unfolding(crate::specs::Execute::ldi_of))]
fn ldi(m: Machine, memory: &mut [u8], x: u16, i: u8) -> Machine
    ensures { state result memory.new ≡ ldi_of (state m memory.old) x i }
{
    let a = sh_cells::target(memory, x);
    put(m, memory, a, alu::loaded(i, m.cy))
}

#[tactic(auto, unfolding(crate::specs::Execute::with_immediate_of))]
fn with_immediate(m: Machine, memory: &[u8], o: Operation, x: u16, i: u8) -> Machine
    ensures { state result memory.now ≡ with_immediate_of (state m memory.now) o x i }
{
    accumulated(m, memory, o, i, sh_cells::target(memory, x))
}

#[tactic(auto, unfolding(crate::specs::Execute::stored_immediate_of))]
fn stored_immediate(m: Machine, memory: &mut [u8], o: Operation, x: u16, i: u8) -> Machine
    ensures { state result memory.new ≡ stored_immediate_of (state m memory.old) o x i }
{
    let a = sh_cells::target(memory, x);
    stored(m, memory, o, i, a)
}

#[tactic(auto, unfolding(crate::specs::Execute::immediate_form_of))]
fn immediate_form(m: Machine, memory: &mut [u8], o: ImmediateOperation, x: u16, i: u8) -> Machine
    ensures { state result memory.new ≡ immediate_form_of (state m memory.old) o x i }
{
    match o {
        ImmediateOperation::Adi => with_immediate(m, memory, Operation::Add, x, i),
        ImmediateOperation::Adim => stored_immediate(m, memory, Operation::Add, x, i),
        ImmediateOperation::Sbi => with_immediate(m, memory, Operation::Sub, x, i),
        ImmediateOperation::Sbim => stored_immediate(m, memory, Operation::Sub, x, i),
        ImmediateOperation::Eorim => stored_immediate(m, memory, Operation::Eor, x, i),
        ImmediateOperation::Orim => stored_immediate(m, memory, Operation::Or, x, i),
        ImmediateOperation::Andim => stored_immediate(m, memory, Operation::And, x, i),
    }
}

// A cell read and adjusted by its value and CY; AC and the cell take the result.
#[tactic(auto, unfolding(sh_cells::specs::Cells::read_of))]
fn adjusted<F: Fn(u8, u8) -> Sum>(m: Machine, memory: &mut [u8], x: u16, adjust: F) -> Machine
    requires { F.IsAlwaysCallable adjust }
    ensures { (r : Sum) × F.post adjust (read_of (state m memory.old) (target_of memory.old x)).value m.cy r × (state result memory.new ≡ put_of (state (read_of (state m memory.old) (target_of memory.old x)).machine memory.old) (target_of memory.old x) r) }
{
    let a = sh_cells::target(memory, x);
    let v = sh_cells::value(m, memory, a);
    let n = sh_cells::seen(m, memory, a);
    put(n, memory, a, adjust(v, m.cy))
}

#[tactic(auto, unfolding(crate::specs::Execute::daa_of))]
fn daa(m: Machine, memory: &mut [u8], x: u16) -> Machine
    ensures { state result memory.new ≡ daa_of (state m memory.old) x }
{
    adjusted(m, memory, x, |v, cy| alu::decimal_added(v, cy))
}

#[tactic(auto, unfolding(crate::specs::Execute::das_of))]
fn das(m: Machine, memory: &mut [u8], x: u16) -> Machine
    ensures { state result memory.new ≡ das_of (state m memory.old) x }
{
    adjusted(m, memory, x, |v, cy| alu::decimal_subtracted(v, cy))
}

#[tactic(auto, unfolding(crate::specs::Execute::taken_of))]
pub fn taken(c: Condition, ac: u8, cy: u8) -> bool
    ensures { result ≡ taken_of c ac cy }
{
    match c {
        Condition::Bnz => ac != 0,
        Condition::Bnc => cy != 1,
        Condition::Baz => ac == 0,
        Condition::Bc => cy == 1,
        Condition::Ba0 => ac % 2 == 1,
        Condition::Ba1 => ac / 2 % 2 == 1,
        Condition::Ba2 => ac / 4 % 2 == 1,
        Condition::Ba3 => ac / 8 % 2 == 1,
    }
}

#[tactic(auto, unfolding(crate::specs::Execute::branch_of, crate::specs::Execute::branch_if_of))]
fn branch(m: Machine, c: Condition, t: u16) -> Machine
    ensures { result ≡ branch_of m c t }
{
    if taken(c, m.ac, m.cy) {
        return machine::with_pc(m, within(m.pc, t));
    }
    onward(m)
}

#[tactic(auto, unfolding(crate::specs::Execute::call_of))]
fn call(m: Machine, t: u16) -> Machine
    ensures { result ≡ call_of m t }
{
    machine::with_pc(m.push(machine::entry(m.cy, next(m.pc))), within(m.pc, t))
}

#[tactic(auto, unfolding(crate::specs::Execute::rtnw_of, sh_state::specs::Record::set_ac))]
fn rtnw(m: Machine, memory: &mut [u8], h: u8, l: u8) -> Machine
    ensures { state result memory.new ≡ rtnw_of (state m memory.old) h l }
{
    map::store(memory, 0x0E, h);
    let mut n = m.pop();
    n.ac = l;
    machine::with_pc(n, m.newest() % 4096)
}

#[tactic(auto, unfolding(crate::specs::Execute::rtni_of, sh_state::specs::Record::set_cy))]
fn rtni(m: Machine) -> Machine
    ensures { result ≡ rtni_of m }
{
    let e = m.newest();
    let mut n = m.pop();
    n.cy = (e / 4096 % 2) as u8;
    machine::with_pc(n, e % 4096)
}

#[tactic(auto, unfolding(crate::specs::Execute::rest_of, sh_state::specs::Record::set_mode))]
fn rest(m: Machine, mode: u8) -> Machine
    ensures { result ≡ rest_of m mode }
{
    let mut n = onward(m);
    n.mode = mode;
    n
}

#[tactic(auto, unfolding(crate::specs::Execute::shr_of))]
fn shr(m: Machine) -> Machine
    ensures { result ≡ shr_of m }
{
    took(m, alu::shifted_right(m.ac))
}

#[tactic(auto, unfolding(crate::specs::Execute::tjmp_of))]
fn tjmp(m: Machine, memory: &[u8]) -> Machine
    ensures { result ≡ tjmp_of (state m memory.now) }
{
    machine::with_pc(
        m,
        m.pc / 256 * 256 + (map::cell(memory, 0x0E) % 16 * 16 + m.ac % 16) as u16,
    )
}

// One instruction.
#[tactic(auto, unfolding(crate::specs::Execute::execute_of))]
pub fn execute(m: Machine, memory: &mut [u8], i: Instruction) -> Machine
    ensures { state result memory.new ≡ execute_of (state m memory.old) i }
{
    match i {
        Instruction::Accumulator(o, x) => accumulator_form(m, memory, o, x),
        Instruction::Memory(o, x) => memory_form(m, memory, o, x),
        Instruction::Lda(x) => lda(m, memory, x),
        Instruction::Sta(x) => sta(m, memory, x),
        Instruction::Immediate(o, x, k) => immediate_form(m, memory, o, x, k),
        Instruction::Ldi(x, k) => ldi(m, memory, x, k),
        Instruction::Branch(c, t) => branch(m, c, t),
        Instruction::Call(t) => call(m, t),
        Instruction::Daa(x) => daa(m, memory, x),
        Instruction::Das(x) => das(m, memory, x),
        Instruction::Rtnw(h, l) => rtnw(m, memory, h, l),
        Instruction::Rtni => rtni(m),
        Instruction::Halt => rest(m, 1),
        Instruction::Stop => rest(m, 2),
        Instruction::Jmp(t) => machine::with_pc(m, t),
        Instruction::Shr => shr(m),
        Instruction::Tjmp => tjmp(m, memory),
        Instruction::Nop => onward(m),
    }
}
