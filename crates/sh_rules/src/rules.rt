// The rules of a memory and of a record beside it.
ghost use Rattle.std.specs.Prelude.{◌≡◌, true, ◌≤◌, length, None};
ghost use Rattle.sh_state.specs.State.{state};
ghost use Rattle.sh_rules.specs.Spans.{Within, FitBelow};
ghost use Rattle.sh_rules.specs.Rules.{cell_fits, broken_from, cpu_fits, stack_fits, timer0_fits, base_fits, watchdog_fits, bytes_fit, pins_fit, options_fit, pending_fits, well_formed_of, ties_fit};

use sh_map::map;
use sh_state::machine::Machine;

// Whether a byte has no bit but those that the cell at an address holds.
#[tactic(auto, using(crate::proofs::Laws::fits_past), unfolding(crate::specs::Rules::cell_fits))]
fn cell_fits(a: usize, v: u8) -> bool
    ensures { result ≡ cell_fits a v }
{
    u16::try_from(a).map_or(v == 0, |a| v & map::held(a) == v)
}

// Whether the bytes of a span, their bits taken together, are at most top; then each is.
fn within(memory: &[u8], a: usize, e: usize, top: u8) -> bool
    requires { (a ≤ e) × (e ≤ length memory.now) }
    ensures { result ≡ true → Within memory.now a e top }
{
    lent::joined(memory, a, e) <= top
}

// Whether each register holds no bit but its own. All are looked at, with no way out at the first that does not: so many are at once.
fn registers_fit(memory: &[u8]) -> bool
    requires { 32 ≤ length memory.now }
    ensures { result ≡ true → FitBelow memory.now 32 }
{
    let mut fit = true;
    for i in 0..32 {
        fit &= cell_fits(i, memory[i]);
    }
    fit
}

// True only where every cell fits, by spans, which is quick; where it is false, the search decides. A line for each span: a table of
// them would say no more, and each line's place is known to lie in the memory.
fn all_fit(memory: &[u8]) -> bool
    ensures { result ≡ true → broken_from memory.now 0 ≡ None }
{
    memory.len() == Machine::CELLS
        && within(memory, 0x020, 0x170, 15)
        && within(memory, 0x170, 0x300, 0)
        && within(memory, 0x300, 0x349, 15)
        && within(memory, 0x349, 0x358, 0)
        && within(memory, 0x358, 0x36E, 15)
        && within(memory, 0x36E, 0x370, 0)
        && within(memory, 0x370, 0x378, 15)
        && within(memory, 0x378, 0x400, 0)
        && registers_fit(memory)
}

// The lowest address whose byte breaks the memory rules.
pub fn first_broken(memory: &[u8]) -> Option<usize>
    ensures { result ≡ broken_from memory.now 0 }
{
    if all_fit(memory) {
        return None;
    }
    memory
        .iter()
        .enumerate()
        .position(|(i, v)| !cell_fits(i, *v))
}

#[tactic(auto, unfolding(crate::specs::Rules::cpu_fits))]
fn cpu_fits(m: Machine) -> bool
    ensures { result ≡ cpu_fits m }
{
    m.pc < 4096 && m.ac < 16 && m.cy < 2 && m.mode < 3
}

#[tactic(auto, unfolding(crate::specs::Rules::stack_fits))]
fn stack_fits(s: [u16; Machine::LEVELS]) -> bool
    ensures { result ≡ stack_fits s }
{
    s.iter().all(|e| *e < 8192)
}

#[tactic(auto, unfolding(crate::specs::Rules::timer0_fits))]
fn timer0_fits(m: Machine, mode: u8) -> bool
    ensures { result ≡ timer0_fits m mode }
{
    m.prescaler < sh_periods::ratio(mode)
}

#[tactic(auto, unfolding(crate::specs::Rules::base_fits))]
fn base_fits(m: Machine, mode: u8) -> bool
    ensures { result ≡ base_fits m mode }
{
    if mode / 4 % 4 == 2 {
        return m.baseprescaler < sh_periods::base_ratio(mode);
    }
    m.baseprescaler == 0 && m.basecounter == 0
}

#[tactic(auto, unfolding(crate::specs::Rules::watchdog_fits))]
fn watchdog_fits(m: Machine, control: u8) -> bool
    ensures { result ≡ watchdog_fits m control }
{
    m.watchdog != 0 && m.watchdog <= sh_periods::period(control)
}

// Counter, load and base counter are bytes by their type.
#[tactic(auto, unfolding(crate::specs::Rules::bytes_fit))]
fn bytes_fit(m: Machine) -> bool
    ensures { result ≡ bytes_fit m }
{
    true
}

#[tactic(auto, unfolding(crate::specs::Rules::pins_fit))]
fn pins_fit(m: Machine) -> bool
    ensures { result ≡ pins_fit m }
{
    m.pina < 16 && m.pinb < 16 && m.pinc < 16 && m.pind < 16
}

#[tactic(auto, unfolding(crate::specs::Rules::options_fit))]
fn options_fit(m: Machine, bonding: u8) -> bool
    ensures { result ≡ options_fit m bonding }
{
    m.options < 8 && bonding % 4 == m.options / 2
}

#[tactic(auto, unfolding(crate::specs::Rules::pending_fits))]
fn pending_fits(m: Machine) -> bool
    ensures { result ≡ pending_fits m }
{
    match m.pending {
        0 => m.address == 0,
        1 => m.address < 4096,
        _ => false,
    }
}

// The rules that tie a field to the memory beside it.
#[tactic(auto, unfolding(crate::specs::Rules::ties_fit))]
fn ties_fit(m: Machine, memory: &[u8]) -> bool
    ensures { result ≡ ties_fit (state m memory.now) }
{
    timer0_fits(m, map::cell(memory, 0x02))
        && base_fits(m, map::cell(memory, 0x03))
        && watchdog_fits(m, map::cell(memory, 0x1E))
        && options_fit(m, map::cell(memory, 0x0C))
}

// Whether a record fits its memory.
#[tactic(auto, unfolding(crate::specs::Rules::well_formed_of))]
pub fn well_formed(m: Machine, memory: &[u8]) -> bool
    ensures { result ≡ well_formed_of (state m memory.now) }
{
    cpu_fits(m)
        && stack_fits(m.stack)
        && bytes_fit(m)
        && pins_fit(m)
        && pending_fits(m)
        && sh_tones::fit(m.channels)
        && sh_halves::fits(m.frozen)
        && ties_fit(m, memory)
}
