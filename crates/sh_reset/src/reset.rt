// Resets: by the pin and by the watchdog.
ghost use Rattle.std.specs.Prelude.{◌≡◌};
ghost use Rattle.sh_state.specs.State.{state};
ghost use Rattle.sh_reset.specs.Reset.{stays_in, sets_of, reset_cell_of, reset_memory_of, reset_record_of, reset_of};

use sh_map::map;
use sh_map::map::Kind;
use sh_state::machine::Machine;

// The two columns of the data sheet's table 3.3.
#[derive(Clone, Copy)]
pub enum Column {
    Pin,
    Watchdog,
}

const REGISTER_STAYS: [u8; 32] = [
    0, 0, 15, 15, 0, 0, 0, 7, 0, 0, 0, 0, 12, 15, 15, 15, 15, 7, 7, 7, 9, 15, 0, 0, 0, 0, 15, 15,
    15, 15, 0, 0,
];

const SOUND_STAYS: [u8; 8] = [15, 15, 15, 15, 15, 15, 15, 12];

// The bits that stay at an address: of a register or of sound none by the pin and those of the table by the watchdog; elsewhere all.
#[tactic(auto, unfolding(crate::specs::Reset::stays_in, crate::specs::Reset::register_stays, crate::specs::Reset::sound_stays))]
fn stays_in(k: Kind, column: Column, a: u16) -> u8
    ensures { result ≡ stays_in k column a }
{
    match (k, column) {
        (Kind::Register, Column::Pin) | (Kind::Sound, Column::Pin) => 0,
        (Kind::Register, Column::Watchdog) => lent::peek(&REGISTER_STAYS, a as usize),
        (Kind::Sound, Column::Watchdog) => lent::peek(&SOUND_STAYS, (a % 8) as usize),
        _ => 15,
    }
}

// The bits that become 1, and the bonding bits of $00C, which are as the board has them.
#[tactic(auto, unfolding(crate::specs::Reset::sets_of, crate::specs::Reset::rises_of))]
fn sets(column: Column, options: u8, a: u16) -> u8
    ensures { result ≡ sets_of column options a }
{
    match (column, a) {
        (_, 0x0C) => options / 2 % 4,
        (Column::Pin, 0x13) => 4,
        (Column::Watchdog, 0x1E) => 8,
        _ => 0,
    }
}

#[tactic(auto, unfolding(crate::specs::Reset::reset_cell_of))]
fn reset_cell(column: Column, options: u8, a: u16, v: u8) -> u8
    ensures { result ≡ reset_cell_of column options a v }
{
    (v & stays_in(map::kind_at(a), column, a)) | sets(column, options, a)
}

#[tactic(auto, using(crate::proofs::Laws::reset_past))]
fn reset_cell_at(column: Column, options: u8, i: usize, v: u8) -> u8
    ensures { result ≡ reset_cell_of column options i v }
{
    u16::try_from(i).map_or(v & 15, |a| reset_cell(column, options, a, v))
}

// The cells of a memory after a reset.
#[tactic(auto, unfolding(crate::specs::Reset::reset_memory_of))]
pub fn reset_memory(column: Column, options: u8, memory: &mut [u8])
    ensures { memory.new ≡ reset_memory_of column options memory.old }
{
    for (i, v) in memory.iter_mut().enumerate() {
        *v = reset_cell_at(column, options, i, *v);
    }
}

#[tactic(auto, unfolding(crate::specs::Reset::reset_record_of, crate::specs::Reset::pins_of, sh_state::specs::Record::set_pin_a, sh_state::specs::Record::set_pin_b, sh_state::specs::Record::set_pin_c, sh_state::specs::Record::set_pin_d))]
fn reset_record(m: Machine) -> Machine
    ensures { result ≡ reset_record_of m }
{
    Machine {
        pina: m.pina,
        pinb: m.pinb,
        pinc: m.pinc,
        pind: m.pind,
        ..Machine::fresh(m.options)
    }
}

// A machine after a reset.
#[tactic(auto, unfolding(crate::specs::Reset::reset_of))]
pub fn reset(column: Column, m: Machine, memory: &mut [u8]) -> Machine
    ensures { state result memory.new ≡ reset_of column (state m memory.old) }
{
    reset_memory(column, m.options, memory);
    reset_record(m)
}
