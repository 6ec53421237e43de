// What a write leaves in the cell and in the record.
#![tactic(auto)]

ghost use Rattle.std.specs.Prelude.{◌≡◌};
ghost use Rattle.sh_state.specs.Record.{set_prescaler};
ghost use Rattle.sh_state.specs.State.{state};
ghost use Rattle.sh_writes.specs.Writes.{kept_of, base_written_of, load_low_of, load_high_of, asked_of, noticed_of, write_of};

use sh_map::map;
use sh_state::machine::Machine;

// What the cell holds after v is written where it held old.
#[tactic(auto, unfolding(crate::specs::Writes::kept_of))]
fn kept(old: u8, a: u16, v: u8) -> u8
    ensures { result ≡ kept_of old a v }
{
    let w = map::written(a);
    (old & (255 - w)) | (v & w)
}

#[tactic(auto, unfolding(crate::specs::Writes::base_written_of, sh_state::specs::Record::set_base_prescaler, sh_state::specs::Record::set_base_counter))]
fn base_written(mut m: Machine, v: u8) -> Machine
    ensures { result ≡ base_written_of m v }
{
    m.baseprescaler = 0;
    if v / 4 % 4 != 2 {
        m.basecounter = 0;
    }
    m
}

#[tactic(auto, unfolding(crate::specs::Writes::load_low_of, sh_state::specs::Record::set_load))]
fn load_low(mut m: Machine, v: u8) -> Machine
    ensures { result ≡ load_low_of m v }
{
    m.load = m.load / 16 * 16 + v % 16;
    m
}

#[tactic(auto, unfolding(crate::specs::Writes::load_high_of, sh_state::specs::Record::set_load, sh_state::specs::Record::set_counter, sh_state::specs::Record::set_frozen))]
fn load_high(mut m: Machine, v: u8) -> Machine
    ensures { result ≡ load_high_of m v }
{
    m.load = v % 16 * 16 + m.load % 16;
    m.counter = m.load;
    m.frozen = sh_halves::released();
    m
}

#[tactic(auto, unfolding(crate::specs::Writes::asked_of, sh_state::specs::Record::set_pending))]
fn asked(mut m: Machine, memory: &[u8], v: u8) -> Machine
    ensures { result ≡ asked_of (state m memory.now) v }
{
    m.pending = 1;
    m.address = 256 * (map::cell(memory, 0x1C) % 16) as u16
        + 16 * (map::cell(memory, 0x1B) % 16) as u16
        + (v % 16) as u16;
    m
}

#[tactic(auto, unfolding(sh_state::specs::Record::set_prescaler))]
fn prescaler_cleared(mut m: Machine) -> Machine
    ensures { result ≡ set_prescaler m 0 }
{
    m.prescaler = 0;
    m
}

// What the record notices of v being written.
#[tactic(auto, unfolding(crate::specs::Writes::noticed_of))]
fn noticed(m: Machine, memory: &[u8], a: u16, v: u8) -> Machine
    ensures { result ≡ noticed_of (state m memory.now) a v }
{
    match a {
        0x02 => prescaler_cleared(m),
        0x03 => base_written(m, v),
        0x04 => load_low(m, v),
        0x05 => load_high(m, v),
        0x1A => asked(m, memory, v),
        0x1E => sh_cells::restarted(m, v),
        _ => m,
    }
}

// A write: the record that noticed it, and at most one cell changed.
#[tactic(auto, unfolding(crate::specs::Writes::write_of))]
pub fn write(m: Machine, memory: &mut [u8], a: u16, v: u8) -> Machine
    ensures { state result memory.new ≡ write_of (state m memory.old) a v }
{
    let k = kept(map::cell(memory, a), a, v);
    let n = noticed(m, memory, a, v);
    map::store(memory, a, k);
    n
}
