// The picture: one byte, 0 or 1, for each element of a wiring.
#![tactic(auto)]

ghost use Rattle.std.specs.Prelude.{◌≡◌, ◌*◌, ◌+◌, ◌<◌, length};
ghost use Rattle.sh_state.specs.State.{state};
ghost use Rattle.lent.specs.Outcome.{outcome};
ghost use Rattle.picture.specs.Picture.{bit_of, lit_of, shown_at, element_of, shown_of, draw_of, picture_of};

use refusal::Refusal;
use sh_map::map;
use sh_rules::judge;
use sh_state::machine::Machine;

const LCD: u16 = 0x007;

const STOP: u8 = 2;

// A bit of a cell.
#[tactic(auto, using(crate::proofs::Laws::no_bit), unfolding(crate::specs::Picture::bit_of))]
fn bit(v: u8, b: u8) -> u8
    ensures { result ≡ bit_of v b }
{
    if b < 8 { (v >> b) % 2 } else { 0 }
}

// Whether the display shows: LCDON is 1, and the machine is not in STOP.
#[tactic(auto, unfolding(crate::specs::Picture::lit_of))]
fn lit(m: Machine, memory: &[u8]) -> bool
    ensures { result ≡ lit_of (state m memory.now) }
{
    m.mode != STOP && map::cell(memory, LCD) / 4 % 2 == 1
}

// What the memory holds for an element.
#[tactic(auto, unfolding(crate::specs::Picture::shown_at))]
fn shown(memory: &[u8], wiring: &[u8], k: usize) -> u8
    requires { 3 * k + 2 < length wiring.now }
    ensures { result ≡ shown_at memory.now wiring.now k }
{
    let a = lent::pair_at(wiring, 3 * k);
    let b = lent::peek(wiring, 3 * k + 2);
    bit(map::cell(memory, a), b)
}

#[tactic(auto, unfolding(crate::specs::Picture::element_of))]
fn element(lit: bool, memory: &[u8], wiring: &[u8], k: usize) -> u8
    requires { 3 * k + 2 < length wiring.now }
    ensures { result ≡ element_of lit memory.now wiring.now k }
{
    if lit { shown(memory, wiring, k) } else { 0 }
}

// The elements one after the other, where the room holds them.
#[tactic(auto, using(crate::proofs::Laws::shown_length), unfolding(crate::specs::Picture::draw_of))]
fn draw(lit: bool, memory: &[u8], wiring: &[u8], room: &mut [u8]) -> Result<usize, Refusal>
    ensures { outcome result room.new ≡ draw_of (shown_of lit memory.now wiring.now) room.old }
{
    let n = wiring.len() / 3;
    if room.len() < n {
        return Err(Refusal::Room(n as u64));
    }
    for (k, place) in room[..n].iter_mut().enumerate() {
        *place = element(lit, memory, wiring, k);
    }
    Ok(n)
}

// The picture of a machine's display by a wiring, or why it is not drawn; what lies beyond it in the room stays.
#[tactic(auto, unfolding(crate::specs::Picture::picture_of, crate::specs::Picture::drawn_of, sh_rules::specs::Judge::first_of))]
pub fn picture(m: Machine, memory: &[u8], wiring: &[u8], room: &mut [u8]) -> Result<usize, Refusal>
    ensures { outcome result room.new ≡ picture_of (state m memory.now) wiring.now room.old }
{
    judge::machine(m, memory)?;
    body::wiring(wiring)?;
    draw(lit(m, memory), memory, wiring, room)
}
