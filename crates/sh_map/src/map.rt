// The memory map: what each address is and which bits it holds.
ghost use Rattle.std.specs.Prelude.{◌≡◌, set};
ghost use Rattle.lent.specs.Lent.{at};
ghost use Rattle.sh_map.specs.Map.{kind_of, held_of, written_of, askable_of, display_of};

#[derive(Clone, Copy)]
pub enum Kind {
    Register,
    Data,
    Display,
    Scan,
    Sound,
    Unmapped,
}

const BITS: [u8; 32] = [
    15, 15, 15, 15, 0, 0, 0, 7, 15, 15, 15, 15, 15, 15, 15, 0, 15, 7, 7, 15, 11, 15, 15, 15, 15,
    15, 15, 15, 15, 15, 15, 0,
];

const WRITTEN: [u8; 32] = [
    15, 15, 15, 15, 0, 0, 0, 7, 15, 15, 15, 15, 12, 15, 15, 0, 15, 7, 7, 15, 11, 15, 15, 15, 15,
    15, 15, 15, 15, 15, 7, 0,
];

// The cell at an address, and 0 past the memory's end.
pub fn cell(memory: &[u8], a: u16) -> u8
    ensures { result ≡ at memory.now a }
{
    lent::peek(memory, a as usize)
}

// A value stored at an address; nothing happens past the memory's end.
pub fn store(memory: &mut [u8], a: u16, v: u8)
    ensures { memory.new ≡ set memory.old a v }
{
    lent::poke(memory, a as usize, v);
}

// What an address is.
#[tactic(auto, unfolding(crate::specs::Map::kind_of))]
pub fn kind_at(a: u16) -> Kind
    ensures { result ≡ kind_of a }
{
    match a {
        0x000..=0x01F => Kind::Register,
        0x020..=0x16F => Kind::Data,
        0x300..=0x348 => Kind::Display,
        0x358..=0x36D => Kind::Scan,
        0x370..=0x377 => Kind::Sound,
        _ => Kind::Unmapped,
    }
}

// The bits that the cell at an address can hold.
#[tactic(auto, unfolding(crate::specs::Map::held_of, crate::specs::Map::held_in, crate::specs::Map::register_bits))]
pub fn held(a: u16) -> u8
    ensures { result ≡ held_of a }
{
    match kind_at(a) {
        Kind::Register => lent::peek(&BITS, a as usize),
        Kind::Data | Kind::Display | Kind::Scan | Kind::Sound => 15,
        Kind::Unmapped => 0,
    }
}

// The bits that a write to an address stores. One function for this and `held` would want a third definition beside their two.
#[tactic(auto, unfolding(crate::specs::Map::written_of, crate::specs::Map::written_in, crate::specs::Map::register_written))]
pub fn written(a: u16) -> u8
    ensures { result ≡ written_of a }
{
    match kind_at(a) {
        Kind::Register => lent::peek(&WRITTEN, a as usize),
        Kind::Data | Kind::Display | Kind::Scan | Kind::Sound => 15,
        Kind::Unmapped => 0,
    }
}

// Whether an address is of data, display or scan.
#[tactic(auto, unfolding(crate::specs::Map::askable_of, crate::specs::Map::askable_in))]
pub fn askable(a: u16) -> bool
    ensures { result ≡ askable_of a }
{
    matches!(kind_at(a), Kind::Data | Kind::Display | Kind::Scan)
}

// Whether an address is of the display.
#[tactic(auto, unfolding(crate::specs::Map::display_of, crate::specs::Map::display_in))]
pub fn display(a: u16) -> bool
    ensures { result ≡ display_of a }
{
    matches!(kind_at(a), Kind::Display)
}
