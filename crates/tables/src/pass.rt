// What a pass over a program is lent so that no word costs a test: where each word's slots begin, and where its address is noted.
// A cell's slot is its address and 128, and behind the last slot lies one that is never read.
ghost use Rattle.std.specs.Prelude.{◌≡◌, ◌<◌, ◌≤◌, length};
ghost use Rattle.tables.specs.Pass.{base_of, place_of, Ruled, Noted};

// Where the slots of a word's upper nine bits begin.
#[tactic(auto, unfolding(crate::specs::Pass::base_of))]
fn base(i: u16) -> u16
    requires { i < 512 }
    ensures { result ≡ base_of i }
{
    if writers::changes(i * 128) {
        return writers::named(i * 128) + 128;
    }
    0
}

pub fn bases() -> [u16; 512]
    ensures { Ruled base_of 512 result }
{
    let mut b = [0u16; 512];
    for i in 0..512u16 {
        b[i as usize] = base(i);
    }
    b
}

// Slots from one up to another are where their own addresses are noted.
fn note(places: &mut [u16], from: usize, to: usize)
    requires { (from ≤ to) × (to ≤ length places.old) × (to ≤ 1152) }
    ensures { Noted from to places.old places.new }
{
    for i in from..to {
        places[i] = i as u16;
    }
}

// Where an address is noted that has a slot: $00F's, and those of data, display and scan.
pub fn places() -> [u16; 1152]
    ensures { Ruled place_of 1152 result }
{
    let mut b = [1152u16; 1152];
    note(&mut b, 0x08F, 0x090);
    note(&mut b, 0x0A0, 0x1F0);
    note(&mut b, 0x380, 0x3C9);
    note(&mut b, 0x3D8, 0x3EE);
    b
}
