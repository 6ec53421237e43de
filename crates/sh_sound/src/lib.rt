// One sound clock of the machine: both tone channels, by the registers as they stand.
#![tactic(auto)]

ghost use Rattle.std.specs.Prelude.{◌≡◌};
ghost use Rattle.sh_sound.specs.Sound.{channels_of, sound_of};

use sh_map::map;
use sh_state::machine::Machine;
use sh_tones::Channels;

#[tactic(auto, unfolding(crate::specs::Sound::channels_of))]
fn channels(c: Channels, memory: &[u8]) -> Channels
    ensures { result ≡ channels_of c memory.now }
{
    let modes = map::cell(memory, 0x370);
    let enables = map::cell(memory, 0x377);
    let low1 = map::cell(memory, 0x371);
    let high1 = map::cell(memory, 0x372);
    let low2 = map::cell(memory, 0x375);
    let high2 = map::cell(memory, 0x376);
    Channels {
        first: sh_tones::channel1(c.first, enables, low1, high1),
        second: sh_tones::channel2(c.second, modes, enables, low2, high2),
    }
}

// One sound clock; in STOP there is none.
#[tactic(auto, unfolding(crate::specs::Sound::sound_of, sh_state::specs::Record::set_channels))]
pub fn sound(mut m: Machine, memory: &[u8]) -> Machine
    ensures { result ≡ sound_of m memory.now }
{
    if m.mode != 2 {
        m.channels = channels(m.channels, memory);
    }
    m
}
