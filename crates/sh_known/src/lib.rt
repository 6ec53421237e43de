// Which bytes are events.
#![tactic(auto)]

ghost use Rattle.std.specs.Prelude.{◌≡◌};
ghost use Rattle.sh_known.specs.Known.{known_of};

// Whether a byte is an event: by `||`, since as one match of all spans a script is judged a byte at a time, and so many at a time.
#[tactic(auto, unfolding(crate::specs::Known::known_of))]
pub fn known(e: u8) -> bool
    ensures { result ≡ known_of e }
{
    e < 0x04 || e == 0x05 || matches!(e, 0x10..=0x4F)
}
