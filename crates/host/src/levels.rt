// level, for C.
ghost use Rattle.std.specs.Prelude.{◌≡◌};
ghost use Rattle.refusal.specs.Told.{said};
ghost use Rattle.level.specs.Level.{levels, levelled_told};
ghost use Rattle.host.specs.Level.{host_level_of};

use crate::told;
use refusal::Refusal;

fn tell(a: Result<i32, Refusal>, level: &mut i32, value: &mut u64) -> u32
    ensures { levels (said result value.new) level.new ≡ levelled_told a level.old }
{
    match a {
        Ok(v) => {
            *level = v;
            told::done(value)
        }
        Err(why) => told::refused(why, value),
    }
}

// The level that the memory's two digits show, around the ground stop.
#[tactic(auto, unfolding(crate::specs::Level::host_level_of))]
pub fn galhoveia_level(memory: &[u8], body: &[u8], level: &mut i32, value: &mut u64) -> u32
    ensures { levels (said result value.new) level.new ≡ host_level_of memory.now body.now level.old }
{
    tell(level::level(memory, body), level, value)
}
